//! A sink that keeps what it takes in memory.
ghost use Rattle.std.specs.Prelude.{◌≡◌, ◌≤◌, ◌++◌, ◌⊎◌, [], length, IsOk, IfOk, OnOk, OnErr, Some, vec_capacity, if◌then◌else◌, nat_eq};
ghost use Rattle.fate_io.specs.Causes.{HasCause, next_number};
ghost use Rattle.fate_io.specs.Putting.{Puts};
ghost use Rattle.fate_io.specs.Memory.{SinkView, Refuses, Accepts, kept_half};

use crate::sinks::{Failed, Sink};
use std::alloc::{AllocError, Global};
use std::marker::Model;

/// Bytes in memory, with a room that doesn't grow, and a list of the puts that fail.
#[derive(Drop)]
pub struct MemorySink {
    bytes: Vec<u8>,
    room: usize,
    failing: Vec<u64>,
    puts: u64,
    faults: u64,
}

impl Model for MemorySink {
    ghost Value = { SinkView };

    ghost view = { λ s. record {
      written = s.bytes.items;
      room = s.room;
      failing = s.failing.items;
      puts = s.puts;
      faults = s.faults;
    } };

    ghost invariant = { λ s. (length s.bytes.items ≤ s.room) × (s.room ≤ vec_capacity s.bytes) };
}

impl MemorySink {
    /// An empty sink with room for so many bytes. The puts whose numbers, from 1, are listed in
    /// `failing` fail. An error is that memory ran out.
    pub fn new(alloc: Global, room: usize, failing: Vec<u64>) -> Result<MemorySink, AllocError>
        ensures { IfOk result (λ sink. sink ≡ record { written = []; room = room; failing = failing.items; puts = 0; faults = 0 }) }
    {
        match Vec::with_capacity(alloc, room) {
            Ok(bytes) => Ok(MemorySink {
                bytes,
                room,
                failing,
                puts: 0,
                faults: 0,
            }),
            Err(_) => Err(AllocError),
        }
    }

    /// What was written.
    pub fn text(&self) -> &[u8]
        ensures { result.now ≡ self.now.written }
    {
        self.bytes.as_slice()
    }
}

impl Sink for MemorySink {
    ghost written = { λ s. Some s.written };

    ghost faults = { λ s. s.faults };

    /// Fails exactly where the number of this put is listed or the piece doesn't fit in the room,
    /// and adds the first half of the piece then, rounded down, or what fits where that is less.
    fn put(&mut self, bytes: &[u8]) -> Result<(), Failed>
        ensures cause { HasCause self.old.faults self.new.faults result }
        ensures bytes { Puts (Some self.old.written) (Some self.new.written) bytes.now result }
        ensures empty { length bytes.now ≡ 0 → IsOk result }
        ensures unchanged { length bytes.now ≡ 0 → self.new ≡ self.old }
        ensures number { self.new.puts ≡ (if nat_eq (length bytes.now) 0 then self.old.puts else next_number self.old.puts) }
        ensures fails { OnErr result (Refuses self.old bytes.now) }
        ensures takes { OnOk result ((length bytes.now ≡ 0) ⊎ Accepts self.old bytes.now) }
        ensures half { OnErr result (self.new.written ≡ self.old.written ++ kept_half self.old bytes.now) }
        ensures fault { OnErr result (self.new.faults ≡ next_number self.old.faults) }
        ensures failing { self.new.failing ≡ self.old.failing }
        ensures room { self.new.room ≡ self.old.room }
    {
        if bytes.is_empty() {
            return Ok(());
        }
        self.puts = self.puts.saturating_add(1);
        let number = self.puts;
        let left = self.room - self.bytes.len();
        if bytes.len() <= left && !self.failing.contains(&number) {
            self.bytes.extend_from_slice(bytes).unwrap();
            return Ok(());
        }
        let half = (bytes.len() / 2).min(left);
        self.bytes.extend_from_slice(&bytes[..half]).unwrap();
        self.faults = self.faults.saturating_add(1);
        Err(Failed)
    }
}
