//! A writer of the machine, as a sink.
ghost use Rattle.std.specs.Prelude.{◌≡◌, ◌<◌, IfOk};
ghost use Rattle.std.specs.Io.{WritesAtMost};
ghost use Rattle.std.specs.Io.KnownBytes.{WriteAppends};
ghost use Rattle.fate_io.specs.Putting.{Puts, OutView};

use crate::sinks::{Failed, Sink};
use std::io::{ErrorKind, Write};
use std::marker::Model;

/// A writer whose failures are counted. It keeps nothing back: each put goes out as it comes.
#[derive(Drop)]
pub struct OutSink<W: Write + Drop> {
    out: W,
    faults: u64,
}

impl<W: Write + Drop> Model for OutSink<W> {
    ghost Value = { OutView };

    ghost view = { λ s. record { written = W.contents s.out; faults = s.faults } };
}

impl<W: Write + Drop> OutSink<W> {
    /// A sink over a writer, of which no put has failed.
    pub fn new(out: W) -> OutSink<W>
        ensures { result ≡ record { written = W.contents out; faults = 0 } }
    {
        OutSink { out, faults: 0 }
    }
}

/// One write, which is tried again where it was interrupted.
fn write_once<W: Write>(out: &mut W, piece: &[u8]) -> Result<usize, Failed>
    ensures bound { WritesAtMost result piece.now }
    ensures bytes { WriteAppends (W.contents out.old) (W.contents out.new) result piece.now }
{
    for _ in 0..u64::MAX {
        match out.write(piece) {
            Ok(count) => return Ok(count),
            Err(error) => {
                if error.kind() != ErrorKind::Interrupted {
                    return Err(Failed);
                }
            }
        }
    }
    Err(Failed)
}

/// Writes some of a piece that isn't empty, at least one byte. A write that takes nothing is a
/// failure.
fn write_some<W: Write>(out: &mut W, piece: &[u8]) -> Result<usize, Failed>
    ensures some { IfOk result (λ count. 0 < count) }
    ensures bound { WritesAtMost result piece.now }
    ensures bytes { WriteAppends (W.contents out.old) (W.contents out.new) result piece.now }
{
    match write_once(out, piece) {
        Ok(0) => Err(Failed),
        Ok(count) => Ok(count),
        Err(failed) => Err(failed),
    }
}

/// Writes the whole piece, or after a failure a front of it. After each write less is left.
fn write_whole<W: Write>(out: &mut W, piece: &[u8]) -> Result<(), Failed>
    ensures { Puts (W.contents out.old) (W.contents out.new) piece.now result }
{
    let mut rest = piece;
    while !rest.is_empty() {
        match write_some(out, rest) {
            Ok(count) => {
                let (_, later) = rest.split_at(count);
                rest = later;
            }
            Err(failed) => return Err(failed),
        }
    }
    Ok(())
}

impl<W: Write + Drop> Sink for OutSink<W> {
    ghost written = { λ s. s.written };

    ghost faults = { λ s. s.faults };

    fn put(&mut self, bytes: &[u8]) -> Result<(), Failed> {
        if bytes.is_empty() {
            return Ok(());
        }
        match write_whole(&mut self.out, bytes) {
            Ok(()) => Ok(()),
            Err(failed) => {
                self.faults = self.faults.saturating_add(1);
                Err(failed)
            }
        }
    }
}
