ghost use Rattle.std.specs.Prelude.{◌≡◌, ◌≤◌, [], pos, length, drop, replicate, IfOk};
ghost use Rattle.nona_code.specs.Machine.{places};
ghost use Rattle.nona_code.specs.Rested.{IsRested, AreKept};

use crate::limits::PLACES;
use crate::stack::Stack;
use std::alloc::{AllocError, Global};

/// What code works on beside its bank: a stack of numbers, hidden scalars, and counters of turns.
#[derive(Drop)]
pub struct Registers {
    pub stack: Stack,
    pub hidden: Vec<i64>,
    pub counters: Vec<u64>,
}

impl Registers {
    /// An empty stack with this room, hidden scalars and counters that are 0.
    pub fn begin(alloc: Global, room: usize) -> Result<Registers, AllocError>
        ensures rested { IfOk result IsRested }
        ensures room { IfOk result (λ r. r.stack.room ≡ room) }
    {
        let stack = Stack::with_room(alloc, room)?;
        let hidden = vec![in alloc; 0i64; PLACES as usize]?;
        let counters = vec![in alloc; 0u64; PLACES as usize]?;
        Ok(Registers {
            stack,
            hidden,
            counters,
        })
    }

    /// No room, no hidden scalars and no counters. It takes no memory.
    pub fn none(alloc: Global) -> Registers {
        Registers {
            stack: Stack::none(alloc),
            hidden: Vec::new(alloc),
            counters: Vec::new(alloc),
        }
    }

    /// Empties the stack, and sets the first hidden scalars and counters to 0, where all others still are.
    pub fn rest(&mut self, hidden: usize, counters: usize)
        requires few_hidden { hidden ≤ places }
        requires few_counters { counters ≤ places }
        requires kept { AreKept hidden counters self.old }
        ensures rested { IsRested self.new }
        ensures room { self.new.stack.room ≡ self.old.stack.room }
    {
        self.stack.clear();
        rest_hidden(&mut self.hidden, hidden);
        rest_counters(&mut self.counters, counters);
    }
}

/// Sets the first hidden scalars to 0.
fn rest_hidden(hidden: &mut Vec<i64>, count: usize)
    requires few { count ≤ places }
    requires kept { drop count hidden.old.items ≡ drop count (replicate places (pos 0)) }
    requires all { length hidden.old.items ≡ places }
    ensures { hidden.new.items ≡ replicate places (pos 0) }
{
    for k in 0..count {
        hidden[k] = 0;
    }
}

/// Sets the first counters to 0.
fn rest_counters(counters: &mut Vec<u64>, count: usize)
    requires few { count ≤ places }
    requires kept { drop count counters.old.items ≡ drop count (replicate places 0) }
    requires all { length counters.old.items ≡ places }
    ensures { counters.new.items ≡ replicate places 0 }
{
    for k in 0..count {
        counters[k] = 0;
    }
}
