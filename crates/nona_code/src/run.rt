//! Instructions one after another.

ghost use Rattle.std.specs.Prelude.{◌≡◌, ◌<◌, ◌^◌, ℕ, length};
ghost use Rattle.std.specs.List.{AllByRecursion};
ghost use Rattle.nona_store.specs.Banks.{Allows};
ghost use Rattle.nona_code.specs.Rule.{IsSound, UsesBelow};
ghost use Rattle.nona_code.specs.Stops.{IsOver, HasStopped, IsOnWay, KeepsFrom, course};

use crate::instr::Instr;
use crate::registers::Registers;
use crate::step::{Step, do_instr};
use nona_store::Bank;
use nona_tree::Outcome;
use std::mem;

/// How code stopped.
#[derive(Clone, Copy, Debug, PartialEq, Eq)]
pub enum Stopped {
    Ended(Outcome),
    /// `next` is the instruction behind the region.
    Region {
        number: u32,
        low: i64,
        high: i64,
        next: usize,
    },
    NoMemory,
}

/// Does the instructions from the one at `pc` on until the code stops.
///
/// The registers are its own meanwhile, so that the compiled loop keeps the height of the stack out of memory.
pub fn run_from<B: Bank>(
    registers: &mut Registers,
    code: &[Instr],
    pc: usize,
    bank: &mut B,
    turns: u64,
) -> Stopped
    requires small { length code.now < 2 ^ 31 }
    requires sound { IsSound code.now }
    requires over { IsOver (course code.now turns registers.old pc (B.state bank.old)).end }
    requires follows { IsOnWay code.now (B.limits bank.old).room registers.old pc (B.state bank.old) }
    requires allowed { AllByRecursion (Allows (B.limits bank.old)) (course code.now turns registers.old pc (B.state bank.old)).did }
    ensures stops { HasStopped (course code.now turns registers.old pc (B.state bank.old)).end
        result registers.new (B.state bank.new) (B.limits bank.old).firm }
    ensures keeps { (hidden counters : ℕ) → UsesBelow hidden counters code.now → KeepsFrom hidden counters registers.old registers.new }
    ensures limits { B.limits bank.new ≡ B.limits bank.old }
    ensures room { registers.new.stack.room ≡ registers.old.stack.room }
{
    let none = Registers::none(*registers.hidden.allocator());
    let mut own = mem::replace(registers, none);
    let stopped = run_on(&mut own, code, pc, bank, turns);
    *registers = own;
    stopped
}

/// Does the instructions from the one at `pc` on until the code stops, on registers at hand.
fn run_on<B: Bank>(
    registers: &mut Registers,
    code: &[Instr],
    pc: usize,
    bank: &mut B,
    turns: u64,
) -> Stopped
    requires small { length code.now < 2 ^ 31 }
    requires sound { IsSound code.now }
    requires over { IsOver (course code.now turns registers.old pc (B.state bank.old)).end }
    requires follows { IsOnWay code.now (B.limits bank.old).room registers.old pc (B.state bank.old) }
    requires allowed { AllByRecursion (Allows (B.limits bank.old)) (course code.now turns registers.old pc (B.state bank.old)).did }
    ensures stops { HasStopped (course code.now turns registers.old pc (B.state bank.old)).end
        result registers.new (B.state bank.new) (B.limits bank.old).firm }
    ensures keeps { (hidden counters : ℕ) → UsesBelow hidden counters code.now → KeepsFrom hidden counters registers.old registers.new }
    ensures limits { B.limits bank.new ≡ B.limits bank.old }
    ensures room { registers.new.stack.room ≡ registers.old.stack.room }
{
    let mut pc = pc;
    'instrs: loop {
        match do_instr(registers, &code[pc], code, pc, bank, turns) {
            Step::On(next) => pc = next,
            Step::Ended(end) => return Stopped::Ended(end),
            Step::Region { number, low, high } => {
                return Stopped::Region {
                    number,
                    low,
                    high,
                    next: pc + 1,
                };
            }
            Step::NoMemory => return Stopped::NoMemory,
        }
    }
}
