//! One instruction at a time.

ghost use Rattle.std.specs.Prelude.{◌≡◌, ◌<◌, ◌≤◌, ◌+◌, ◌-◌, ◌^◌, length};
ghost use Rattle.std.specs.List.{AllByRecursion};
ghost use Rattle.nona_store.specs.Banks.{Allows};
ghost use Rattle.nona_code.specs.Machine.{act_deeds, open_at};
ghost use Rattle.nona_code.specs.Rule.{takes, puts};
ghost use Rattle.nona_code.specs.Ready.{IsReady, IsStep, HasPlace, EndKeeps, does, state_of};

use crate::answers::from_bool;
use crate::finding::{Found, find};
use crate::instr::Instr;
use crate::registers::Registers;
use nona_store::Bank;
use nona_tree::Outcome;

/// What comes of one instruction: the next one, or how the code stops.
#[derive(Clone, Copy, Debug, PartialEq, Eq)]
pub enum Step {
    On(usize),
    Ended(Outcome),
    Region { number: u32, low: i64, high: i64 },
    NoMemory,
}

/// Does the instruction at `pc`, which has what it needs: room on the stack only where it puts more than it takes.
pub fn do_instr<B: Bank>(
    registers: &mut Registers,
    instr: &Instr,
    code: &[Instr],
    pc: usize,
    bank: &mut B,
    turns: u64,
) -> Step
    requires here { pc ≤ length code.now }
    requires small { length code.now < 2 ^ 31 }
    requires ready { IsReady instr.now (open_at code.now pc) (state_of registers.old pc (B.state bank.old)) }
    requires room { length registers.old.stack.items - takes instr.now + puts instr.now ≤ registers.old.stack.room }
    requires scalars { HasPlace instr.now (B.limits bank.old).room (length (B.state bank.old).scalars) }
    requires allowed { AllByRecursion (Allows (B.limits bank.old)) (act_deeds instr.now (state_of registers.old pc (B.state bank.old))) }
    ensures acts { IsStep (does code.now turns pc instr.now registers.old (B.state bank.old))
        result pc registers.new (B.state bank.new) (B.limits bank.old).firm }
    ensures ends { EndKeeps result registers.old registers.new }
    ensures limits { B.limits bank.new ≡ B.limits bank.old }
    ensures room { registers.new.stack.room ≡ registers.old.stack.room }
{
    match find(registers, instr, code, pc, bank, turns) {
        Found::Put(value) => {
            registers.stack.push(value);
            Step::On(pc + 1)
        }
        Found::Number(value) => {
            registers.stack.push(value);
            Step::On(pc + 1)
        }
        Found::Test(holds) => {
            registers.stack.push(from_bool(holds));
            Step::On(pc + 1)
        }
        Found::Next => Step::On(pc + 1),
        Found::To(target) => Step::On(target),
        Found::Ended(end) => Step::Ended(end),
        Found::Region { number, low, high } => Step::Region { number, low, high },
        Found::NoMemory => Step::NoMemory,
    }
}
