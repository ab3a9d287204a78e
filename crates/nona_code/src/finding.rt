//! What one instruction finds, before its number is put on the stack and the code goes on.

ghost use Rattle.std.specs.Prelude.{◌≡◌, ◌<◌, ◌≤◌, ◌+◌, ◌-◌, ◌^◌, ℕ, length, true, false, OnOk, OnErr};
ghost use Rattle.std.specs.List.{AllByRecursion};
ghost use Rattle.nona_tree.specs.Memory.{cells_of};
ghost use Rattle.nona_tree.specs.declared.outcomes.Outcome.TheVariants.{Trap as OutcomeTrap, OutOfTurns};
ghost use Rattle.nona_store.specs.Banks.{Allows};
ghost use Rattle.nona_code.specs.declared.finding.Found.TheVariants.{Ended};
ghost use Rattle.nona_code.specs.Machine.{goes, act_deeds, open_at, leave, save};
ghost use Rattle.nona_code.specs.Rule.{takes, puts};
ghost use Rattle.nona_code.specs.Ready.{IsReady, IsThereIn, HasPlace, does, joined_cell, joined_scalar, state_of};
ghost use Rattle.nona_code.specs.Found.{IsFound, HasRoomFor, StopKeeps};

use crate::answers::{Worked, is_no, locate, operate};
use crate::instr::Instr;
use crate::limits::FIRST_HIDDEN;
use crate::opens::count_open;
use crate::registers::Registers;
use nona_num::{Fold, neg};
use nona_store::Bank;
use nona_tree::{Outcome, Trap};
use std::alloc::AllocError;

/// What an instruction finds: a number for the stack, the instruction that is next, or how the code stops.
///
/// Three kinds put a number: what an instruction loads or makes of one number, what an operator computes, and whether a
/// comparison holds. They are apart so that the compiled loop jumps on behind each kind by a jump of its own.
#[derive(Clone, Copy, Debug, PartialEq, Eq)]
pub enum Found {
    Put(i64),
    Number(i64),
    Test(bool),
    /// The code goes on behind the instruction.
    Next,
    /// The code goes on at this instruction.
    To(usize),
    Ended(Outcome),
    Region { number: u32, low: i64, high: i64 },
    NoMemory,
}

/// What the instruction at `pc` finds, which has what it needs. It takes its numbers from the stack and does its deeds; the
/// number that it gives is yet to be put.
pub fn find<B: Bank>(
    registers: &mut Registers,
    instr: &Instr,
    code: &[Instr],
    pc: usize,
    bank: &mut B,
    turns: u64,
) -> Found
    requires here { pc ≤ length code.now }
    requires small { length code.now < 2 ^ 31 }
    requires ready { IsReady instr.now (open_at code.now pc) (state_of registers.old pc (B.state bank.old)) }
    requires room { length registers.old.stack.items - takes instr.now + puts instr.now ≤ registers.old.stack.room }
    requires scalars { HasPlace instr.now (B.limits bank.old).room (length (B.state bank.old).scalars) }
    requires allowed { AllByRecursion (Allows (B.limits bank.old)) (act_deeds instr.now (state_of registers.old pc (B.state bank.old))) }
    ensures finds { IsFound (does code.now turns pc instr.now registers.old (B.state bank.old))
        result pc registers.new (B.state bank.new) (B.limits bank.old).firm }
    ensures fits { HasRoomFor result registers.new.stack }
    ensures stops { StopKeeps result registers.old registers.new }
    ensures limits { B.limits bank.new ≡ B.limits bank.old }
    ensures room { registers.new.stack.room ≡ registers.old.stack.room }
{
    match *instr {
        Instr::Push(value) => Found::Put(value),
        Instr::Load(id) => {
            if id < FIRST_HIDDEN {
                Found::Put(bank.scalar(id))
            } else {
                Found::Number(registers.hidden[(id - FIRST_HIDDEN) as usize])
            }
        }
        Instr::Len(array) => Found::Put(bank.length(array) as i64),
        Instr::Save(id) => {
            let value = registers.stack.pop();
            save(registers, bank, id, value);
            Found::Next
        }
        Instr::Drop => {
            registers.stack.pop();
            Found::Next
        }
        Instr::Print => {
            let value = registers.stack.pop();
            match bank.print(value) {
                Ok(()) => Found::Next,
                Err(_) => Found::NoMemory,
            }
        }
        Instr::Declare => {
            let value = registers.stack.pop();
            match bank.push_scalar(value) {
                Ok(()) => Found::Next,
                Err(_) => Found::NoMemory,
            }
        }
        Instr::Leave(count) => {
            bank.cut_scalars(count as usize);
            Found::Next
        }
        Instr::Bound(array, wrap, at) => {
            let index = registers.stack.pop();
            match locate(wrap, at, bank.length(array), index) {
                Ok(place) => Found::Put(place as i64),
                Err(trap) => trapped(code, pc, bank, trap),
            }
        }
        Instr::Get(array) => {
            let place = registers.stack.pop();
            Found::Put(bank.load(array, place as usize))
        }
        Instr::Put(array) => {
            let value = registers.stack.pop();
            let place = registers.stack.pop();
            match bank.save(array, place as usize, value) {
                Ok(()) => Found::Next,
                Err(_) => Found::NoMemory,
            }
        }
        Instr::FoldPut(array, fold) => {
            let value = registers.stack.pop();
            let place = registers.stack.pop();
            match fold_cell(bank, array, place as usize, fold, value) {
                Ok(()) => Found::Next,
                Err(_) => Found::NoMemory,
            }
        }
        Instr::FoldSave(id, fold) => {
            let value = registers.stack.pop();
            fold_scalar(bank, id, fold, value);
            Found::Next
        }
        Instr::Neg => Found::Put(neg(registers.stack.pop())),
        Instr::Not => Found::Test(is_no(registers.stack.pop())),
        Instr::Binary(op, at) => {
            let right = registers.stack.pop();
            let left = registers.stack.pop();
            match operate(op, at, left, right) {
                Worked::Number(value) => Found::Number(value),
                Worked::Test(holds) => Found::Test(holds),
                Worked::Fault(trap) => trapped(code, pc, bank, trap),
            }
        }
        Instr::Jump(target) => Found::To(target as usize),
        Instr::Zero(target) => {
            if is_no(registers.stack.pop()) {
                Found::To(target as usize)
            } else {
                Found::Next
            }
        }
        Instr::Enter(counter) => {
            registers.counters[counter as usize] = 0;
            Found::Next
        }
        Instr::Turn(counter, at) => {
            let taken = registers.counters[counter as usize];
            if taken < turns {
                registers.counters[counter as usize] = taken + 1;
                Found::Next
            } else {
                starved(code, pc, bank, at)
            }
        }
        Instr::Region(number) => {
            let high = registers.stack.pop();
            let low = registers.stack.pop();
            Found::Region { number, low, high }
        }
        Instr::Stop => Found::Ended(Outcome::Done),
    }
}

/// Gives the scalar with this id, visible or hidden, a value.
fn save<B: Bank>(registers: &mut Registers, bank: &mut B, id: u32, value: i64)
    requires { IsThereIn id (length (B.state bank.old).scalars) (length registers.old.hidden.items) }
    ensures saves { (pc : ℕ) → save id value (state_of registers.old pc (B.state bank.old))
        ≡ goes (state_of registers.new (pc + 1) (B.state bank.new)) }
    ensures counters { registers.new.counters.items ≡ registers.old.counters.items }
    ensures limits { B.limits bank.new ≡ B.limits bank.old }
    ensures room { registers.new.stack.room ≡ registers.old.stack.room }
{
    if id < FIRST_HIDDEN {
        bank.set_scalar(id, value);
    } else {
        registers.hidden[(id - FIRST_HIDDEN) as usize] = value;
    }
}

/// Joins a value into the scalar with this id.
fn fold_scalar<B: Bank>(bank: &mut B, id: u32, fold: Fold, value: i64)
    requires { id < length (B.state bank.old).scalars }
    ensures state { B.state bank.new ≡ joined_scalar id fold value (B.state bank.old) }
    ensures limits { B.limits bank.new ≡ B.limits bank.old }
{
    let old = bank.scalar(id);
    bank.set_scalar(id, fold.join(old, value));
}

/// Joins a value into a cell.
fn fold_cell<B: Bank>(
    bank: &mut B,
    array: u32,
    place: usize,
    fold: Fold,
    value: i64,
) -> Result<(), AllocError>
    requires cell { place < length (cells_of (B.state bank.old) array) }
    requires loads { (B.limits bank.old).loads array place ≡ true }
    requires saves { (B.limits bank.old).saves array place ≡ true }
    ensures state { OnOk result (B.state bank.new ≡ joined_cell array place fold value (B.state bank.old)) }
    ensures firm { OnErr result ((B.limits bank.old).firm ≡ false) }
    ensures limits { B.limits bank.new ≡ B.limits bank.old }
{
    let old = bank.load(array, place);
    bank.save(array, place, fold.join(old, value))
}

/// Leaves the blocks around an instruction that trapped.
fn trapped<B: Bank>(code: &[Instr], pc: usize, bank: &mut B, trap: Trap) -> Found
    requires small { length code.now < 2 ^ 31 }
    requires here { pc ≤ length code.now }
    requires leaves { open_at code.now pc ≤ length (B.state bank.old).scalars }
    ensures end { result ≡ Ended (OutcomeTrap trap) }
    ensures state { B.state bank.new ≡ leave (open_at code.now pc) (B.state bank.old) }
    ensures limits { B.limits bank.new ≡ B.limits bank.old }
{
    bank.cut_scalars(count_open(code, pc));
    Found::Ended(Outcome::Trap(trap))
}

/// Leaves the blocks around an instruction that is out of turns.
fn starved<B: Bank>(code: &[Instr], pc: usize, bank: &mut B, at: u32) -> Found
    requires small { length code.now < 2 ^ 31 }
    requires here { pc ≤ length code.now }
    requires leaves { open_at code.now pc ≤ length (B.state bank.old).scalars }
    ensures end { result ≡ Ended (OutOfTurns at) }
    ensures state { B.state bank.new ≡ leave (open_at code.now pc) (B.state bank.old) }
    ensures limits { B.limits bank.new ≡ B.limits bank.old }
{
    bank.cut_scalars(count_open(code, pc));
    Found::Ended(Outcome::OutOfTurns { at })
}
