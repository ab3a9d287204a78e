//! Frames, which run code that stands for a statement.

ghost use Rattle.std.specs.Prelude.{◌≡◌, ◌≤◌, List, IfOk};
ghost use Rattle.std.specs.List.{AllByRecursion};
ghost use Rattle.nona_tree.specs.Deeds.{Deed};
ghost use Rattle.nona_store.specs.Banks.{Allows, all_allowed};
ghost use Rattle.nona_code.specs.Rested.{AreKept, IsRested};
ghost use Rattle.nona_code.specs.Units.{IsUnit, RunsAs};

use crate::registers::Registers;
use crate::run::{Stopped, run_from};
use crate::sound::Sound;
use nona_store::Bank;
use nona_tree::{Outcome, TrapKind};
use std::alloc::{AllocError, Global};
use std::marker::Model;

/// Says that a whole store allows every deed. It does nothing when called.
pub fn stores_allow_all()
    ensures { (ds : List Deed) → AllByRecursion (Allows all_allowed) ds }
{}

/// How a unit ended: its statement is done, trapped at a place or ran out of turns at a loop's place; or memory ran out.
#[derive(Clone, Copy, Debug, PartialEq, Eq)]
pub enum UnitEnd {
    Done,
    Trap { kind: TrapKind, at: u32 },
    OutOfTurns { at: u32 },
    NoMemory,
}

/// What code works on beside its bank: a stack with so much room, 256 hidden scalars and 256 counters of turns.
///
/// Contracts see its room alone. A frame runs one unit after another, of any code that has room on it.
#[derive(Drop)]
pub struct Frame {
    registers: Registers,
}

impl Model for Frame {
    ghost use Rattle.nona_code.specs.Rested.{FrameView, IsRested};

    ghost Value = { FrameView };

    ghost view = { λ f. record { room = f.registers.stack.room } };

    ghost invariant = { λ f. IsRested f.registers };
}

impl Frame {
    /// A frame with the room that this code takes at most. It is refused for want of memory alone.
    pub fn begin(alloc: Global, code: &Sound) -> Result<Frame, AllocError>
        ensures { IfOk result (λ frame. frame.room ≡ code.now.deepest) }
    {
        Frame::with_room(alloc, code.deepest())
    }

    /// A frame with room for so many numbers on its stack. It is refused for want of memory alone.
    pub fn with_room(alloc: Global, room: u32) -> Result<Frame, AllocError>
        ensures { IfOk result (λ frame. frame.room ≡ room) }
    {
        let registers = Registers::begin(alloc, room as usize)?;
        Ok(Frame { registers })
    }

    /// Does one unit: it changes the bank's store as the run of the statement does for which the code stands, with at most
    /// `turns` turns of each loop, and answers how that run ended.
    ///
    /// The frame has room for the code. The bank has the statement's scalars and arrays, numbers of 64 bits alone, room for
    /// the scalars that the code declares, and allows each load and save of a cell and each print of the run. Neither the
    /// bank's limits nor the frame's room change. It takes memory only through the bank: over a firm bank it never answers
    /// `NoMemory`. After `NoMemory` the bank is spent.
    ///
    /// Between its units a frame keeps nothing. An instruction takes constant time; where a trap or the end of turns leaves
    /// blocks, the code is read once more.
    pub fn unit<B: Bank>(&mut self, code: &Sound, bank: &mut B, turns: u64) -> UnitEnd
        requires room { code.now.deepest ≤ self.old.room }
        requires unit { IsUnit code.now (B.state bank.old) (B.limits bank.old) turns }
        ensures runs { RunsAs code.now turns (B.state bank.old) (B.state bank.new) result (B.limits bank.old) }
        ensures limits { B.limits bank.new ≡ B.limits bank.old }
        ensures room { self.new.room ≡ self.old.room }
    {
        run_unit(&mut self.registers, code, bank, turns)
    }
}

/// Runs the code of a unit on registers that rest.
fn run_code<B: Bank>(registers: &mut Registers, code: &Sound, bank: &mut B, turns: u64) -> UnitEnd
    requires rested { IsRested registers.old }
    requires room { code.now.deepest ≤ registers.old.stack.room }
    requires unit { IsUnit code.now (B.state bank.old) (B.limits bank.old) turns }
    ensures runs { RunsAs code.now turns (B.state bank.old) (B.state bank.new) result (B.limits bank.old) }
    ensures limits { B.limits bank.new ≡ B.limits bank.old }
    ensures room { registers.new.stack.room ≡ registers.old.stack.room }
    ensures kept { AreKept code.now.hidden code.now.counters registers.new }
{
    match run_from(registers, code.instrs(), 0, bank, turns) {
        Stopped::Ended(Outcome::Done) => UnitEnd::Done,
        Stopped::Ended(Outcome::Trap(trap)) => UnitEnd::Trap {
            kind: trap.kind,
            at: trap.at,
        },
        Stopped::Ended(Outcome::OutOfTurns { at }) => UnitEnd::OutOfTurns { at },
        Stopped::Region {
            number: _,
            low: _,
            high: _,
            next: _,
        } => unreachable!(),
        Stopped::NoMemory => UnitEnd::NoMemory,
    }
}

/// Does one unit on registers that rest, and lets them rest again.
fn run_unit<B: Bank>(registers: &mut Registers, code: &Sound, bank: &mut B, turns: u64) -> UnitEnd
    requires rested { IsRested registers.old }
    requires room { code.now.deepest ≤ registers.old.stack.room }
    requires unit { IsUnit code.now (B.state bank.old) (B.limits bank.old) turns }
    ensures runs { RunsAs code.now turns (B.state bank.old) (B.state bank.new) result (B.limits bank.old) }
    ensures limits { B.limits bank.new ≡ B.limits bank.old }
    ensures room { registers.new.stack.room ≡ registers.old.stack.room }
    ensures rested { IsRested registers.new }
{
    let end = run_code(registers, code, bank, turns);
    registers.rest(code.hidden() as usize, code.counters() as usize);
    end
}
