//! What happens to a task's share of a store.

ghost use Rattle.std.specs.Prelude.{◌≡◌, ◌<◌, ◌≤◌, ◌+◌, drop, length, OnOk};
ghost use Rattle.nona_store.specs.Shares.{shared};
ghost use Rattle.nona_tree.specs.Memory.{Memory, cut_to, declare};
ghost use Rattle.net_share.specs.May.{MayRunFirst};
ghost use Rattle.net_share.specs.Works.{run_first};

use nona_code::{Frame, UnitEnd};
use nona_store::{Share, ShareBank, Store};
use nona_units::Units;
use std::alloc::AllocError;

/// Runs the unit with this number on a task's share of a store. The unit may run: so the one error is that memory ran out, and the
/// share is then as its middle left it. It declares one scalar at most. The room of the share stays as it is.
#[tactic(auto, using(crate::proofs::UnitRuns::same_base, crate::proofs::UnitRuns::same_reserved, crate::proofs::UnitRuns::same_loan))]
pub fn run_on(
    units: &Units,
    at: usize,
    turns: u64,
    frame: &mut Frame,
    store: &Store,
    share: &mut Share,
) -> Result<(), AllocError>
    requires there { at < length units.now.body }
    requires room { units.now.room ≤ frame.old.room }
    requires may { MayRunFirst (drop at units.now.body) turns (shared store.now share.old) }
    ensures run { OnOk result (shared store.now share.new ≡ (run_first (drop at units.now.body) turns (shared store.now share.old)).store) }
    ensures few { OnOk result (length share.new.scalars ≤ length share.old.scalars + 1) }
    ensures room { frame.new.room ≡ frame.old.room }
    ensures reserved { share.new.room ≡ share.old.room }
{
    let mut bank = ShareBank { store, share };
    let end = frame.unit(units.code(at), &mut bank, turns);
    match end {
        UnitEnd::Done => Ok(()),
        UnitEnd::Trap { kind: _, at: _ } | UnitEnd::OutOfTurns { at: _ } => unreachable!(),
        UnitEnd::NoMemory => Err(AllocError),
    }
}

/// Declares a scalar in a task's share of a store, which has room for it. Takes no memory.
pub fn declare_on(value: i64, share: &mut Share)
    requires { length share.old.scalars < share.old.room }
    ensures store { (m : Memory) → shared m share.new ≡ declare value (shared m share.old) }
    ensures more { length share.new.scalars ≡ length share.old.scalars + 1 }
    ensures reserved { share.new.room ≡ share.old.room }
{
    share.declare(value);
}

/// The scalars of a task's share behind the first `depth` go. Takes constant time.
pub fn leave_on(depth: usize, share: &mut Share)
    ensures store { (m : Memory) → shared m share.new ≡ cut_to depth (shared m share.old) }
    ensures reserved { share.new.room ≡ share.old.room }
{
    let behind = share.scalars().len().saturating_sub(depth);
    share.cut_scalars(behind);
}
