//! The runs of compiled statements.

ghost use Rattle.std.specs.Prelude.{◌≡◌, ◌<◌, ◌≤◌, ◌+◌, drop, length, Bool, IfOk};
ghost use Rattle.nona_tree.specs.Memory.{Memory, cut_to};
ghost use Rattle.nona_tree.specs.Run.{Ran, run_all, turn, Reaches};
ghost use Rattle.nona_tree.specs.Scope.{AreScoped};
ghost use Rattle.nona_code.specs.Units.{HasEnded};
ghost use Rattle.nona_units.specs.Units.{IsFirstScoped, FirstReaches};

use crate::compiled::Units;
use nona_code::{Frame, UnitEnd, stores_allow_all};
use nona_store::Store;
use nona_tree::{Outcome, Trap};
use std::alloc::AllocError;

/// How a unit ended, as its statement does; or memory ran out.
fn outcome_of(end: UnitEnd) -> Result<Outcome, AllocError>
    ensures { (r : Ran) (m : Memory) (firm : Bool) → HasEnded r m end firm → IfOk result (Reaches r m) }
{
    match end {
        UnitEnd::Done => Ok(Outcome::Done),
        UnitEnd::Trap { kind, at } => Ok(Outcome::Trap(Trap { kind, at })),
        UnitEnd::OutOfTurns { at } => Ok(Outcome::OutOfTurns { at }),
        UnitEnd::NoMemory => Err(AllocError),
    }
}

/// Leaves a block that began with `depth` scalars: those behind the first `depth` go. Takes constant time.
pub fn leave(depth: usize, store: &mut Store)
    ensures { store.new ≡ cut_to depth store.old }
{
    let behind = store.depth().saturating_sub(depth);
    store.cut_scalars(behind);
}

/// Runs the statement with this number, from 0, by its code, and answers how it ends; a loop may take `turns` turns whenever it
/// is entered.
///
/// Each name in it has its scalar or its array in the store, and the frame has room for its code. The store is changed in
/// place. A scalar that it declares stays in the store; after an end other than `Done` the store is as the meaning leaves it,
/// without the scalars of the blocks that were left. An error comes where memory runs out: the run has then stopped in its
/// middle, and the store is spent, neither what it was nor what the run leaves. The frame's room stays as it is.
pub fn run_unit(
    units: &Units,
    at: usize,
    frame: &mut Frame,
    turns: u64,
    store: &mut Store,
) -> Result<Outcome, AllocError>
    requires there { at < length units.now.body }
    requires room { units.now.room ≤ frame.old.room }
    requires scoped { IsFirstScoped (drop at units.now.body) store.old }
    ensures run { IfOk result (FirstReaches (drop at units.now.body) turns store.old store.new) }
    ensures room { frame.new.room ≡ frame.old.room }
{
    store.is_kept();
    stores_allow_all();
    let end = frame.unit(units.code(at), store, turns);
    outcome_of(end)
}

/// Runs statements one after another by their code, and answers how they end: what `run_unit` says of names, turns, room, the
/// store and errors holds of all of them.
pub fn run_units(
    units: &Units,
    frame: &mut Frame,
    turns: u64,
    store: &mut Store,
) -> Result<Outcome, AllocError>
    requires room { units.now.room ≤ frame.old.room }
    requires scoped { AreScoped units.now.body (length store.old.scalars) (length store.old.arrays) }
    ensures run { IfOk result (Reaches (run_all units.now.body turns store.old) store.new) }
    ensures room { frame.new.room ≡ frame.old.room }
{
    'units: for at in 0..units.count() {
        match run_unit(units, at, frame, turns, store)? {
            Outcome::Done => {}
            end => return Ok(end),
        }
    }
    Ok(Outcome::Done)
}

/// Runs the statements as a loop's body for one value of its index, and answers how they end. The index and the scalars that
/// they declare are gone after it, however it ends; what `run_unit` says of names, turns, room, the store and errors holds here
/// too.
pub fn turn_units(
    units: &Units,
    index: i64,
    frame: &mut Frame,
    turns: u64,
    store: &mut Store,
) -> Result<Outcome, AllocError>
    requires room { units.now.room ≤ frame.old.room }
    requires scoped { AreScoped units.now.body (length store.old.scalars + 1) (length store.old.arrays) }
    ensures turn { IfOk result (Reaches (turn (run_all units.now.body turns) index store.old) store.new) }
    ensures room { frame.new.room ≡ frame.old.room }
{
    let depth = store.depth();
    store.push_scalar(index)?;
    let end = run_units(units, frame, turns, store)?;
    leave(depth, store);
    Ok(end)
}
