//! The tasks before their first steps.

ghost use Rattle.std.specs.Prelude.{◌≡◌, ◌<◌, ◌≤◌, ◌+◌, length, map, slice_set, vec_capacity, All, IfOk};
ghost use Rattle.nona_num.specs.Folds.{unit_of};
ghost use Rattle.net_flow.specs.Begun.{first_of, workers_of};
ghost use Rattle.nona_fission.specs.Sharing.{with_units};
ghost use Rattle.net_share.specs.Begins.{AreThere};
ghost use Rattle.net_share.specs.Tasks.{HasRoom, TaskView, task_over};

use crate::task::Task;
use nona_num::Fold;
use nona_store::Store;
use nona_units::Units;
use std::alloc::{AllocError, Global};

/// Gives the scalar of a reduction, which is there, its fold's unit.
fn begin_with_unit(scalars: &mut Vec<i64>, id: u32, fold: Fold)
    requires { id < length scalars.old.items }
    ensures scalars { scalars.new.items ≡ slice_set scalars.old.items id (unit_of fold) }
    ensures room { vec_capacity scalars.new ≡ vec_capacity scalars.old }
{
    scalars[id as usize] = fold.unit();
}

/// How many scalars a task may have, where so many are around a loop of these units: those, the index of an iteration, and one for each
/// unit. It is refused where no memory has so many.
pub fn room_for(depth: usize, units: &Units) -> Result<usize, AllocError>
    ensures { IfOk result (λ room. room ≡ depth + 1 + length units.now.body) }
{
    let behind = units.count();
    match depth.checked_add(1) {
        Some(index) => match index.checked_add(behind) {
            Some(room) => Ok(room),
            None => Err(AllocError),
        },
        None => Err(AllocError),
    }
}

/// The scalars with which a task begins: those of the store, but each reduction's with its fold's unit. There is room for `room` of
/// them. The scalar of each reduction is there. The one error is that memory ran out.
pub fn first_scalars(
    alloc: Global,
    room: usize,
    store: &Store,
    reductions: &[(u32, Fold)],
) -> Result<Vec<i64>, AllocError>
    requires { AreThere reductions.now store.now.scalars }
    ensures scalars { IfOk result (λ scalars. scalars.items ≡ (with_units reductions.now store.now).scalars) }
    ensures room { IfOk result (λ scalars. room ≤ vec_capacity scalars) }
{
    let mut scalars = Vec::from_slice(alloc, store.scalars())?;
    scalars.reserve_exact(room.saturating_sub(scalars.len()))?;
    for (id, fold) in reductions {
        begin_with_unit(&mut scalars, *id, *fold);
    }
    Ok(scalars)
}

/// One task before its first step.
fn first_task(
    alloc: Global,
    number: usize,
    units: &Units,
    store: &Store,
    reductions: &[(u32, Fold)],
) -> Result<Task, AllocError>
    requires { AreThere reductions.now store.now.scalars }
    ensures task { IfOk result (λ task. task_over store.now task ≡ first_of (λ s w. with_units reductions.now store.now) 0 number) }
    ensures room { IfOk result (λ task. units.now.room ≤ task.room) }
    ensures reserved { IfOk result (λ task. HasRoom (length store.now.scalars) units.now task.share) }
{
    let room = room_for(store.depth(), units)?;
    let scalars = first_scalars(alloc, room, store, reductions)?;
    let task = Task::begin(alloc, number, units, scalars)?;
    Ok(task)
}

/// So many tasks before their first steps, with a frame each.
#[tactic(auto, using(crate::proofs::Beginning::one_more))]
pub(crate) fn first_tasks(
    alloc: Global,
    workers: usize,
    units: &Units,
    store: &Store,
    reductions: &[(u32, Fold)],
) -> Result<Vec<Task>, AllocError>
    requires { AreThere reductions.now store.now.scalars }
    ensures tasks { IfOk result (λ tasks. map (task_over store.now) tasks.items ≡ workers_of (λ s w. with_units reductions.now store.now) 0 workers) }
    ensures room { IfOk result (λ tasks. All (λ (x : TaskView). units.now.room ≤ x.room) tasks.items) }
    ensures reserved { IfOk result (λ tasks. All (λ (x : TaskView). HasRoom (length store.now.scalars) units.now x.share) tasks.items) }
{
    let mut tasks = Vec::new(alloc);
    'tasks: for number in 0..workers {
        tasks.push(first_task(alloc, number, units, store, reductions)?)?;
    }
    Ok(tasks)
}
