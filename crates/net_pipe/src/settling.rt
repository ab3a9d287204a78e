//! The store behind the iterations of a pipeline's tasks that have finished.

ghost use Rattle.std.specs.Prelude.{◌≡◌, ◌<◌, ◌≤◌, ◌++◌, length, IfOk, OnOk};
ghost use Rattle.nona_tree.specs.Memory.{assign, scalar_at};
ghost use Rattle.net_share.specs.Begins.{AreApart, AreThere};
ghost use Rattle.net_share.specs.Gathered.{AreLeft, joined_with, views_of, with_joined, with_written};
ghost use Rattle.net_share.specs.Settled.{settled_cell};
ghost use Rattle.net_pipe.specs.Settled.{IsSettledFromStages};
ghost use Rattle.net_pipe.specs.Gathered.{all_printed, brought_together, is_reduced, scalars_settled, values_of, with_scalar};
ghost use Rattle.net_pipe.specs.Tasks.{share_of};

use crate::task::Task;
use nona_num::Fold;
use nona_store::{Bank, Store};
use std::alloc::AllocError;

/// Forgets what tasks have written and the store has already. Nothing else of them changes.
#[tactic(auto, using(net_share::proofs::Gathering::left_on, net_share::proofs::Gathering::all_left))]
fn keep_changes(store: &Store, tasks: &mut Vec<Task>)
    ensures { AreLeft share_of store.now tasks.old.items tasks.new.items }
{
    'tasks: for number in 0..tasks.len() {
        tasks[number].keep_changes(store);
    }
}

/// Writes into a store what each of these tasks has written, one task after another.
fn apply_all(store: &mut Store, tasks: &[Task])
    ensures { store.new ≡ with_written share_of tasks.now store.old }
{
    'tasks: for task in tasks {
        store.apply(task.share().overlay());
    }
}

/// A number joined with the values that tasks have of the scalar with this id.
fn joined(id: u32, fold: Fold, value: i64, tasks: &[Task]) -> i64
    ensures { result ≡ joined_with share_of id fold value tasks.now }
{
    let mut joined = value;
    'tasks: for task in tasks {
        joined = fold.join(joined, task.scalar(id as usize));
    }
    joined
}

/// Joins a reduction, whose scalar is there, with the values that tasks have of it.
fn join_reduction(store: &mut Store, id: u32, fold: Fold, tasks: &[Task])
    requires { id < length store.old.scalars }
    ensures { store.new ≡ assign id (joined_with share_of id fold (scalar_at store.old id) tasks.now) store.old }
{
    let joined = joined(id, fold, store.scalar(id), tasks);
    store.set_scalar(id, joined);
}

/// Joins each reduction, whose scalars are there, with the values that tasks have of it.
fn join_reductions(store: &mut Store, reductions: &[(u32, Fold)], tasks: &[Task])
    requires { AreThere reductions.now store.old.scalars }
    ensures { store.new ≡ with_joined share_of reductions.now tasks.now store.old }
{
    'reductions: for (id, fold) in reductions {
        join_reduction(store, *id, *fold, tasks);
    }
}

/// The last value of the scalar with this id that a task has and that isn't what it was, or what it was.
fn changed(id: usize, was: i64, tasks: &[Task]) -> i64
    ensures { result ≡ settled_cell was was (values_of id tasks.now) }
{
    let mut last = was;
    'tasks: for task in tasks {
        let own = task.scalar(id);
        if own != was {
            last = own;
        }
    }
    last
}

/// Whether the scalar with this id is one of these reductions.
fn is_reduction(id: usize, reductions: &[(u32, Fold)]) -> bool
    ensures { result ≡ is_reduced id reductions.now }
{
    reductions.iter().any(|r| r.0 as usize == id)
}

/// Gives a scalar, which is there, the last value that a task changed it to, unless it is a reduction.
fn settle_scalar(store: &mut Store, id: usize, reductions: &[(u32, Fold)], tasks: &[Task])
    requires { id < length store.old.scalars }
    ensures { store.new ≡ with_scalar reductions.now tasks.now id store.old }
{
    if !is_reduction(id, reductions) {
        let now = changed(id, store.scalars()[id], tasks);
        store.set_scalar_at(id, now);
    }
}

/// Gives each scalar but the reductions the last value that a task changed it to.
fn settle_scalars(store: &mut Store, reductions: &[(u32, Fold)], tasks: &[Task])
    ensures { store.new ≡ scalars_settled reductions.now tasks.now store.old }
{
    'scalars: for id in 0..store.depth() {
        settle_scalar(store, id, reductions, tasks);
    }
}

/// Prints numbers behind those of a store.
fn print_all(store: &mut Store, numbers: &[i64]) -> Result<(), AllocError>
    ensures { OnOk result (store.new ≡ record store.old { printed = store.old.printed ++ numbers.now }) }
{
    'numbers: for number in numbers {
        store.print(*number)?;
    }
    Ok(())
}

/// Prints behind the numbers of a store what tasks have printed, one task after another.
fn print_tasks(store: &mut Store, tasks: &[Task]) -> Result<(), AllocError>
    ensures { OnOk result (store.new ≡ record store.old { printed = store.old.printed ++ all_printed tasks.now }) }
{
    'tasks: for task in tasks {
        print_all(store, task.share().printed())?;
    }
    Ok(())
}

/// Makes of a store what tasks leave together that have only what isn't in it already.
fn bring_together(
    store: &mut Store,
    tasks: &[Task],
    reductions: &[(u32, Fold)],
) -> Result<(), AllocError>
    requires { AreThere reductions.now (with_written share_of tasks.now (scalars_settled reductions.now tasks.now store.old)).scalars }
    ensures { OnOk result (store.new ≡ brought_together reductions.now tasks.now store.old) }
{
    settle_scalars(store, reductions, tasks);
    apply_all(store, tasks);
    join_reductions(store, reductions, tasks);
    print_tasks(store, tasks)?;
    Ok(())
}

/// The store with each cell and scalar that tasks have changed, each reduction joined, and what they have printed. Takes memory for the
/// printed numbers alone, and a time in proportion to these, to the pages in which tasks have written, to the values in them, and to
/// the scalars of each task.
pub(crate) fn settled(
    store: Store,
    tasks: Vec<Task>,
    reductions: &[(u32, Fold)],
) -> Result<Store, AllocError>
    requires there { AreThere reductions.now store.scalars }
    requires apart { AreApart reductions.now }
    ensures { IfOk result (IsSettledFromStages store reductions.now (views_of share_of store tasks.items)) }
{
    let mut store = store;
    let mut tasks = tasks;
    keep_changes(&store, &mut tasks);
    bring_together(&mut store, tasks.as_slice(), reductions)?;
    Ok(store)
}
