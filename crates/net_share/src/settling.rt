//! The store behind the iterations of tasks that have finished.

ghost use Rattle.std.specs.Prelude.{◌≡◌, ◌<◌, length};
ghost use Rattle.nona_tree.specs.Memory.{assign, scalar_at};
ghost use Rattle.net_share.specs.Begins.{AreThere};
ghost use Rattle.nona_store.specs.Overlays.{changes_on_page, written_off};
ghost use Rattle.net_share.specs.Gathered.{AreChanged, AreChangedBehind, AreGatheredAlike, AreLeftBehind, gathered, joined_with};
ghost use Rattle.net_share.specs.Gathered.{with_joined, with_page, with_written};
ghost use Rattle.net_share.specs.Tasks.{share_of};

use crate::task::Task;
use nona_num::Fold;
use nona_store::Store;

/// Forgets what tasks behind the first one have written and the store has already. Nothing else of them changes. What the
/// first one has written goes into the store before all else, so that it may stay.
#[tactic(auto, using(crate::proofs::Gathering::behind_begins, crate::proofs::Gathering::behind_on, crate::proofs::Gathering::all_behind))]
fn keep_changes(store: &Store, tasks: &mut Vec<Task>)
    ensures { AreLeftBehind share_of store.now tasks.old.items tasks.new.items }
{
    'tasks: for number in 1..tasks.len() {
        tasks[number].keep_changes(store);
    }
}

/// Writes into a store what each of these tasks has written, one task after another.
fn apply_all(store: &mut Store, tasks: &[Task])
    ensures { store.new ≡ with_written share_of tasks.now store.old }
{
    'tasks: for task in tasks {
        store.apply(task.overlay());
    }
}

/// A number joined with the values that tasks have of the scalar with this id.
fn joined(id: u32, fold: Fold, value: i64, tasks: &[Task]) -> i64
    ensures { result ≡ joined_with share_of id fold value tasks.now }
{
    let mut joined = value;
    'tasks: for task in tasks {
        joined = fold.join(joined, task.scalar(id));
    }
    joined
}

/// Joins a reduction, whose scalar is there, with the values that tasks have of it.
fn join_reduction(store: &mut Store, id: u32, fold: Fold, tasks: &[Task])
    requires { id < length store.old.scalars }
    ensures { store.new ≡ assign id (joined_with share_of id fold (scalar_at store.old id) tasks.now) store.old }
{
    let joined = joined(id, fold, store.scalar(id), tasks);
    store.set_scalar(id, joined);
}

/// Joins each reduction, whose scalars are there, with the values that tasks have of it.
fn join_reductions(store: &mut Store, reductions: &[(u32, Fold)], tasks: &[Task])
    requires { AreThere reductions.now store.old.scalars }
    ensures { store.new ≡ with_joined share_of reductions.now tasks.now store.old }
{
    'reductions: for (id, fold) in reductions {
        join_reduction(store, *id, *fold, tasks);
    }
}

/// The most pages that one of these tasks has for an array.
fn most_pages(tasks: &[Task], array: usize) -> usize {
    let mut most = 0;
    'tasks: for task in tasks {
        most = task.overlay().count_pages(array).max(most);
    }
    most
}

/// The most arrays for which one of these tasks has pages.
fn most_arrays(tasks: &[Task]) -> usize {
    let mut most = 0;
    'tasks: for task in tasks {
        most = task.overlay().count_arrays().max(most);
    }
    most
}

/// Forgets what tasks behind the first one have written, on a page of an array that is there, and the store has already.
#[tactic(auto, using(crate::proofs::Gathering::rest_begins))]
fn keep_page(store: &Store, tasks: &mut Vec<Task>, array: usize, index: usize)
    requires { array < length store.now.arrays }
    ensures { AreChangedBehind share_of (changes_on_page array index store.now) tasks.old.items tasks.new.items }
{
    'tasks: for number in 1..tasks.len() {
        tasks[number].keep_page(array, index, store);
    }
}

/// Moves into a store what tasks have written on a page of an array that is there, one task after another.
fn move_page(store: &mut Store, tasks: &mut Vec<Task>, array: usize, index: usize)
    requires { array < length store.old.arrays }
    ensures store { store.new ≡ with_page share_of array index tasks.old.items store.old }
    ensures tasks { AreChanged share_of (written_off array index) tasks.old.items tasks.new.items }
{
    'tasks: for number in 0..tasks.len() {
        tasks[number].apply_page(array, index, store);
    }
}

/// Settles what tasks have written on a page of an array that is there.
fn settle_page(store: &mut Store, tasks: &mut Vec<Task>, array: usize, index: usize)
    requires { array < length store.old.arrays }
    ensures { AreGatheredAlike share_of store.old tasks.old.items store.new tasks.new.items }
{
    keep_page(store, tasks, array, index);
    move_page(store, tasks, array, index);
}

/// Settles what tasks have written on an array that is there, page by page.
fn settle_array(store: &mut Store, tasks: &mut Vec<Task>, array: usize)
    requires { array < length store.old.arrays }
    ensures { AreGatheredAlike share_of store.old tasks.old.items store.new tasks.new.items }
{
    let most = most_pages(tasks.as_slice(), array);
    'pages: for index in 0..most {
        settle_page(store, tasks, array, index);
    }
}

/// Settles what tasks have written, array by array and page by page: so what they have on a page, and its cells, is gone through
/// while the processor has it near, and its memory is given back at once.
fn settle_pages(store: &mut Store, tasks: &mut Vec<Task>)
    ensures { AreGatheredAlike share_of store.old tasks.old.items store.new tasks.new.items }
{
    let many = most_arrays(tasks.as_slice()).min(store.count_arrays());
    'arrays: for array in 0..many {
        settle_array(store, tasks, array);
    }
}

/// The store with each cell that tasks have changed and each reduction joined. Takes no memory, and a time in proportion to the
/// pages of the tasks' overlays, to the values in them, to the reductions, and for each array to the most pages that a task has of it,
/// the latter two times the tasks. What the pages leave, which no clause says is nothing, goes task by task.
#[tactic(auto, using(crate::proofs::Gathering::still_there, crate::proofs::Gathering::left_gathered))]
pub(crate) fn settled(store: Store, tasks: Vec<Task>, reductions: &[(u32, Fold)]) -> Store
    requires { AreThere reductions.now store.scalars }
    ensures { result ≡ gathered share_of reductions.now tasks.items store }
{
    let mut store = store;
    let mut tasks = tasks;
    settle_pages(&mut store, &mut tasks);
    keep_changes(&store, &mut tasks);
    apply_all(&mut store, tasks.as_slice());
    join_reductions(&mut store, reductions, tasks.as_slice());
    store
}
