//! Laws of iterations that are shared out whole: each task runs each unit of the body for its own. Each function does nothing when
//! it is called: its contract is the law.

ghost use Rattle.std.specs.Prelude.{◌≡◌, ℕ, ◌+◌, ◌<◌, List, [], ◌∷◌, ◌++◌, length, true, false, None, Some};
ghost use Rattle.nona_num.specs.declared.folds.Fold.{Fold};
ghost use Rattle.nona_tree.specs.declared.outcomes.Outcome.TheVariants.{Done};
ghost use Rattle.nona_tree.specs.Beside.{on_done};
ghost use Rattle.nona_tree.specs.Deeds.{SameSizes};
ghost use Rattle.nona_tree.specs.Entries.{Entry};
ghost use Rattle.nona_tree.specs.Memory.{Memory, scalar_at, cell_at, cells_of};
ghost use Rattle.nona_tree.specs.Numbers.{AreI64};
ghost use Rattle.nona_tree.specs.Run.{done, then_do};
ghost use Rattle.nona_plans.specs.Mentions.{reduction_of};
ghost use Rattle.nona_fission.specs.Sharing.{Sharing, MayBeShared, store_before, store_behind, iteration, iteration_deeds, turns_over, turns_deeds};
ghost use Rattle.nona_fission.specs.Sharing.{task_run, writes_cell, partial_of, joined_with, IsSettled};
ghost use Rattle.nona_fission.specs.Fission.{MayBeApart, own_run, own_writes, whole_of};

/// Says that whole iterations are units that are run apart: iterations that may be shared out are a part that may be run apart, which
/// has each unit of the body; and what a task runs and writes is what a task of that part runs and writes.
pub fn whole_iterations_are_apart()
    ensures may { (s : Sharing) → MayBeShared s → MayBeApart (whole_of s) }
    ensures runs { (s : Sharing) (task : ℕ) → own_run (whole_of s) task ≡ task_run s task }
    ensures writes { (s : Sharing) (task array place : ℕ) → own_writes (whole_of s) task array place ≡ writes_cell s task array place }
{}

/// Says how a task goes on: one more iteration behind others is run where they are done, and does its deeds behind theirs. Where
/// some iterations are done one after another, so are the first of them.
pub fn turns_go_on()
    ensures turns { (e : Entry) (first : ℕ) (ks : List ℕ) (k : ℕ) (m : Memory)
        → turns_over e first (ks ++ k ∷ []) m ≡ then_do (turns_over e first ks m) (iteration e first k) }
    ensures deeds { (e : Entry) (first : ℕ) (ks : List ℕ) (k : ℕ) (m : Memory)
        → turns_deeds e first (ks ++ k ∷ []) m ≡ turns_deeds e first ks m ++ on_done (turns_over e first ks m) (iteration_deeds e first k) }
    ensures front { (e : Entry) (first : ℕ) (ks js : List ℕ) (m : Memory) → (turns_over e first (ks ++ js) m).end ≡ Done
        → (turns_over e first ks m).end ≡ Done }
{}

/// Says that iterations that may be shared out give together what one thread gives. Each task runs the whole body for its own
/// iterations in rising order, in a store of its own, which begins as the one before all these iterations with each reduction at
/// its fold's unit. Then
/// - each iteration of a task is done;
/// - a cell that a task writes has in the task's store at its end the value that one thread leaves there, and no two tasks write
///   one cell;
/// - a cell that no task writes has behind the iterations the value that it has before them;
/// - so has each scalar that is no reduction;
/// - a reduction has behind the iterations its value before them joined with what the tasks have made of it, in order of tasks;
/// - nothing is printed, and no scalar, array or cell comes or goes.
pub fn iterations_may_be_shared()
    ensures done { (s : Sharing) → MayBeShared s → (task : ℕ) → (task_run s task).end ≡ Done }
    ensures written { (s : Sharing) → MayBeShared s → (task array place : ℕ) → writes_cell s task array place ≡ true
        → cell_at (task_run s task).store array place ≡ cell_at (store_behind s) array place }
    ensures once { (s : Sharing) → MayBeShared s → (task other array place : ℕ) → writes_cell s task array place ≡ true
        → writes_cell s other array place ≡ true → task ≡ other }
    ensures left { (s : Sharing) → MayBeShared s → (array place : ℕ) → ((task : ℕ) → task < s.tasks → writes_cell s task array place ≡ false)
        → cell_at (store_behind s) array place ≡ cell_at (store_before s) array place }
    ensures scalars { (s : Sharing) → MayBeShared s → (id : ℕ) → id < length (store_before s).scalars → reduction_of s.entry.looped id ≡ None
        → scalar_at (store_behind s) id ≡ scalar_at (store_before s) id }
    ensures reductions { (s : Sharing) → MayBeShared s → (id : ℕ) (f : Fold) → reduction_of s.entry.looped id ≡ Some f
        → scalar_at (store_behind s) id ≡ joined_with f (scalar_at (store_before s) id) (partial_of s id) s.tasks }
    ensures printed { (s : Sharing) → MayBeShared s → (store_behind s).printed ≡ (store_before s).printed }
    ensures depth { (s : Sharing) → MayBeShared s → length (store_behind s).scalars ≡ length (store_before s).scalars }
    ensures sizes { (s : Sharing) → MayBeShared s → (array : ℕ)
        → length (cells_of (store_behind s) array) ≡ length (cells_of (store_before s) array) }
{}

/// Says what a task's own store has at its end besides: a cell that the task doesn't write and a scalar that is no reduction are
/// as before the iterations, its numbers have 64 bits, nothing is printed, and no scalar or cell came or went.
pub fn tasks_keep()
    ensures cells { (s : Sharing) → MayBeShared s → (task array place : ℕ) → writes_cell s task array place ≡ false
        → cell_at (task_run s task).store array place ≡ cell_at (store_before s) array place }
    ensures scalars { (s : Sharing) → MayBeShared s → (task id : ℕ) → id < length (store_before s).scalars → reduction_of s.entry.looped id ≡ None
        → scalar_at (task_run s task).store id ≡ scalar_at (store_before s) id }
    ensures numbers { (s : Sharing) → MayBeShared s → (task : ℕ) → AreI64 (task_run s task).store }
    ensures printed { (s : Sharing) → MayBeShared s → (task : ℕ) → (task_run s task).store.printed ≡ (store_before s).printed }
    ensures depth { (s : Sharing) → MayBeShared s → (task : ℕ) → length (task_run s task).store.scalars ≡ length (store_before s).scalars }
    ensures sizes { (s : Sharing) → MayBeShared s → (task : ℕ) → SameSizes (store_before s) (task_run s task).store }
{}

/// Says that a store that is settled from what the tasks leave is the one that one thread leaves.
pub fn settled_is_behind()
    ensures { (s : Sharing) (m : Memory) → MayBeShared s → IsSettled s m → m ≡ store_behind s }
{}
