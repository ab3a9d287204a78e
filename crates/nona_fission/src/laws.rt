//! Laws of units that are run apart. Each function does nothing when it is called: its contract is the law.

ghost use Rattle.std.specs.Prelude.{◌≡◌, ◌≢◌, ◌⊎◌, ℕ, ◌+◌, ◌<◌, Bool, true, false};
ghost use Rattle.std.specs.Prelude.{List, [], ◌∷◌, ◌++◌, length, None, Some};
ghost use Rattle.std.specs.List.{Contains};
ghost use Rattle.nona_num.specs.declared.folds.Fold.{Fold};
ghost use Rattle.nona_num.specs.Folds.{unit_of, join_of};
ghost use Rattle.nona_tree.specs.declared.outcomes.Outcome.TheVariants.{Done};
ghost use Rattle.nona_tree.specs.Beside.{on_done};
ghost use Rattle.nona_tree.specs.Deeds.{SameSizes};
ghost use Rattle.nona_tree.specs.Entries.{after};
ghost use Rattle.nona_tree.specs.Memory.{Memory, scalar_at, cells_of, cell_at};
ghost use Rattle.nona_tree.specs.Numbers.{AreI64};
ghost use Rattle.nona_tree.specs.Run.{done, then_do};
ghost use Rattle.nona_forms.specs.Affine.{among};
ghost use Rattle.nona_forms.specs.References.{assigned};
ghost use Rattle.nona_plans.specs.declared.graphs.Local.{Local};
ghost use Rattle.nona_plans.specs.Mentions.{reduction_of};
ghost use Rattle.nona_plans.specs.Units.{named_in, arrays_in, unit_has, unit_prints, locals_of};
ghost use Rattle.nona_plans.specs.Walks.{IsUnit};
ghost use Rattle.nona_fission.specs.Sharing.{Sharing, store_before, store_behind, owned_below, joined_with};
ghost use Rattle.nona_fission.specs.FoldArrays.{fold_array_of};
ghost use Rattle.nona_fission.specs.Fission.{Fission, MayBeApart, own_iteration, own_iteration_deeds, own_over, own_deeds, own_run, own_units, part_begun};
ghost use Rattle.nona_fission.specs.Fission.{own_writes, own_partial, own_copy, by_one, copied_part_of, of_either, one_thread_local};

/// Says how a task goes on: the own units of one more iteration are run behind others where these are done, and do their deeds
/// behind theirs. Where those of some iterations are done one after another, so are those of the first of them.
pub fn own_units_go_on()
    ensures turns { (s : Fission) (ks : List ℕ) (k : ℕ) (m : Memory)
        → own_over s (ks ++ k ∷ []) m ≡ then_do (own_over s ks m) (own_iteration s k) }
    ensures deeds { (s : Fission) (ks : List ℕ) (k : ℕ) (m : Memory)
        → own_deeds s (ks ++ k ∷ []) m ≡ own_deeds s ks m ++ on_done (own_over s ks m) (own_iteration_deeds s k) }
    ensures front { (s : Fission) (ks js : List ℕ) (m : Memory) → (own_over s (ks ++ js) m).end ≡ Done → (own_over s ks m).end ≡ Done }
{}

/// Says that units that may be run apart do to the store what they do in one thread. Each task runs the own units of its iterations
/// in rising order, in a store of its own, which begins as the one before all these iterations with each reduction, and each cell of
/// the arrays that the tasks have copies of, at its fold's unit; where another unit declares a scalar, a given number stands for it,
/// which is its value of one thread where an own unit uses it. Then
/// - each iteration of a task is done;
/// - a cell that a task writes, of an array without copies, has in the task's store at its end the value that one thread leaves there,
///   and no two tasks write one such cell;
/// - a cell of an array without copies that an own unit has, and that no task writes, has behind the iterations the value that it has
///   before them;
/// - a scalar from outside that an own unit names, and that is no reduction, has in the store of each of the tasks the value that
///   one thread leaves.
pub fn units_may_be_apart()
    ensures done { (s : Fission) → MayBeApart s → (task : ℕ) → (own_run s task).end ≡ Done }
    ensures written { (s : Fission) → MayBeApart s → (task array place : ℕ) → among array s.folded ≡ false
        → own_writes s task array place ≡ true
        → cell_at (own_run s task).store array place ≡ cell_at (store_behind s.sharing) array place }
    ensures once { (s : Fission) → MayBeApart s → (task other array place : ℕ) → among array s.folded ≡ false
        → own_writes s task array place ≡ true → own_writes s other array place ≡ true → task ≡ other }
    ensures left { (s : Fission) → MayBeApart s → (unit array place : ℕ) → IsUnit (length s.sharing.entry.looped.body) unit
        → s.own unit ≡ true → unit_has arrays_in s.sharing.entry.looped unit array ≡ true → among array s.folded ≡ false
        → ((task : ℕ) → task < s.sharing.tasks → own_writes s task array place ≡ false)
        → cell_at (store_behind s.sharing) array place ≡ cell_at (store_before s.sharing) array place }
    ensures scalars { (s : Fission) → MayBeApart s → (task unit id : ℕ) → task < s.sharing.tasks → id < length (store_before s.sharing).scalars
        → IsUnit (length s.sharing.entry.looped.body) unit → s.own unit ≡ true → unit_has named_in s.sharing.entry.looped unit id ≡ true
        → reduction_of s.sharing.entry.looped id ≡ None
        → scalar_at (own_run s task).store id ≡ scalar_at (store_behind s.sharing) id }
{}

/// Says what a task's own store has at its end besides: a cell that the task doesn't write, of an array without copies, and a scalar
/// that no own unit assigns and that is no reduction, are as before the iterations; a cell of its copy of an array that the task
/// doesn't write has its fold's unit; its numbers have 64 bits; no scalar or cell came or went; and nothing is printed unless an own
/// unit prints, which none does where there are several tasks.
pub fn apart_tasks_keep()
    ensures cells { (s : Fission) → MayBeApart s → (task array place : ℕ) → among array s.folded ≡ false
        → own_writes s task array place ≡ false
        → cell_at (own_run s task).store array place ≡ cell_at (store_before s.sharing) array place }
    ensures copies { (s : Fission) → MayBeApart s → (task array place : ℕ) (f : Fold) → among array s.folded ≡ true
        → fold_array_of s.sharing.entry.looped array ≡ Some f → place < length (cells_of (store_before s.sharing) array)
        → own_writes s task array place ≡ false → own_copy s array place task ≡ unit_of f }
    ensures scalars { (s : Fission) → MayBeApart s → (task id : ℕ) → id < length (store_before s.sharing).scalars
        → reduction_of s.sharing.entry.looped id ≡ None
        → ((unit : ℕ) → IsUnit (length s.sharing.entry.looped.body) unit → s.own unit ≡ true
        → unit_has assigned s.sharing.entry.looped unit id ≡ false)
        → scalar_at (own_run s task).store id ≡ scalar_at (store_before s.sharing) id }
    ensures numbers { (s : Fission) → MayBeApart s → (task : ℕ) → AreI64 (own_run s task).store }
    ensures silent { (s : Fission) → MayBeApart s → (unit : ℕ) → s.sharing.tasks ≢ 1 → IsUnit (length s.sharing.entry.looped.body) unit
        → s.own unit ≡ true → unit_prints s.sharing.entry.looped unit ≡ false }
    ensures printed { (s : Fission) → MayBeApart s → (task : ℕ)
        → ((unit : ℕ) → IsUnit (length s.sharing.entry.looped.body) unit → s.own unit ≡ true
        → unit_prints s.sharing.entry.looped unit ≡ false)
        → (own_run s task).store.printed ≡ (store_before s.sharing).printed }
    ensures depth { (s : Fission) → MayBeApart s → (task : ℕ) → length (own_run s task).store.scalars ≡ length (store_before s.sharing).scalars }
    ensures sizes { (s : Fission) → MayBeApart s → (task : ℕ) → SameSizes (store_before s.sharing) (own_run s task).store }
{}

/// Says what an own iteration hands on: where a task is behind its iterations before this one, a local that is never assigned has at
/// the end of the own units of this one its value of one thread, if an own unit declares it or it was given with that value.
pub fn own_units_hand_on()
    ensures { (s : Fission) → MayBeApart s → (k : ℕ) (v : Local) (m : Memory) → k < s.sharing.count
        → own_over s (owned_below s.sharing.owner (s.sharing.owner k) k) (part_begun s) ≡ done m
        → Contains (locals_of s.sharing.entry.looped) v → v.assigned ≡ false
        → (s.own v.unit ≡ true) ⊎ (s.locals k v.id ≡ one_thread_local s.sharing k v.id)
        → scalar_at (own_units s k m).store v.id ≡ one_thread_local s.sharing k v.id }
{}

/// Says what the iterations leave in one thread: they are done; no scalar, array or cell comes or goes; and a cell of an array that no
/// unit has, a scalar that no unit assigns, and what is printed where no unit prints, are as before.
pub fn one_thread_leaves()
    ensures done { (s : Fission) → MayBeApart s → (after s.sharing.entry (s.sharing.first + s.sharing.count)).end ≡ Done }
    ensures depth { (s : Fission) → MayBeApart s → length (store_behind s.sharing).scalars ≡ length (store_before s.sharing).scalars }
    ensures arrays { (s : Fission) → MayBeApart s → length (store_behind s.sharing).arrays ≡ length (store_before s.sharing).arrays }
    ensures sizes { (s : Fission) → MayBeApart s → SameSizes (store_before s.sharing) (store_behind s.sharing) }
    ensures cells { (s : Fission) → MayBeApart s → (array place : ℕ) → ((unit : ℕ) → IsUnit (length s.sharing.entry.looped.body) unit
        → unit_has arrays_in s.sharing.entry.looped unit array ≡ false)
        → cell_at (store_behind s.sharing) array place ≡ cell_at (store_before s.sharing) array place }
    ensures scalars { (s : Fission) → MayBeApart s → (id : ℕ) → id < length (store_before s.sharing).scalars
        → ((unit : ℕ) → IsUnit (length s.sharing.entry.looped.body) unit → unit_has assigned s.sharing.entry.looped unit id ≡ false)
        → scalar_at (store_behind s.sharing) id ≡ scalar_at (store_before s.sharing) id }
    ensures printed { (s : Fission) → MayBeApart s → ((unit : ℕ) → IsUnit (length s.sharing.entry.looped.body) unit
        → unit_prints s.sharing.entry.looped unit ≡ false) → (store_behind s.sharing).printed ≡ (store_before s.sharing).printed }
{}

/// Says that one task alone prints what one thread prints, where each unit that prints is an own one.
pub fn own_units_print()
    ensures { (s : Fission) → MayBeApart s → s.sharing.tasks ≡ 1
        → ((unit : ℕ) → IsUnit (length s.sharing.entry.looped.body) unit → unit_prints s.sharing.entry.looped unit ≡ true
        → s.own unit ≡ true)
        → (own_run s 0).store.printed ≡ (store_behind s.sharing).printed }
{}

/// Says what the tasks make of a reduction. What they have made of it from its fold's unit on, joined in order of tasks, is what one
/// task makes of it that runs the own units of all these iterations: so the division among tasks is no matter. Where each unit that
/// names it is an own one, it has behind the iterations its value before them joined with what the tasks have made.
pub fn apart_partials_join()
    ensures partials { (s : Fission) → MayBeApart s → (id : ℕ) (f : Fold) → reduction_of s.sharing.entry.looped id ≡ Some f
        → joined_with f (unit_of f) (own_partial s id) s.sharing.tasks ≡ own_partial (by_one s) id 0 }
    ensures whole { (s : Fission) → MayBeApart s → (id : ℕ) (f : Fold) → reduction_of s.sharing.entry.looped id ≡ Some f
        → ((unit : ℕ) → IsUnit (length s.sharing.entry.looped.body) unit → unit_has named_in s.sharing.entry.looped unit id ≡ true
        → s.own unit ≡ true)
        → scalar_at (store_behind s.sharing) id ≡ joined_with f (scalar_at (store_before s.sharing) id) (own_partial s id) s.sharing.tasks }
{}

/// Says what the tasks make of an array that they have copies of. What they have made of a cell from its fold's unit on, joined in order
/// of tasks, is what one task makes of it that runs the own units of all these iterations. Where each unit that has the array is an
/// own one, the cell has behind the iterations its value before them joined with what the tasks have made.
pub fn apart_copies_join()
    ensures partials { (s : Fission) → MayBeApart s → (array place : ℕ) (f : Fold) → among array s.folded ≡ true
        → fold_array_of s.sharing.entry.looped array ≡ Some f → place < length (cells_of (store_before s.sharing) array)
        → joined_with f (unit_of f) (own_copy s array place) s.sharing.tasks ≡ own_copy (by_one s) array place 0 }
    ensures whole { (s : Fission) → MayBeApart s → (array place : ℕ) (f : Fold) → among array s.folded ≡ true
        → fold_array_of s.sharing.entry.looped array ≡ Some f → place < length (cells_of (store_before s.sharing) array)
        → ((unit : ℕ) → IsUnit (length s.sharing.entry.looped.body) unit → unit_has arrays_in s.sharing.entry.looped unit array ≡ true
        → s.own unit ≡ true)
        → cell_at (store_behind s.sharing) array place
        ≡ joined_with f (cell_at (store_before s.sharing) array place) (own_copy s array place) s.sharing.tasks }
{}

/// Says that two parts of a loop's units add up: where no unit is of both, the units of either may be run apart too, and what one task
/// makes of a reduction that runs them all is what one task that runs the first part's makes of it, joined with what one that runs
/// the second part's does; and so for each cell of the arrays that the tasks have copies of. So what the parts of a whole loop make of
/// a reduction adds up to what one thread makes of it. And for that it is no matter which numbers stand for locals that no own unit
/// uses.
pub fn parts_add_up()
    ensures both { (g : Sharing) (folded : List ℕ) (own other : ℕ → Bool) → MayBeApart (copied_part_of g folded own)
        → MayBeApart (copied_part_of g folded other) → MayBeApart (copied_part_of g folded (of_either own other)) }
    ensures sums { (g : Sharing) (folded : List ℕ) (own other : ℕ → Bool) → MayBeApart (copied_part_of g folded own)
        → MayBeApart (copied_part_of g folded other) → ((unit : ℕ) → own unit ≡ true → other unit ≡ true → ⊥)
        → (id : ℕ) (f : Fold) → reduction_of g.entry.looped id ≡ Some f
        → own_partial (by_one (copied_part_of g folded (of_either own other))) id 0
        ≡ join_of f (own_partial (by_one (copied_part_of g folded own)) id 0) (own_partial (by_one (copied_part_of g folded other)) id 0) }
    ensures cells { (g : Sharing) (folded : List ℕ) (own other : ℕ → Bool) → MayBeApart (copied_part_of g folded own)
        → MayBeApart (copied_part_of g folded other) → ((unit : ℕ) → own unit ≡ true → other unit ≡ true → ⊥)
        → (array place : ℕ) (f : Fold) → among array folded ≡ true
        → fold_array_of g.entry.looped array ≡ Some f → place < length (cells_of (store_before g) array)
        → own_copy (by_one (copied_part_of g folded (of_either own other))) array place 0
        ≡ join_of f (own_copy (by_one (copied_part_of g folded own)) array place 0)
        (own_copy (by_one (copied_part_of g folded other)) array place 0) }
    ensures given { (s : Fission) → MayBeApart s → MayBeApart (copied_part_of s.sharing s.folded s.own) }
    ensures same { (s : Fission) → MayBeApart s → (task id : ℕ) (f : Fold) → reduction_of s.sharing.entry.looped id ≡ Some f
        → own_partial s id task ≡ own_partial (copied_part_of s.sharing s.folded s.own) id task }
    ensures copies { (s : Fission) → MayBeApart s → (task array place : ℕ) (f : Fold) → among array s.folded ≡ true
        → fold_array_of s.sharing.entry.looped array ≡ Some f → place < length (cells_of (store_before s.sharing) array)
        → own_copy s array place task ≡ own_copy (copied_part_of s.sharing s.folded s.own) array place task }
{}
