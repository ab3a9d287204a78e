//! Laws of what a run does.

ghost use Rattle.std.specs.Prelude.{◌≡◌, ℕ, ◌<◌, List, length, All};
ghost use Rattle.nona_tree.specs.declared.trees.Expr.{Expr};
ghost use Rattle.nona_tree.specs.declared.trees.Stmt.{Stmt};
ghost use Rattle.nona_tree.specs.Memory.{Memory, scalar_at, cell_at};
ghost use Rattle.nona_tree.specs.Run.{run, run_all};
ghost use Rattle.nona_tree.specs.Value.{value_of};
ghost use Rattle.nona_tree.specs.Deeds.{value_deeds, deeds, deeds_all, SparesScalar, SparesCell, SparesPrinted, SeesSame, SameSizes};

/// Says that a run, however it ends, changes only what its deeds name: a scalar that was visible before and that no
/// deed sets or folds keeps its value, and so does a cell that no deed stores or joins. Without a deed that prints,
/// the printed numbers are as before. It does nothing when called.
pub fn unset_stays()
    ensures scalars { (s : Stmt) (n : ℕ) (m : Memory) (id : ℕ) → id < length m.scalars → All (SparesScalar id) (deeds s n m)
        → scalar_at (run s n m).store id ≡ scalar_at m id }
    ensures cells { (s : Stmt) (n : ℕ) (m : Memory) (array place : ℕ) → All (SparesCell array place) (deeds s n m)
        → cell_at (run s n m).store array place ≡ cell_at m array place }
    ensures printed { (s : Stmt) (n : ℕ) (m : Memory) → All SparesPrinted (deeds s n m) → (run s n m).store.printed ≡ m.printed }
{}

/// Says the same of one statement after another. It does nothing when called.
pub fn all_unset_stays()
    ensures scalars { (ss : List Stmt) (n : ℕ) (m : Memory) (id : ℕ) → id < length m.scalars → All (SparesScalar id) (deeds_all ss n m)
        → scalar_at (run_all ss n m).store id ≡ scalar_at m id }
    ensures cells { (ss : List Stmt) (n : ℕ) (m : Memory) (array place : ℕ) → All (SparesCell array place) (deeds_all ss n m)
        → cell_at (run_all ss n m).store array place ≡ cell_at m array place }
    ensures printed { (ss : List Stmt) (n : ℕ) (m : Memory) → All SparesPrinted (deeds_all ss n m) → (run_all ss n m).store.printed ≡ m.printed }
{}

/// Says that the value of an expression depends on nothing that its deeds don't name: in another store whose arrays
/// have the same lengths, and in which what it reads and loads is the same, it has the same value or the same trap,
/// and the same deeds. It does nothing when called.
pub fn value_from_deeds()
    ensures value { (e : Expr) (m k : Memory) → SameSizes m k → All (SeesSame m k) (value_deeds e m) → value_of e k ≡ value_of e m }
    ensures deeds { (e : Expr) (m k : Memory) → SameSizes m k → All (SeesSame m k) (value_deeds e m) → value_deeds e k ≡ value_deeds e m }
{}
