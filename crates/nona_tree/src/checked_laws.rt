//! Laws of checked programs. Each function does nothing when it is called: its contract is the law.

ghost use Rattle.std.specs.Prelude.{ℕ, ◌≡◌, ◌+◌, ◌≤◌, ℤ, List, [], length, All, sum_by};
ghost use Rattle.nona_tree.specs.declared.faults.ProgramFault.{ProgramFault};
ghost use Rattle.nona_tree.specs.declared.trees.ArrayDecl.{ArrayDecl};
ghost use Rattle.nona_tree.specs.declared.trees.Program.{Program};
ghost use Rattle.nona_tree.specs.Checking.{IsChecked};
ghost use Rattle.nona_tree.specs.Faults.{cell_bound, faults_of, IsFirstFault};
ghost use Rattle.nona_tree.specs.Ids.{ids_of};
ghost use Rattle.nona_tree.specs.Numbers.{IsI64Program};
ghost use Rattle.nona_tree.specs.Places.{HasOwnPlaces};
ghost use Rattle.nona_tree.specs.Smallness.{IsSmall, size_of, nesting_of};
ghost use Rattle.nona_tree.specs.Run.{count_of, start_of};
ghost use Rattle.nona_tree.specs.Scope.{AreScoped, AreSteady};

/// Says that the statements of a checked program name only what is declared, or what a store over any input begins
/// with, and that they assign no index of a loop.
pub fn checked_is_scoped()
    ensures declared { (p : Program) → IsChecked p → AreScoped p.body (length p.vars) (length p.arrays + 1) }
    ensures begun { (p : Program) (input : List ℤ) → IsChecked p
        → AreScoped p.body (length (start_of p input).scalars) (length (start_of p input).arrays) }
    ensures steady { (p : Program) → IsChecked p → AreSteady p.body [] }
{}

/// Says that ids change nothing of a program but themselves: with its ids it has the same faults, the same size, the same
/// numbers and its loops at the same places, and it would be given the same ids again. So a small program of numbers of 64 bits
/// without a fault, whose loops have places of their own, is checked with its ids.
pub fn ids_settle()
    ensures faults { (p : Program) → faults_of (ids_of p) ≡ faults_of p }
    ensures ids { (p : Program) → ids_of (ids_of p) ≡ ids_of p }
    ensures size { (p : Program) → size_of (ids_of p) ≡ size_of p }
    ensures nesting { (p : Program) → nesting_of (ids_of p) ≡ nesting_of p }
    ensures numbers { (p : Program) → IsI64Program p → IsI64Program (ids_of p) }
    ensures places { (p : Program) → HasOwnPlaces p → HasOwnPlaces (ids_of p) }
    ensures checked { (p : Program) → IsSmall p → faults_of p ≡ [] → IsI64Program p → HasOwnPlaces p → IsChecked (ids_of p) }
{}

/// Says that a program has one first fault at most, whatever its places are.
pub fn first_fault_is_one()
    ensures { (f g : ProgramFault) (p : Program) → IsFirstFault f p → IsFirstFault g p → f ≡ g }
{}

/// Says that in a program without a fault each array has at least one cell, and all together have no more than 2^22.
pub fn cells_are_bounded()
    ensures least { (p : Program) → faults_of p ≡ [] → All (λ (d : ArrayDecl). 1 ≤ count_of d.cells) p.arrays }
    ensures most { (p : Program) → faults_of p ≡ [] → sum_by (λ (d : ArrayDecl). count_of d.cells) p.arrays ≤ cell_bound }
{}
