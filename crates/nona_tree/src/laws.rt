//! Laws of the sequential meaning. Each function does nothing when it is called: its contract is the law.

ghost use Rattle.std.specs.Prelude.{◌≡◌, ◌≢◌, ◌<◌, ◌≤◌, ◌+◌, ◌+ℤ◌, ℕ, ℤ, pos, List, length, map, IfOk, Ok};
ghost use Rattle.std.specs.Int.{int_gap};
ghost use Rattle.nona_tree.specs.declared.outcomes.Outcome.TheVariants.{Done};
ghost use Rattle.nona_tree.specs.declared.trees.Expr.{Expr};
ghost use Rattle.nona_tree.specs.declared.trees.Loop.{Loop};
ghost use Rattle.nona_tree.specs.declared.trees.Program.{Program};
ghost use Rattle.nona_tree.specs.declared.trees.Stmt.{Stmt, For};
ghost use Rattle.nona_tree.specs.Memory.{Memory, Extends};
ghost use Rattle.nona_tree.specs.Numbers.{IsI64, AreCells, AreI64, IsI64Expr, IsI64Stmt, AreI64Stmts, IsI64Program};
ghost use Rattle.nona_tree.specs.Run.{Ran, done, starved, then_do, block, turn, first_turns, run, run_all, start_of};
ghost use Rattle.nona_tree.specs.Scope.{depth_after, depth_after_all};
ghost use Rattle.nona_tree.specs.Value.{value_of};

/// Says what stands after the first turns of a `for`. Where the first `k` are done, the first `k + 1` are one turn more,
/// and once a turn ended otherwise both the store and the end stay. A `for` does all its turns where it may take as many.
/// Otherwise it does as many as it may, and is then out of turns unless one of these ended otherwise.
pub fn state_after()
    ensures none { (body : ℤ → Memory → Ran) (low : ℤ) (m : Memory) → first_turns body low 0 m ≡ done m }
    ensures next { (body : ℤ → Memory → Ran) (low : ℤ) (k : ℕ) (m r : Memory) → first_turns body low k m ≡ done r
        → first_turns body low (k + 1) m ≡ body (low +ℤ pos k) r }
    ensures stays { (body : ℤ → Memory → Ran) (low : ℤ) (j k : ℕ) (m : Memory) → (first_turns body low j m).end ≢ Done → j ≤ k
        → first_turns body low k m ≡ first_turns body low j m }
    ensures all_turns { (l : Loop) (n : ℕ) (m : Memory) (a b : ℤ) → value_of l.low m ≡ Ok a → value_of l.high m ≡ Ok b → int_gap a b ≤ n
        → run (For l) n m ≡ first_turns (turn (run_all l.body n)) a (int_gap a b) m }
    ensures out_of_turns { (l : Loop) (n : ℕ) (m : Memory) (a b : ℤ) → value_of l.low m ≡ Ok a → value_of l.high m ≡ Ok b → n < int_gap a b
        → run (For l) n m ≡ then_do (first_turns (turn (run_all l.body n)) a n m) (starved l.at) }
{}

/// Says how many scalars there are after a run. Statements drop none of those around them. A block and the turns of a
/// `for` leave as many as there were, however they end. What is done leaves as many as its statements declare besides.
pub fn scalars_stay()
    ensures no_fewer { (ss : List Stmt) (n : ℕ) (m : Memory) → length m.scalars ≤ length (run_all ss n m).store.scalars }
    ensures block { (ss : List Stmt) (n : ℕ) (m : Memory) → length (block (run_all ss n) m).store.scalars ≡ length m.scalars }
    ensures turns { (ss : List Stmt) (n : ℕ) (low : ℤ) (k : ℕ) (m : Memory)
        → length (first_turns (turn (run_all ss n)) low k m).store.scalars ≡ length m.scalars }
    ensures one { (s : Stmt) (n : ℕ) (m : Memory) → (run s n m).end ≡ Done → length (run s n m).store.scalars ≡ depth_after s (length m.scalars) }
    ensures all { (ss : List Stmt) (n : ℕ) (m : Memory) → (run_all ss n m).end ≡ Done
        → length (run_all ss n m).store.scalars ≡ depth_after_all ss (length m.scalars) }
{}

/// Says that a run leaves as many arrays as there were, each with as many cells.
pub fn lengths_stay()
    ensures one { (s : Stmt) (n : ℕ) (m : Memory) → map length (run s n m).store.arrays ≡ map length m.arrays }
    ensures all { (ss : List Stmt) (n : ℕ) (m : Memory) → map length (run_all ss n m).store.arrays ≡ map length m.arrays }
    ensures turns { (ss : List Stmt) (n : ℕ) (low : ℤ) (k : ℕ) (m : Memory)
        → map length (first_turns (turn (run_all ss n)) low k m).store.arrays ≡ map length m.arrays }
{}

/// Says that what is printed stays: a run only adds numbers behind it.
pub fn printed_grows()
    ensures one { (s : Stmt) (n : ℕ) (m : Memory) → Extends m.printed (run s n m).store.printed }
    ensures all { (ss : List Stmt) (n : ℕ) (m : Memory) → Extends m.printed (run_all ss n m).store.printed }
    ensures turns { (ss : List Stmt) (n : ℕ) (low : ℤ) (k : ℕ) (m : Memory)
        → Extends m.printed (first_turns (turn (run_all ss n)) low k m).store.printed }
{}

/// Says that nothing leaves the numbers of 64 bits: a program with such numbers begins with a store of them, each value
/// over such a store is one, and a run leaves such a store.
pub fn numbers_stay()
    ensures start { (p : Program) (input : List ℤ) → IsI64Program p → AreCells input → AreI64 (start_of p input) }
    ensures value { (e : Expr) (m : Memory) → IsI64Expr e → AreI64 m → IfOk (value_of e m) IsI64 }
    ensures one { (s : Stmt) → IsI64Stmt s → (n : ℕ) (m : Memory) → AreI64 m → AreI64 (run s n m).store }
    ensures all { (ss : List Stmt) → AreI64Stmts ss → (n : ℕ) (m : Memory) → AreI64 m → AreI64 (run_all ss n m).store }
    ensures turns { (ss : List Stmt) → AreI64Stmts ss → (n : ℕ) (a b : ℤ) → IsI64 a → IsI64 b → (k : ℕ) → k ≤ int_gap a b → (m : Memory) → AreI64 m
        → AreI64 (first_turns (turn (run_all ss n)) a k m).store }
{}
