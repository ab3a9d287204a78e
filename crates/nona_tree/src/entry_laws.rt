//! Laws of the iterations of a loop.

ghost use Rattle.std.specs.Prelude.{◌≡◌, ◌≢◌, ℕ, ◌+◌, ◌<◌, ◌≤◌, ◌^◌, Bool, ℤ, pos, ◌+ℤ◌, List, [], ◌∷◌, ◌++◌, length, All, Ok};
ghost use Rattle.std.specs.Int.{int_gap};
ghost use Rattle.std.specs.List.{Contains};
ghost use Rattle.nona_tree.specs.declared.outcomes.Outcome.TheVariants as outcome;
ghost use Rattle.nona_tree.specs.declared.trees.Loop.{Loop};
ghost use Rattle.nona_tree.specs.declared.trees.Program.{Program};
ghost use Rattle.nona_tree.specs.declared.trees.Stmt.{Stmt, For, Let};
ghost use Rattle.nona_tree.specs.declared.trees.Expr.{Expr};
ghost use Rattle.nona_tree.specs.declared.names.Use.{Use};
ghost use Rattle.nona_tree.specs.Numbers.{IsI64Stmt, AreI64Stmts};
ghost use Rattle.nona_tree.specs.Scope.{IsScoped, IsSteady, AreSteady};
ghost use Rattle.nona_tree.specs.Smallness.{IsSmall, IsSmallLoop};
ghost use Rattle.nona_tree.specs.Memory.{Memory, scalar_at};
ghost use Rattle.nona_tree.specs.Value.{value_of};
ghost use Rattle.nona_tree.specs.Run.{Ran, run, run_all, turn, first_turns, then_do, done, starved};
ghost use Rattle.nona_tree.specs.Beside.{on_done, first_give};
ghost use Rattle.nona_tree.specs.Entries.{Opened, Entry, IsLocal, after, behind_front, in_iteration, local_at, is_among, places_of, regions_all, entries_all, IsEntryOf};
ghost use Rattle.nona_tree.specs.Deeds.{Deed};

/// Says how the state after some iterations goes on: where they are done, one more iteration is one more turn of the
/// loop. Where one ended otherwise, its state stays. It does nothing when called.
pub fn after_next()
    ensures first { (e : Entry) → after e 0 ≡ done e.store }
    ensures next { (e : Entry) (k : ℕ) (m : Memory) → after e k ≡ done m → after e (k + 1) ≡ turn (run_all e.looped.body e.turns) (e.low +ℤ pos k) m }
    ensures stays { (e : Entry) (j k : ℕ) → j ≤ k → (after e j).end ≢ outcome.Done → after e k ≡ after e j }
{}

/// Says that the run of a `for` whose bounds have values is the state after its iterations. Where it has more of them
/// than turns, it ends after as many as it has turns, and is then out of turns unless one ended otherwise. It does
/// nothing when called.
pub fn loop_is_after()
    ensures whole { (e : Entry) (high : ℤ) → value_of e.looped.low e.store ≡ Ok e.low → value_of e.looped.high e.store ≡ Ok high
        → int_gap e.low high ≤ e.turns → run (For e.looped) e.turns e.store ≡ after e (int_gap e.low high) }
    ensures starved { (e : Entry) (high : ℤ) (m : Memory) → value_of e.looped.low e.store ≡ Ok e.low → value_of e.looped.high e.store ≡ Ok high
        → e.turns < int_gap e.low high → after e e.turns ≡ done m → run (For e.looped) e.turns e.store ≡ starved e.looped.at m }
    ensures ended { (e : Entry) (high : ℤ) → value_of e.looped.low e.store ≡ Ok e.low → value_of e.looped.high e.store ≡ Ok high
        → e.turns < int_gap e.low high → (after e e.turns).end ≢ outcome.Done → run (For e.looped) e.turns e.store ≡ after e e.turns }
{}

/// Says that the turns of a `for` may be taken from the first on: its first turn, and where that is done, those that are
/// left, from the next index. So are the entries and the deeds that they give. It does nothing when called.
pub fn turns_from_first()
    ensures turns { (body : ℤ → Memory → Ran) (low : ℤ) (k : ℕ) (m : Memory)
        → first_turns body low (k + 1) m ≡ then_do (body low m) (first_turns body (low +ℤ pos 1) k) }
    ensures entries { (body : ℤ → Memory → Ran) (given : ℤ → Memory → List Opened) (low : ℤ) (k : ℕ) (m : Memory)
        → first_give body given low (k + 1) m ≡ given low m ++ on_done (body low m) (first_give body given (low +ℤ pos 1) k) }
    ensures deeds { (body : ℤ → Memory → Ran) (given : ℤ → Memory → List Deed) (low : ℤ) (k : ℕ) (m : Memory)
        → first_give body given low (k + 1) m ≡ given low m ++ on_done (body low m) (first_give body given (low +ℤ pos 1) k) }
{}

/// Says that each entry of a run is to the region of its number, and has the values of that loop's bounds in the store of that
/// moment, whichever loops are chosen as regions. It does nothing when called.
pub fn entries_are_regions()
    ensures { (chosen : Loop → Bool) (body : List Stmt) (n : ℕ) (m : Memory)
        → All (IsEntryOf (regions_all chosen body)) (entries_all chosen 1 body n m) }
{}

/// Says that the regions which places name are those that the places of these regions name. It does nothing when called.
pub fn regions_have_places()
    ensures { (places : List ℕ) (body : List Stmt) → regions_all (is_among (places_of (regions_all (is_among places) body))) body
        ≡ regions_all (is_among places) body }
{}

/// Says that what is so of statements is so of their regions, whichever loops are chosen: none assigns an index of a loop, all
/// their numbers have 64 bits, and those of a small program are small and fewer than 2^32 - 1. It does nothing when called.
pub fn regions_keep()
    ensures steady { (chosen : Loop → Bool) (body : List Stmt) → AreSteady body [] → All (λ l. IsSteady (For l) []) (regions_all chosen body) }
    ensures numbers { (chosen : Loop → Bool) (body : List Stmt) → AreI64Stmts body → All (λ l. IsI64Stmt (For l)) (regions_all chosen body) }
    ensures small { (chosen : Loop → Bool) (p : Program) → IsSmall p → All IsSmallLoop (regions_all chosen p.body) }
    ensures few { (chosen : Loop → Bool) (p : Program) → IsSmall p → length (regions_all chosen p.body) + 1 < 2 ^ 32 }
{}

/// Says that a run keeps each of these scalars, where its text assigns none of them. It does nothing when called.
pub fn unassigned_stays()
    ensures one { (s : Stmt) (ids : List ℕ) (id : ℕ) → Contains ids id → IsSteady s ids → (n : ℕ) (m : Memory) → id < length m.scalars
        → scalar_at (run s n m).store id ≡ scalar_at m id }
    ensures all { (ss : List Stmt) (ids : List ℕ) (id : ℕ) → Contains ids id → AreSteady ss ids → (n : ℕ) (m : Memory) → id < length m.scalars
        → scalar_at (run_all ss n m).store id ≡ scalar_at m id }
{}

/// Says that in an iteration that is done a `let` at the top of the body that is never assigned has to the end the value that
/// its expression has where it stands, behind these statements at the front. It does nothing when called.
pub fn locals_hold()
    ensures { (e : Entry) (k : ℕ) (front rest : List Stmt) (x : Use) (value : Expr) (arrays : ℕ) → IsLocal e front rest x value arrays
        → (in_iteration e k).end ≡ outcome.Done → value_of value (behind_front e k front).store ≡ Ok (local_at e k x.id) }
{}
