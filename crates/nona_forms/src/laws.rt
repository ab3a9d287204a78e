//! Laws of the forms of a loop. Each function does nothing when it is called: its contract is the law.

ghost use Rattle.std.specs.Prelude.{◌≡◌, ℕ, ◌<◌, ◌*◌, ℤ, pos, ◌+ℤ◌, ◌*ℤ◌, ◌≤ℤ◌, ◌<ℤ◌};
ghost use Rattle.std.specs.Prelude.{List, [], true, false, All, IsTrue, Ok, Some};
ghost use Rattle.std.specs.Int.{IsGcd};
ghost use Rattle.std.specs.declared.option.Option.{Option};
ghost use Rattle.std.specs.List.{Contains};
ghost use Rattle.nona_tree.specs.declared.trees.Expr.{Expr};
ghost use Rattle.nona_tree.specs.declared.trees.Loop.{Loop};
ghost use Rattle.nona_tree.specs.declared.outcomes.Outcome.TheVariants.{Done};
ghost use Rattle.nona_tree.specs.declared.trees.Stmt.{For};
ghost use Rattle.nona_tree.specs.Deeds.{deeds_all};
ghost use Rattle.nona_tree.specs.Entries.{Entry, after};
ghost use Rattle.nona_tree.specs.Memory.{Memory, scalar_at, declare};
ghost use Rattle.nona_tree.specs.Numbers.{IsI64, IsI64Expr, AreI64};
ghost use Rattle.nona_tree.specs.Scope.{IsSteady};
ghost use Rattle.nona_tree.specs.Value.{value_of};
ghost use Rattle.nona_forms.specs.Affine.{Affine, KeepsOrder, among, form_of, form_at};
ghost use Rattle.nona_forms.specs.Calm.{is_calm};
ghost use Rattle.nona_forms.specs.Guards.{guard_of};
ghost use Rattle.nona_forms.specs.References.{Reference, IsPossibleAt, references_all, names_of};
ghost use Rattle.nona_forms.specs.Verdicts.{names_inside, spot_of, shape_of, is_apart, verdict_of, gcd_of, divides, is_distance, has_multiple};
ghost use Rattle.nona_forms.specs.Separate.{IsLoopEntry, Lies, AreSeparate};
ghost use Rattle.nona_forms.specs.Rules.{verdict_by_rules};
ghost use Rattle.nona_forms.specs.Touched.{MayBegin, IsOfAccess};
ghost use Rattle.nona_forms.specs.declared.shapes.LoopShape.{LoopShape};
ghost use Rattle.nona_forms.specs.declared.shapes.Spot.{Spot};

/// Says that where the exact value of an expression's form is a number of 64 bits, it is the expression's value; and that the
/// form depends on nothing of the names but which scalars are among them.
pub fn form_is_value()
    ensures members { (e : Expr) (names others : List ℕ) → ((id : ℕ) → among id names ≡ among id others) → form_of e names ≡ form_of e others }
    ensures value { (e : Expr) (names : List ℕ) (m : Memory) (f : Affine) → form_of e names ≡ Some f
        → IsI64Expr e → AreI64 m → IsI64 (form_at (scalar_at m) f)
        → value_of e m ≡ Ok (form_at (scalar_at m) f) }
{}

/// Says that the form of an expression is within a form's bounds and has its terms in order of id, each id once and no
/// coefficient 0.
pub fn form_is_kept()
    ensures { (e : Expr) (names : List ℕ) (f : Affine) → form_of e names ≡ Some f → KeepsOrder f }
{}

/// Says that two accesses of a loop that are told apart are separate, where the exact values of both lie in their arrays for
/// the entry; and that the value of such an access's index, which wraps, is then the exact one.
pub fn apart_is_separate()
    ensures exact { (l : Loop) (entry : Memory) (low last : ℤ) (x : Reference) → IsLoopEntry l entry low last → Contains (references_all l.body) x
        → Lies l entry low last x → (i : ℤ) (m : Memory) (f : Affine) → low ≤ℤ i → i <ℤ last → IsPossibleAt l entry x i m
        → form_of x.access.index (names_inside (names_of l) x.inner) ≡ Some f → value_of x.access.index m ≡ Ok (form_at (scalar_at m) f) }
    ensures separate { (l : Loop) (entry : Memory) (low last : ℤ) (x y : Reference) → IsLoopEntry l entry low last
        → Contains (references_all l.body) x → Contains (references_all l.body) y
        → IsTrue (is_apart (shape_of l) (spot_of (names_of l) x) (spot_of (names_of l) y))
        → Lies l entry low last x → Lies l entry low last y → AreSeparate l entry low last x y }
{}

/// Says that the verdict on two accesses is the first answer of the rules of the dependence test, in their order.
pub fn verdict_is_first_answer()
    ensures { (shape : LoopShape) (x y : Spot) → verdict_of shape x y ≡ verdict_by_rules shape x y }
{}

/// Says what the arithmetic of the dependence test decides: `gcd_of` is the greatest common divisor, `divides` holds of each
/// multiple, and `has_multiple` holds exactly where a times some distance above 0 lies from low to high.
pub fn pair_laws()
    ensures gcd { (a b : ℕ) → IsGcd a b (gcd_of a b) }
    ensures multiples { (g : ℕ) (q : ℤ) → divides g (q *ℤ pos g) ≡ true }
    ensures reached { (fixed : Option (ℤ × ℤ)) (a d : ℕ) (low high : ℤ) → 0 < a → 0 < d
        → low ≤ℤ pos (a * d) → pos (a * d) ≤ℤ high → is_distance fixed d ≡ true
        → has_multiple fixed a low high ≡ true }
    ensures reaches { (fixed : Option (ℤ × ℤ)) (a : ℕ) (low high : ℤ) → 0 < a → has_multiple fixed a low high ≡ true
        → (d : ℕ) × (0 < d) × (low ≤ℤ pos (a * d)) × (pos (a * d) ≤ℤ high) × (is_distance fixed d ≡ true) }
{}

/// Says that what an iteration does to cells, it does by the accesses of the loop: from a store in which it may begin, each of
/// its deeds on a cell is of an access that touches the cell in that iteration. It may begin where those before it end.
pub fn deeds_touch()
    ensures touched { (l : Loop) (entry : Memory) (low last i : ℤ) (n : ℕ) (m : Memory) → IsLoopEntry l entry low last → IsSteady (For l) []
        → low ≤ℤ i → i <ℤ last → MayBegin l entry m → All (IsOfAccess l entry i) (deeds_all l.body n (declare i m)) }
    ensures begins { (e : Entry) (k : ℕ) → IsLoopEntry e.looped e.store e.low e.last → IsSteady (For e.looped) [] → (e.low +ℤ pos k) ≤ℤ e.last
        → MayBegin e.looped e.store (after e k).store }
{}

/// Says that where the guard of a calm loop's entry holds, no iteration from its low bound to the last but one traps or is out
/// of turns.
pub fn guard_is_enough()
    ensures { (e : Entry) → IsLoopEntry e.looped e.store e.low e.last → IsSteady (For e.looped) [] → IsTrue (is_calm e.looped)
        → IsTrue (guard_of e.looped e.store e.low e.last e.turns) → (k : ℕ) → (e.low +ℤ pos k) ≤ℤ e.last → (after e k).end ≡ Done }
{}

/// Says that where the guard of an entry holds, the exact value of the index of each access without `wrap` lies in its array,
/// which is what accesses that are told apart need to be separate.
pub fn guard_is_within()
    ensures { (l : Loop) (entry : Memory) (low last : ℤ) (n : ℕ) (x : Reference) → IsLoopEntry l entry low last → IsTrue (guard_of l entry low last n)
        → Contains (references_all l.body) x → x.access.wrap ≡ false → Lies l entry low last x }
{}
