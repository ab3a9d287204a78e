//! A law of what is seen. It does nothing when it is called: its contract is the law.

ghost use Rattle.std.specs.Prelude.{◌≡◌, All, IsTrue};
ghost use Rattle.nona_tree.specs.declared.trees.Loop.{Loop};
ghost use Rattle.nona_tree.specs.declared.trees.Program.{Program};
ghost use Rattle.nona_tree.specs.Entries.{is_among, regions_all};
ghost use Rattle.nona_tree.specs.Places.{HasOwnPlaces};
ghost use Rattle.nona_forms.specs.Calm.{is_calm};
ghost use Rattle.nona_plans.specs.Plans.{plan_of};
ghost use Rattle.nona_stages.specs.Seen.{is_parallel, regions_of, seen_of, seen_places, plan_at};

/// Says that the regions that are seen of a program are the loops from outside in that are parallel, each with its plan, where
/// no two loops have one place; and that each of them is calm.
pub fn regions_are_planned()
    ensures places { (p : Program) → HasOwnPlaces p
        → regions_all (is_among (seen_places (seen_of p))) p.body ≡ regions_all is_parallel p.body }
    ensures plans { (p : Program) → HasOwnPlaces p
        → All (λ l. plan_at (regions_of (seen_of p)) l.at ≡ plan_of l) (regions_all is_parallel p.body) }
    ensures parallel { (p : Program) → All (λ l. IsTrue (is_parallel l)) (regions_all is_parallel p.body) }
    ensures calm { (l : Loop) → IsTrue (is_parallel l) → IsTrue (is_calm l) }
{}
