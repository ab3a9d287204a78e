//! Laws of plans. Each function does nothing when it is called: its contract is the law.

ghost use Rattle.std.specs.Prelude.{◌≡◌, ◌≢◌, ℕ, List, [], true, ◌↔◌};
ghost use Rattle.std.specs.List.{AllByRecursion, list_any};
ghost use Rattle.nona_tree.specs.declared.trees.Loop.{Loop};
ghost use Rattle.nona_plans.specs.declared.graphs.Component.{Component};
ghost use Rattle.nona_plans.specs.declared.graphs.Graph.{Graph};
ghost use Rattle.nona_plans.specs.declared.limits.TheConstants as limits;
ghost use Rattle.nona_plans.specs.Lawful.{IsGraph, IsComponent, AreClosed, AreLawful};
ghost use Rattle.nona_plans.specs.Plans.{plan_of, IsLawfulPlan};
ghost use Rattle.nona_plans.specs.Stages.{stages_of, is_ready};
ghost use Rattle.nona_plans.specs.Units.{graph_of};
ghost use Rattle.nona_plans.specs.Walks.{Walk, leads, AreBetween};

/// Says that the test by which components are found holds exactly where a walk leads from one unit to another.
pub fn leads_where_walk()
    ensures { (edges : List (ℕ × ℕ)) (n i j : ℕ) → AreBetween n edges → (leads edges n i j ≡ true) ↔ Walk edges i j }
{}

/// Says that each edge and each tie of a loop's dependence graph is between units of the loop, and that edges lead both ways
/// between two tied units.
pub fn graph_is_between_units()
    ensures { (l : Loop) → IsGraph (graph_of l) }
{}

/// Says that as long as components are left, one of them is ready: the graph of components has no cycle.
pub fn some_component_is_ready()
    ensures { (g : Graph) (placed : List ℕ) (left : List Component) → IsGraph g → AllByRecursion (IsComponent g) left → AreClosed g placed left
        → left ≢ [] → list_any (is_ready g placed) left ≡ true }
{}

/// Says that the stages that are chosen are lawful.
pub fn stages_are_lawful()
    ensures { (g : Graph) → IsGraph g → AreLawful g (stages_of g) }
{}

/// Says that the plan of a loop is lawful.
pub fn plan_is_lawful()
    ensures { (l : Loop) → IsLawfulPlan l (plan_of l) }
{}

/// Says how many stages, parallel stages and values that cross from one stage to the next a plan has at most.
pub fn limits_are()
    ensures stages { limits.STAGES ≡ 7 }
    ensures parallel { limits.PARALLEL ≡ 3 }
    ensures crossing { limits.CROSSING ≡ 8 }
{}
