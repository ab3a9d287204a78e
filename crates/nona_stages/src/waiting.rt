//! Which components may be placed next.

ghost use Rattle.std.specs.Prelude.{◌≡◌, ◌++◌, ◌&&◌, ◌||◌, ◌<◌, not, length, IfSome};
ghost use Rattle.nona_forms.specs.Affine.{among};
ghost use Rattle.nona_plans.specs.Stages.{are_fed, is_ready, same_kind, pick};
ghost use Rattle.nona_stages.specs.Picking.{picked_at};

use nona_plans::{Component, Graph};

/// Whether a unit is among others.
#[tactic(auto, using(crate::proofs::Passing::among_next))]
pub fn is_among(unit: u32, units: &[u32]) -> bool
    ensures { result ≡ among unit units.now }
{
    let mut found = false;
    for other in units {
        found = found || unit == *other;
    }
    found
}

/// Whether both hold.
fn are_both(one: bool, other: bool) -> bool
    ensures { result ≡ (one && other) }
{
    one && other
}

/// Whether an edge leads elsewhere, or comes from one of the units or from one that was placed.
fn is_fed(edge: (u32, u32), units: &[u32], placed: &[u32]) -> bool
    ensures { result ≡ (not (among edge.1 units.now) || (among edge.0 units.now || among edge.0 placed.now)) }
{
    !is_among(edge.1, units) || is_among(edge.0, units) || is_among(edge.0, placed)
}

/// Whether each edge to one of the units comes from one of them or from one that was placed.
#[tactic(auto, using(crate::proofs::Passing::fed_next))]
fn all_fed(edges: &[(u32, u32)], units: &[u32], placed: &[u32]) -> bool
    ensures { result ≡ are_fed edges.now (units.now ++ placed.now) units.now }
{
    let mut fed = true;
    for edge in edges {
        fed = are_both(fed, is_fed(*edge, units, placed));
    }
    fed
}

/// Whether each edge into a component comes from it or from a unit that was placed.
fn can_be_placed(graph: &Graph, placed: &[u32], component: &Component) -> bool
    ensures { result ≡ is_ready graph.now placed.now component.now }
{
    all_fed(graph.edges.as_slice(), component.units.as_slice(), placed)
}

/// Whether a component is of a kind and ready.
fn can_join(kind: bool, graph: &Graph, placed: &[u32], component: &Component) -> bool
    ensures { result ≡ (same_kind kind component.now.sequential && is_ready graph.now placed.now component.now) }
{
    component.sequential == kind && can_be_placed(graph, placed, component)
}

/// The place of the first component that is of a kind and ready.
pub fn first_of(kind: bool, graph: &Graph, placed: &[u32], left: &[Component]) -> Option<usize>
    ensures within { IfSome result (λ place. place < length left.now) }
    ensures first { pick (λ c. same_kind kind c.sequential && is_ready graph.now placed.now c) left.now ≡ picked_at result left.now }
{
    for place in 0..left.len() {
        if can_join(kind, graph, placed, &left[place]) {
            return Some(place);
        }
    }
    None
}

/// The place of the first component that is ready.
pub fn first_ready(graph: &Graph, placed: &[u32], left: &[Component]) -> Option<usize>
    ensures within { IfSome result (λ place. place < length left.now) }
    ensures first { pick (is_ready graph.now placed.now) left.now ≡ picked_at result left.now }
{
    for place in 0..left.len() {
        if can_be_placed(graph, placed, &left[place]) {
            return Some(place);
        }
    }
    None
}
