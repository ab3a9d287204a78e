//! The strongly connected components of a dependence graph.

ghost use Rattle.std.specs.Prelude.{◌≡◌, ◌==◌, ◌||◌, ◌≤◌, ℕ, List, length, IfOk, filter};
ghost use Rattle.std.specs.List.{All};
ghost use Rattle.nona_forms.specs.Affine.{among};
ghost use Rattle.nona_plans.specs.Walks.{IsUnit, AreBetween, has_edge, are_together};
ghost use Rattle.nona_plans.specs.Components.{has_carried, is_held, component_of, components_of};
ghost use Rattle.nona_graph.specs.Sets.{ShowWalks, AreEnds, has_at};

use crate::reaching::{add_edge, pass_all};
use crate::sets::{UnitSet, has, only};
use nona_plans::{Component, Graph, Tie};
use sqlite_items::Items;
use std::alloc::{AllocError, Global};

/// Whether a unit is among others.
#[tactic(auto, using(crate::proofs::Passed::among_next))]
pub fn is_among(unit: u32, units: &[u32]) -> bool
    ensures { result ≡ among unit units.now }
{
    let mut found = false;
    for other in units {
        found = found || unit == *other;
    }
    found
}

/// Whether a unit stands in one of these components.
#[tactic(auto, using(crate::proofs::Passed::held_next))]
fn is_in_some(unit: u32, components: &[Component]) -> bool
    ensures { result ≡ is_held unit components.now }
{
    let mut found = false;
    for component in components {
        found = found || is_among(unit, component.units.as_slice());
    }
    found
}

/// Whether a carried tie joins two of these units, or one with itself.
#[tactic(auto, using(crate::proofs::Passed::carried_next))]
fn is_carried(ties: &[Tie], units: &[u32]) -> bool
    ensures { result ≡ has_carried ties.now units.now }
{
    let mut found = false;
    for tie in ties {
        found = found || tie.carried && (is_among(tie.first, units) && is_among(tie.second, units));
    }
    found
}

/// The rows of units that have only themselves.
fn singles(alloc: Global, count: u32) -> Result<Vec<UnitSet>, AllocError>
    requires { count ≤ 64 }
    ensures { IfOk result (λ rows. (length rows.items ≡ count)
        × ((i j : ℕ) → IsUnit count i → IsUnit count j → has_at rows.items i j ≡ (i == j))) }
{
    let mut rows = Vec::new(alloc);
    for unit in 0..count {
        rows.push(only(unit + 1))?;
    }
    Ok(rows)
}

/// Whether walks lead both ways between two units.
fn both_ways(rows: &[UnitSet], one: u32, other: u32) -> bool
    requires few { length rows.now ≤ 64 }
    requires one { IsUnit (length rows.now) one }
    requires other { IsUnit (length rows.now) other }
    ensures { (edges : List (ℕ × ℕ)) → ShowWalks edges (length rows.now) rows.now → result ≡ are_together edges (length rows.now) one other }
{
    has(rows[(one - 1) as usize], other) && has(rows[(other - 1) as usize], one)
}

/// Lets the row of each edge's first unit have its second.
fn add_edges(rows: &mut [UnitSet], edges: &[(u32, u32)])
    requires few { length rows.now ≤ 64 }
    requires units { All (AreEnds (length rows.now)) edges.now }
    ensures size { length rows.new ≡ length rows.old }
    ensures edges { (i j : ℕ) → IsUnit (length rows.old) i → IsUnit (length rows.old) j
        → has_at rows.new i j ≡ (has_at rows.old i j || has_edge edges.now i j) }
{
    for edge in edges {
        add_edge(rows, *edge);
    }
}

/// The rows of all units, which show the walks of a graph.
fn rows_of(alloc: Global, units: u32, edges: &[(u32, u32)]) -> Result<Vec<UnitSet>, AllocError>
    requires few { units ≤ 64 }
    requires edges { All (AreEnds units) edges.now }
    ensures size { IfOk result (λ rows. length rows.items ≡ units) }
    ensures walks { IfOk result (λ rows. ShowWalks edges.now units rows.items) }
{
    let mut rows = singles(alloc, units)?;
    add_edges(&mut rows, edges);
    pass_all(&mut rows);
    Ok(rows)
}

/// The component of a unit.
fn component(
    alloc: Global,
    graph: &Graph,
    rows: &[UnitSet],
    unit: u32,
) -> Result<Component, AllocError>
    requires few { graph.now.units ≤ 64 }
    requires size { length rows.now ≡ graph.now.units }
    requires walks { ShowWalks graph.now.edges graph.now.units rows.now }
    requires unit { IsUnit graph.now.units unit }
    ensures { IfOk result (λ c. c ≡ component_of graph.now unit) }
{
    let mut units = Items::new(alloc);
    for other in 0..graph.units {
        if both_ways(rows, unit, other + 1) {
            units.push(other + 1)?;
        }
    }
    let sequential = is_carried(graph.ties.as_slice(), units.as_slice());
    Ok(Component { units, sequential })
}

/// The components of a graph where rows show its walks.
fn grouped(alloc: Global, graph: &Graph, rows: &[UnitSet]) -> Result<Vec<Component>, AllocError>
    requires few { graph.now.units ≤ 64 }
    requires size { length rows.now ≡ graph.now.units }
    requires walks { ShowWalks graph.now.edges graph.now.units rows.now }
    ensures { IfOk result (λ components. components.items ≡ components_of graph.now) }
{
    let mut components = Vec::new(alloc);
    for unit in 0..graph.units {
        if !is_in_some(unit + 1, &components) {
            components.push(component(alloc, graph, rows, unit + 1)?)?;
        }
    }
    Ok(components)
}

/// The strongly connected components of a dependence graph, in order of their least unit. The graph has at most 64 units, as a
/// loop that isn't written `seq for` has, and its edges are between them. Takes a time quadratic in the units beside one pass over
/// the edges, and one over the ties for each component. The one error is that memory ran out.
pub fn components(alloc: Global, graph: &Graph) -> Result<Vec<Component>, AllocError>
    requires few { graph.now.units ≤ 64 }
    requires edges { AreBetween graph.now.units graph.now.edges }
    ensures { IfOk result (λ components. components.items ≡ components_of graph.now) }
{
    let rows = rows_of(alloc, graph.units, graph.edges.as_slice())?;
    grouped(alloc, graph, &rows)
}
