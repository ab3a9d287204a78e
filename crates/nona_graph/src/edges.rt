//! The dependence graph of a loop.

ghost use Rattle.std.specs.Prelude.{◌≡◌, ◌<◌, ◌^◌, ◌++◌, if◌then◌else◌, [], ◌∷◌, length, IfOk, OnOk};
ghost use Rattle.std.specs.List.{flat_map};
ghost use Rattle.nona_plans.specs.Units.{edges_of, graph_of, local_edges, tie_edges, ties_of, uses};
ghost use Rattle.nona_graph.specs.Facts.{IsOf, uses_edges};

use crate::parts::{Parts, parts_of};
use crate::tying::{does_use, ties_by};
use nona_plans::{Graph, Local, Tie};
use nona_tree::Loop;
use sqlite_items::Items;
use std::alloc::{AllocError, Global};

/// Appends the edges both ways between two tied units.
fn push_tied(tie: Tie, edges: &mut Items<(u32, u32)>) -> Result<(), AllocError>
    ensures { OnOk result (edges.new ≡ edges.old ++ tie_edges tie) }
{
    if tie.first == tie.second {
        Ok(())
    } else {
        edges.push((tie.first, tie.second))?;
        edges.push((tie.second, tie.first))?;
        Ok(())
    }
}

/// Appends the edges between tied units.
#[tactic(auto, using(crate::proofs::EdgeSteps::tied_next))]
fn push_all_tied(ties: &[Tie], edges: &mut Items<(u32, u32)>) -> Result<(), AllocError>
    ensures { OnOk result (edges.new ≡ edges.old ++ flat_map tie_edges ties.now) }
{
    for tie in ties {
        push_tied(*tie, edges)?;
    }
    Ok(())
}

/// Appends the edge from a local's `let` to a unit, if the unit uses it.
fn push_use(
    looped: &Loop,
    parts: &Parts,
    local: Local,
    unit: u32,
    edges: &mut Items<(u32, u32)>,
) -> Result<(), AllocError>
    requires { IsOf looped.now parts.now }
    ensures { OnOk result (edges.new ≡ edges.old ++ (if uses looped.now local unit then (local.unit, unit) ∷ [] else [])) }
{
    if does_use(looped, parts, local, unit) {
        edges.push((local.unit, unit))?;
        Ok(())
    } else {
        Ok(())
    }
}

/// Appends the edges from a local's `let` to each unit that uses it.
fn push_uses(
    looped: &Loop,
    parts: &Parts,
    local: Local,
    edges: &mut Items<(u32, u32)>,
) -> Result<(), AllocError>
    requires parts { IsOf looped.now parts.now }
    requires few { length looped.now.body < 2 ^ 32 }
    ensures { OnOk result (edges.new ≡ edges.old ++ uses_edges looped.now local) }
{
    let count = looped.body.len() as u32;
    for unit in 0..count {
        push_use(looped, parts, local, unit + 1, edges)?;
    }
    Ok(())
}

/// Appends the edges from a local's `let` to each unit that uses it, unless the local is assigned.
fn push_local(
    looped: &Loop,
    parts: &Parts,
    local: Local,
    edges: &mut Items<(u32, u32)>,
) -> Result<(), AllocError>
    requires parts { IsOf looped.now parts.now }
    requires few { length looped.now.body < 2 ^ 32 }
    ensures { OnOk result (edges.new ≡ edges.old ++ local_edges looped.now local) }
{
    if local.assigned {
        Ok(())
    } else {
        push_uses(looped, parts, local, edges)
    }
}

/// Appends the edges from the `let` of each of some locals.
#[tactic(auto, using(crate::proofs::EdgeSteps::local_next))]
fn push_locals(
    looped: &Loop,
    parts: &Parts,
    locals: &[Local],
    edges: &mut Items<(u32, u32)>,
) -> Result<(), AllocError>
    requires parts { IsOf looped.now parts.now }
    requires few { length looped.now.body < 2 ^ 32 }
    ensures { OnOk result (edges.new ≡ edges.old ++ flat_map (local_edges looped.now) locals.now) }
{
    for local in locals {
        push_local(looped, parts, *local, edges)?;
    }
    Ok(())
}

/// The edges of a loop with these ties.
fn edges(
    alloc: Global,
    looped: &Loop,
    parts: &Parts,
    ties: &[Tie],
) -> Result<Items<(u32, u32)>, AllocError>
    requires parts { IsOf looped.now parts.now }
    requires few { length looped.now.body < 2 ^ 32 }
    requires ties { ties.now ≡ ties_of looped.now }
    ensures { IfOk result (λ edges. edges ≡ edges_of looped.now) }
{
    let mut edges = Items::new(alloc);
    push_all_tied(ties, &mut edges)?;
    push_locals(looped, parts, &parts.locals, &mut edges)?;
    Ok(edges)
}

/// The dependence graph of a loop of whose units this is known. The one error is that memory ran out.
pub fn graph_by(alloc: Global, looped: &Loop, parts: &Parts) -> Result<Graph, AllocError>
    requires parts { IsOf looped.now parts.now }
    requires few { length looped.now.body < 2 ^ 32 }
    ensures { IfOk result (λ graph. graph ≡ graph_of looped.now) }
{
    let ties = ties_by(alloc, looped, parts)?;
    let edges = edges(alloc, looped, parts, &ties)?;
    Ok(Graph {
        units: looped.body.len() as u32,
        edges,
        ties: Items::from_vec(ties),
    })
}

/// The dependence graph of a loop's units, which are the statements at the top of its body: its ties, and its edges both ways
/// between tied units and from the `let` of a local that is never assigned to each unit that uses it. Takes a time quadratic in
/// the units and in the loop's accesses. The one error is that memory ran out.
pub fn graph(alloc: Global, looped: &Loop) -> Result<Graph, AllocError>
    requires { length looped.now.body < 2 ^ 32 }
    ensures { IfOk result (λ graph. graph ≡ graph_of looped.now) }
{
    let parts = parts_of(alloc, looped)?;
    graph_by(alloc, looped, &parts)
}
