//! The plan of a loop.

ghost use Rattle.std.specs.Prelude.{◌≡◌, ◌≤◌, ◌&&◌, [], length, IfOk};
ghost use Rattle.std.specs.List.{list_any};
ghost use Rattle.nona_plans.specs.Components.{components_of};
ghost use Rattle.nona_plans.specs.Plans.{are_narrow, is_free, links_of, plan_of, some_parallel, staged};
ghost use Rattle.nona_plans.specs.Stages.{stages_of};
ghost use Rattle.nona_plans.specs.Units.{graph_of};

use crate::crossing::links;
use crate::placing::stages;
use nona_graph::{calm, components, graph_by, has_print_in, parts_of};
use nona_plans::{CROSSING, Component, Graph, graph_is_between_units};
use nona_tree::{Loop, Plan, Stage};
use sqlite_items::Items;
use std::alloc::{AllocError, Global};

/// Whether some stage is parallel.
fn some_parallel(stages: &[Stage]) -> bool
    ensures { result ≡ some_parallel stages.now }
{
    stages.iter().any(|stage| !stage.sequential)
}

/// Whether few locals cross each link.
fn are_narrow(links: &[Items<u32>]) -> bool
    ensures { result ≡ are_narrow links.now }
{
    links.iter().all(|ids| ids.len() <= CROSSING)
}

/// Whether some component is sequential.
fn some_sequential(components: &[Component]) -> bool
    ensures { result ≡ list_any (λ c. c.sequential) components.now }
{
    components.iter().any(|component| component.sequential)
}

/// Whether a plan may have stages.
fn can_be_staged(stages: &[Stage], links: &[Items<u32>]) -> bool
    ensures { result ≡ (some_parallel stages.now && are_narrow links.now) }
{
    some_parallel(stages) && are_narrow(links)
}

/// A plan without stages.
pub fn without_stages(alloc: Global, any: bool) -> Plan
    ensures { result ≡ record { any = any; pipe = []; crossing = [] } }
{
    Plan {
        any,
        pipe: Items::new(alloc),
        crossing: Items::new(alloc),
    }
}

/// A plan with these stages, where one of them is parallel and few locals cross each link; else one without stages.
fn staged(alloc: Global, any: bool, stages: Items<Stage>, links: Items<Items<u32>>) -> Plan
    ensures { result ≡ staged any stages links }
{
    if can_be_staged(stages.as_slice(), links.as_slice()) {
        Plan {
            any,
            pipe: stages,
            crossing: links,
        }
    } else {
        without_stages(alloc, any)
    }
}

/// The components of a loop's dependence graph.
fn loop_components(
    alloc: Global,
    looped: &Loop,
    graph: &Graph,
) -> Result<Vec<Component>, AllocError>
    requires few { length looped.now.body ≤ 64 }
    requires graph { graph.now ≡ graph_of looped.now }
    ensures { IfOk result (λ components. components.items ≡ components_of (graph_of looped.now)) }
{
    graph_is_between_units();
    components(alloc, graph)
}

/// Whether each task may take any iteration of a loop with these components whole.
fn is_free(looped: &Loop, components: &[Component]) -> bool
    requires { components.now ≡ components_of (graph_of looped.now) }
    ensures { result ≡ is_free looped.now }
{
    !has_print_in(looped.body.as_slice()) && !some_sequential(components)
}

/// The plan of a calm loop.
fn calm_plan(alloc: Global, looped: &Loop) -> Result<Plan, AllocError>
    requires { length looped.now.body ≤ 64 }
    ensures { IfOk result (λ plan.
        plan ≡ staged (is_free looped.now) (stages_of (graph_of looped.now)) (links_of looped.now (stages_of (graph_of looped.now)))) }
{
    let parts = parts_of(alloc, looped)?;
    let graph = graph_by(alloc, looped, &parts)?;
    let components = loop_components(alloc, looped, &graph)?;
    let any = is_free(looped, &components);
    let stages = stages(alloc, &graph, components)?;
    let links = links(alloc, looped, &parts, stages.as_slice())?;
    Ok(staged(alloc, any, stages, links))
}

/// The plan of a loop that has at most 64 units, as one that isn't written `seq for` has: the versions in which it may run besides
/// one iteration after another. A loop that isn't calm has none. Each task may take any iteration whole where no component is
/// sequential and nothing prints; there are stages where one of them is parallel and at most `CROSSING` locals cross each link.
/// Takes a time quadratic in the units and in the loop's accesses. The one error is that memory ran out.
pub fn plan(alloc: Global, looped: &Loop) -> Result<Plan, AllocError>
    requires { length looped.now.body ≤ 64 }
    ensures { IfOk result (λ plan. plan ≡ plan_of looped.now) }
{
    if calm(alloc, looped)? {
        calm_plan(alloc, looped)
    } else {
        Ok(without_stages(alloc, false))
    }
}
