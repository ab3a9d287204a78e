//! The choice of stages from the components of a dependence graph.

ghost use Rattle.std.specs.Prelude.{◌≡◌, ◌++◌, ◌≤◌, ◌<◌, length, IfOk, None, []};
ghost use Rattle.nona_plans.specs.Components.{components_of};
ghost use Rattle.nona_plans.specs.Stages.{pick, all_units, in_order, joined_by, stages_of};
ghost use Rattle.nona_stages.specs.Choices.{joined_choice, closed_choice, begun_choice, ended_choice, component_at, others_at, come_of, may_join, Steps};

use crate::waiting::{first_of, first_ready, is_among};
use nona_plans::{Component, Graph, STAGES};
use nona_tree::Stage;
use sqlite_items::Items;
use std::alloc::{AllocError, Global};

/// Stages that are being chosen.
#[derive(Debug, Drop)]
pub struct Choice {
    /// The stages before the current one.
    pub done: Items<Stage>,
    /// Their units.
    pub placed: Items<u32>,
    /// The current stage, with its units in the order in which they came.
    pub stage: Stage,
    /// How many more stages may be opened before the last.
    pub room: usize,
    /// The components that are left.
    pub left: Items<Component>,
}

/// A stage with its units in text order.
fn ordered(alloc: Global, graph: &Graph, stage: &Stage) -> Result<Stage, AllocError>
    ensures { IfOk result (λ s. s ≡ in_order graph.now stage.now) }
{
    let mut units = Items::new(alloc);
    for unit in 0..graph.units {
        if is_among(unit + 1, stage.units.as_slice()) {
            units.push(unit + 1)?;
        }
    }
    Ok(Stage {
        sequential: stage.sequential,
        units,
    })
}

/// All units of components.
#[tactic(auto, using(crate::proofs::Passing::units_next))]
fn all_of(alloc: Global, components: &[Component]) -> Result<Items<u32>, AllocError>
    ensures { IfOk result (λ units. units ≡ all_units components.now) }
{
    let mut units = Items::new(alloc);
    for component in components {
        units.append(Items::from_slice(alloc, component.units.as_slice())?)?;
    }
    Ok(units)
}

/// Takes the component at a place out of some.
fn taken(left: &mut Items<Component>, place: usize) -> Component
    requires { place < length left.old }
    ensures item { result ≡ component_at left.old place }
    ensures rest { left.new ≡ others_at left.old place }
{
    left.remove(place)
}

/// A stage that a component joins.
fn with_component(stage: Stage, component: Component) -> Result<Stage, AllocError>
    ensures { IfOk result (λ s. s ≡ joined_by stage component) }
{
    let Stage {
        sequential,
        mut units,
    } = stage;
    units.append(component.units)?;
    Ok(Stage { sequential, units })
}

/// Lets a component join the current stage.
fn joined(choice: Choice, place: usize) -> Result<Choice, AllocError>
    requires { place < length choice.left }
    ensures { IfOk result (λ n. n ≡ joined_choice choice (component_at choice.left place) (others_at choice.left place)) }
{
    let Choice {
        done,
        placed,
        stage,
        room,
        mut left,
    } = choice;
    let component = taken(&mut left, place);
    let stage = with_component(stage, component)?;
    Ok(Choice {
        done,
        placed,
        stage,
        room,
        left,
    })
}

/// Ends the current stage, and begins an empty one.
fn closed(alloc: Global, graph: &Graph, choice: Choice) -> Result<Choice, AllocError>
    ensures { IfOk result (λ n. n ≡ closed_choice graph.now choice) }
{
    let Choice {
        mut done,
        mut placed,
        stage,
        room,
        left,
    } = choice;
    done.push(ordered(alloc, graph, &stage)?)?;
    placed.append(stage.units)?;
    Ok(Choice {
        done,
        placed,
        stage: Stage {
            sequential: true,
            units: Items::new(alloc),
        },
        room,
        left,
    })
}

/// Lets a component be the current stage.
fn begun(choice: Choice, place: usize) -> Choice
    requires place { place < length choice.left }
    requires room { 1 ≤ choice.room }
    ensures { result ≡ begun_choice choice (component_at choice.left place) (others_at choice.left place) }
{
    let Choice {
        done,
        placed,
        stage,
        room,
        mut left,
    } = choice;
    let component = taken(&mut left, place);
    Choice {
        done,
        placed,
        stage: Stage {
            sequential: component.sequential,
            units: component.units,
        },
        room: room - 1,
        left,
    }
}

/// Lets all that is left be the last stage.
fn ended(alloc: Global, choice: Choice) -> Result<Choice, AllocError>
    ensures { IfOk result (λ n. n ≡ ended_choice choice) }
{
    let Choice {
        done,
        placed,
        stage,
        room,
        left,
    } = choice;
    let units = all_of(alloc, left.as_slice())?;
    // among what is left may be a component that one task alone has to run
    let sequential = true;
    Ok(Choice {
        done,
        placed,
        stage: Stage { sequential, units },
        room,
        left: Items::new(alloc),
    })
}

/// Two lists of units, one behind the other.
fn together(alloc: Global, placed: &[u32], units: &[u32]) -> Result<Items<u32>, AllocError>
    ensures { IfOk result (λ all. all ≡ placed.now ++ units.now) }
{
    let mut all = Items::from_slice(alloc, placed)?;
    all.append(Items::from_slice(alloc, units)?)?;
    Ok(all)
}

/// Ends the current stage, and lets all that is left be the last one.
fn closed_and_ended(alloc: Global, graph: &Graph, choice: Choice) -> Result<Choice, AllocError>
    ensures { IfOk result (λ n. n ≡ ended_choice (closed_choice graph.now choice)) }
{
    ended(alloc, closed(alloc, graph, choice)?)
}

/// Ends the current stage, and lets a component be the next one.
fn closed_and_begun(
    alloc: Global,
    graph: &Graph,
    choice: Choice,
    place: usize,
) -> Result<Choice, AllocError>
    requires place { place < length choice.left }
    requires room { 1 ≤ choice.room }
    ensures { IfOk result (λ n. n ≡ begun_choice (closed_choice graph.now choice) (component_at choice.left place) (others_at choice.left place)) }
{
    let closed = closed(alloc, graph, choice)?;
    Ok(begun(closed, place))
}

/// A step where no component joins the current stage: one begins the next stage, or all that is left is the last one.
fn next_stage(
    alloc: Global,
    graph: &Graph,
    choice: Choice,
    all: &[u32],
) -> Result<Choice, AllocError>
    requires some { 1 ≤ length choice.left }
    requires all { all.now ≡ choice.placed ++ choice.stage.units }
    requires none { pick (may_join graph.now choice) choice.left ≡ None }
    ensures { IfOk result (λ n. Steps graph.now choice n) }
{
    if choice.room == 0 {
        return closed_and_ended(alloc, graph, choice);
    }
    match first_ready(graph, all, choice.left.as_slice()) {
        Some(place) => closed_and_begun(alloc, graph, choice, place),
        None => closed_and_ended(alloc, graph, choice),
    }
}

/// A step where all units that were placed, those of the current stage included, are at hand.
fn step_with(
    alloc: Global,
    graph: &Graph,
    choice: Choice,
    all: &[u32],
) -> Result<Choice, AllocError>
    requires some { 1 ≤ length choice.left }
    requires all { all.now ≡ choice.placed ++ choice.stage.units }
    ensures { IfOk result (λ n. Steps graph.now choice n) }
{
    match first_of(choice.stage.sequential, graph, all, choice.left.as_slice()) {
        Some(place) => joined(choice, place),
        None => next_stage(alloc, graph, choice, all),
    }
}

/// A step of the choice: a component joins the current stage, or the next one begins.
fn step(alloc: Global, graph: &Graph, choice: Choice) -> Result<Choice, AllocError>
    requires { 1 ≤ length choice.left }
    ensures { IfOk result (λ n. Steps graph.now choice n) }
{
    let all = together(
        alloc,
        choice.placed.as_slice(),
        choice.stage.units.as_slice(),
    )?;
    step_with(alloc, graph, choice, all.as_slice())
}

/// Steps until no component is left.
fn stepped(alloc: Global, graph: &Graph, choice: Choice) -> Result<Choice, AllocError>
    ensures { IfOk result (λ n. (come_of graph.now n ≡ come_of graph.now choice) × (n.left ≡ [])) }
{
    let mut choice = choice;
    while !choice.left.is_empty() {
        choice = step(alloc, graph, choice)?;
    }
    Ok(choice)
}

/// The stages of a dependence graph with these components. The first is sequential and begins empty; while components are left, the
/// first one that is ready and of the current stage's kind joins it, else the first one that is ready opens a stage of its own
/// kind, and where no other stage may be opened, all that is left is the last one. The one error is that memory ran out.
pub fn stages(
    alloc: Global,
    graph: &Graph,
    components: Vec<Component>,
) -> Result<Items<Stage>, AllocError>
    requires { components.items ≡ components_of graph.now }
    ensures { IfOk result (λ stages. stages ≡ stages_of graph.now) }
{
    let choice = Choice {
        done: Items::new(alloc),
        placed: Items::new(alloc),
        stage: Stage {
            sequential: true,
            units: Items::new(alloc),
        },
        room: STAGES - 2,
        left: Items::from_vec(components),
    };
    let Choice {
        mut done,
        stage,
        ..
    } = stepped(alloc, graph, choice)?;
    done.push(ordered(alloc, graph, &stage)?)?;
    Ok(done)
}
