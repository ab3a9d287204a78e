//! The tasks and the links before the first step.

ghost use Rattle.std.specs.Prelude.{◌≡◌, ◌<◌, ◌≤◌, ◌-◌, ◌*◌, ◌++◌, [], length, map, replicate, All, IfOk, OnOk};
ghost use Rattle.net_flow.specs.Begun.{first_of, tasks_of, workers_of};
ghost use Rattle.net_flow.specs.Shapes.{tasks_in};
ghost use Rattle.net_share.specs.Begins.{AreThere};
ghost use Rattle.net_share.specs.Tasks.{HasRoom};
ghost use Rattle.net_pipe.specs.Works.{shape_of};
ghost use Rattle.net_pipe.specs.Begun.{first_values};
ghost use Rattle.net_pipe.specs.Links.{LinkView};
ghost use Rattle.net_pipe.specs.Staged.{IsStaged, staging_of};
ghost use Rattle.net_pipe.specs.Tasks.{TaskView, task_over};

use crate::link::Link;
use crate::stages::Stages;
use crate::task::Task;
use net_share::{first_scalars, room_for};
use nona_num::Fold;
use nona_store::Store;
use std::alloc::{AllocError, Global};

/// One task before its first step.
fn first_task(
    alloc: Global,
    stage: usize,
    worker: usize,
    stages: &Stages,
    store: &Store,
    reductions: &[(u32, Fold)],
) -> Result<Task, AllocError>
    requires { AreThere reductions.now store.now.scalars }
    ensures task { IfOk result (λ task. task_over store.now task ≡ first_of (λ s w. first_values store.now reductions.now) stage worker) }
    ensures room { IfOk result (λ task. stages.now.units.now.room ≤ task.room) }
    ensures reserved { IfOk result (λ task. HasRoom stages.now.depth stages.now.units.now task.share) }
{
    let room = room_for(stages.depth, stages.units)?;
    let scalars = first_scalars(alloc, room, store, reductions)?;
    let task = Task::begin(alloc, stage, worker, stages.units, scalars)?;
    Ok(task)
}

/// How many tasks a stage has.
fn tasks_in(stages: &Stages, stage: usize) -> usize
    requires { stage < length stages.now.plan.now.pipe }
    ensures { result ≡ tasks_in ((shape_of (staging_of stages.now)).parallel stage) stages.now.workers }
{
    if stages.is_parallel(stage) {
        stages.workers
    } else {
        1
    }
}

/// Adds the tasks of a stage before their first steps, with a frame each.
#[tactic(auto, using(crate::proofs::Beginning::one_more, crate::proofs::Beginning::none_more))]
fn add_tasks(
    alloc: Global,
    stage: usize,
    stages: &Stages,
    store: &Store,
    reductions: &[(u32, Fold)],
    tasks: &mut Vec<Task>,
) -> Result<(), AllocError>
    requires stage { stage < length stages.now.plan.now.pipe }
    requires there { AreThere reductions.now store.now.scalars }
    requires room { All (λ (x : TaskView). stages.now.units.now.room ≤ x.room) tasks.old.items }
    requires reserved { All (λ (x : TaskView). HasRoom stages.now.depth stages.now.units.now x.share) tasks.old.items }
    ensures tasks { OnOk result (map (task_over store.now) tasks.new.items ≡ map (task_over store.now) tasks.old.items
        ++ workers_of (λ s w. first_values store.now reductions.now) stage (tasks_in ((shape_of (staging_of stages.now)).parallel stage) stages.now.workers)) }
    ensures room { OnOk result (All (λ (x : TaskView). stages.now.units.now.room ≤ x.room) tasks.new.items) }
    ensures reserved { OnOk result (All (λ (x : TaskView). HasRoom stages.now.depth stages.now.units.now x.share) tasks.new.items) }
{
    'workers: for worker in 0..tasks_in(stages, stage) {
        tasks.push(first_task(alloc, stage, worker, stages, store, reductions)?)?;
    }
    Ok(())
}

/// The tasks of all stages before their first steps.
#[tactic(auto, using(crate::proofs::Beginning::one_stage))]
pub(crate) fn first_tasks(
    alloc: Global,
    stages: &Stages,
    store: &Store,
    reductions: &[(u32, Fold)],
) -> Result<Vec<Task>, AllocError>
    requires { AreThere reductions.now store.now.scalars }
    ensures tasks { IfOk result (λ tasks. map (task_over store.now) tasks.items
        ≡ tasks_of (shape_of (staging_of stages.now)) (λ s w. first_values store.now reductions.now) (length stages.now.plan.now.pipe)) }
    ensures room { IfOk result (λ tasks. All (λ (x : TaskView). stages.now.units.now.room ≤ x.room) tasks.items) }
    ensures reserved { IfOk result (λ tasks. All (λ (x : TaskView). HasRoom stages.now.depth stages.now.units.now x.share) tasks.items) }
{
    let mut tasks = Vec::new(alloc);
    'stages: for stage in 0..stages.count() {
        add_tasks(alloc, stage, stages, store, reductions, &mut tasks)?;
    }
    Ok(tasks)
}

/// The links between the stages, all empty.
#[tactic(auto, using(crate::proofs::Beginning::one_link))]
pub(crate) fn first_links(alloc: Global, stages: &Stages) -> Result<Vec<Link>, AllocError>
    requires { IsStaged (staging_of stages.now) }
    ensures links { IfOk result (λ links. map (λ (l : LinkView). l.messages) links.items
        ≡ replicate ((length stages.now.plan.now.pipe - 1) * stages.now.workers) []) }
    ensures capacity { IfOk result (λ links. All (λ (l : LinkView). l.capacity ≡ stages.now.capacity) links.items) }
{
    let mut links = Vec::new(alloc);
    'links: for _ in 0..stages.count().saturating_sub(1) * stages.workers {
        links.push(Link::begin(alloc, stages.capacity)?)?;
    }
    Ok(links)
}
