//! The machine of an interval under `pipe`.

ghost use Rattle.std.specs.Prelude.{◌≡◌, ◌<◌, ◌≤◌, true, IfOk, OnOk, OnErr};
ghost use Rattle.std.specs.Int.{int_gap};
ghost use Rattle.morta_task.specs.declared.limits.TheConstants.{WORKERS};
ghost use Rattle.morta_task.specs.Entries.{IsEntered, before, last};
ghost use Rattle.morta_task.specs.Running.{IsHandoff};
ghost use Rattle.net_flow.specs.Machines.{is_over};
ghost use Rattle.weave.specs.NetView.{EndsWith, MayWant, StepSays, Staged, after_pause, machine, tasks_of};
ghost use Rattle.weave.specs.Staged.{begun_staged};
ghost use Rattle.weave.specs.StagedTasks.{IsStagedTasks, OffersStages, staged_view};

use crate::setting::Setting;
use morta_task::{Cut, Entry, Handoff, Ran, RegionCode, Work};
use net_pipe::{Pipeline, Stages, stages_begin, stages_go_on, stages_settle};
use net_share::{StepEnd, reductions_stand};
use nona_num::{Fold, offset};
use nona_tree::Outcome;
use std::alloc::{AllocError, Global};

/// The tasks of an interval whose iterations go through the stages of an entry's plan, from an index on.
#[derive(Drop)]
pub struct StagedTasks<'a> {
    entry: &'a Entry,
    reductions: &'a [(u32, Fold)],
    /// The index of the first iteration.
    from: i64,
    pipeline: Pipeline<'a>,
}

impl<'a> StagedTasks<'a> {
    /// The machine of an interval of an entry to the loop of this region, which offers `pipe`: it begins where the handoff stands, has a
    /// task for each sequential stage and one for each worker of a parallel one, and grants up to `limit` iterations. For each task its
    /// frame is made, and the scalars are copied; no array is. An error comes where memory runs out.
    pub fn begin(
        alloc: Global,
        entry: &'a Entry,
        code: &'a RegionCode,
        handoff: Handoff,
        setting: Setting,
        limit: u64,
    ) -> Result<StagedTasks<'a>, AllocError>
        requires entered { IsEntered entry.now }
        requires offers { OffersStages entry.now }
        requires looped { code.now.looped ≡ entry.now.looped }
        requires plan { code.now.plan ≡ entry.now.plan }
        requires state { IsHandoff entry.now handoff }
        requires room { limit ≤ int_gap handoff.next (last entry.now) }
        requires workers { (1 ≤ setting.config.workers) × (setting.config.workers ≤ WORKERS) }
        requires capacity { 1 ≤ setting.capacity }
        ensures net { IfOk result (λ net. staged_view net ≡ Staged entry.now (before entry.now handoff.next) setting.config.workers setting.capacity
            (begun_staged entry.now (before entry.now handoff.next) limit setting.config.workers setting.capacity)) }
        ensures sound { IfOk result IsStagedTasks }
    {
        stages_begin();
        reductions_stand();
        let Handoff { next, store } = handoff;
        let stages = Stages {
            units: code.units(),
            plan: code.plan(),
            from: next,
            limit,
            turns: entry.turns(),
            depth: store.depth(),
            workers: setting.config.workers as usize,
            capacity: setting.capacity,
        };
        let _last = entry.last();
        let reductions = code.reductions();
        let pipeline = Pipeline::begin(alloc, stages, store, reductions)?;
        Ok(StagedTasks {
            entry,
            reductions,
            from: next,
            pipeline,
        })
    }

    /// How many tasks there are.
    pub fn tasks(&self) -> usize
        ensures { result ≡ tasks_of (staged_view self.now) }
    {
        self.pipeline.tasks()
    }

    /// Whether all tasks have finished.
    pub fn is_over(&self) -> bool
        requires { IsStagedTasks self.now }
        ensures { result ≡ is_over machine (staged_view self.now) }
    {
        self.pipeline.is_over()
    }

    /// Sets the pause mark: no claim is granted any more, and what is in the stages drains.
    pub fn pause(&mut self)
        requires { IsStagedTasks self.old }
        ensures net { staged_view self.new ≡ after_pause (staged_view self.old) }
        ensures sound { IsStagedTasks self.new }
    {
        stages_go_on();
        self.pipeline.pause();
    }

    /// Does one step of a task: a claim, a receive, one unit, a send, or nothing where it has finished; or it waits. It takes constant
    /// time beside the unit, the locals that it skips, and a packet. An error comes where memory runs out in a unit, and the machine
    /// is then spent.
    pub fn step(&mut self, task: usize) -> Result<StepEnd, AllocError>
        requires sound { IsStagedTasks self.old }
        requires there { task < tasks_of (staged_view self.old) }
        ensures says { IfOk result (λ end. StepSays end task (staged_view self.old) (staged_view self.new)) }
        ensures sound { OnOk result (IsStagedTasks self.new) }
        ensures err { OnErr result (MayWant (staged_view self.old) task) }
    {
        stages_go_on();
        self.pipeline.step(task)
    }

    /// What the interval did, and the live state that it hands on, once all tasks have finished. The store is moved, and settled. An
    /// error comes where memory runs out, which only printed numbers take.
    pub fn settle(self) -> Result<(Handoff, Ran), AllocError>
        requires sound { IsStagedTasks self }
        requires over { is_over machine (staged_view self) ≡ true }
        ensures { IfOk result (λ r. EndsWith (staged_view self.entry) r.1 r.0) }
    {
        stages_settle();
        reductions_stand();
        let granted = self.pipeline.granted();
        let to = offset(self.from, granted);
        let ran = Ran {
            to,
            work: Some(Work {
                steps: self.pipeline.moves(),
                waits: self.pipeline.waits(),
            }),
            ticks: self.pipeline.ticks(),
            cut: Cut::of(Outcome::Done, granted, self.pipeline.limit()),
        };
        let store = self.pipeline.settle(self.reductions)?;
        Ok((Handoff { next: to, store }, ran))
    }
}
