//! The machine of an interval, in any version.

ghost use Rattle.std.specs.Prelude.{◌≡◌, ◌<◌, ◌≤◌, true, IsTrue, IfOk, OnOk, OnErr};
ghost use Rattle.std.specs.Int.{int_gap};
ghost use Rattle.morta_task.specs.Entries.{IsEntered, last, offers};
ghost use Rattle.morta_task.specs.Running.{IsConfig, IsHandoff};
ghost use Rattle.net_flow.specs.Machines.{RunsOut, is_over, round as round_of, step_times as stepped_times};
ghost use Rattle.weave.specs.NetView.{BeginsIn, EndsWith, MayWant, NetView, StepSays, after_pause, machine, tasks_of};
ghost use Rattle.weave.specs.Nets.{IsNet, left_in, view_of};
ghost use Rattle.weave.specs.Serving.{RunsIn};

use crate::one_task::OneTask;
use crate::setting::Setting;
use crate::shared_tasks::SharedTasks;
use crate::staged_tasks::StagedTasks;
use morta_task::{Entry, Handoff, Ran, RegionCode, Scheme};
use net_share::StepEnd;
use std::alloc::{AllocError, Global};

/// How many rounds more the tasks step before it is looked whether all have finished.
const MORE_ROUNDS: usize = 15;

/// The machine of an interval: one task, tasks that share the iterations, or tasks of the stages through which these go.
#[derive(Drop)]
pub enum Net<'a> {
    One(OneTask<'a>),
    Shared(SharedTasks<'a>),
    Staged(StagedTasks<'a>),
}

impl<'a> Net<'a> {
    /// The machine of an interval of an entry to the loop of this region, in a configuration that the entry offers, whose links hold a
    /// message at least: it begins where the handoff stands, and grants up to `limit` iterations. An error comes where memory runs out.
    pub fn begin(
        alloc: Global,
        entry: &'a Entry,
        code: &'a RegionCode,
        handoff: Handoff,
        setting: Setting,
        limit: u64,
    ) -> Result<Net<'a>, AllocError>
        requires entered { IsEntered entry.now }
        requires served { RunsIn entry.now.looped entry.now.plan setting.config.scheme }
        requires offered { IsTrue (offers entry.now setting.config.scheme) }
        requires workers { IsConfig setting.config }
        requires capacity { 1 ≤ setting.capacity }
        requires looped { code.now.looped ≡ entry.now.looped }
        requires plan { code.now.plan ≡ entry.now.plan }
        requires state { IsHandoff entry.now handoff }
        requires room { limit ≤ int_gap handoff.next (last entry.now) }
        ensures net { IfOk result (λ net.
            BeginsIn setting.config.scheme setting.config.workers setting.capacity entry.now handoff.next limit handoff.store (view_of net)) }
        ensures sound { IfOk result IsNet }
    {
        match setting.config.scheme {
            Scheme::Seq => {
                let task = OneTask::begin(entry, code.units(), handoff, limit)?;
                Ok(Net::One(task))
            }
            Scheme::Any => {
                let tasks = SharedTasks::begin(
                    alloc,
                    entry,
                    code,
                    handoff,
                    setting.config.workers,
                    limit,
                )?;
                Ok(Net::Shared(tasks))
            }
            Scheme::Pipe => {
                let tasks = StagedTasks::begin(alloc, entry, code, handoff, setting, limit)?;
                Ok(Net::Staged(tasks))
            }
        }
    }

    /// How many tasks there are.
    pub fn tasks(&self) -> usize
        ensures { result ≡ tasks_of (view_of self.now) }
    {
        match self {
            Net::One(_) => 1,
            Net::Shared(tasks) => tasks.tasks(),
            Net::Staged(tasks) => tasks.tasks(),
        }
    }

    /// Whether all tasks have finished.
    pub fn is_over(&self) -> bool
        requires { IsNet self.now }
        ensures { result ≡ is_over machine (view_of self.now) }
    {
        match self {
            Net::One(task) => task.is_finished(),
            Net::Shared(tasks) => tasks.is_over(),
            Net::Staged(tasks) => tasks.is_over(),
        }
    }

    /// Sets the pause mark: no claim is granted any more.
    pub fn pause(&mut self)
        requires { IsNet self.old }
        ensures net { view_of self.new ≡ after_pause (view_of self.old) }
        ensures sound { IsNet self.new }
    {
        match self {
            Net::One(task) => task.pause(),
            Net::Shared(tasks) => tasks.pause(),
            Net::Staged(tasks) => tasks.pause(),
        }
    }

    /// Does one step of a task: a claim, a receive, one unit, a send, or nothing where it has finished; or it waits. It takes constant
    /// time beside the unit, the locals that a stage skips, and a packet. An error comes where memory runs out, and the machine is
    /// then spent: in a unit, or in a claim of the one task under `seq`.
    fn step(&mut self, task: usize) -> Result<StepEnd, AllocError>
        requires sound { IsNet self.old }
        requires there { task < tasks_of (view_of self.old) }
        ensures says { IfOk result (λ end. StepSays end task (view_of self.old) (view_of self.new)) }
        ensures sound { OnOk result (IsNet self.new) }
        ensures err { OnErr result (MayWant (view_of self.old) task) }
    {
        match self {
            Net::One(one) => {
                if one.is_finished() {
                    return Ok(StepEnd::Finished);
                }
                one.step()?;
                Ok(StepEnd::Moved)
            }
            Net::Shared(tasks) => tasks.step(task),
            Net::Staged(tasks) => tasks.step(task),
        }
    }

    /// Steps a task so often, or until it waits once or has finished.
    pub fn step_times(&mut self, task: usize, moves: u64) -> Result<(), AllocError>
        requires sound { IsNet self.old }
        requires there { task < tasks_of (view_of self.old) }
        ensures net { OnOk result (view_of self.new ≡ stepped_times machine moves task (view_of self.old)) }
        ensures sound { OnOk result (IsNet self.new) }
    {
        'steps: for _taken in 0..moves {
            match self.step(task)? {
                StepEnd::Moved => {}
                StepEnd::Waits | StepEnd::Finished => return Ok(()),
            }
        }
        Ok(())
    }

    /// Steps each task once, from task 0 on.
    fn round(&mut self) -> Result<(), AllocError>
        requires { IsNet self.old }
        ensures net { OnOk result (view_of self.new ≡ round_of machine (view_of self.old)) }
        ensures sound { OnOk result (IsNet self.new) }
    {
        'tasks: for task in 0..self.tasks() {
            let _end = self.step(task)?;
        }
        Ok(())
    }

    /// Steps the tasks round robin, each so often; once all have finished nothing changes any more.
    fn more_rounds(&mut self, count: usize) -> Result<(), AllocError>
        requires { IsNet self.old }
        ensures net { OnOk result ((end : NetView) → RunsOut machine (view_of self.new) end → RunsOut machine (view_of self.old) end) }
        ensures left { OnOk result (left_in (view_of self.new) ≤ left_in (view_of self.old)) }
        ensures sound { OnOk result (IsNet self.new) }
    {
        'rounds: for _done in 0..count {
            self.round()?;
        }
        Ok(())
    }

    /// Steps the tasks round robin until all have finished.
    pub fn run_out(&mut self) -> Result<(), AllocError>
        requires { IsNet self.old }
        ensures net { OnOk result (RunsOut machine (view_of self.old) (view_of self.new)) }
        ensures sound { OnOk result (IsNet self.new) }
    {
        'rounds: while !self.is_over() {
            self.round()?;
            self.more_rounds(MORE_ROUNDS)?;
        }
        Ok(())
    }

    /// What the interval did, and the live state that it hands on, once all tasks have finished. The store is moved. An error comes
    /// where memory runs out, which only numbers take that stages have printed.
    pub fn settle(self) -> Result<(Handoff, Ran), AllocError>
        requires sound { IsNet self }
        requires over { is_over machine (view_of self) ≡ true }
        ensures { IfOk result (λ r. EndsWith (view_of self.entry) r.1 r.0) }
    {
        match self {
            Net::One(task) => Ok(task.finish()),
            Net::Shared(tasks) => Ok(tasks.settle()),
            Net::Staged(tasks) => tasks.settle(),
        }
    }
}
