//! The machine of an interval under `any`.

ghost use Rattle.std.specs.Prelude.{◌≡◌, ◌<◌, ◌≤◌, true, IfOk, OnOk, OnErr};
ghost use Rattle.std.specs.Int.{int_gap};
ghost use Rattle.morta_task.specs.declared.limits.TheConstants.{WORKERS};
ghost use Rattle.morta_task.specs.Entries.{IsEntered, before, last};
ghost use Rattle.morta_task.specs.Running.{IsHandoff};
ghost use Rattle.net_flow.specs.Machines.{is_over};
ghost use Rattle.weave.specs.NetView.{EndsWith, MayWant, StepSays, Shared, after_pause, machine, tasks_of};
ghost use Rattle.weave.specs.Shared.{begun_shared};
ghost use Rattle.weave.specs.SharedTasks.{IsSharedTasks, OffersSharing, shared_view};

use morta_task::{Cut, Entry, Handoff, Ran, RegionCode, Work};
use net_share::{
    Iterations, Sharing, StepEnd, reductions_stand, sharing_begins, sharing_goes_on,
    sharing_settles,
};
use nona_num::{Fold, offset};
use nona_tree::Outcome;
use std::alloc::{AllocError, Global};

/// The tasks of an interval that share the iterations of an entry, from an index on.
#[derive(Drop)]
pub struct SharedTasks<'a> {
    entry: &'a Entry,
    reductions: &'a [(u32, Fold)],
    /// The index of the first iteration.
    from: i64,
    sharing: Sharing<'a>,
}

impl<'a> SharedTasks<'a> {
    /// The machine of an interval of an entry to the loop of this region, which offers `any`: it begins where the handoff stands, has
    /// a task for each worker, and grants up to `limit` iterations. For each task its frame is made, and the scalars are copied; no
    /// array is. An error comes where memory runs out.
    pub fn begin(
        alloc: Global,
        entry: &'a Entry,
        code: &'a RegionCode,
        handoff: Handoff,
        workers: u8,
        limit: u64,
    ) -> Result<SharedTasks<'a>, AllocError>
        requires entered { IsEntered entry.now }
        requires offers { OffersSharing entry.now }
        requires looped { code.now.looped ≡ entry.now.looped }
        requires state { IsHandoff entry.now handoff }
        requires room { limit ≤ int_gap handoff.next (last entry.now) }
        requires workers { (1 ≤ workers) × (workers ≤ WORKERS) }
        ensures net { IfOk result (λ net. shared_view net
            ≡ Shared entry.now (before entry.now handoff.next) workers (begun_shared entry.now (before entry.now handoff.next) limit workers)) }
        ensures sound { IfOk result IsSharedTasks }
    {
        sharing_begins();
        reductions_stand();
        let Handoff { next, store } = handoff;
        let iterations = Iterations {
            units: code.units(),
            from: next,
            limit,
            turns: entry.turns(),
        };
        let _last = entry.last();
        let reductions = code.reductions();
        let sharing = Sharing::begin(alloc, iterations, workers as usize, store, reductions)?;
        Ok(SharedTasks {
            entry,
            reductions,
            from: next,
            sharing,
        })
    }

    /// How many tasks there are.
    pub fn tasks(&self) -> usize
        ensures { result ≡ tasks_of (shared_view self.now) }
    {
        self.sharing.tasks()
    }

    /// Whether all tasks have finished.
    pub fn is_over(&self) -> bool
        requires { IsSharedTasks self.now }
        ensures { result ≡ is_over machine (shared_view self.now) }
    {
        self.sharing.is_over()
    }

    /// Sets the pause mark: no claim is granted any more.
    pub fn pause(&mut self)
        requires { IsSharedTasks self.old }
        ensures net { shared_view self.new ≡ after_pause (shared_view self.old) }
        ensures sound { IsSharedTasks self.new }
    {
        sharing_goes_on();
        self.sharing.pause();
    }

    /// Does one step of a task: a claim, or one unit, or nothing where it has finished. It takes constant time beside the unit. An error
    /// comes where memory runs out in a unit, and the machine is then spent.
    pub fn step(&mut self, task: usize) -> Result<StepEnd, AllocError>
        requires sound { IsSharedTasks self.old }
        requires there { task < tasks_of (shared_view self.old) }
        ensures says { IfOk result (λ end. StepSays end task (shared_view self.old) (shared_view self.new)) }
        ensures sound { OnOk result (IsSharedTasks self.new) }
        ensures err { OnErr result (MayWant (shared_view self.old) task) }
    {
        sharing_goes_on();
        self.sharing.step(task)
    }

    /// What the interval did, and the live state that it hands on, once all tasks have finished. The store is moved, and settled.
    /// Takes no memory.
    pub fn settle(self) -> (Handoff, Ran)
        requires sound { IsSharedTasks self }
        requires over { is_over machine (shared_view self) ≡ true }
        ensures { EndsWith (shared_view self.entry) result.1 result.0 }
    {
        sharing_settles();
        reductions_stand();
        let granted = self.sharing.granted();
        let to = offset(self.from, granted);
        let ran = Ran {
            to,
            work: Some(Work {
                steps: self.sharing.moves(),
                waits: 0,
            }),
            ticks: self.sharing.ticks(),
            cut: Cut::of(Outcome::Done, granted, self.sharing.limit()),
        };
        let store = self.sharing.settle(self.reductions);
        (Handoff { next: to, store }, ran)
    }
}
