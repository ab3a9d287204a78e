//! The machine of tasks that share the iterations of an interval.

ghost use Rattle.std.specs.Prelude.{◌≡◌, ◌<◌, ◌+◌, ◌*◌, ◌^◌, ◌+ℤ◌, true, ℕ, pos, FitsSigned, get_or, length, OnOk, OnErr, IfOk};
ghost use Rattle.std.specs.Int.{w64};
ghost use Rattle.net_flow.specs.Flow.{Claims, Unit_at};
ghost use Rattle.net_flow.specs.Net.{step, moved_at, paused_net, is_finished, is_granted, moves_of, net_machine};
ghost use Rattle.net_flow.specs.Machines.{is_over};
ghost use Rattle.net_share.specs.Begins.{AreApart, AreThere};
ghost use Rattle.net_share.specs.Gathered.{views_of};
ghost use Rattle.net_share.specs.Kept.{IsEnd, IsSharing, MayMove, Stays, doing_of, first_net, most_moves, net_of, store_of, task_of, work_of};
ghost use Rattle.net_share.specs.May.{IsAtUnit};
ghost use Rattle.net_share.specs.Settled.{IsSettledFrom};
ghost use Rattle.net_share.specs.Works.{doing};
ghost use Rattle.net_share.specs.Tasks.{CanCount, TaskView, share_of, stand_of};

use crate::begun::first_tasks;
use crate::iterations::Iterations;
use crate::settling::settled;
use crate::task::{Position, Task};
use nona_num::Fold;
use nona_store::Store;
use std::alloc::{AllocError, Global};

/// How a step of a task ended.
#[derive(Clone, Copy, Debug, PartialEq, Eq)]
pub enum StepEnd {
    /// The task moved.
    Moved,
    /// The task waits, and nothing changed but, where one is kept, the count of waits. Tasks that share iterations never wait.
    Waits,
    /// The task had finished before, and nothing changed.
    Finished,
}

/// The tasks of an interval that share its iterations: the store at the interval's start, with so many scalars, which doesn't change
/// while they step; how many claims were granted; whether the pause mark is set; and the tasks.
#[derive(Drop)]
pub struct Sharing<'a> {
    iterations: Iterations<'a>,
    depth: usize,
    store: Store,
    granted: u64,
    paused: bool,
    tasks: Vec<Task>,
}

impl<'a> Sharing<'a> {
    /// The machine of an interval before its first step, of so many tasks over this store, which is moved. Each task has the store's
    /// scalars, but each reduction begins with its fold's unit, and a frame, which is made here. Nothing else is copied. An error
    /// comes where memory runs out.
    ///
    /// The index of each iteration is a number of 64 bits, and so is the count of all moves, with one more. The scalar of each
    /// reduction is there.
    pub fn begin(
        alloc: Global,
        iterations: Iterations<'a>,
        workers: usize,
        store: Store,
        reductions: &[(u32, Fold)],
    ) -> Result<Sharing<'a>, AllocError>
        requires indices { (k : ℕ) → k < iterations.limit → FitsSigned w64 (iterations.from +ℤ pos k) }
        requires few { iterations.limit * (1 + length iterations.units.now.body) + (1 + workers) < 2 ^ 64 }
        requires there { AreThere reductions.now store.scalars }
        ensures net { IfOk result (λ n. net_of n ≡ first_net iterations.entry workers store reductions.now) }
        ensures does { IfOk result (λ n. doing_of n ≡ doing iterations.entry (length store.scalars)) }
        ensures store { IfOk result (λ n. store_of n ≡ store) }
        ensures sound { IfOk result IsSharing }
    {
        let depth = store.depth();
        let tasks = first_tasks(alloc, workers, iterations.units, &store, reductions)?;
        Ok(Sharing {
            iterations,
            depth,
            store,
            granted: 0,
            paused: false,
            tasks,
        })
    }

    /// Sets the pause mark: no claim is granted any more.
    pub fn pause(&mut self)
        requires { IsSharing self.old }
        ensures net { net_of self.new ≡ paused_net (net_of self.old) }
        ensures stays { Stays self.old self.new }
        ensures sound { IsSharing self.new }
    {
        self.paused = true;
    }

    /// Whether a claim is granted: the pause mark isn't set, and fewer were granted than the limit.
    fn may_claim(&self) -> bool
        ensures { result ≡ is_granted (net_of self.now) }
    {
        !self.paused && self.granted < self.iterations.limit
    }

    /// Claims the next iteration for a task, which begins it; or the claim is refused, and the task finishes. Takes no memory.
    fn claim(&mut self, task: usize)
        requires there { task < length self.old.tasks.items }
        requires sound { IsSharing self.old }
        requires claims { (task_of self.old task).position ≡ Claims }
        requires counts { (d : TaskView) → CanCount self.old.iterations.units.now (get_or self.old.tasks.items task d) }
        requires may { MayMove self.old task }
        ensures net { net_of self.new ≡ moved_at (work_of self.old) (net_of self.old) task (task_of self.old task) Claims }
        ensures stays { Stays self.old self.new }
    {
        if !self.may_claim() {
            self.tasks[task].finishes();
            return;
        }
        self.tasks[task].begins(self.granted, &self.iterations, self.depth);
        self.granted += 1;
    }

    /// Does the unit with this number of the iteration that a task is in.
    fn do_unit(&mut self, task: usize, unit: usize) -> Result<(), AllocError>
        requires there { task < length self.old.tasks.items }
        requires sound { IsSharing self.old }
        requires before { (task_of self.old task).position ≡ Unit_at unit }
        requires counts { (d : TaskView) → CanCount self.old.iterations.units.now (get_or self.old.tasks.items task d) }
        requires may { MayMove self.old task }
        ensures net { OnOk result (net_of self.new ≡ moved_at (work_of self.old) (net_of self.old) task (task_of self.old task) (Unit_at unit)) }
        ensures stays { OnOk result (Stays self.old self.new) }
    {
        self.tasks[task].does_unit(unit, &self.iterations, self.depth, &self.store)?;
        Ok(())
    }

    /// Where a task stands.
    fn position(&self, task: usize) -> Position
        requires { task < length self.now.tasks.items }
        ensures { stand_of result ≡ (task_of self.now task).position }
    {
        self.tasks[task].position()
    }

    /// Does one step of a task: a claim, or one unit, or nothing where it has finished. It takes constant time beside the unit, and no
    /// memory that the unit doesn't take. An error comes where memory runs out in a unit, and the machine is then spent.
    pub fn step(&mut self, task: usize) -> Result<StepEnd, AllocError>
        requires there { task < length self.old.tasks.items }
        requires sound { IsSharing self.old }
        requires may { MayMove self.old task }
        ensures net { OnOk result (net_of self.new ≡ step (work_of self.old) (net_of self.old) task) }
        ensures end { IfOk result (λ end. IsEnd end (is_finished (task_of self.old task).position)) }
        ensures stays { OnOk result (Stays self.old self.new) }
        ensures sound { OnOk result (IsSharing self.new) }
        ensures err { OnErr result (IsAtUnit (task_of self.old task).position) }
    {
        match self.position(task) {
            Position::Claims => {
                self.claim(task);
                Ok(StepEnd::Moved)
            }
            Position::Unit(unit) => {
                self.do_unit(task, unit)?;
                Ok(StepEnd::Moved)
            }
            Position::Finished => Ok(StepEnd::Finished),
        }
    }

    /// How many tasks there are.
    pub fn tasks(&self) -> usize
        ensures { result ≡ length (net_of self.now).tasks }
    {
        self.tasks.len()
    }

    /// Whether a task has finished.
    pub fn has_finished(&self, task: usize) -> bool
        requires { task < length self.now.tasks.items }
        ensures { result ≡ is_finished (task_of self.now task).position }
    {
        match self.position(task) {
            Position::Finished => true,
            _ => false,
        }
    }

    /// How many claims were granted.
    pub fn granted(&self) -> u64
        ensures { result ≡ (net_of self.now).granted }
    {
        self.granted
    }

    /// How many claims are granted at most.
    pub fn limit(&self) -> u64
        ensures { result ≡ (net_of self.now).limit }
    {
        self.iterations.limit
    }

    /// The most moves that one of the tasks has made.
    #[tactic(auto, using(crate::proofs::Keeping::most_on))]
    pub fn ticks(&self) -> u64
        ensures { result ≡ most_moves (net_of self.now).tasks }
    {
        let mut most = 0;
        'tasks: for task in &self.tasks {
            most = most.max(task.moves());
        }
        most
    }

    /// Whether all tasks have finished.
    #[tactic(auto, using(crate::proofs::Keeping::over_begins, crate::proofs::Keeping::over_on, crate::proofs::Keeping::over_ends))]
    pub fn is_over(&self) -> bool
        ensures { result ≡ is_over (net_machine (work_of self.now)) (net_of self.now) }
    {
        let mut over = true;
        'tasks: for task in 0..self.tasks.len() {
            over = over & self.has_finished(task);
        }
        over
    }

    /// How often all tasks have moved, once all have finished. Takes constant time.
    #[tactic(auto, using(crate::proofs::Keeping::moves_fit, crate::proofs::Keeping::moves_are))]
    pub fn moves(&self) -> u64
        requires sound { IsSharing self.now }
        requires over { is_over (net_machine (work_of self.now)) (net_of self.now) ≡ true }
        ensures { result ≡ moves_of (net_of self.now) }
    {
        let units = self.iterations.units.count() as u64;
        self.granted * units + self.granted + self.tasks.len() as u64
    }

    /// The store behind the iterations, once all tasks have finished: each cell that a task has changed has that value, each
    /// reduction is joined with what the tasks have made of it, and all else is as it was. It is the store of the interval's start
    /// that is changed; no array is copied, and no memory is taken.
    ///
    /// The scalar of each reduction is there, and none has two.
    pub fn settle(self, reductions: &[(u32, Fold)]) -> Store
        requires over { is_over (net_machine (work_of self)) (net_of self) ≡ true }
        requires there { AreThere reductions.now (store_of self).scalars }
        requires apart { AreApart reductions.now }
        ensures { IsSettledFrom (store_of self.entry) reductions.now (views_of share_of (store_of self.entry) self.entry.tasks.items) result }
    {
        settled(self.store, self.tasks, reductions)
    }
}
