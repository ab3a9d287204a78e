//! The machine of a pipeline's tasks.

ghost use Rattle.std.specs.Prelude.{◌≡◌, ◌<◌, ◌^◌, ◌+ℤ◌, true, false, ℕ, pos, FitsSigned, length, OnOk, OnErr, IfOk};
ghost use Rattle.std.specs.Bool.{OnTrue};
ghost use Rattle.std.specs.Int.{w64};
ghost use Rattle.net_flow.specs.Flow.{Claims, Unit_at, Sends, Receives, SendsEnd};
ghost use Rattle.net_flow.specs.Machines.{is_over};
ghost use Rattle.net_flow.specs.Net.{step, moves_of, paused_net, is_finished, is_granted, net_machine, waits_at};
ghost use Rattle.net_flow.specs.Shapes.{link_of};
ghost use Rattle.net_share.specs.Begins.{AreThere, AreApart};
ghost use Rattle.net_share.specs.Gathered.{views_of};
ghost use Rattle.net_share.specs.May.{IsAtUnit};
ghost use Rattle.net_pipe.specs.Settled.{IsSettledFromStages};
ghost use Rattle.net_pipe.specs.Works.{shape_of};
ghost use Rattle.net_pipe.specs.Begun.{first_net};
ghost use Rattle.net_pipe.specs.Kept.{Acts, IsEnd, IsKept, MayMove, Stays, doing_of, most_moves, net_of, store_of, task_of, work_of};
ghost use Rattle.net_pipe.specs.Staged.{IsStaged, staging_of};
ghost use Rattle.net_pipe.specs.Tasks.{share_of, stand_of};

use crate::begun::{first_links, first_tasks};
use crate::link::{Link, Message, Packet};
use crate::position::Position;
use crate::settling::settled;
use crate::stages::Stages;
use crate::task::Task;
use net_share::StepEnd;
use nona_num::Fold;
use nona_store::Store;
use std::alloc::{AllocError, Global};

/// The tasks of an interval whose iterations go through stages: the stages; the store at the interval's start, which doesn't change while
/// the tasks step; how many claims were granted; whether the pause mark is set; the tasks and the links, in order of stages and then
/// workers; and how often a step waited.
#[derive(Drop)]
pub struct Pipeline<'a> {
    stages: Stages<'a>,
    store: Store,
    granted: u64,
    paused: bool,
    tasks: Vec<Task>,
    links: Vec<Link>,
    waits: u64,
}

impl<'a> Pipeline<'a> {
    /// The machine of an interval before its first step, over this store, which is moved. Each task has the store's scalars, but each
    /// reduction begins with its fold's unit, and a frame, which is made here; so are the links. Nothing else is copied. An error
    /// comes where memory runs out.
    ///
    /// The stages are those of a plan for the loop's body, with a worker. The index of each iteration is a number of 64 bits, and the
    /// scalar of each reduction is there.
    pub fn begin(
        alloc: Global,
        stages: Stages<'a>,
        store: Store,
        reductions: &[(u32, Fold)],
    ) -> Result<Pipeline<'a>, AllocError>
        requires staged { IsStaged (staging_of stages) }
        requires indices { (k : ℕ) → k < stages.limit → FitsSigned w64 (stages.from +ℤ pos k) }
        requires there { AreThere reductions.now store.scalars }
        ensures net { IfOk result (λ n. net_of n ≡ first_net stages.entry store reductions.now) }
        ensures does { IfOk result (λ n. doing_of n ≡ staging_of stages.entry) }
        ensures store { IfOk result (λ n. store_of n ≡ store) }
        ensures sound { IfOk result IsKept }
    {
        let tasks = first_tasks(alloc, &stages, &store, reductions)?;
        let links = first_links(alloc, &stages)?;
        Ok(Pipeline {
            stages,
            store,
            granted: 0,
            paused: false,
            tasks,
            links,
            waits: 0,
        })
    }

    /// Sets the pause mark: no claim is granted any more, and what is in the stages drains.
    pub fn pause(&mut self)
        requires { IsKept self.old }
        ensures net { net_of self.new ≡ paused_net (net_of self.old) }
        ensures stays { Stays self.old self.new }
        ensures sound { IsKept self.new }
    {
        self.paused = true;
    }

    /// Whether a claim is granted: the pause mark isn't set, and fewer were granted than the limit.
    fn may_claim(&self) -> bool
        ensures granted { result ≡ is_granted (net_of self.now) }
        ensures few { OnTrue result (self.now.granted < self.now.stages.limit) }
    {
        !self.paused && self.granted < self.stages.limit
    }

    /// Claims the next iteration for the head, which begins it; or the claim is refused. Takes no memory.
    fn claim(&mut self, task: usize)
        requires there { task < length self.old.tasks.items }
        requires sound { IsKept self.old }
        requires claims { (task_of self.old task).position ≡ Claims }
        requires may { MayMove self.old task }
        ensures acts { Acts self.old task (net_of self.new) true }
        ensures stays { Stays self.old self.new }
    {
        if !self.may_claim() {
            self.tasks[task].ends(&self.stages);
            return;
        }
        let number = self.granted;
        self.granted = number + 1;
        self.tasks[task].begins(number, Packet::new(), &self.stages);
    }

    /// Does the own unit with this number of the iteration that a task is in.
    fn do_unit(&mut self, task: usize, unit: usize) -> Result<(), AllocError>
        requires there { task < length self.old.tasks.items }
        requires sound { IsKept self.old }
        requires before { (task_of self.old task).position ≡ Unit_at unit }
        requires may { MayMove self.old task }
        ensures acts { OnOk result (Acts self.old task (net_of self.new) true) }
        ensures stays { OnOk result (Stays self.old self.new) }
    {
        self.tasks[task].does_unit(unit, &self.stages, &self.store)?;
        Ok(())
    }

    /// The number of the link behind a stage to the worker with this number.
    fn link_index(&self, stage: usize, link: usize) -> usize
        requires { link_of (shape_of (staging_of self.now.stages)) stage link < length self.now.links.items }
        ensures index { result ≡ link_of (shape_of (staging_of self.now.stages)) stage link }
        ensures below { result < length self.now.links.items }
    {
        stage * self.stages.workers + link
    }

    /// Sends the packet of the iteration that a task has done, or waits where its link is full. The answer is whether it moved.
    fn send(&mut self, task: usize) -> bool
        requires there { task < length self.old.tasks.items }
        requires sound { IsKept self.old }
        requires sends { (task_of self.old task).position ≡ Sends }
        requires may { MayMove self.old task }
        ensures acts { Acts self.old task (net_of self.new) result }
        ensures stays { Stays self.old self.new }
    {
        let (link, message) = self.tasks[task].outgoing(&self.stages);
        let index = self.link_index(self.tasks[task].stage(), link);
        if !self.links[index].send(message) {
            return false;
        }
        self.tasks[task].leaves(&self.stages);
        true
    }

    /// Receives a packet or an End for a task that has received so many Ends, or waits where its link is empty. The answer is whether it
    /// moved. Takes no memory.
    fn receive(&mut self, task: usize, ends: usize) -> bool
        requires there { task < length self.old.tasks.items }
        requires sound { IsKept self.old }
        requires receives { (task_of self.old task).position ≡ Receives ends }
        requires may { MayMove self.old task }
        ensures acts { Acts self.old task (net_of self.new) result }
        ensures stays { Stays self.old self.new }
    {
        let link = self.tasks[task].incoming(ends, &self.stages);
        let index = self.link_index(self.tasks[task].stage() - 1, link);
        match self.links[index].take() {
            None => false,
            Some(Message::Packet { iteration, values }) => {
                self.tasks[task].begins(iteration, values, &self.stages);
                true
            }
            Some(Message::End) => {
                self.tasks[task].takes_end(ends, &self.stages);
                true
            }
        }
    }

    /// Sends an End over a link, or waits where it is full. The answer is whether the task moved.
    fn send_end(&mut self, task: usize, link: usize) -> bool
        requires there { task < length self.old.tasks.items }
        requires sound { IsKept self.old }
        requires sends { (task_of self.old task).position ≡ SendsEnd link }
        requires may { MayMove self.old task }
        ensures acts { Acts self.old task (net_of self.new) result }
        ensures stays { Stays self.old self.new }
    {
        let index = self.link_index(self.tasks[task].stage(), link);
        if !self.links[index].send(Message::End) {
            return false;
        }
        self.tasks[task].sends_end(link, &self.stages);
        true
    }

    /// Where a task stands.
    fn position(&self, task: usize) -> Position
        requires { task < length self.now.tasks.items }
        ensures { stand_of result ≡ (task_of self.now task).position }
    {
        self.tasks[task].position()
    }

    /// Does what comes next for a task that hasn't finished, or waits. The answer is whether it moved.
    fn act(&mut self, task: usize, position: Position) -> Result<bool, AllocError>
        requires there { task < length self.old.tasks.items }
        requires sound { IsKept self.old }
        requires position { stand_of position ≡ (task_of self.old task).position }
        requires goes { is_finished (task_of self.old task).position ≡ false }
        requires may { MayMove self.old task }
        ensures acts { IfOk result (Acts self.old task (net_of self.new)) }
        ensures stays { OnOk result (Stays self.old self.new) }
        ensures err { OnErr result (IsAtUnit (task_of self.old task).position) }
    {
        match position {
            Position::Claims => {
                self.claim(task);
                Ok(true)
            }
            Position::Unit(unit) => {
                self.do_unit(task, unit)?;
                Ok(true)
            }
            Position::Sends => Ok(self.send(task)),
            Position::Receives(ends) => Ok(self.receive(task, ends)),
            Position::SendsEnd(link) => Ok(self.send_end(task, link)),
            Position::Finished => Ok(true),
        }
    }

    /// Does one step of a task: a claim, a receive, one own unit, a send, or nothing where it has finished; or it waits. It takes constant
    /// time beside the unit, the locals that it skips, and a packet, and no memory that the unit doesn't take. An error comes where memory
    /// runs out in a unit, and the machine is then spent.
    pub fn step(&mut self, task: usize) -> Result<StepEnd, AllocError>
        requires there { task < length self.old.tasks.items }
        requires sound { IsKept self.old }
        requires may { MayMove self.old task }
        ensures finished { OnOk result (is_finished (task_of self.old task).position ≡ true → net_of self.new ≡ net_of self.old) }
        ensures net { OnOk result (is_finished (task_of self.old task).position ≡ false
            → net_of self.new ≡ step (work_of self.old) (net_of self.old) task) }
        ensures end { IfOk result (λ end. let x = task_of self.old task in
            IsEnd end (is_finished x.position) (waits_at (work_of self.old) (net_of self.old) x x.position)) }
        ensures stays { OnOk result (Stays self.old self.new) }
        ensures sound { OnOk result (IsKept self.new) }
        ensures err { OnErr result (IsAtUnit (task_of self.old task).position) }
    {
        let position = self.position(task);
        if position == Position::Finished {
            return Ok(StepEnd::Finished);
        }
        if self.act(task, position)? {
            return Ok(StepEnd::Moved);
        }
        self.waits = self.waits.saturating_add(1);
        Ok(StepEnd::Waits)
    }

    /// How many tasks there are.
    pub fn tasks(&self) -> usize
        ensures { result ≡ length (net_of self.now).tasks }
    {
        self.tasks.len()
    }

    /// Whether a task has finished.
    pub fn has_finished(&self, task: usize) -> bool
        requires { task < length self.now.tasks.items }
        ensures { result ≡ is_finished (task_of self.now task).position }
    {
        match self.position(task) {
            Position::Finished => true,
            _ => false,
        }
    }

    /// How many claims were granted.
    pub fn granted(&self) -> u64
        ensures { result ≡ (net_of self.now).granted }
    {
        self.granted
    }

    /// How many claims are granted at most.
    pub fn limit(&self) -> u64
        ensures { result ≡ (net_of self.now).limit }
    {
        self.stages.limit
    }

    /// How often a step waited, counted up to 18446744073709551615.
    pub fn waits(&self) -> u64
        ensures { result ≡ (net_of self.now).waits }
    {
        self.waits
    }

    /// The most moves that one of the tasks has made.
    #[tactic(auto, using(crate::proofs::Asked::most_on))]
    pub fn ticks(&self) -> u64
        ensures { result ≡ most_moves (net_of self.now).tasks }
    {
        let mut most = 0;
        'tasks: for task in &self.tasks {
            most = most.max(task.moves());
        }
        most
    }

    /// How often all tasks have moved, which is a number of 64 bits. Takes time in proportion to the tasks.
    #[tactic(auto, using(crate::proofs::Asked::moves_on))]
    pub fn moves(&self) -> u64
        requires { moves_of (net_of self.now) < 2 ^ 64 }
        ensures { result ≡ moves_of (net_of self.now) }
    {
        let mut moves = 0;
        'tasks: for task in &self.tasks {
            moves += task.moves();
        }
        moves
    }

    /// Whether all tasks have finished.
    #[tactic(auto, using(net_share::proofs::Keeping::over_begins, net_share::proofs::Keeping::over_on, net_share::proofs::Keeping::over_ends))]
    pub fn is_over(&self) -> bool
        ensures { result ≡ is_over (net_machine (work_of self.now)) (net_of self.now) }
    {
        let mut over = true;
        'tasks: for task in 0..self.tasks.len() {
            over = over & self.has_finished(task);
        }
        over
    }

    /// The store behind the iterations, once all tasks have finished: each cell and each scalar that a task has changed has that value,
    /// each reduction is joined with what the tasks have made of it, and what a task has printed stands behind what was printed
    /// before. It is the store of the interval's start that is changed; no array is copied. An error comes where memory runs out,
    /// which only printed numbers take.
    ///
    /// The scalar of each reduction is there, and none has two.
    pub fn settle(self, reductions: &[(u32, Fold)]) -> Result<Store, AllocError>
        requires over { is_over (net_machine (work_of self)) (net_of self) ≡ true }
        requires there { AreThere reductions.now (store_of self).scalars }
        requires apart { AreApart reductions.now }
        ensures { IfOk result (IsSettledFromStages (store_of self.entry) reductions.now (views_of share_of (store_of self.entry) self.entry.tasks.items)) }
    {
        settled(self.store, self.tasks, reductions)
    }
}
