//! A task of a pipeline.

ghost use Rattle.std.specs.Prelude.{◌≡◌, ◌<◌, ◌+◌, ◌-◌, ◌≤◌, ◌^◌, ◌+ℤ◌, ℕ, ℤ, List};
ghost use Rattle.std.specs.Prelude.{pos, drop, take, length, map, vec_capacity, FitsSigned, IfOk, OnOk};
ghost use Rattle.std.specs.Int.{w64};
ghost use Rattle.nona_plans.specs.declared.limits.TheConstants.{CROSSING};
ghost use Rattle.nona_store.specs.Overlays.{changes_of, over_of};
ghost use Rattle.nona_store.specs.Shares.{shared};
ghost use Rattle.nona_tree.specs.Memory.{Memory, scalar_at};
ghost use Rattle.net_flow.specs.Net.{arrives, enters, leaves, closes, takes_end, passes_end, link_now};
ghost use Rattle.net_flow.specs.Dealing.{next_link};
ghost use Rattle.net_flow.specs.Shapes.{first_link, links_of};
ghost use Rattle.net_share.specs.Gathered.{own_scalar};
ghost use Rattle.net_share.specs.Tasks.{HasRoom};
ghost use Rattle.net_pipe.specs.Entries.{MayDo};
ghost use Rattle.net_pipe.specs.Works.{received_in, shape_of, skips, stages_work, unit_number, value_for};
ghost use Rattle.net_pipe.specs.Links.{message_view};
ghost use Rattle.net_pipe.specs.Staged.{IsStaged, staging_of};

use crate::link::{Message, Packet};
use crate::position::Position;
use crate::stages::Stages;
use net_share::{declare_on, leave_on, run_on};
use nona_code::Frame;
use nona_num::offset;
use nona_store::{Overlay, Share, Store};
use nona_units::Units;
use std::alloc::{AllocError, Global};
use std::marker::Model;

/// A task: its stage and worker; where it stands; how many iterations it has done, and the number of the one that it is in; its share of
/// the store; the packet with which that iteration began; a frame with room for each unit; and how often it moved.
#[derive(Drop)]
pub(crate) struct Task {
    stage: usize,
    worker: usize,
    position: Position,
    done: u64,
    iteration: u64,
    share: Share,
    held: Packet,
    frame: Frame,
    moves: u64,
}

impl Model for Task {
    ghost use Rattle.net_pipe.specs.Tasks.{TaskView};

    ghost Value = { TaskView };

    ghost view = { λ t. record {
      stage = t.stage;
      worker = t.worker;
      position = t.position;
      done = t.done;
      iteration = t.iteration;
      share = t.share;
      held = t.held.items;
      moves = t.moves;
      room = t.frame.room;
    } };
}

/// The value of the local with this id in a packet of locals with such ids, from one of them on; 0 where it isn't there.
fn value_from(ids: &[u32], values: &[i64], from: usize, id: usize) -> i64
    ensures { result ≡ value_for (drop from ids.now) (drop from values.now) id }
{
    if from >= ids.len() {
        return 0;
    }
    if from >= values.len() {
        return 0;
    }
    if ids[from] as usize == id {
        return values[from];
    }
    value_from(ids, values, from + 1, id)
}

/// A scalar of a share; 0 where it has none with this id.
fn scalar_of(share: &Share, id: usize) -> i64
    ensures { result ≡ own_scalar id share.now }
{
    share.scalars().get(id).copied().unwrap_or(0)
}

/// The packet of these locals, of which there are few.
fn packet_of(share: &Share, ids: &[u32]) -> Packet
    requires { length ids.now ≤ CROSSING }
    ensures { result.items ≡ map (λ id. own_scalar id share.now) ids.now }
{
    let mut packet = Packet::new();
    for id in ids {
        packet.push(scalar_of(share, *id as usize));
    }
    packet
}

impl Task {
    ghost use Rattle.net_pipe.specs.Tasks.{CanCount, HasSkipped, counted, new_task, sent_of, skipped_first, task_over, unit_done};

    /// A task with this stage and worker before its first step, with these scalars, and a frame with room for each unit. It is refused for
    /// want of memory alone.
    pub(crate) fn begin(
        alloc: Global,
        stage: usize,
        worker: usize,
        units: &Units,
        scalars: Vec<i64>,
    ) -> Result<Task, AllocError>
        ensures { IfOk result (λ task. task ≡ new_task stage worker scalars.items (vec_capacity scalars) units.now.room) }
    {
        let frame = units.frame()?;
        Ok(Task {
            stage,
            worker,
            position: if stage == 0 {
                Position::Claims
            } else {
                Position::Receives(0)
            },
            done: 0,
            iteration: 0,
            share: Share::begin(alloc, scalars),
            held: Packet::new(),
            frame,
            moves: 0,
        })
    }

    /// Where it stands.
    pub(crate) fn position(&self) -> Position
        ensures { result ≡ self.now.position }
    {
        self.position
    }

    /// Its stage.
    pub(crate) fn stage(&self) -> usize
        ensures { result ≡ self.now.stage }
    {
        self.stage
    }

    /// How often it moved.
    pub(crate) fn moves(&self) -> u64
        ensures { result ≡ self.now.moves }
    {
        self.moves
    }

    /// Its share of the store.
    pub(crate) fn share(&self) -> &Share
        ensures { result.now ≡ self.now.share }
    {
        &self.share
    }

    /// Its own value of a scalar; 0 where it has no scalar with this id.
    pub(crate) fn scalar(&self, id: usize) -> i64
        ensures { result ≡ own_scalar id self.now.share }
    {
        scalar_of(&self.share, id)
    }

    /// Forgets each cell that it has written with the value that the store has there. Nothing else of the share changes.
    pub(crate) fn keep_changes(&mut self, store: &Store)
        ensures scalars { self.new.share.scalars ≡ self.old.share.scalars }
        ensures printed { self.new.share.printed ≡ self.old.share.printed }
        ensures written { over_of self.new.share.written ≡ changes_of store.now (over_of self.old.share.written) }
    {
        self.share.keep_changes(store);
    }

    /// The link over which it sends or receives the message behind its first `count` ones.
    fn link(&self, count: u64, stages: &Stages) -> usize
        requires stage { self.now.stage < length stages.now.plan.now.pipe }
        requires worker { 1 ≤ stages.now.workers }
        ensures { result ≡ next_link ((shape_of (staging_of stages.now)).parallel self.now.stage) stages.now.workers self.now.worker count }
    {
        if stages.is_parallel(self.stage) {
            self.worker
        } else {
            (count % stages.workers as u64) as usize
        }
    }

    /// The link over which it sends the packet of its iteration, and the message with this packet.
    pub(crate) fn outgoing(&self, stages: &Stages) -> (usize, Message)
        requires staged { IsStaged (staging_of stages.now) }
        requires stage { self.now.stage < length stages.now.plan.now.pipe }
        ensures link { (m : Memory) → let x = task_over m self.now in result.0 ≡ link_now (stages_work (staging_of stages.now)) x x.done }
        ensures message { (m : Memory) → message_view result.1 ≡ sent_of (stages_work (staging_of stages.now)) (task_over m self.now) }
    {
        let values = packet_of(&self.share, stages.sent(self.stage));
        let message = Message::Packet {
            iteration: self.iteration,
            values,
        };
        (self.link(self.done, stages), message)
    }

    /// The link from which it receives, where it has received so many Ends.
    pub(crate) fn incoming(&self, ends: usize, stages: &Stages) -> usize
        requires staged { IsStaged (staging_of stages.now) }
        requires stage { self.now.stage < length stages.now.plan.now.pipe }
        requires few { self.now.done + ends < 2 ^ 64 }
        ensures { (m : Memory) → let x = task_over m self.now in result ≡ link_now (stages_work (staging_of stages.now)) x (x.done + ends) }
    {
        self.link(self.done + ends as u64, stages)
    }

    /// The packet's value for the local that comes next; 0 where it has none.
    fn local(&self, stages: &Stages) -> i64
        ensures { result ≡ value_for (received_in (staging_of stages.now) self.now.stage) self.now.held (length self.now.share.scalars) }
    {
        let id = self.share.scalars().len();
        value_from(stages.received(self.stage), self.held.as_slice(), 0, id)
    }

    /// Skips the unit with this number, from 0, which is another stage's: where it declares a local, the packet's value for it stands
    /// there. There is room for it. Takes no memory.
    fn skip_one(&mut self, at: usize, stages: &Stages)
        requires unit { at < length stages.now.units.now.body }
        requires room { length self.old.share.scalars < self.old.share.room }
        ensures { HasSkipped (skipped_first (staging_of stages.now) at self.old) self.old self.new }
    {
        if stages.units.declares(at) {
            let value = self.local(stages);
            declare_on(value, &mut self.share);
        }
    }

    /// Skips the units from one number, from 0, up to another one. There is room for a local of each. Takes no memory.
    #[tactic(auto, using(crate::proofs::Skipping::skips_begin, crate::proofs::Skipping::skip_room, crate::proofs::Skipping::skips_end))]
    fn skip(&mut self, from: usize, to: usize, stages: &Stages)
        requires units { to ≤ length stages.now.units.now.body }
        requires room { length self.old.share.scalars + (to - from) ≤ self.old.share.room }
        ensures { HasSkipped
            (skips (staging_of stages.now) self.old.stage self.old.held (take (to - from) (drop from stages.now.units.now.body))) self.old self.new }
    {
        'units: for at in from..to {
            self.skip_one(at, stages);
        }
    }

    /// Leaves its iteration: the scalars in it go.
    fn leave(&mut self, stages: &Stages)
        requires { self.old.done + 1 < 2 ^ 64 }
        ensures task { (m : Memory) → task_over m self.new ≡ leaves (stages_work (staging_of stages.now)) (task_over m self.old) }
        ensures room { self.new.room ≡ self.old.room }
        ensures reserved { self.new.share.room ≡ self.old.share.room }
        ensures moves { self.new.moves ≡ self.old.moves }
    {
        leave_on(stages.depth, &mut self.share);
        self.done += 1;
        self.position = if self.stage == 0 {
            Position::Claims
        } else {
            Position::Receives(0)
        };
    }

    /// Comes before the own unit of its iteration with this number, or behind the last one.
    fn arrive(&mut self, unit: usize, stages: &Stages)
        requires staged { IsStaged (staging_of stages.now) }
        requires stage { self.old.stage < length stages.now.plan.now.pipe }
        requires done { self.old.done + 1 < 2 ^ 64 }
        ensures task { (m : Memory) → task_over m self.new ≡ arrives (stages_work (staging_of stages.now)) unit (task_over m self.old) }
        ensures room { self.new.room ≡ self.old.room }
        ensures reserved { self.new.share.room ≡ self.old.share.room }
        ensures moves { self.new.moves ≡ self.old.moves }
    {
        if unit < stages.own_count(self.stage) {
            self.position = Position::Unit(unit);
        } else if self.stage + 1 < stages.count() {
            self.position = Position::Sends;
        } else {
            self.leave(stages);
        }
    }

    /// Enters the iteration with this number and packet: its index is a new scalar. Takes no memory.
    fn enter(&mut self, number: u64, packet: Packet, stages: &Stages)
        requires staged { IsStaged (staging_of stages.now) }
        requires stage { self.old.stage < length stages.now.plan.now.pipe }
        requires done { self.old.done + 1 < 2 ^ 64 }
        requires fits { FitsSigned w64 (stages.now.from +ℤ pos number) }
        requires around { length self.old.share.scalars ≡ stages.now.depth }
        requires reserved { HasRoom stages.now.depth stages.now.units.now self.old.share }
        ensures task { (m : Memory) → task_over m self.new
            ≡ enters (stages_work (staging_of stages.now)) number packet.items (task_over m self.old) }
        ensures room { self.new.room ≡ self.old.room }
        ensures reserved { self.new.share.room ≡ self.old.share.room }
        ensures moves { self.new.moves ≡ self.old.moves }
    {
        let index = offset(stages.from, number);
        declare_on(index, &mut self.share);
        self.held = packet;
        self.iteration = number;
        let first = stages.unit_number(self.stage, 0);
        self.skip(0, first - 1, stages);
        self.arrive(0, stages);
    }

    /// Does the own unit of its iteration with this number, skips those behind it, and comes before the next own one.
    fn do_unit(&mut self, unit: usize, stages: &Stages, store: &Store) -> Result<(), AllocError>
        requires staged { IsStaged (staging_of stages.now) }
        requires counts { CanCount (staging_of stages.now) stages.now.units.now.room self.old }
        requires there { unit < (shape_of (staging_of stages.now)).units self.old.stage }
        requires may { MayDo (staging_of stages.now) self.old.stage unit (shared store.now self.old.share) }
        requires reserved { HasRoom stages.now.depth stages.now.units.now self.old.share }
        ensures task { OnOk result (task_over store.now self.new
            ≡ unit_done (stages_work (staging_of stages.now)) unit (task_over store.now self.old)) }
        ensures room { OnOk result (self.new.room ≡ self.old.room) }
        ensures reserved { OnOk result (self.new.share.room ≡ self.old.share.room) }
        ensures moves { OnOk result (self.new.moves ≡ self.old.moves) }
    {
        let number = stages.unit_number(self.stage, unit);
        run_on(
            stages.units,
            number - 1,
            stages.turns,
            &mut self.frame,
            store,
            &mut self.share,
        )?;
        let next = stages.unit_number(self.stage, unit + 1);
        self.skip(number, next - 1, stages);
        self.arrive(unit + 1, stages);
        Ok(())
    }

    /// Begins the iteration with this number and packet: one move. Takes no memory.
    pub(crate) fn begins(&mut self, number: u64, packet: Packet, stages: &Stages)
        requires staged { IsStaged (staging_of stages.now) }
        requires counts { CanCount (staging_of stages.now) stages.now.units.now.room self.old }
        requires fits { FitsSigned w64 (stages.now.from +ℤ pos number) }
        requires around { length self.old.share.scalars ≡ stages.now.depth }
        requires reserved { HasRoom stages.now.depth stages.now.units.now self.old.share }
        ensures task { (m : Memory) → task_over m self.new
            ≡ counted (enters (stages_work (staging_of stages.now)) number packet.items (task_over m self.old)) }
        ensures room { self.new.room ≡ self.old.room }
        ensures reserved { self.new.share.room ≡ self.old.share.room }
    {
        self.enter(number, packet, stages);
        self.moves += 1;
    }

    /// Does the own unit of its iteration with this number: one move.
    pub(crate) fn does_unit(
        &mut self,
        unit: usize,
        stages: &Stages,
        store: &Store,
    ) -> Result<(), AllocError>
        requires staged { IsStaged (staging_of stages.now) }
        requires counts { CanCount (staging_of stages.now) stages.now.units.now.room self.old }
        requires there { unit < (shape_of (staging_of stages.now)).units self.old.stage }
        requires may { MayDo (staging_of stages.now) self.old.stage unit (shared store.now self.old.share) }
        requires reserved { HasRoom stages.now.depth stages.now.units.now self.old.share }
        ensures task { OnOk result (task_over store.now self.new
            ≡ counted (unit_done (stages_work (staging_of stages.now)) unit (task_over store.now self.old))) }
        ensures room { OnOk result (self.new.room ≡ self.old.room) }
        ensures reserved { OnOk result (self.new.share.room ≡ self.old.share.room) }
    {
        self.do_unit(unit, stages, store)?;
        self.moves += 1;
        Ok(())
    }

    /// Leaves its iteration, whose packet is sent: one move.
    pub(crate) fn leaves(&mut self, stages: &Stages)
        requires { CanCount (staging_of stages.now) stages.now.units.now.room self.old }
        ensures task { (m : Memory) → task_over m self.new ≡ counted (leaves (stages_work (staging_of stages.now)) (task_over m self.old)) }
        ensures room { self.new.room ≡ self.old.room }
        ensures reserved { self.new.share.room ≡ self.old.share.room }
    {
        self.leave(stages);
        self.moves += 1;
    }

    /// Knows that no iteration follows.
    fn close(&mut self, stages: &Stages)
        requires staged { IsStaged (staging_of stages.now) }
        requires stage { self.old.stage < length stages.now.plan.now.pipe }
        ensures task { (m : Memory) → task_over m self.new ≡ closes (stages_work (staging_of stages.now)) (task_over m self.old) }
        ensures room { self.new.room ≡ self.old.room }
        ensures reserved { self.new.share.room ≡ self.old.share.room }
        ensures moves { self.new.moves ≡ self.old.moves }
    {
        self.position = if self.stage + 1 < stages.count() {
            if stages.is_parallel(self.stage) {
                Position::SendsEnd(self.worker)
            } else {
                Position::SendsEnd(0)
            }
        } else {
            Position::Finished
        };
    }

    /// Knows that no iteration follows: one move.
    pub(crate) fn ends(&mut self, stages: &Stages)
        requires staged { IsStaged (staging_of stages.now) }
        requires counts { CanCount (staging_of stages.now) stages.now.units.now.room self.old }
        ensures task { (m : Memory) → task_over m self.new ≡ counted (closes (stages_work (staging_of stages.now)) (task_over m self.old)) }
        ensures room { self.new.room ≡ self.old.room }
        ensures reserved { self.new.share.room ≡ self.old.share.room }
    {
        self.close(stages);
        self.moves += 1;
    }

    /// How many links it has to the stage before or behind.
    fn links(&self, stages: &Stages) -> usize
        requires { self.now.stage < length stages.now.plan.now.pipe }
        ensures { result ≡ links_of ((shape_of (staging_of stages.now)).parallel self.now.stage) stages.now.workers }
    {
        if stages.is_parallel(self.stage) {
            1
        } else {
            stages.workers
        }
    }

    /// Has received an End more, where it had received so many.
    fn take_end(&mut self, ends: usize, stages: &Stages)
        requires staged { IsStaged (staging_of stages.now) }
        requires stage { self.old.stage < length stages.now.plan.now.pipe }
        requires few { ends < stages.now.workers }
        ensures task { (m : Memory) → task_over m self.new ≡ takes_end (stages_work (staging_of stages.now)) ends (task_over m self.old) }
        ensures room { self.new.room ≡ self.old.room }
        ensures reserved { self.new.share.room ≡ self.old.share.room }
        ensures moves { self.new.moves ≡ self.old.moves }
    {
        if ends + 1 < self.links(stages) {
            self.position = Position::Receives(ends + 1);
        } else {
            self.close(stages);
        }
    }

    /// Receives an End, where it had received so many: one move.
    pub(crate) fn takes_end(&mut self, ends: usize, stages: &Stages)
        requires staged { IsStaged (staging_of stages.now) }
        requires counts { CanCount (staging_of stages.now) stages.now.units.now.room self.old }
        requires few { ends < stages.now.workers }
        ensures task { (m : Memory) → task_over m self.new
            ≡ counted (takes_end (stages_work (staging_of stages.now)) ends (task_over m self.old)) }
        ensures room { self.new.room ≡ self.old.room }
        ensures reserved { self.new.share.room ≡ self.old.share.room }
    {
        self.take_end(ends, stages);
        self.moves += 1;
    }

    /// The number behind its last link to the next stage.
    fn links_end(&self, stages: &Stages) -> usize
        requires staged { IsStaged (staging_of stages.now) }
        requires stage { self.now.stage < length stages.now.plan.now.pipe }
        requires worker { self.now.worker < stages.now.workers }
        ensures { let parallel = (shape_of (staging_of stages.now)).parallel self.now.stage in
            result ≡ first_link parallel self.now.worker + links_of parallel stages.now.workers }
    {
        if stages.is_parallel(self.stage) {
            self.worker + 1
        } else {
            stages.workers
        }
    }

    /// Has sent an End over this link.
    fn send_end(&mut self, link: usize, stages: &Stages)
        requires staged { IsStaged (staging_of stages.now) }
        requires stage { self.old.stage < length stages.now.plan.now.pipe }
        requires worker { self.old.worker < stages.now.workers }
        requires few { link < stages.now.workers }
        ensures task { (m : Memory) → task_over m self.new ≡ passes_end (stages_work (staging_of stages.now)) link (task_over m self.old) }
        ensures room { self.new.room ≡ self.old.room }
        ensures reserved { self.new.share.room ≡ self.old.share.room }
        ensures moves { self.new.moves ≡ self.old.moves }
    {
        self.position = if link + 1 < self.links_end(stages) {
            Position::SendsEnd(link + 1)
        } else {
            Position::Finished
        };
    }

    /// Sends an End over this link: one move.
    pub(crate) fn sends_end(&mut self, link: usize, stages: &Stages)
        requires staged { IsStaged (staging_of stages.now) }
        requires counts { CanCount (staging_of stages.now) stages.now.units.now.room self.old }
        requires worker { self.old.worker < stages.now.workers }
        requires few { link < stages.now.workers }
        ensures task { (m : Memory) → task_over m self.new
            ≡ counted (passes_end (stages_work (staging_of stages.now)) link (task_over m self.old)) }
        ensures room { self.new.room ≡ self.old.room }
        ensures reserved { self.new.share.room ≡ self.old.share.room }
    {
        self.send_end(link, stages);
        self.moves += 1;
    }
}
