//! The machine of an interval under `seq`.

ghost use Rattle.std.specs.Prelude.{◌≡◌, ◌≤◌, drop, false, IfOk, OnOk};
ghost use Rattle.std.specs.Int.{int_gap};
ghost use Rattle.morta_task.specs.Entries.{IsEntered, before, last};
ghost use Rattle.morta_task.specs.Running.{IsHandoff};
ghost use Rattle.weave.specs.SeqNet.{seq_machine, begun_net, claimed, step_at, moved, is_finished as has_finished, ran_of};
ghost use Rattle.weave.specs.declared.one_task.Position.TheVariants as place;
ghost use Rattle.weave.specs.OneTask.{place_before, store_before, stand_of, IsPlace, net_of, IsSet, IsOneTask};

use morta_task::{Cut, Entry, Handoff, Ran, Work};
use nona_code::Frame;
use nona_num::offset;
use nona_store::Store;
use nona_tree::Outcome;
use nona_units::{Units, leave, run_unit};
use std::alloc::AllocError;

/// Where the task stands.
#[derive(Clone, Copy)]
pub enum Position {
    /// Before a claim.
    Claims,
    /// Before the unit of its iteration that has this number, from 0.
    Unit(usize),
    /// It has finished.
    Finished,
}

/// The one task of an interval: it claims an iteration, does its units in text order, and claims again. A claim is refused
/// behind the limit or the pause, and that finishes the task; so does a unit that ends otherwise than done.
#[derive(Drop)]
pub struct OneTask<'a> {
    entry: &'a Entry,
    units: &'a Units,
    frame: Frame,
    /// How many scalars there are around an iteration.
    depth: usize,
    /// The index of the first iteration.
    from: i64,
    /// How many iterations may be granted.
    limit: u64,
    granted: u64,
    paused: bool,
    place: Position,
    store: Store,
    /// How the last iteration ended.
    end: Outcome,
    /// How often the task moved.
    moves: u64,
}

/// The place before the unit with this number. Behind the last one it is that before a claim, and the scalars behind the
/// first `depth` go.
fn arrive(units: &Units, at: usize, depth: usize, store: &mut Store) -> Position
    ensures place { stand_of units.now.body result ≡ place_before (drop at units.now.body) }
    ensures store { store.new ≡ store_before depth (drop at units.now.body) store.old }
    ensures number { IsPlace units.now.body result }
{
    if at < units.count() {
        Position::Unit(at)
    } else {
        leave(depth, store);
        Position::Claims
    }
}

impl<'a> OneTask<'a> {
    /// The machine of an interval of an entry to a loop of these units: it begins where the handoff stands, and grants up to
    /// `limit` iterations. Nothing is copied; a frame is made, which takes constant time. An error comes where memory runs out.
    pub fn begin(
        entry: &'a Entry,
        units: &'a Units,
        handoff: Handoff,
        limit: u64,
    ) -> Result<OneTask<'a>, AllocError>
        requires entered { IsEntered entry.now }
        requires units { units.now.body ≡ entry.now.looped.body }
        requires state { IsHandoff entry.now handoff }
        requires room { limit ≤ int_gap handoff.next (last entry.now) }
        ensures net { IfOk result (λ net. net_of net ≡ begun_net entry.now (before entry.now handoff.next) limit handoff.store) }
        ensures sound { IfOk result IsOneTask }
    {
        let frame = units.frame()?;
        let Handoff { next, store } = handoff;
        let _last = entry.last();
        let _turns = entry.turns();
        Ok(OneTask {
            entry,
            units,
            frame,
            depth: store.depth(),
            from: next,
            limit,
            granted: 0,
            paused: false,
            place: Position::Claims,
            store,
            end: Outcome::Done,
            moves: 0,
        })
    }

    /// Whether the task has finished.
    pub fn is_finished(&self) -> bool
        ensures { result ≡ has_finished (net_of self.now).place }
    {
        match self.place {
            Position::Finished => true,
            _ => false,
        }
    }

    /// Sets the pause mark: no claim is granted any more.
    pub fn pause(&mut self)
        requires { IsOneTask self.old }
        ensures net { net_of self.new ≡ seq_machine.pause (net_of self.old) }
        ensures sound { IsOneTask self.new }
    {
        self.paused = true;
    }

    /// Claims the next iteration, whose index is then declared, or is refused and finishes.
    fn claim(&mut self) -> Result<(), AllocError>
        requires set { IsSet self.old }
        ensures net { OnOk result (net_of self.new ≡ claimed (net_of self.old)) }
        ensures set { OnOk result (IsSet self.new) }
    {
        if self.paused || self.granted >= self.limit {
            self.place = Position::Finished;
            return Ok(());
        }
        let index = offset(self.from, self.granted);
        self.store.push_scalar(index)?;
        self.granted += 1;
        self.place = arrive(self.units, 0, self.depth, &mut self.store);
        Ok(())
    }

    /// Does the unit of the iteration that has this number. One that ends otherwise than done finishes the task.
    fn do_unit(&mut self, at: usize) -> Result<(), AllocError>
        requires net { IsOneTask self.old }
        requires place { self.old.place ≡ place.Unit at }
        ensures net { OnOk result (net_of self.new ≡ step_at (net_of self.old).place (net_of self.old)) }
        ensures set { OnOk result (IsSet self.new) }
    {
        let turns = self.entry.turns();
        match run_unit(self.units, at, &mut self.frame, turns, &mut self.store)? {
            Outcome::Done => {
                self.place = arrive(self.units, at + 1, self.depth, &mut self.store);
            }
            end => {
                leave(self.depth, &mut self.store);
                self.end = end;
                self.place = Position::Finished;
            }
        }
        Ok(())
    }

    /// Does what comes next: a claim, or a unit, or nothing where the task has finished.
    fn act(&mut self) -> Result<(), AllocError>
        requires { IsOneTask self.old }
        ensures net { OnOk result (net_of self.new ≡ step_at (net_of self.old).place (net_of self.old)) }
        ensures set { OnOk result (IsSet self.new) }
    {
        match self.place {
            Position::Claims => self.claim(),
            Position::Unit(at) => self.do_unit(at),
            Position::Finished => Ok(()),
        }
    }

    /// Does one step: a claim, or one unit. It takes constant time beside the unit, and no memory that the unit doesn't
    /// take. An error comes where memory runs out, and the machine is then spent.
    pub fn step(&mut self) -> Result<(), AllocError>
        requires net { IsOneTask self.old }
        requires goes_on { has_finished (net_of self.old).place ≡ false }
        ensures net { OnOk result (net_of self.new ≡ moved (net_of self.old)) }
        ensures sound { OnOk result (IsOneTask self.new) }
    {
        self.act()?;
        self.moves += 1;
        Ok(())
    }

    /// What the interval did, and the live state that it hands on. The store is moved.
    pub fn finish(self) -> (Handoff, Ran)
        requires { IsOneTask self }
        ensures ran { result.1 ≡ ran_of (net_of self.entry) }
        ensures next { result.0.next ≡ result.1.to }
        ensures store { result.0.store ≡ (net_of self.entry).store }
    {
        let to = offset(self.from, self.granted);
        let ran = Ran {
            to,
            work: Some(Work {
                steps: self.moves,
                waits: 0,
            }),
            ticks: self.moves,
            cut: Cut::of(self.end, self.granted, self.limit),
        };
        let handoff = Handoff {
            next: to,
            store: self.store,
        };
        (handoff, ran)
    }
}
