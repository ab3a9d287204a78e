//! A task that shares the iterations of an interval.

ghost use Rattle.std.specs.Prelude.{◌≡◌, ◌<◌, ◌+◌, ◌≤◌, ◌^◌, ◌+ℤ◌, ℕ, pos, drop, length, vec_capacity, FitsSigned, IfOk, OnOk};
ghost use Rattle.std.specs.Int.{w64};
ghost use Rattle.nona_store.specs.Overlays.{changes_of, changes_on_page, over_of, under, written_off, written_on};
ghost use Rattle.nona_store.specs.Shares.{shared};
ghost use Rattle.nona_tree.specs.Memory.{Memory};
ghost use Rattle.net_share.specs.May.{MayRunFirst};
ghost use Rattle.net_flow.specs.Net.{arrives, enters, leaves, closes};
ghost use Rattle.net_share.specs.Works.{Doing, doing, task_work};
ghost use Rattle.net_share.specs.declared.iterations.Iterations.{Iterations};

use crate::iterations::Iterations;
use crate::shares::{declare_on, leave_on, run_on};
use nona_code::Frame;
use nona_num::offset;
use nona_store::{Overlay, Share, Store};
use nona_units::Units;
use std::alloc::{AllocError, Global};
use std::marker::Model;

/// Where a task stands.
#[derive(Clone, Copy, Debug, PartialEq, Eq)]
pub enum Position {
    /// Before a claim.
    Claims,
    /// Before the unit of its iteration that has this number, from 0.
    Unit(usize),
    /// It has finished.
    Finished,
}

/// A task: its number; where it stands; how many iterations it has done, and the number of the one that it is in; its share of the
/// store; a frame with room for each unit; and how often it moved.
#[derive(Drop)]
pub(crate) struct Task {
    number: usize,
    position: Position,
    done: u64,
    iteration: u64,
    share: Share,
    frame: Frame,
    moves: u64,
}

impl Model for Task {
    ghost use Rattle.net_share.specs.Tasks.{TaskView};

    ghost Value = { TaskView };

    ghost view = { λ t. record {
      number = t.number;
      position = t.position;
      done = t.done;
      iteration = t.iteration;
      share = t.share;
      moves = t.moves;
      room = t.frame.room;
    } };
}

impl Task {
    ghost use Rattle.net_share.specs.Gathered.{own_scalar};
    ghost use Rattle.net_share.specs.Tasks.{CanCount, counted, new_task, task_over, unit_done};

    /// A task with this number before its first step, with these scalars, and a frame with room for each unit. It is refused for want
    /// of memory alone.
    pub(crate) fn begin(
        alloc: Global,
        number: usize,
        units: &Units,
        scalars: Vec<i64>,
    ) -> Result<Task, AllocError>
        ensures { IfOk result (λ task. task ≡ new_task number scalars.items (vec_capacity scalars) units.now.room) }
    {
        let frame = units.frame()?;
        Ok(Task {
            number,
            position: Position::Claims,
            done: 0,
            iteration: 0,
            share: Share::begin(alloc, scalars),
            frame,
            moves: 0,
        })
    }

    /// Forgets each cell that it has written with the value that the store has there. Nothing else of the share changes.
    pub(crate) fn keep_changes(&mut self, store: &Store)
        ensures scalars { self.new.share.scalars ≡ self.old.share.scalars }
        ensures printed { self.new.share.printed ≡ self.old.share.printed }
        ensures written { over_of self.new.share.written ≡ changes_of store.now (over_of self.old.share.written) }
    {
        self.share.keep_changes(store);
    }

    /// Forgets each value that it has written, on the page with this index of an array of the store, and that the store has there.
    /// Nothing else of the share changes.
    pub(crate) fn keep_page(&mut self, array: usize, index: usize, store: &Store)
        requires { array < length store.now.arrays }
        ensures scalars { self.new.share.scalars ≡ self.old.share.scalars }
        ensures printed { self.new.share.printed ≡ self.old.share.printed }
        ensures written { over_of self.new.share.written ≡ changes_on_page array index store.now (over_of self.old.share.written) }
    {
        self.share.keep_page(array, index, store);
    }

    /// Moves into the store what it has written on the page with this index of an array of the store. Nothing else of the share
    /// changes.
    pub(crate) fn apply_page(&mut self, array: usize, index: usize, store: &mut Store)
        requires { array < length store.old.arrays }
        ensures scalars { self.new.share.scalars ≡ self.old.share.scalars }
        ensures printed { self.new.share.printed ≡ self.old.share.printed }
        ensures left { over_of self.new.share.written ≡ written_off array index (over_of self.old.share.written) }
        ensures store { store.new ≡ under (written_on array index (over_of self.old.share.written)) store.old }
    {
        self.share.apply_page(array, index, store);
    }

    /// The cells that it has written.
    pub(crate) fn overlay(&self) -> &Overlay
        ensures { result.now ≡ self.now.share.written }
    {
        self.share.overlay()
    }

    /// Its own value of a scalar; 0 where it has no scalar with this id.
    pub(crate) fn scalar(&self, id: u32) -> i64
        ensures { result ≡ own_scalar id self.now.share }
    {
        self.share.scalars().get(id as usize).copied().unwrap_or(0)
    }

    /// How often it moved.
    pub(crate) fn moves(&self) -> u64
        ensures { result ≡ self.now.moves }
    {
        self.moves
    }

    /// Where it stands.
    pub(crate) fn position(&self) -> Position
        ensures { result ≡ self.now.position }
    {
        self.position
    }

    /// Leaves its iteration: the scalars in it go.
    fn leave(&mut self, depth: usize)
        requires { self.old.done + 1 < 2 ^ 64 }
        ensures task { (i : Iterations) (m : Memory) → task_over m self.new ≡ leaves (task_work (doing i depth)) (task_over m self.old) }
        ensures room { self.new.room ≡ self.old.room }
        ensures reserved { self.new.share.room ≡ self.old.share.room }
        ensures moves { self.new.moves ≡ self.old.moves }
    {
        leave_on(depth, &mut self.share);
        self.done += 1;
        self.position = Position::Claims;
    }

    /// Comes before the unit of its iteration with this number, or behind the last one.
    fn arrive(&mut self, unit: usize, iterations: &Iterations, depth: usize)
        requires { self.old.done + 1 < 2 ^ 64 }
        ensures task { (m : Memory) → task_over m self.new ≡ arrives (task_work (doing iterations.now depth)) unit (task_over m self.old) }
        ensures room { self.new.room ≡ self.old.room }
        ensures reserved { self.new.share.room ≡ self.old.share.room }
        ensures moves { self.new.moves ≡ self.old.moves }
    {
        if unit < iterations.units.count() {
            self.position = Position::Unit(unit);
        } else {
            self.leave(depth);
        }
    }

    /// Enters the iteration with this number: its index is a new scalar, for which there is room.
    fn enter(&mut self, number: u64, iterations: &Iterations, depth: usize)
        requires done { self.old.done + 1 < 2 ^ 64 }
        requires fits { FitsSigned w64 (iterations.now.from +ℤ pos number) }
        requires index { length self.old.share.scalars < self.old.share.room }
        ensures task { (m : Memory) → task_over m self.new
            ≡ enters (task_work (doing iterations.now depth)) number tt (task_over m self.old) }
        ensures room { self.new.room ≡ self.old.room }
        ensures reserved { self.new.share.room ≡ self.old.share.room }
        ensures moves { self.new.moves ≡ self.old.moves }
    {
        let index = offset(iterations.from, number);
        declare_on(index, &mut self.share);
        self.iteration = number;
        self.arrive(0, iterations, depth);
    }

    /// Begins the iteration with this number, for whose index there is room: one move.
    pub(crate) fn begins(&mut self, number: u64, iterations: &Iterations, depth: usize)
        requires counts { CanCount iterations.now.units.now self.old }
        requires fits { FitsSigned w64 (iterations.now.from +ℤ pos number) }
        requires index { length self.old.share.scalars < self.old.share.room }
        ensures task { (m : Memory) → task_over m self.new
            ≡ counted (enters (task_work (doing iterations.now depth)) number tt (task_over m self.old)) }
        ensures room { self.new.room ≡ self.old.room }
        ensures reserved { self.new.share.room ≡ self.old.share.room }
    {
        self.enter(number, iterations, depth);
        self.moves += 1;
    }

    /// Does the unit of its iteration with this number, and comes before the next one.
    fn do_unit(
        &mut self,
        unit: usize,
        iterations: &Iterations,
        depth: usize,
        store: &Store,
    ) -> Result<(), AllocError>
        requires there { unit < length iterations.now.units.now.body }
        requires room { iterations.now.units.now.room ≤ self.old.room }
        requires done { self.old.done + 1 < 2 ^ 64 }
        requires may { MayRunFirst (drop unit iterations.now.units.now.body) iterations.now.turns (shared store.now self.old.share) }
        ensures task { OnOk result (task_over store.now self.new
            ≡ unit_done (task_work (doing iterations.now depth)) unit (task_over store.now self.old)) }
        ensures room { OnOk result (self.new.room ≡ self.old.room) }
        ensures reserved { OnOk result (self.new.share.room ≡ self.old.share.room) }
        ensures moves { OnOk result (self.new.moves ≡ self.old.moves) }
    {
        let _count = iterations.units.count();
        run_on(
            iterations.units,
            unit,
            iterations.turns,
            &mut self.frame,
            store,
            &mut self.share,
        )?;
        self.arrive(unit + 1, iterations, depth);
        Ok(())
    }

    /// Does the unit of its iteration with this number: one move.
    pub(crate) fn does_unit(
        &mut self,
        unit: usize,
        iterations: &Iterations,
        depth: usize,
        store: &Store,
    ) -> Result<(), AllocError>
        requires there { unit < length iterations.now.units.now.body }
        requires counts { CanCount iterations.now.units.now self.old }
        requires may { MayRunFirst (drop unit iterations.now.units.now.body) iterations.now.turns (shared store.now self.old.share) }
        ensures task { OnOk result (task_over store.now self.new
            ≡ counted (unit_done (task_work (doing iterations.now depth)) unit (task_over store.now self.old))) }
        ensures room { OnOk result (self.new.room ≡ self.old.room) }
        ensures reserved { OnOk result (self.new.share.room ≡ self.old.share.room) }
    {
        self.do_unit(unit, iterations, depth, store)?;
        self.moves += 1;
        Ok(())
    }

    /// Finishes: one move.
    pub(crate) fn finishes(&mut self)
        requires { self.old.moves + 1 < 2 ^ 64 }
        ensures task { (m : Memory) (does : Doing) → task_over m self.new ≡ counted (closes (task_work does) (task_over m self.old)) }
        ensures room { self.new.room ≡ self.old.room }
        ensures share { self.new.share ≡ self.old.share }
    {
        self.position = Position::Finished;
        self.moves += 1;
    }
}
