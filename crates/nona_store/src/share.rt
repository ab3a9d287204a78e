ghost use Rattle.std.specs.Prelude.{◌≡◌, ◌<◌, ◌≤◌, ◌-◌, ◌++◌, ◌∷◌, [], pos, length, take, slice_index_or, slice_set, OnOk, OnErr};
ghost use Rattle.std.specs.Prelude.{vec_capacity};
ghost use Rattle.nona_tree.specs.Faults.{cell_bound};
ghost use Rattle.nona_store.specs.Overlays.{changes_of, changes_on_page, over_of, under, unwritten, with_cell, written_off, written_on};

use crate::banks::Bank;
use crate::overlay::Overlay;
use crate::store::Store;
use std::alloc::{AllocError, Global};
use std::marker::Model;

/// A task's share of a store that several tasks compute on: scalars of its own, with room for so many at least, and the cells that
/// it has written and the numbers that it has printed, which stand beside the store. Contracts see the four. The room never changes.
#[derive(Drop)]
pub struct Share {
    scalars: Vec<i64>,
    room: usize,
    overlay: Overlay,
    printed: Vec<i64>,
}

impl Model for Share {
    ghost use Rattle.std.specs.Prelude.{◌≤◌, vec_capacity};
    ghost use Rattle.nona_store.specs.Shares.{ShareView};

    ghost Value = { ShareView };

    ghost view = { λ s. record { scalars = s.scalars.items; written = s.overlay; printed = s.printed.items; room = s.room } };

    ghost invariant = { λ s. s.room ≤ vec_capacity s.scalars };
}

impl Share {
    /// A share with these scalars, no written cell, and nothing printed. It has the room that they have. Takes no memory.
    pub fn begin(alloc: Global, scalars: Vec<i64>) -> Share
        ensures { result ≡ record { scalars = scalars.items; written = unwritten; printed = []; room = vec_capacity scalars } }
    {
        Share {
            room: scalars.capacity(),
            scalars,
            overlay: Overlay::begin(alloc),
            printed: Vec::new(alloc),
        }
    }

    /// The cells that were written.
    pub fn overlay(&self) -> &Overlay
        ensures { result.now ≡ self.now.written }
    {
        &self.overlay
    }

    /// Its scalars, in order.
    pub fn scalars(&self) -> &[i64]
        ensures { result.now ≡ self.now.scalars }
    {
        self.scalars.as_slice()
    }

    /// The numbers that were printed, in order.
    pub fn printed(&self) -> &[i64]
        ensures { result.now ≡ self.now.printed }
    {
        self.printed.as_slice()
    }

    /// The scalar with this id, which is there.
    fn scalar(&self, id: u32) -> i64
        requires { id < length self.now.scalars }
        ensures { result ≡ slice_index_or self.now.scalars id (pos 0) }
    {
        self.scalars[id as usize]
    }

    /// Gives the scalar with this id, which is there, a value.
    fn set_scalar(&mut self, id: u32, value: i64)
        requires { id < length self.old.scalars }
        ensures { self.new ≡ record self.old { scalars = slice_set self.old.scalars id value } }
    {
        self.scalars[id as usize] = value;
    }

    /// Declares a scalar behind the others. Where memory runs out the share is unchanged.
    pub fn push_scalar(&mut self, value: i64) -> Result<(), AllocError>
        ensures ok { OnOk result (self.new ≡ record self.old { scalars = self.old.scalars ++ value ∷ [] }) }
        ensures err { OnErr result (self.new ≡ self.old) }
    {
        self.scalars.push(value)?;
        Ok(())
    }

    /// Declares a scalar behind the others, for which there is room. Takes no memory.
    pub fn declare(&mut self, value: i64)
        requires { length self.old.scalars < self.old.room }
        ensures { self.new ≡ record self.old { scalars = self.old.scalars ++ value ∷ [] } }
    {
        self.scalars.push_reserved(value);
    }

    /// Drops the last scalars, of which there are at least `count`. Takes constant time.
    pub fn cut_scalars(&mut self, count: usize)
        requires { count ≤ length self.old.scalars }
        ensures { self.new ≡ record self.old { scalars = take (length self.old.scalars - count) self.old.scalars } }
    {
        let left = self.scalars.len() - count;
        self.scalars.truncate(left);
    }

    /// Prints a number behind the others. Where memory runs out the share is unchanged.
    fn print(&mut self, value: i64) -> Result<(), AllocError>
        ensures ok { OnOk result (self.new ≡ record self.old { printed = self.old.printed ++ value ∷ [] }) }
        ensures err { OnErr result (self.new ≡ self.old) }
    {
        self.printed.push(value)?;
        Ok(())
    }

    /// The value that was written on a cell, if any was.
    fn get(&self, array: u32, index: usize) -> Option<i64>
        ensures { result ≡ over_of self.now.written array index }
    {
        self.overlay.get(array, index)
    }

    /// Writes a value on a cell. Where memory runs out, each cell has what it had.
    fn put(&mut self, array: u32, index: usize, value: i64) -> Result<(), AllocError>
        requires { index < cell_bound }
        ensures scalars { self.new.scalars ≡ self.old.scalars }
        ensures printed { self.new.printed ≡ self.old.printed }
        ensures room { self.new.room ≡ self.old.room }
        ensures ok { OnOk result (over_of self.new.written ≡ with_cell array index value (over_of self.old.written)) }
        ensures err { OnErr result (over_of self.new.written ≡ over_of self.old.written) }
    {
        self.overlay.put(array, index, value)
    }

    /// Forgets each written value that the store's cell has already. Takes no memory, and a time in proportion to the overlay's pages
    /// and the values in them.
    pub fn keep_changes(&mut self, store: &Store)
        ensures scalars { self.new.scalars ≡ self.old.scalars }
        ensures printed { self.new.printed ≡ self.old.printed }
        ensures room { self.new.room ≡ self.old.room }
        ensures written { over_of self.new.written ≡ changes_of store.now (over_of self.old.written) }
    {
        self.overlay.keep_changes(store);
    }

    /// Forgets each written value, on the page with this index of an array of the store, that the store's cell has already. Nothing
    /// else changes. Takes no memory, and a time in proportion to the page's values, and constant beside.
    pub fn keep_page(&mut self, array: usize, index: usize, store: &Store)
        requires { array < length store.now.arrays }
        ensures scalars { self.new.scalars ≡ self.old.scalars }
        ensures printed { self.new.printed ≡ self.old.printed }
        ensures room { self.new.room ≡ self.old.room }
        ensures written { over_of self.new.written ≡ changes_on_page array index store.now (over_of self.old.written) }
    {
        self.overlay.keep_page(array, index, store);
    }

    /// Moves the written values, on the page with this index of an array of the store, into the store. Nothing else changes. Takes no
    /// memory, gives back that of the page, and takes a time in proportion to the page's values, and constant beside.
    pub fn apply_page(&mut self, array: usize, index: usize, store: &mut Store)
        requires { array < length store.old.arrays }
        ensures scalars { self.new.scalars ≡ self.old.scalars }
        ensures printed { self.new.printed ≡ self.old.printed }
        ensures room { self.new.room ≡ self.old.room }
        ensures left { over_of self.new.written ≡ written_off array index (over_of self.old.written) }
        ensures store { store.new ≡ under (written_on array index (over_of self.old.written)) store.old }
    {
        store.apply_page(array, index, &mut self.overlay);
    }
}

/// A store as a task sees it: the task's own scalars, the store's cells under those that the task has written, and behind what the
/// store has printed what the task has printed. Every cell may be loaded and saved, and numbers may be printed. Each call takes
/// constant time, but where a save is the first one near its cell (`Overlay::put`). What is written goes to the share alone,
/// which is lent to it. Its limits name the loan, so that the share is known after any calls.
#[derive(Drop)]
pub struct ShareBank<'a> {
    pub store: &'a Store,
    pub share: &'a mut Share,
}

impl<'a> Bank for ShareBank<'a> {
    ghost use Rattle.nona_store.specs.Shares.{shared, all_beside};

    ghost state = { λ b. shared b.store.now b.share.now };

    ghost limits = { λ b. all_beside b.store.now b.share.now.room b.share.ghost_name };

    fn scalar(&mut self, id: u32) -> i64 {
        self.share.scalar(id)
    }

    fn set_scalar(&mut self, id: u32, value: i64) {
        self.share.set_scalar(id, value);
    }

    fn push_scalar(&mut self, value: i64) -> Result<(), AllocError> {
        self.share.push_scalar(value)
    }

    fn cut_scalars(&mut self, count: usize) {
        self.share.cut_scalars(count);
    }

    fn length(&self, array: u32) -> usize {
        self.store.length(array)
    }

    fn load(&mut self, array: u32, index: usize) -> i64 {
        match self.share.get(array, index) {
            Some(written) => written,
            None => self.store.cell(array, index),
        }
    }

    fn save(&mut self, array: u32, index: usize, value: i64) -> Result<(), AllocError> {
        self.store.is_kept();
        self.share.put(array, index, value)
    }

    fn print(&mut self, value: i64) -> Result<(), AllocError> {
        self.share.print(value)
    }
}
