ghost use Rattle.std.specs.Prelude.{◌≡◌, ◌<◌, ℕ, length, slice_index_or, [], OnOk, OnErr};
ghost use Rattle.nona_sparse.specs.Sparse.{changes, cells_under, on_page};
ghost use Rattle.nona_tree.specs.Faults.{cell_bound};
ghost use Rattle.nona_store.specs.Overlays.{changes_of, changes_on_page, over_of, unwritten, with_cell, written_off};

use crate::cells::Cells;
use crate::store::Store;
use nona_sparse::SparseArray;
use std::alloc::{AllocError, Global};
use std::marker::Model;

/// Values of cells that are written beside a store and not yet in it: a sparse array for each array up to the last one that has such
/// cells. Contracts see for an array and a place the value that was last put there, if any was (`over_of`).
#[derive(Drop)]
pub struct Overlay {
    arrays: Vec<SparseArray>,
}

impl Model for Overlay {
    ghost use Rattle.std.specs.Prelude.{ℤ, List, Option};

    ghost Value = { List (List (List (Option ℤ))) };

    ghost view = { λ o. o.arrays.items };
}

// Adds sparse arrays without values, until there is the one with this id: none where it is there already. Where memory runs out,
// there may be some more.
fn make_arrays(alloc: Global, arrays: &mut Vec<SparseArray>, id: u32) -> Result<(), AllocError>
    ensures same { over_of arrays.new.items ≡ over_of arrays.old.items }
    ensures there { OnOk result (id < length arrays.new.items) }
{
    'arrays: for _ in arrays.len()..id as usize + 1 {
        arrays.push(SparseArray::begin(alloc))?;
    }
    Ok(())
}

// Puts a value on a cell of an array whose sparse array is there. Where memory runs out, each cell has what it had.
#[inline]
fn put_there(
    arrays: &mut Vec<SparseArray>,
    array: u32,
    index: usize,
    value: i64,
) -> Result<(), AllocError>
    requires there { array < length arrays.old.items }
    requires index { index < cell_bound }
    ensures ok { OnOk result (over_of arrays.new.items ≡ with_cell array index value (over_of arrays.old.items)) }
    ensures err { OnErr result (over_of arrays.new.items ≡ over_of arrays.old.items) }
{
    arrays[array as usize].put(index, value)
}

// Puts a value on a cell of an array whose sparse array isn't there yet. Where memory runs out, each cell has what it had.
#[cold]
#[inline(never)]
fn put_first(
    alloc: Global,
    arrays: &mut Vec<SparseArray>,
    array: u32,
    index: usize,
    value: i64,
) -> Result<(), AllocError>
    requires index { index < cell_bound }
    ensures ok { OnOk result (over_of arrays.new.items ≡ with_cell array index value (over_of arrays.old.items)) }
    ensures err { OnErr result (over_of arrays.new.items ≡ over_of arrays.old.items) }
{
    make_arrays(alloc, arrays, array)?;
    put_there(arrays, array, index, value)
}

// Leaves of the written values those that the arrays' cells don't have.
fn keep_left(written: &mut Vec<SparseArray>, arrays: &[Cells])
    ensures { (id : ℕ) → over_of written.new.items id ≡ changes (slice_index_or arrays.now id []) (over_of written.old.items id) }
{
    let many = written.len().min(arrays.len());
    'arrays: for id in 0..many {
        written[id].keep_changes(arrays[id].as_slice());
    }
}

impl Overlay {
    /// An overlay without cells. Takes no memory.
    pub fn begin(alloc: Global) -> Overlay
        ensures { result ≡ unwritten }
    {
        Overlay {
            arrays: Vec::new(alloc),
        }
    }

    /// The written values of each array, in order of id, up to the last one that has any.
    pub(crate) fn arrays(&self) -> &[SparseArray]
        ensures { result.now ≡ self.now }
    {
        self.arrays.as_slice()
    }

    /// Puts a value on the cell at this place of the array with this id, in place of one that was there. Takes constant time, but
    /// where places have to be made for it: as many as there are arrays up to this one, and those of `SparseArray::put`, which are
    /// there from then on. Where memory runs out, each cell has what it had.
    #[inline]
    pub fn put(&mut self, array: u32, index: usize, value: i64) -> Result<(), AllocError>
        requires { index < cell_bound }
        ensures ok { OnOk result (over_of self.new ≡ with_cell array index value (over_of self.old)) }
        ensures err { OnErr result (over_of self.new ≡ over_of self.old) }
    {
        if (array as usize) < self.arrays.len() {
            return put_there(&mut self.arrays, array, index, value);
        }
        let alloc = *self.arrays.allocator();
        put_first(alloc, &mut self.arrays, array, index, value)
    }

    /// The value that was put on the cell at this place of the array with this id, if any was. Takes constant time.
    pub fn get(&self, array: u32, index: usize) -> Option<i64>
        ensures { result ≡ over_of self.now array index }
    {
        if array as usize >= self.arrays.len() {
            return None;
        }
        self.arrays[array as usize].get(index)
    }

    /// Forgets each value that the store's cell at its place has already. Takes no memory, and a time in proportion to its pages and
    /// the values in them.
    pub fn keep_changes(&mut self, store: &Store)
        ensures { over_of self.new ≡ changes_of store.now (over_of self.old) }
    {
        keep_left(&mut self.arrays, store.arrays());
    }

    /// How many arrays there are up to the last one that has written cells, or had them.
    pub fn count_arrays(&self) -> usize
        ensures { result ≡ length self.now }
    {
        self.arrays.len()
    }

    /// How many pages the sparse array of the array with this id has, those without values with them.
    pub fn count_pages(&self, array: usize) -> usize
        ensures { result ≡ length (slice_index_or self.now array []) }
    {
        if array >= self.arrays.len() {
            return 0;
        }
        self.arrays[array].pages()
    }

    /// Forgets each value, on the page of this array with this index, that the store's cell at its place has already. The array is one
    /// of the store's. Nothing else changes. Takes no memory, and a time in proportion to the page's values, and constant beside.
    pub fn keep_page(&mut self, array: usize, index: usize, store: &Store)
        requires { array < length store.now.arrays }
        ensures { over_of self.new ≡ changes_on_page array index store.now (over_of self.old) }
    {
        if array < self.arrays.len() {
            let written = &mut self.arrays[array];
            written.keep_page(index, store.arrays()[array].as_slice());
        }
    }

    /// Gives each of an array's cells its written value, where one is on the array's page with this index, and forgets these values.
    /// Takes no memory, and gives back that of the page.
    pub(crate) fn move_page(&mut self, array: usize, index: usize, cells: &mut Cells)
        requires { array < length self.old }
        ensures cells { cells.new ≡ cells_under (on_page index (over_of self.old array)) 0 cells.old }
        ensures left { over_of self.new ≡ written_off array index (over_of self.old) }
    {
        let written = &mut self.arrays[array];
        cells.move_page(index, written);
    }
}
