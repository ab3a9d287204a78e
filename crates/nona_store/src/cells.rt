ghost use Rattle.std.specs.Prelude.{◌≡◌, ◌<◌, ◌≤◌, [], pos, length, replicate, slice_set, slice_index_or, All, IfOk};
ghost use Rattle.nona_sparse.specs.Sparse.{at, cells_under, on_page, off_page};
ghost use Rattle.nona_tree.specs.Faults.{cell_bound};
ghost use Rattle.nona_tree.specs.Numbers.{IsI64};
ghost use Rattle.nona_store.specs.Arrays.{AreKept};

use nona_sparse::SparseArray;
use std::alloc::{AllocError, Global};
use std::marker::Model;

/// The cells of an array, at most 4,194,304, each with a number of 64 bits. Contracts see them as their list.
#[derive(Debug, Drop)]
pub struct Cells {
    items: Vec<i64>,
}

impl Model for Cells {
    ghost use Rattle.std.specs.Prelude.{List, ℤ};
    ghost use Rattle.nona_store.specs.Arrays.{AreKept};

    ghost Value = { List ℤ };

    ghost view = { λ c. c.items.items };

    ghost invariant = { λ c. AreKept c.items.items };
}

impl Cells {
    /// The cells with these values, of which there are at most 4,194,304. Takes no memory.
    pub fn of(items: Vec<i64>) -> Cells
        requires few { length items.items ≤ cell_bound }
        requires numbers { All IsI64 items.items }
        ensures { result ≡ items.items }
    {
        Cells { items }
    }

    /// An array without cells. Takes no memory.
    pub fn none(alloc: Global) -> Cells
        ensures { result ≡ [] }
    {
        Cells {
            items: Vec::new(alloc),
        }
    }

    /// `count` cells, at most 4,194,304, each with the value 0.
    pub fn zeros(alloc: Global, count: usize) -> Result<Cells, AllocError>
        requires { count ≤ cell_bound }
        ensures { IfOk result (λ cells. cells ≡ replicate count (pos 0)) }
    {
        let items = vec![in alloc; 0i64; count]?;
        Ok(Cells { items })
    }

    /// How many cells there are.
    pub fn len(&self) -> usize
        ensures value { result ≡ length self.now }
        ensures few { result ≤ cell_bound }
    {
        self.items.len()
    }

    /// Says that there are no more cells than there may be, each with a number of 64 bits. It does nothing when called.
    pub fn are_kept(&self)
        ensures { AreKept self.now }
    {
        let _ = &self.items;
    }

    /// The value of the cell at this place, which is there.
    pub fn get(&self, index: usize) -> i64
        requires { index < length self.now }
        ensures { result ≡ slice_index_or self.now index (pos 0) }
    {
        self.items[index]
    }

    /// Gives the cell at this place, which is there, a value. Nothing else changes.
    pub fn put(&mut self, index: usize, value: i64)
        requires { index < length self.old }
        ensures { self.new ≡ slice_set self.old index value }
    {
        self.items[index] = value;
    }

    /// Gives each cell the value that is written at its place, where one is. Values behind the last cell are left out. Takes no
    /// memory.
    pub fn write(&mut self, written: &SparseArray)
        ensures { self.new ≡ cells_under (at written.now) 0 self.old }
    {
        written.write_to(self.items.as_mut_slice());
    }

    /// Gives each cell the value that is written at its place, where one is on the page with this index, and forgets these values.
    /// Takes no memory, and gives back that of the page.
    pub fn move_page(&mut self, index: usize, written: &mut SparseArray)
        ensures cells { self.new ≡ cells_under (on_page index (at written.old)) 0 self.old }
        ensures left { at written.new ≡ off_page index (at written.old) }
    {
        written.move_page(index, self.items.as_mut_slice());
    }

    /// The values of the cells in order.
    pub fn as_slice(&self) -> &[i64]
        ensures { result.now ≡ self.now }
    {
        self.items.as_slice()
    }

    /// Cells with the same values.
    pub fn copy(&self, alloc: Global) -> Result<Cells, AllocError>
        ensures { IfOk result (λ cells. cells ≡ self.now) }
    {
        let items = Vec::from_slice(alloc, self.items.as_slice())?;
        Ok(Cells { items })
    }
}
