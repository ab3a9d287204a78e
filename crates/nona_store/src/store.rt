ghost use Rattle.std.specs.Prelude.{◌≡◌, ◌<◌, ◌≤◌, ◌-◌, [], length, map, replicate, pos, All, OnOk, OnErr, IfOk};
ghost use Rattle.nona_store.specs.Arrays.{with_array, AreSized, IsSized, AreFew};
ghost use Rattle.nona_sparse.specs.Sparse.{at, cells_under, on_page};
ghost use Rattle.nona_store.specs.Input.{number_bound};
ghost use Rattle.nona_store.specs.Overlays.{over_of, under, written_off, written_on};
ghost use Rattle.nona_tree.specs.Faults.{cell_bound};
ghost use Rattle.nona_tree.specs.Numbers.{IsI64, AreI64};
ghost use Rattle.nona_tree.specs.Memory.{scalar_at, cells_of, cell_at, declare, assign, put_cell, print, cut_to};
ghost use Rattle.nona_tree.specs.Run.{start_of, start_arrays, count_of};
ghost use Rattle.nona_tree.specs.declared.trees.VarDecl.{VarDecl};

use crate::cells::Cells;
use crate::overlay::Overlay;
use nona_sparse::SparseArray;
use nona_tree::{ArrayDecl, Checked, VarDecl, cells_are_bounded, numbers_stay};
use std::alloc::{AllocError, Global};
use std::marker::Model;
use std::mem;

/// What a program computes on: the visible scalars in order of declaration, the cells of each array, and the printed
/// numbers. Contracts see it as these three lists. All its numbers have 64 bits, and no array has more than 4,194,304
/// cells (`is_kept`).
///
/// An array is named by its id: 0 is the input, and the declared arrays follow in text order. Each call takes constant
/// time but for `start` and `copy`.
#[derive(Debug, Drop)]
pub struct Store {
    scalars: Vec<i64>,
    arrays: Vec<Cells>,
    printed: Vec<i64>,
}

impl Model for Store {
    ghost use Rattle.nona_tree.specs.Memory.{Memory};
    ghost use Rattle.nona_store.specs.Arrays.{IsKept};

    ghost Value = { Memory };

    ghost view = { λ s. record { scalars = s.scalars.items; arrays = s.arrays.items; printed = s.printed.items } };

    ghost invariant = { λ s. IsKept (record { scalars = s.scalars.items; arrays = s.arrays.items; printed = s.printed.items }) };
}

// The declared values of variables.
fn declared_values(alloc: Global, vars: &[VarDecl]) -> Result<Vec<i64>, AllocError>
    ensures { IfOk result (λ scalars. scalars.items ≡ map (λ (d : VarDecl). d.value) vars.now) }
{
    let mut scalars = Vec::new(alloc);
    for declared in vars {
        scalars.push(declared.value)?;
    }
    Ok(scalars)
}

// A declared array, with all cells 0.
fn declared_cells(alloc: Global, declared: &ArrayDecl) -> Result<Cells, AllocError>
    requires { IsSized declared.now }
    ensures { IfOk result (λ cells. cells ≡ replicate (count_of declared.now.cells) (pos 0)) }
{
    Cells::zeros(alloc, declared.cells as usize)
}

// The input's cells, and behind them the declared arrays with all cells 0.
fn first_arrays(
    alloc: Global,
    declared: &[ArrayDecl],
    input: Cells,
) -> Result<Vec<Cells>, AllocError>
    requires { AreSized declared.now }
    ensures { IfOk result (λ arrays. arrays.items ≡ start_arrays declared.now input) }
{
    let mut arrays = Vec::new(alloc);
    arrays.push(input)?;
    for array in declared {
        arrays.push(declared_cells(alloc, array)?)?;
    }
    Ok(arrays)
}

// The cells of each array again.
fn copied_arrays(alloc: Global, arrays: &[Cells]) -> Result<Vec<Cells>, AllocError>
    ensures { IfOk result (λ copies. copies.items ≡ arrays.now) }
{
    let mut copies = Vec::new(alloc);
    for cells in arrays {
        copies.push(cells.copy(alloc)?)?;
    }
    Ok(copies)
}

impl Store {
    /// The store before a program's first statement: its variables with their declared values, the input's numbers as
    /// array 0, its arrays with all cells 0, and nothing printed. The input has at most 1,048,576 numbers, as
    /// `read_numbers` answers them. The one error is that memory ran out.
    pub fn start(alloc: Global, program: &Checked, input: Vec<i64>) -> Result<Store, AllocError>
        requires few { length input.items ≤ number_bound }
        requires numbers { All IsI64 input.items }
        ensures { IfOk result (λ store. store ≡ start_of program.now input.items) }
    {
        cells_are_bounded();
        numbers_stay();
        let program = program.program();
        let scalars = declared_values(alloc, program.vars.as_slice())?;
        let arrays = first_arrays(alloc, program.arrays.as_slice(), Cells::of(input))?;
        Ok(Store {
            scalars,
            arrays,
            printed: Vec::new(alloc),
        })
    }

    /// Says that all numbers have 64 bits, and that no array has more cells than there may be. It does nothing when called.
    pub fn is_kept(&self)
        ensures numbers { AreI64 self.now }
        ensures few { All AreFew self.now.arrays }
    {
        let _ = &self.scalars;
    }

    /// A store that equals this one and shares nothing with it.
    pub fn copy(&self, alloc: Global) -> Result<Store, AllocError>
        ensures { IfOk result (λ store. store ≡ self.now) }
    {
        let scalars = Vec::from_slice(alloc, self.scalars.as_slice())?;
        let arrays = copied_arrays(alloc, self.arrays.as_slice())?;
        let printed = Vec::from_slice(alloc, self.printed.as_slice())?;
        Ok(Store {
            scalars,
            arrays,
            printed,
        })
    }

    /// How many scalars are visible.
    pub fn depth(&self) -> usize
        ensures { result ≡ length self.now.scalars }
    {
        self.scalars.len()
    }

    /// The visible scalars, in order of declaration.
    pub fn scalars(&self) -> &[i64]
        ensures { result.now ≡ self.now.scalars }
    {
        self.scalars.as_slice()
    }

    /// The scalar with this id, which is there.
    pub fn scalar(&self, id: u32) -> i64
        requires { id < length self.now.scalars }
        ensures { result ≡ scalar_at self.now id }
    {
        self.scalars[id as usize]
    }

    /// Gives the scalar with this id, which is there, a value. Nothing else changes.
    pub fn set_scalar(&mut self, id: u32, value: i64)
        requires { id < length self.old.scalars }
        ensures { self.new ≡ assign id value self.old }
    {
        self.scalars[id as usize] = value;
    }

    /// Gives the scalar at this position, which is there, a value. Nothing else changes.
    pub fn set_scalar_at(&mut self, position: usize, value: i64)
        requires { position < length self.old.scalars }
        ensures { self.new ≡ assign position value self.old }
    {
        self.scalars[position] = value;
    }

    /// Declares a scalar behind the others. Where memory runs out the store is unchanged.
    pub fn push_scalar(&mut self, value: i64) -> Result<(), AllocError>
        ensures ok { OnOk result (self.new ≡ declare value self.old) }
        ensures err { OnErr result (self.new ≡ self.old) }
    {
        self.scalars.push(value)?;
        Ok(())
    }

    /// Drops the last scalars, of which there are at least `count`.
    pub fn cut_scalars(&mut self, count: usize)
        requires { count ≤ length self.old.scalars }
        ensures { self.new ≡ cut_to (length self.old.scalars - count) self.old }
    {
        let left = self.scalars.len() - count;
        self.scalars.truncate(left);
    }

    /// How many arrays there are, the input with them.
    pub fn count_arrays(&self) -> usize
        ensures { result ≡ length self.now.arrays }
    {
        self.arrays.len()
    }

    /// How many cells the array with this id, which is there, has: at most 4,194,304.
    pub fn length(&self, array: u32) -> usize
        requires { array < length self.now.arrays }
        ensures value { result ≡ length (cells_of self.now array) }
        ensures few { result ≤ cell_bound }
    {
        self.arrays[array as usize].len()
    }

    /// The value of an array's cell; both are there.
    pub fn cell(&self, array: u32, index: usize) -> i64
        requires array { array < length self.now.arrays }
        requires cell { index < length (cells_of self.now array) }
        ensures { result ≡ cell_at self.now array index }
    {
        self.arrays[array as usize].get(index)
    }

    /// Gives an array's cell a value; both are there. Nothing else changes.
    pub fn put_cell(&mut self, array: u32, index: usize, value: i64)
        requires array { array < length self.old.arrays }
        requires cell { index < length (cells_of self.old array) }
        ensures { self.new ≡ put_cell array index value self.old }
    {
        let cells = &mut self.arrays[array as usize];
        cells.put(index, value);
    }

    /// The cells of each array, in order of id.
    pub(crate) fn arrays(&self) -> &[Cells]
        ensures { result.now ≡ self.now.arrays }
    {
        self.arrays.as_slice()
    }

    /// Gives each cell of an array that is there the value that is written at its place, where one is. Nothing else changes.
    fn write_array(&mut self, array: usize, written: &SparseArray)
        requires { array < length self.old.arrays }
        ensures { self.new ≡ with_array array (cells_under (at written.now) 0 (cells_of self.old array)) self.old }
    {
        let cells = &mut self.arrays[array];
        cells.write(written);
        cells.are_kept();
    }

    /// Gives each cell that an overlay has its value; those that the store doesn't have are left out. Nothing else changes. Takes no
    /// memory, and a time in proportion to the overlay's pages and the values in them.
    pub fn apply(&mut self, overlay: &Overlay)
        ensures { self.new ≡ under (over_of overlay.now) self.old }
    {
        let written = overlay.arrays();
        let many = written.len().min(self.arrays.len());
        'arrays: for array in 0..many {
            self.write_array(array, &written[array]);
        }
    }

    // Moves the values that are written on a page into an array; both are there. Nothing else changes.
    fn move_page(&mut self, array: usize, index: usize, overlay: &mut Overlay)
        requires there { array < length self.old.arrays }
        requires written { array < length overlay.old }
        ensures store { self.new ≡ with_array array (cells_under (on_page index (over_of overlay.old array)) 0 (cells_of self.old array)) self.old }
        ensures left { over_of overlay.new ≡ written_off array index (over_of overlay.old) }
    {
        let cells = &mut self.arrays[array];
        overlay.move_page(array, index, cells);
        cells.are_kept();
    }

    /// Gives each cell that an overlay has, on the page with this index of an array that is there, its value, and forgets these values.
    /// Nothing else changes. Takes no memory, gives back that of the page, and takes a time in proportion to the page's values, and
    /// constant beside.
    pub fn apply_page(&mut self, array: usize, index: usize, overlay: &mut Overlay)
        requires { array < length self.old.arrays }
        ensures store { self.new ≡ under (written_on array index (over_of overlay.old)) self.old }
        ensures left { over_of overlay.new ≡ written_off array index (over_of overlay.old) }
    {
        if array < overlay.count_arrays() {
            self.move_page(array, index, overlay);
        }
    }

    /// The values of the cells, in order, of the array with this id, which is there.
    pub fn cells(&self, array: u32) -> &[i64]
        requires { array < length self.now.arrays }
        ensures { result.now ≡ cells_of self.now array }
    {
        self.arrays[array as usize].as_slice()
    }

    /// Moves the cells out of the array with this id, which is there, and leaves it without cells. Nothing else
    /// changes, and no memory is taken. `give_array` moves them back.
    pub fn take_array(&mut self, array: u32) -> Cells
        requires { array < length self.old.arrays }
        ensures cells { result ≡ cells_of self.old array }
        ensures store { self.new ≡ with_array array [] self.old }
    {
        let none = Cells::none(*self.scalars.allocator());
        mem::replace(&mut self.arrays[array as usize], none)
    }

    /// Moves cells into the array with this id, which is there; the cells that it had go. Nothing else changes.
    pub fn give_array(&mut self, array: u32, cells: Cells)
        requires { array < length self.old.arrays }
        ensures { self.new ≡ with_array array cells self.old }
    {
        self.arrays[array as usize] = cells;
    }

    /// Prints a number behind the others. Where memory runs out the store is unchanged.
    pub fn print(&mut self, value: i64) -> Result<(), AllocError>
        ensures ok { OnOk result (self.new ≡ print value self.old) }
        ensures err { OnErr result (self.new ≡ self.old) }
    {
        self.printed.push(value)?;
        Ok(())
    }

    /// The printed numbers in order.
    pub fn printed(&self) -> &[i64]
        ensures { result.now ≡ self.now.printed }
    {
        self.printed.as_slice()
    }
}
