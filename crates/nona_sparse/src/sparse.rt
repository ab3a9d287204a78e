ghost use Rattle.std.specs.Prelude.{◌≡◌, ◌==◌, ◌<◌, ◌≤◌, [], ℕ, length, true, false, None, All, FitsSigned, OnOk, OnErr};
ghost use Rattle.std.specs.Int.{w64};
ghost use Rattle.nona_sparse.specs.Sparse.{at, with_at, changes, cells_under, on_page, off_page, changes_on};

use crate::page::{PAGE, PAGES, Page};
use std::alloc::{AllocError, Global};
use std::marker::Model;

/// The most places of a sparse array: 4,194,304.
pub const PLACES: usize = PAGES * PAGE;

/// Values of 64 bits that are written over the cells of an array and aren't in it yet. Contracts see its pages: for each place the
/// value that was last put there, if any was (`at`). It takes memory for the values that it has, with room for some more, and two words
/// for each page of 1,024 places up to the last one that has values; a page on which a value was put takes 21 words beside.
#[derive(Drop)]
pub struct SparseArray {
    pages: Vec<Page>,
}

impl Model for SparseArray {
    ghost use Rattle.std.specs.Prelude.{ℤ, List, Option, length, ◌≤◌};
    ghost use Rattle.nona_sparse.specs.declared.page.TheConstants.{PAGES};

    ghost Value = { List (List (Option ℤ)) };

    ghost view = { λ s. s.pages.items };

    ghost invariant = { λ s. length s.pages.items ≤ PAGES };
}

// How many values the last of some pages has: none where there is no page.
fn last_count(pages: &Vec<Page>) -> usize
    ensures { result ≤ PAGE }
{
    match pages.last() {
        Some(page) => page.count(),
        None => 0,
    }
}

// Adds pages without values until there is the one with this index, which isn't there yet. That one gets room for as many values as
// the one that was last has, since neighbours mostly have as many. Where memory runs out, there may be some more.
#[cold]
#[inline(never)]
fn make_pages(alloc: Global, pages: &mut Vec<Page>, index: usize) -> Result<(), AllocError>
    requires behind { length pages.old.items ≤ index }
    requires index { index < PAGES }
    ensures same { at pages.new.items ≡ at pages.old.items }
    ensures few { length pages.new.items ≤ PAGES }
    ensures there { OnOk result (index < length pages.new.items) }
{
    let room = last_count(pages);
    'pages: for _ in pages.len()..index {
        pages.push(Page::begin())?;
    }
    pages.push(Page::with_room(alloc, room)?)?;
    Ok(())
}

// Adds empty pages where the one with this index isn't there yet. Where memory runs out, there may be some more.
fn add_pages(alloc: Global, pages: &mut Vec<Page>, index: usize) -> Result<(), AllocError>
    requires few { length pages.old.items ≤ PAGES }
    requires index { index < PAGES }
    ensures same { at pages.new.items ≡ at pages.old.items }
    ensures few { length pages.new.items ≤ PAGES }
    ensures there { OnOk result (index < length pages.new.items) }
{
    if index < pages.len() {
        return Ok(());
    }
    make_pages(alloc, pages, index)
}

// Puts a value at a place of a page behind all of its places that have one, where there is room for it, and tells whether it did.
// Where it didn't nothing changes.
#[inline]
fn put_behind(pages: &mut Vec<Page>, place: usize, value: i64) -> bool
    requires few { length pages.old.items ≤ PAGES }
    ensures few { length pages.new.items ≤ PAGES }
    ensures put { result ≡ true → at pages.new.items ≡ with_at place value (at pages.old.items) }
    ensures left { result ≡ false → at pages.new.items ≡ at pages.old.items }
{
    let index = place / PAGE;
    if index >= pages.len() {
        return false;
    }
    let page = &mut pages[index];
    page.put_behind(place % PAGE, value)
}

// Puts a value at a place. Where memory runs out each place has what it had.
#[inline(never)]
fn put_value(
    alloc: Global,
    pages: &mut Vec<Page>,
    place: usize,
    value: i64,
) -> Result<(), AllocError>
    requires few { length pages.old.items ≤ PAGES }
    requires there { place < PLACES }
    ensures few { length pages.new.items ≤ PAGES }
    ensures ok { OnOk result (at pages.new.items ≡ with_at place value (at pages.old.items)) }
    ensures err { OnErr result (at pages.new.items ≡ at pages.old.items) }
{
    let index = place / PAGE;
    add_pages(alloc, pages, index)?;
    let page = &mut pages[index];
    page.put(alloc, place % PAGE, value)
}

// Leaves of the pages' values those that the array's cells don't have.
fn keep_left(pages: &mut Vec<Page>, cells: &[i64])
    requires { length pages.old.items ≤ PAGES }
    ensures long { length pages.new.items ≡ length pages.old.items }
    ensures left { at pages.new.items ≡ changes cells.now (at pages.old.items) }
{
    for index in 0..pages.len() {
        pages[index].keep_changes(index, cells);
    }
}

impl SparseArray {
    /// A sparse array without values. Takes no memory.
    pub fn begin(alloc: Global) -> SparseArray
        ensures { result ≡ [] }
    {
        SparseArray {
            pages: Vec::new(alloc),
        }
    }

    /// Whether it has no page; then no place has a value.
    pub fn is_empty(&self) -> bool
        ensures value { result ≡ (length self.now == 0) }
        ensures none { result ≡ true → (place : ℕ) → at self.now place ≡ None }
    {
        self.pages.is_empty()
    }

    /// The value that was put at this place, if any was. Takes constant time.
    pub fn get(&self, place: usize) -> Option<i64>
        ensures { result ≡ at self.now place }
    {
        let index = place / PAGE;
        if index >= self.pages.len() {
            return None;
        }
        self.pages[index].get(place % PAGE)
    }

    /// Puts a value at this place, in place of one that was there. Takes constant time, but where the place's page has to be made: then
    /// it may take up to 4,096 pages without values, which are there from then on. Where memory runs out, each place has what it had.
    #[inline]
    pub fn put(&mut self, place: usize, value: i64) -> Result<(), AllocError>
        requires { place < PLACES }
        ensures ok { OnOk result (at self.new ≡ with_at place value (at self.old)) }
        ensures err { OnErr result (at self.new ≡ at self.old) }
    {
        if put_behind(&mut self.pages, place, value) {
            return Ok(());
        }
        let alloc = *self.pages.allocator();
        put_value(alloc, &mut self.pages, place, value)
    }

    /// Forgets each value that the array's cell at its place has already. Takes no memory, and a time in proportion to its pages and
    /// its values.
    pub fn keep_changes(&mut self, cells: &[i64])
        ensures { at self.new ≡ changes cells.now (at self.old) }
    {
        keep_left(&mut self.pages, cells);
    }

    /// Gives each of an array's cells the value at its place, where one is. Values behind the array's end are left out, and cells of
    /// 64 bits stay such. Takes no memory, and a time in proportion to its pages and its values.
    pub fn write_to(&self, cells: &mut [i64])
        ensures cells { cells.new ≡ cells_under (at self.now) 0 cells.old }
        ensures numbers { All (FitsSigned w64) cells.old → All (FitsSigned w64) cells.new }
    {
        for index in 0..self.pages.len() {
            self.pages[index].write_to(index, cells);
        }
    }

    /// How many pages it has, those without values with them.
    pub fn pages(&self) -> usize
        ensures { result ≡ length self.now }
    {
        self.pages.len()
    }

    /// Forgets each value on the page with this index that the array's cell at its place has already. Nothing else changes. Takes no
    /// memory, and a time in proportion to the page's values and to its groups, which are 16.
    pub fn keep_page(&mut self, index: usize, cells: &[i64])
        ensures { at self.new ≡ changes_on index cells.now (at self.old) }
    {
        if index < self.pages.len() {
            self.pages[index].keep_changes(index, cells);
        }
    }

    /// Gives each of an array's cells the value at its place, where one is on the page with this index, and forgets these values.
    /// Cells of 64 bits stay such. Takes no memory, gives back that of the page, and takes a time in proportion to the page's values and
    /// to its groups, which are 16.
    pub fn move_page(&mut self, index: usize, cells: &mut [i64])
        ensures left { at self.new ≡ off_page index (at self.old) }
        ensures cells { cells.new ≡ cells_under (on_page index (at self.old)) 0 cells.old }
        ensures numbers { All (FitsSigned w64) cells.old → All (FitsSigned w64) cells.new }
    {
        if index < self.pages.len() {
            self.pages[index].write_to(index, cells);
            self.pages[index] = Page::begin();
        }
    }
}
