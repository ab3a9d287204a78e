ghost use Rattle.std.specs.Prelude.{◌≡◌, ◌<◌, ◌≤◌, ◌+◌, ◌*◌, ℕ, length, [], true, false, None, All, FitsSigned, IfOk, OnOk, OnErr};
ghost use Rattle.std.specs.Int.{w64};
ghost use Rattle.std.specs.Option.{unwrap_or};
ghost use Rattle.nona_sparse.specs.Sparse.{at_page, of_page, cell, with_at, change_at};

use crate::block::{Block, WORDS};
use crate::group::{GROUP, GROUPS};
use std::alloc::{AllocError, Global};
use std::marker::Model;

/// How many places a page has: 1,024.
pub const PAGE: usize = WORDS * GROUP;

/// The most pages.
pub const PAGES: usize = GROUPS / WORDS;

/// A page of a sparse array: a block, where a value was put on it. Where there is none it takes two words.
#[derive(Drop)]
pub struct Page {
    block: Option<Box<Block>>,
}

impl Model for Page {
    ghost use Rattle.std.specs.Prelude.{ℤ, List, Option};
    ghost use Rattle.nona_sparse.specs.Marks.{page_of};

    ghost Value = { List (Option ℤ) };

    ghost view = { λ p. page_of (λ b. b.value) p.block };
}

// A block with one value. None where memory runs out.
#[cold]
#[inline(never)]
fn first_block(alloc: Global, place: usize, value: i64) -> Result<Box<Block>, AllocError>
    requires { place < PAGE }
    ensures { IfOk result (λ b. at_page b.value ≡ with_at place value (at_page [])) }
{
    let mut block = Block::begin(alloc);
    block.put(place, value)?;
    Ok(Box::new(alloc, block)?)
}

impl Page {
    /// A page without values. Takes no memory.
    pub fn begin() -> Page
        ensures { result ≡ [] }
    {
        Page { block: None }
    }

    /// A page without values, but with room for so many. None where memory runs out.
    pub fn with_room(alloc: Global, count: usize) -> Result<Page, AllocError>
        ensures { IfOk result (λ page. (place : ℕ) → at_page page place ≡ None) }
    {
        let mut block = Block::begin(alloc);
        block.reserve(count)?;
        Ok(Page {
            block: Some(Box::new(alloc, block)?),
        })
    }

    /// How many values it has: no more than places.
    pub fn count(&self) -> usize
        ensures { result ≤ PAGE }
    {
        match &self.block {
            Some(block) => block.count(),
            None => 0,
        }
    }

    /// The value at a place, where one is. Takes constant time.
    pub fn get(&self, place: usize) -> Option<i64>
        requires { place < PAGE }
        ensures { result ≡ at_page self.now place }
    {
        match &self.block {
            Some(block) => block.get(place),
            None => None,
        }
    }

    /// Puts a value at a place behind all that have one, where there is room for it, and tells whether it did. Where it didn't nothing
    /// changes.
    #[inline]
    pub fn put_behind(&mut self, place: usize, value: i64) -> bool
        requires { place < PAGE }
        ensures put { result ≡ true → at_page self.new ≡ with_at place value (at_page self.old) }
        ensures left { result ≡ false → at_page self.new ≡ at_page self.old }
    {
        match &mut self.block {
            Some(block) => block.put_behind(place, value),
            None => false,
        }
    }

    /// Puts a value at a place. Nothing else changes, nor anything where memory runs out. Takes constant time.
    pub fn put(&mut self, alloc: Global, place: usize, value: i64) -> Result<(), AllocError>
        requires { place < PAGE }
        ensures ok { OnOk result (at_page self.new ≡ with_at place value (at_page self.old)) }
        ensures err { OnErr result (at_page self.new ≡ at_page self.old) }
    {
        if let Some(block) = &mut self.block {
            return block.put(place, value);
        }
        self.block = Some(first_block(alloc, place, value)?);
        Ok(())
    }

    /// Forgets each value that the array's cell has already, where this is the array's page with this index. Takes a time in
    /// proportion to its groups and its values.
    pub fn keep_changes(&mut self, index: usize, cells: &[i64])
        requires { index < PAGES }
        ensures { (place : ℕ) → at_page self.new place ≡ change_at cells.now (index * PAGE + place) (at_page self.old place) }
    {
        if let Some(block) = &mut self.block {
            block.keep_changes(index, cells);
        }
    }

    /// Writes its values to the array's cells, where this is the array's page with this index. Takes a time in proportion to its
    /// groups and its values.
    pub fn write_to(&self, index: usize, cells: &mut [i64])
        requires { index < PAGES }
        ensures long { length cells.new ≡ length cells.old }
        ensures cells { (q : ℕ) → q < length cells.old → cell cells.new q ≡ unwrap_or (of_page index self.now q) (cell cells.old q) }
        ensures numbers { All (FitsSigned w64) cells.old → All (FitsSigned w64) cells.new }
    {
        if let Some(block) = &self.block {
            block.write_to(index, cells);
        }
    }
}
