ghost use Rattle.std.specs.Prelude.{◌≡◌, ◌==◌, ◌<◌, ◌≤◌, ◌+◌, ◌-◌, ◌*◌, ℕ, true, false};
ghost use Rattle.std.specs.Prelude.{length, None, All, FitsSigned, OnOk, OnErr};
ghost use Rattle.std.specs.Int.{w64};
ghost use Rattle.std.specs.Option.{unwrap_or};
ghost use Rattle.nona_sparse.specs.Marks.{AreMarkedIn, DifferAt, IsEnd, block_of, changed_at, mark_in, rank, value_at};
ghost use Rattle.nona_sparse.specs.Sparse.{at_page, cell, change_at, if_left, of_page, with_at};

use crate::group::{
    GROUP, GROUPS, all_are, count_of, is_marked, left_of, rank_of, value_behind, with_mark,
    without_mark, write_values,
};
use crate::page::{PAGE, PAGES};
use crate::values::Values;
use std::alloc::{AllocError, Global};
use std::marker::Model;

/// How many groups a page has.
pub const WORDS: usize = 16;

/// The values of a page that has any: a mark for each place that has a value, in the bits of a number for each group, and the values
/// in order of place. So it takes memory for the values that it has, and not for the places between them. No place from `end` on has
/// a value.
#[derive(Drop)]
pub struct Block {
    marks: [u64; WORDS],
    values: Values,
    end: usize,
}

impl Model for Block {
    ghost use Rattle.std.specs.Prelude.{ℤ, List, Option};
    ghost use Rattle.nona_sparse.specs.Marks.{AreMarkedIn, IsEnd, block_of};

    ghost Value = { List (Option ℤ) };

    ghost view = { λ p. block_of p.marks p.values };

    ghost invariant = { λ p. AreMarkedIn p.marks p.values × IsEnd p.end p.marks };
}

// Whether a place is marked.
fn is_set(marks: &[u64; WORDS], place: usize) -> bool
    requires long { length marks.now ≡ WORDS }
    requires there { place < PAGE }
    ensures { result ≡ (mark_in marks.now place == 1) }
{
    is_marked(marks[place / GROUP], place % GROUP)
}

// How many places of the groups before this one are marked.
fn start_of(marks: &[u64; WORDS], group: usize) -> usize
    requires long { length marks.now ≡ WORDS }
    requires there { group < WORDS }
    ensures { result ≡ rank (mark_in marks.now) (group * GROUP) }
{
    let mut start = 0;
    'groups: for before in 0..group {
        start += count_of(marks[before]);
    }
    start
}

// How many places below this one are marked.
fn rank_in(marks: &[u64; WORDS], place: usize) -> usize
    requires long { length marks.now ≡ WORDS }
    requires there { place < PAGE }
    ensures { result ≡ rank (mark_in marks.now) place }
{
    start_of(marks, place / GROUP) + rank_of(marks[place / GROUP], place % GROUP)
}

// How many values stand before that of a marked place, where there are so many in all. The last place takes no counting.
fn position(marks: &[u64; WORDS], count: usize, end: usize, place: usize) -> usize
    requires long { length marks.now ≡ WORDS }
    requires count { count ≡ rank (mark_in marks.now) PAGE }
    requires end { IsEnd end marks.now }
    requires there { place < PAGE }
    requires marked { mark_in marks.now place ≡ 1 }
    ensures { result ≡ rank (mark_in marks.now) place }
{
    if place + 1 == end {
        return count - 1;
    }
    rank_in(marks, place)
}

// Marks a place.
fn set_mark(marks: &mut [u64; WORDS], place: usize)
    requires long { length marks.old ≡ WORDS }
    requires there { place < PAGE }
    ensures long { length marks.new ≡ WORDS }
    ensures marked { mark_in marks.new place ≡ 1 }
    ensures others { DifferAt PAGE place (mark_in marks.old) (mark_in marks.new) }
{
    marks[place / GROUP] = with_mark(marks[place / GROUP], place % GROUP);
}

// Takes the mark of a place away.
fn clear_mark(marks: &mut [u64; WORDS], place: usize)
    requires long { length marks.old ≡ WORDS }
    requires there { place < PAGE }
    ensures long { length marks.new ≡ WORDS }
    ensures unmarked { mark_in marks.new place ≡ 0 }
    ensures others { DifferAt PAGE place (mark_in marks.old) (mark_in marks.new) }
{
    marks[place / GROUP] = without_mark(marks[place / GROUP], place % GROUP);
}

// Puts a value at a place that has none. Where memory runs out nothing changes.
fn add_value(
    marks: &mut [u64; WORDS],
    values: &mut Values,
    place: usize,
    value: i64,
) -> Result<(), AllocError>
    requires kept { AreMarkedIn marks.old values.old }
    requires there { place < PAGE }
    requires unmarked { mark_in marks.old place ≡ 0 }
    ensures kept { AreMarkedIn marks.new values.new }
    ensures others { DifferAt PAGE place (mark_in marks.old) (mark_in marks.new) }
    ensures ok { OnOk result (at_page (block_of marks.new values.new) ≡ with_at place value (at_page (block_of marks.old values.old))) }
    ensures err { OnErr result (at_page (block_of marks.new values.new) ≡ at_page (block_of marks.old values.old)) }
    ensures unmarked { OnErr result (marks.new ≡ marks.old) }
{
    match values.insert(rank_in(marks, place), value) {
        Ok(()) => {
            set_mark(marks, place);
            Ok(())
        }
        Err(error) => Err(error),
    }
}

// Puts a value at a place from the end on where there is room for it, and tells whether it did. Where it didn't nothing changes.
#[inline]
fn append_in_room(
    marks: &mut [u64; WORDS],
    values: &mut Values,
    end: &mut usize,
    place: usize,
    value: i64,
) -> bool
    requires kept { AreMarkedIn marks.old values.old }
    requires end { IsEnd end.old marks.old }
    requires there { place < PAGE }
    ensures kept { AreMarkedIn marks.new values.new }
    ensures end { IsEnd end.new marks.new }
    ensures put { result ≡ true
        → at_page (block_of marks.new values.new) ≡ with_at place value (at_page (block_of marks.old values.old)) }
    ensures left { result ≡ false → at_page (block_of marks.new values.new) ≡ at_page (block_of marks.old values.old) }
{
    if place < *end || !values.push_in_room(value) {
        return false;
    }
    set_mark(marks, place);
    *end = place + 1;
    true
}

// Puts a value at a place. Where memory runs out nothing changes.
fn put_value(
    marks: &mut [u64; WORDS],
    values: &mut Values,
    end: &mut usize,
    place: usize,
    value: i64,
) -> Result<(), AllocError>
    requires kept { AreMarkedIn marks.old values.old }
    requires end { IsEnd end.old marks.old }
    requires there { place < PAGE }
    ensures kept { AreMarkedIn marks.new values.new }
    ensures end { IsEnd end.new marks.new }
    ensures ok { OnOk result (at_page (block_of marks.new values.new) ≡ with_at place value (at_page (block_of marks.old values.old))) }
    ensures err { OnErr result (at_page (block_of marks.new values.new) ≡ at_page (block_of marks.old values.old)) }
{
    if is_set(marks, place) {
        let at = position(marks, values.len(), *end, place);
        values.set(at, value);
        return Ok(());
    }
    add_value(marks, values, place, value)?;
    *end = (*end).max(place + 1);
    Ok(())
}

// The value at a place, where one is.
fn value_of(marks: &[u64; WORDS], values: &[i64], end: usize, place: usize) -> Option<i64>
    requires kept { AreMarkedIn marks.now values.now }
    requires end { IsEnd end marks.now }
    requires there { place < PAGE }
    ensures { result ≡ value_at (mark_in marks.now) values.now place }
{
    if !is_set(marks, place) {
        return None;
    }
    Some(value_behind(values, position(marks, values.len(), end, place)))
}

// Forgets the value of a place, where it has one, if it is that of the array's cell at `at`.
fn forget_same(
    marks: &mut [u64; WORDS],
    values: &mut Values,
    place: usize,
    cells: &[i64],
    at: usize,
)
    requires kept { AreMarkedIn marks.old values.old }
    requires there { place < PAGE }
    ensures kept { AreMarkedIn marks.new values.new }
    ensures fewer { (q : ℕ) → q < PAGE → mark_in marks.old q ≡ 0 → mark_in marks.new q ≡ 0 }
    ensures left { (q : ℕ) → at_page (block_of marks.new values.new) q
        ≡ changed_at place (change_at cells.now at (at_page (block_of marks.old values.old) place)) (at_page (block_of marks.old values.old)) q }
{
    if !is_set(marks, place) {
        return;
    }
    let own = rank_in(marks, place);
    let value = value_behind(values.as_slice(), own);
    if let None = left_of(Some(value), cells, at) {
        values.remove(own);
        clear_mark(marks, place);
    }
}

// Forgets each of a block's values that the array's cell at its place, which stands behind `first`, has already.
#[cold]
#[inline(never)]
fn forget_all_same(marks: &mut [u64; WORDS], values: &mut Values, first: usize, cells: &[i64])
    requires kept { AreMarkedIn marks.old values.old }
    requires first { first ≤ PAGES * PAGE }
    ensures kept { AreMarkedIn marks.new values.new }
    ensures fewer { (q : ℕ) → q < PAGE → mark_in marks.old q ≡ 0 → mark_in marks.new q ≡ 0 }
    ensures left { (place : ℕ) → at_page (block_of marks.new values.new) place
        ≡ change_at cells.now (first + place) (at_page (block_of marks.old values.old) place) }
{
    'places: for done in 0..PAGE {
        let place = PAGE - 1 - done;
        forget_same(marks, values, place, cells, first + place);
    }
}

// Whether each of a block's values is another one than the array's cell at its place, which stands behind `first`, or, where `differ`
// is false, each the same one.
fn each_is(marks: &[u64; WORDS], values: &[i64], first: usize, cells: &[i64], differ: bool) -> bool
    requires kept { AreMarkedIn marks.now values.now }
    requires first { first ≤ (PAGES - 1) * PAGE }
    ensures { result ≡ true → (q : ℕ) → q < PAGE
        → change_at cells.now (first + q) (value_at (mark_in marks.now) values.now q) ≡ if_left differ (value_at (mark_in marks.now) values.now q) }
{
    let mut start = 0;
    'groups: for group in 0..WORDS {
        let end = start + count_of(marks[group]);
        let own = &values[start..end];
        if !all_are(marks[group], own, first + group * GROUP, cells, differ) {
            return false;
        }
        start = end;
    }
    true
}

// Leaves of a block's values those that the array's cells, from this place on, don't have: mostly all of them, or none.
fn keep_left(marks: &mut [u64; WORDS], values: &mut Values, first: usize, cells: &[i64])
    requires kept { AreMarkedIn marks.old values.old }
    requires first { first ≤ (PAGES - 1) * PAGE }
    ensures kept { AreMarkedIn marks.new values.new }
    ensures fewer { (q : ℕ) → q < PAGE → mark_in marks.old q ≡ 0 → mark_in marks.new q ≡ 0 }
    ensures left { (place : ℕ) → at_page (block_of marks.new values.new) place
        ≡ change_at cells.now (first + place) (at_page (block_of marks.old values.old) place) }
{
    if each_is(marks, values.as_slice(), first, cells, true) {
        return;
    }
    if each_is(marks, values.as_slice(), first, cells, false) {
        *marks = [0; WORDS];
        values.clear();
        return;
    }
    forget_all_same(marks, values, first, cells);
}

// Writes the values of the array's block with this index to the array's cells.
fn write_groups(marks: &[u64; WORDS], values: &[i64], index: usize, cells: &mut [i64])
    requires kept { AreMarkedIn marks.now values.now }
    requires index { index < PAGES }
    ensures long { length cells.new ≡ length cells.old }
    ensures cells { (q : ℕ) → q < length cells.old
        → cell cells.new q ≡ unwrap_or (of_page index (block_of marks.now values.now) q) (cell cells.old q) }
    ensures numbers { All (FitsSigned w64) cells.old → All (FitsSigned w64) cells.new }
{
    let mut start = 0;
    'groups: for group in 0..WORDS {
        let end = start + count_of(marks[group]);
        let own = &values[start..end];
        write_values(marks[group], own, index * WORDS + group, cells);
        start = end;
    }
}

impl Block {
    /// A block without values. Takes no memory.
    pub fn begin(alloc: Global) -> Block
        ensures { (place : ℕ) → at_page result place ≡ None }
    {
        Block {
            marks: [0; WORDS],
            values: Values::begin(alloc),
            end: 0,
        }
    }

    /// How many values it has: no more than a page has places.
    pub fn count(&self) -> usize
        ensures { result ≤ PAGE }
    {
        self.values.len()
    }

    /// Makes room for so many values more. What stands at its places stays, and want of memory is its one refusal.
    pub fn reserve(&mut self, count: usize) -> Result<(), AllocError>
        ensures { self.new ≡ self.old }
    {
        self.values.reserve(count)
    }

    /// The value at a place, where one is. Takes constant time.
    pub fn get(&self, place: usize) -> Option<i64>
        requires { place < PAGE }
        ensures { result ≡ at_page self.now place }
    {
        value_of(&self.marks, self.values.as_slice(), self.end, place)
    }

    /// Puts a value at a place behind all that have one, where there is room for it, and tells whether it did. Where it didn't nothing
    /// changes.
    #[inline]
    pub fn put_behind(&mut self, place: usize, value: i64) -> bool
        requires { place < PAGE }
        ensures put { result ≡ true → at_page self.new ≡ with_at place value (at_page self.old) }
        ensures left { result ≡ false → at_page self.new ≡ at_page self.old }
    {
        append_in_room(
            &mut self.marks,
            &mut self.values,
            &mut self.end,
            place,
            value,
        )
    }

    /// Puts a value at a place. Nothing else changes, nor anything where memory runs out. Takes constant time: where the place had
    /// none, and has some both before it and behind it, those behind it move on by one.
    pub fn put(&mut self, place: usize, value: i64) -> Result<(), AllocError>
        requires { place < PAGE }
        ensures ok { OnOk result (at_page self.new ≡ with_at place value (at_page self.old)) }
        ensures err { OnErr result (at_page self.new ≡ at_page self.old) }
    {
        put_value(
            &mut self.marks,
            &mut self.values,
            &mut self.end,
            place,
            value,
        )
    }

    /// Forgets each value that the array's cell has already, where this is of the array's page with this index. Takes a time in
    /// proportion to its groups and its values; where it forgets some and not all, to as many as there are places for each.
    pub fn keep_changes(&mut self, index: usize, cells: &[i64])
        requires { index < PAGES }
        ensures { (place : ℕ) → at_page self.new place ≡ change_at cells.now (index * PAGE + place) (at_page self.old place) }
    {
        keep_left(&mut self.marks, &mut self.values, index * PAGE, cells);
    }

    /// Writes its values to the array's cells, where this is of the array's page with this index. Takes a time in proportion to its
    /// groups and its values.
    pub fn write_to(&self, index: usize, cells: &mut [i64])
        requires { index < PAGES }
        ensures long { length cells.new ≡ length cells.old }
        ensures cells { (q : ℕ) → q < length cells.old → cell cells.new q ≡ unwrap_or (of_page index self.now q) (cell cells.old q) }
        ensures numbers { All (FitsSigned w64) cells.old → All (FitsSigned w64) cells.new }
    {
        write_groups(&self.marks, self.values.as_slice(), index, cells);
    }
}
