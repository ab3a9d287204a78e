ghost use Rattle.std.specs.Prelude.{◌≡◌, ◌==◌, ◌<◌, ◌≤◌, ◌+◌, ◌*◌, ℕ, true, pos};
ghost use Rattle.std.specs.Prelude.{length, slice_index_or, map, Some, All, FitsSigned};
ghost use Rattle.std.specs.Int.{w64, bit_at};
ghost use Rattle.std.specs.Option.{unwrap_or};
ghost use Rattle.nona_sparse.specs.Marks.{AreMarked, DifferAt, IsLowest, rank, value_at};
ghost use Rattle.nona_sparse.specs.Sparse.{at_page, cell, change_at, if_left, of_group, only_at};

/// How many places a group has: as many as there are bits in its marks.
pub const GROUP: usize = 64;

/// The most groups of an array.
pub const GROUPS: usize = 65536;

/// Whether a place is marked.
pub fn is_marked(marks: u64, place: usize) -> bool
    requires { place < GROUP }
    ensures { result ≡ (bit_at marks place == 1) }
{
    marks >> place & 1 == 1
}

/// How many places below this one are marked.
pub fn rank_of(marks: u64, place: usize) -> usize
    requires { place < GROUP }
    ensures { result ≡ rank (bit_at marks) place }
{
    (marks & ((1 << place) - 1)).count_ones() as usize
}

/// How many places are marked.
pub fn count_of(marks: u64) -> usize
    ensures { result ≡ rank (bit_at marks) GROUP }
{
    marks.count_ones() as usize
}

// The lowest marked place of marks that have any.
fn lowest(marks: u64) -> usize
    requires { 0 < marks }
    ensures there { result < GROUP }
    ensures marked { bit_at marks result ≡ 1 }
    ensures least { (q : ℕ) → q < result → bit_at marks q ≡ 0 }
{
    marks.trailing_zeros() as usize
}

/// The marks with this one as well.
pub fn with_mark(marks: u64, place: usize) -> u64
    requires { place < GROUP }
    ensures marked { bit_at result place ≡ 1 }
    ensures others { DifferAt GROUP place (bit_at marks) (bit_at result) }
{
    marks | 1 << place
}

/// The marks without this one.
pub fn without_mark(marks: u64, place: usize) -> u64
    requires { place < GROUP }
    ensures unmarked { bit_at result place ≡ 0 }
    ensures others { DifferAt GROUP place (bit_at marks) (bit_at result) }
{
    marks & !(1 << place)
}

// The marks without the lowest one, where there are any.
fn without_lowest(marks: u64) -> u64
    requires { 0 < marks }
    ensures unmarked { (place : ℕ) → IsLowest (bit_at marks) place → bit_at result place ≡ 0 }
    ensures others { (place : ℕ) → IsLowest (bit_at marks) place → DifferAt GROUP place (bit_at marks) (bit_at result) }
{
    marks & (marks - 1)
}

/// The value behind so many others.
pub fn value_behind(values: &[i64], others: usize) -> i64
    requires { others < length values.now }
    ensures { result ≡ slice_index_or values.now others (pos 0) }
{
    values[others]
}

/// What is left of a value that is written at a place of an array, beside its cells.
pub fn left_of(written: Option<i64>, cells: &[i64], place: usize) -> Option<i64>
    ensures { result ≡ change_at cells.now place written }
{
    match written {
        Some(value) if place < cells.len() && value == cells[place] => None,
        _ => written,
    }
}

// Whether each value of a group whose places are all marked is another one than the array's cell at its place, which stands behind
// `first`, or, where `differ` is false, each the same one.
fn full_are(values: &[i64], first: usize, cells: &[i64], differ: bool) -> bool
    requires full { length values.now ≡ GROUP }
    requires first { first ≤ GROUPS * GROUP }
    ensures { result ≡ true → (q : ℕ) → q < GROUP
        → change_at cells.now (first + q) (at_page (map Some values.now) q) ≡ if_left differ (at_page (map Some values.now) q) }
{
    'places: for place in 0..GROUP {
        let value = value_behind(values, place);
        if left_of(Some(value), cells, first + place).is_some() != differ {
            return false;
        }
    }
    true
}

/// Whether each of a group's values is another one than the array's cell at its place, which stands behind `first`, or, where `differ`
/// is false, each the same one. Takes a time in proportion to the values.
pub fn all_are(marks: u64, values: &[i64], first: usize, cells: &[i64], differ: bool) -> bool
    requires kept { AreMarked GROUP (bit_at marks) values.now }
    requires first { first ≤ GROUPS * GROUP }
    ensures { result ≡ true → (q : ℕ) → q < GROUP
        → change_at cells.now (first + q) (value_at (bit_at marks) values.now q) ≡ if_left differ (value_at (bit_at marks) values.now q) }
{
    if marks == u64::MAX {
        return full_are(values, first, cells, differ);
    }
    let mut rest = marks;
    'values: for done in 0..values.len() {
        let place = lowest(rest);
        let value = value_behind(values, done);
        if left_of(Some(value), cells, first + place).is_some() != differ {
            return false;
        }
        rest = without_lowest(rest);
    }
    true
}

// Gives the cell at a place, if it is there, a value, if there is one.
fn write_cell(value: Option<i64>, place: usize, cells: &mut [i64])
    ensures long { length cells.new ≡ length cells.old }
    ensures cells { (q : ℕ) → q < length cells.old → cell cells.new q ≡ unwrap_or (only_at place value q) (cell cells.old q) }
    ensures numbers { All (FitsSigned w64) cells.old → All (FitsSigned w64) cells.new }
{
    if place < cells.len() {
        if let Some(number) = value {
            cells[place] = number;
        }
    }
}

// Writes the values of the array's group with this index, whose places are all marked, to the array's cells.
fn write_full(values: &[i64], index: usize, cells: &mut [i64])
    requires full { length values.now ≡ GROUP }
    requires index { index < GROUPS }
    ensures long { length cells.new ≡ length cells.old }
    ensures cells { (q : ℕ) → q < length cells.old
        → cell cells.new q ≡ unwrap_or (of_group index (at_page (map Some values.now)) q) (cell cells.old q) }
    ensures numbers { All (FitsSigned w64) cells.old → All (FitsSigned w64) cells.new }
{
    'places: for place in 0..GROUP {
        let value = value_behind(values, place);
        write_cell(Some(value), index * GROUP + place, cells);
    }
}

/// Writes the values of the array's group with this index to the array's cells. Takes a time in proportion to them.
pub fn write_values(marks: u64, values: &[i64], index: usize, cells: &mut [i64])
    requires kept { AreMarked GROUP (bit_at marks) values.now }
    requires index { index < GROUPS }
    ensures long { length cells.new ≡ length cells.old }
    ensures cells { (q : ℕ) → q < length cells.old
        → cell cells.new q ≡ unwrap_or (of_group index (value_at (bit_at marks) values.now) q) (cell cells.old q) }
    ensures numbers { All (FitsSigned w64) cells.old → All (FitsSigned w64) cells.new }
{
    if marks == u64::MAX {
        write_full(values, index, cells);
        return;
    }
    let mut rest = marks;
    'values: for done in 0..values.len() {
        let place = lowest(rest);
        let value = value_behind(values, done);
        write_cell(Some(value), index * GROUP + place, cells);
        rest = without_lowest(rest);
    }
}
