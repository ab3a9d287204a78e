//! The ranges of scalars.

ghost use Rattle.std.specs.Prelude.{◌≡◌, ◌≤◌, ◌<◌, ◌^◌, ◌==◌, if◌then◌else◌, nat_lt, pos, length, All};
ghost use Rattle.nona_num.specs.declared.range.Range.{Range};
ghost use Rattle.nona_tree.specs.Memory.{scalar_at};
ghost use Rattle.nona_forms.specs.Boxes.{point};
ghost use Rattle.nona_affine.specs.Small.{IsSmallRange};
ghost use Rattle.nona_guard.specs.Checks.{base_range, last_range};
ghost use Rattle.nona_guard.specs.declared.bounds.Bound.{Bound};

use nona_num::Range;
use nona_store::Store;

/// The range of the index of a loop.
#[derive(Clone, Copy, Debug, PartialEq, Eq)]
pub struct Bound {
    pub id: u32,
    pub range: Range,
}

impl Default for Bound {
    fn default() -> Bound {
        Bound {
            id: 0,
            range: Range { low: 0, high: 0 },
        }
    }
}

/// One number as a range.
fn point(number: i64) -> Range
    ensures range { result ≡ point number }
    ensures small { IsSmallRange (2 ^ 64) result }
{
    Range {
        low: number as i128,
        high: number as i128,
    }
}

/// The range of a scalar that is visible at the entry.
fn range_outside(store: &Store, index: u32, id: u32) -> Range
    requires { index ≤ length store.now.scalars }
    ensures range { result ≡ base_range index store.now id }
    ensures small { IsSmallRange (2 ^ 64) result }
{
    if id < index {
        point(store.scalar(id))
    } else {
        point(0)
    }
}

/// The range of a bound, where it is of this scalar, and otherwise another one.
fn later(range: Range, bound: Bound, id: u32) -> Range
    ensures { result ≡ (if id == bound.id then bound.range else range) }
{
    if id == bound.id { bound.range } else { range }
}

/// The range of a scalar: that of the last bound of it, or of its value at the entry.
pub fn range_of(bounds: &[Bound], store: &Store, index: u32, id: u32) -> Range
    requires index { index ≤ length store.now.scalars }
    requires small { All (λ (b : Bound). IsSmallRange (2 ^ 64) b.range) bounds.now }
    ensures range { result ≡ last_range (base_range index store.now id) bounds.now id }
    ensures small { IsSmallRange (2 ^ 64) result }
{
    let mut range = range_outside(store, index, id);
    for b in bounds {
        range = later(range, *b, id);
    }
    range
}
