//! Whether what the guard asks holds.

ghost use Rattle.std.specs.Prelude.{◌≡◌, ◌≤◌, ◌<◌, ◌+◌, ◌*◌, ℕ, ◌^◌, ◌&&◌, ◌-ℤ◌, ◌<ℤ◌, int_le, pos, Some, None, length, All, IsTrue};
ghost use Rattle.nona_tree.specs.Memory.{cells_of};
ghost use Rattle.nona_forms.specs.Guards.{lies_in, is_i64_range};
ghost use Rattle.nona_forms.specs.Boxes.{point, form_range, box, sum_range, times_range};
ghost use Rattle.nona_forms.specs.Affine.{is_coefficient, is_constant};
ghost use Rattle.nona_forms.specs.declared.limits.TheConstants as limits;
ghost use Rattle.nona_forms.specs.declared.terms.Term.{Term};
ghost use Rattle.nona_affine.specs.Small.{IsSmallRange};
ghost use Rattle.nona_forms.specs.Verdicts.{if_form};
ghost use Rattle.nona_guard.specs.Checks.{ranges_by, holds_check, entry_of};
ghost use Rattle.nona_num.specs.declared.range.Range.{Range};
ghost use Rattle.nona_guard.specs.declared.checks.Check.{Place};
ghost use Rattle.nona_guard.specs.declared.bounds.Bound.{Bound};

use crate::bounds::{Bound, range_of};
use nona_affine::add_times;
use nona_forms::{Form, Term};
use nona_num::Range;
use nona_store::Store;

/// A range and that of a term.
fn add(total: Range, term: Term, bounds: &[Bound], store: &Store, index: u32) -> Range
    requires coefficient { IsTrue (is_coefficient term.coefficient) }
    requires total { IsSmallRange (2 ^ 116) total }
    requires index { index ≤ length store.now.scalars }
    requires small { All (λ (b : Bound). IsSmallRange (2 ^ 64) b.range) bounds.now }
    ensures sum { result ≡ sum_range total (times_range term.coefficient (ranges_by index store.now bounds.now term.id)) }
    ensures small { (n : ℕ) → IsSmallRange n total → IsSmallRange (n + 2 ^ 95) result }
{
    add_times(total, term, range_of(bounds, store, index, term.id))
}

/// A range and the box range of terms.
fn terms_range(start: Range, terms: &[Term], bounds: &[Bound], store: &Store, index: u32) -> Range
    requires start { IsSmallRange (2 ^ 64) start }
    requires within { All (λ (t : Term). IsTrue (is_coefficient t.coefficient)) terms.now }
    requires few { length terms.now ≤ limits.TERMS }
    requires index { index ≤ length store.now.scalars }
    requires small { All (λ (b : Bound). IsSmallRange (2 ^ 64) b.range) bounds.now }
    ensures range { result ≡ sum_range start (box (ranges_by index store.now bounds.now) terms.now) }
    ensures small { IsSmallRange (2 ^ 116) result }
{
    let mut total = start;
    for t in terms {
        total = add(total, *t, bounds, store, index);
    }
    total
}

/// A number as a range.
fn alone(number: i128) -> Range
    requires { IsTrue (is_constant number) }
    ensures range { result ≡ point number }
    ensures small { IsSmallRange (2 ^ 64) result }
{
    Range {
        low: number,
        high: number,
    }
}

/// The range of a form.
fn range(form: &Form, bounds: &[Bound], store: &Store, index: u32) -> Range
    requires index { index ≤ length store.now.scalars }
    requires small { All (λ (b : Bound). IsSmallRange (2 ^ 64) b.range) bounds.now }
    ensures range { result ≡ form_range (ranges_by index store.now bounds.now) form.now }
    ensures small { IsSmallRange (2 ^ 116) result }
{
    terms_range(alone(form.constant()), form.terms(), bounds, store, index)
}

/// Whether a range lies among so many cells.
fn is_among(range: Range, count: usize) -> bool
    requires { count ≤ 2 ^ 22 }
    ensures { result ≡ lies_in range count }
{
    0 <= range.low && range.high < count as i128
}

/// Whether a range lies in the numbers of 64 bits.
fn has_numbers(range: Range) -> bool
    ensures { result ≡ is_i64_range range }
{
    -9223372036854775808 <= range.low && range.high <= 9223372036854775807
}

/// Whether an access fits: its form's range lies in the array, or, wrapped, the array isn't empty.
pub fn place_fits(
    array: u32,
    wrap: bool,
    form: &Option<Form>,
    bounds: &[Bound],
    store: &Store,
    index: u32,
) -> bool
    requires array { array < length store.now.arrays }
    requires index { index ≤ length store.now.scalars }
    requires small { All (λ (b : Bound). IsSmallRange (2 ^ 64) b.range) bounds.now }
    ensures { (n : ℕ) → result ≡ holds_check (Place array wrap form.now) (ranges_by index store.now bounds.now) store.now n }
{
    let count = store.length(array);
    if wrap {
        0 < count
    } else {
        match form {
            None => false,
            Some(form) => is_among(range(form, bounds, store, index), count),
        }
    }
}

/// How many turns lie between bounds in these ranges, at most.
fn most_turns(low: Range, high: Range) -> i128
    requires low { IsSmallRange (2 ^ 116) low }
    requires high { IsSmallRange (2 ^ 116) high }
    ensures { result ≡ high.high -ℤ low.low }
{
    high.high - low.low
}

/// Whether an inner loop with bounds in these ranges has numbers of 64 bits and at most so many turns.
fn turns_fit(low: Range, high: Range, turns: u64) -> bool
    requires low { IsSmallRange (2 ^ 116) low }
    requires high { IsSmallRange (2 ^ 116) high }
    ensures { result ≡ (is_i64_range low && (is_i64_range high && int_le (high.high -ℤ low.low) (pos turns))) }
{
    has_numbers(low) && has_numbers(high) && most_turns(low, high) <= turns as i128
}

/// The range of the index of an inner loop with bounds in these ranges.
fn index_range(low: Range, high: Range) -> Range
    requires low { IsTrue (is_i64_range low) }
    requires high { IsTrue (is_i64_range high) }
    requires some { low.low <ℤ high.high }
    ensures range { result ≡ record { low = low.low; high = high.high -ℤ pos 1 } }
{
    Range {
        low: low.low,
        high: high.high - 1,
    }
}

/// Whether an inner loop fits: none where it doesn't, and otherwise the range of its index, if it has a turn.
fn entry_between(low: Range, high: Range, turns: u64) -> Option<Option<Range>>
    requires low { IsSmallRange (2 ^ 116) low }
    requires high { IsSmallRange (2 ^ 116) high }
    ensures entry { result ≡ entry_of low high turns }
    ensures small { (r : Range) → result ≡ Some (Some r) → IsSmallRange (2 ^ 64) r }
{
    if turns_fit(low, high, turns) {
        if high.high <= low.low {
            Some(None)
        } else {
            Some(Some(index_range(low, high)))
        }
    } else {
        None
    }
}

/// The same of an inner loop with these bounds.
pub fn entry(
    low: &Form,
    high: &Form,
    bounds: &[Bound],
    store: &Store,
    index: u32,
    turns: u64,
) -> Option<Option<Range>>
    requires index { index ≤ length store.now.scalars }
    requires small { All (λ (b : Bound). IsSmallRange (2 ^ 64) b.range) bounds.now }
    ensures entry { result ≡ entry_of (form_range (ranges_by index store.now bounds.now) low.now)
        (form_range (ranges_by index store.now bounds.now) high.now) turns }
    ensures small { (r : Range) → result ≡ Some (Some r) → IsSmallRange (2 ^ 64) r }
{
    entry_between(
        range(low, bounds, store, index),
        range(high, bounds, store, index),
        turns,
    )
}
