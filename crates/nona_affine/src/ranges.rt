//! Box ranges of forms.

ghost use Rattle.std.specs.Prelude.{◌≡◌, ◌≤◌, ◌+◌, ℕ, ◌^◌, ◌&&◌, length, All, IsTrue};
ghost use Rattle.std.specs.List.{list_all};
ghost use Rattle.nona_forms.specs.Affine.{is_coefficient, is_constant};
ghost use Rattle.nona_forms.specs.Boxes.{box, sum_range, times_range, point, form_range};
ghost use Rattle.nona_forms.specs.declared.limits.TheConstants as limits;
ghost use Rattle.nona_forms.specs.declared.terms.Term.{Term};
ghost use Rattle.nona_affine.specs.Small.{IsSmallRange};
ghost use Rattle.nona_affine.specs.Steps.{range_among, has_range, is_i64, is_bound, IsBound};

use crate::boxes::add_times;
use nona_forms::{Form, Term};
use nona_num::Range;

/// The range that a list gives a scalar: the first one with its id.
fn bound(bounds: &[(u32, Range)], id: u32) -> Range
    ensures { result ≡ range_among bounds.now id }
{
    for given in bounds {
        if given.0 == id {
            return given.1;
        }
    }
    Range { low: 0, high: 0 }
}

/// The same of a term's scalar, which has a range of numbers of 64 bits.
fn small_bound(bounds: &[(u32, Range)], term: Term) -> Range
    requires { IsBound bounds.now term }
    ensures range { result ≡ range_among bounds.now term.id }
    ensures small { IsSmallRange (2 ^ 64) result }
{
    bound(bounds, term.id)
}

/// A range and that of a term.
fn add(total: Range, term: Term, bounds: &[(u32, Range)]) -> Range
    requires coefficient { IsTrue (is_coefficient term.coefficient) }
    requires bound { IsBound bounds.now term }
    requires total { IsSmallRange (2 ^ 116) total }
    ensures sum { result ≡ sum_range total (times_range term.coefficient (range_among bounds.now term.id)) }
    ensures small { (n : ℕ) → IsSmallRange n total → IsSmallRange (n + 2 ^ 95) result }
{
    add_times(total, term, small_bound(bounds, term))
}

/// A range and the box range of terms.
fn terms_range(start: Range, terms: &[Term], bounds: &[(u32, Range)]) -> Range
    requires start { IsSmallRange (2 ^ 64) start }
    requires within { All (λ (t : Term). IsTrue (is_coefficient t.coefficient)) terms.now }
    requires few { length terms.now ≤ limits.TERMS }
    requires bounds { All (IsBound bounds.now) terms.now }
    ensures { result ≡ sum_range start (box (range_among bounds.now) terms.now) }
{
    let mut total = start;
    for t in terms {
        total = add(total, *t, bounds);
    }
    total
}

/// A number as a range.
fn alone(number: i128) -> Range
    requires { IsTrue (is_constant number) }
    ensures range { result ≡ point number }
    ensures small { IsSmallRange (2 ^ 64) result }
{
    Range {
        low: number,
        high: number,
    }
}

/// Whether a list has a range for a scalar.
fn is_given(bounds: &[(u32, Range)], id: u32) -> bool
    ensures { result ≡ has_range bounds.now id }
{
    for given in bounds {
        if given.0 == id {
            return true;
        }
    }
    false
}

/// Whether a number is one of 64 bits.
fn is_i64(number: i128) -> bool
    ensures { result ≡ is_i64 number }
{
    i64::MIN as i128 <= number && number <= i64::MAX as i128
}

/// Whether both ends of a range are numbers of 64 bits.
fn has_numbers(range: Range) -> bool
    ensures { result ≡ (is_i64 range.low && is_i64 range.high) }
{
    is_i64(range.low) && is_i64(range.high)
}

/// Whether a list has a range for a term's scalar, whose ends are numbers of 64 bits.
fn is_bound(bounds: &[(u32, Range)], term: Term) -> bool
    ensures { result ≡ is_bound bounds.now term }
{
    is_given(bounds, term.id) && has_numbers(bound(bounds, term.id))
}

/// Whether a list has a range for each term's scalar of a form, whose ends are numbers of 64 bits.
pub fn are_bound(form: &Form, bounds: &[(u32, Range)]) -> bool
    ensures { result ≡ list_all (is_bound bounds.now) form.now.terms }
{
    form.terms().iter().all(|t| is_bound(bounds, *t))
}

/// The range of a form where each scalar has the range that a list gives it: from the sum of its terms' least values to the sum
/// of their greatest. Each term's scalar has to have a range in the list, whose ends are numbers of 64 bits, which `are_bound`
/// tests; the first one with its id counts. It takes no memory, and its sums are exact: with the bounds that a form keeps, none
/// leaves an `i128`.
pub fn range(form: &Form, bounds: &[(u32, Range)]) -> Range
    requires { IsTrue (list_all (is_bound bounds.now) form.now.terms) }
    ensures { result ≡ form_range (range_among bounds.now) form.now }
{
    terms_range(alone(form.constant()), form.terms(), bounds)
}
