//! Ranges of inner parts.

ghost use Rattle.std.specs.Prelude.{◌≡◌, ◌≤◌, ◌+◌, ℕ, ◌^◌, ◌-ℤ◌, ℤ, pos, length, All, IfSome, IsTrue};
ghost use Rattle.nona_forms.specs.Affine.{is_coefficient};
ghost use Rattle.nona_forms.specs.Boxes.{times_range, sum_range};
ghost use Rattle.nona_forms.specs.Verdicts.{fixed_of, bounds_of, inner_part};
ghost use Rattle.nona_affine.specs.Steps.{term_in, added_term};
ghost use Rattle.nona_affine.specs.Small.{IsSmallRange};
ghost use Rattle.nona_forms.specs.declared.terms.Term.{Term};

use nona_forms::{Form, InnerLoop, Term};
use nona_num::Range;

/// A form's constant as a number of 64 bits.
fn number(form: &Form) -> i64
    ensures { result ≡ form.now.constant }
{
    form.constant() as i64
}

/// Constant bounds, where both forms exist without terms.
pub fn fixed_bounds(low: &Option<Form>, high: &Option<Form>) -> Option<(i64, i64)>
    ensures { result ≡ fixed_of low.now high.now }
{
    match low {
        None => None,
        Some(low) => match high {
            None => None,
            Some(high) => {
                if low.terms().is_empty() && high.terms().is_empty() {
                    Some((number(low), number(high)))
                } else {
                    None
                }
            }
        },
    }
}

/// The constant bounds of the inner loop with this index.
fn inner_bounds(inner: &[InnerLoop], id: u32) -> Option<(i64, i64)>
    ensures { result ≡ bounds_of inner.now id }
{
    for l in inner {
        if l.id == id {
            return fixed_bounds(&l.low, &l.high);
        }
    }
    None
}

/// The numbers from `low` up to, without, `high`.
pub fn range_between(low: i64, high: i64) -> Range
    ensures range { result ≡ record { low = low; high = high -ℤ pos 1 } }
    ensures small { IsSmallRange (2 ^ 64) result }
{
    Range {
        low: low as i128,
        high: high as i128 - 1,
    }
}

/// The range of a number of these times a coefficient.
#[tactic(auto, using(crate::proofs::SmallRanges::small_product))]
fn times_range(coefficient: i64, range: Range) -> Range
    requires coefficient { IsTrue (is_coefficient coefficient) }
    requires small { IsSmallRange (2 ^ 64) range }
    ensures { result ≡ times_range coefficient range }
{
    range.times(coefficient as i128)
}

/// The range of a term whose scalar has a small one.
fn term_times(term: Term, range: Range) -> Range
    requires coefficient { IsTrue (is_coefficient term.coefficient) }
    requires range { IsSmallRange (2 ^ 64) range }
    ensures product { result ≡ times_range term.coefficient range }
    ensures small { IsSmallRange (2 ^ 95) result }
{
    times_range(term.coefficient, range)
}

/// A range and that of a term whose scalar has a small one.
pub fn add_times(total: Range, term: Term, range: Range) -> Range
    requires coefficient { IsTrue (is_coefficient term.coefficient) }
    requires total { IsSmallRange (2 ^ 116) total }
    requires range { IsSmallRange (2 ^ 64) range }
    ensures sum { result ≡ sum_range total (times_range term.coefficient range) }
    ensures small { (n : ℕ) → IsSmallRange n total → IsSmallRange (n + 2 ^ 95) result }
{
    sum_range(total, term_times(term, range))
}

/// The range of a coefficient times the numbers between bounds.
#[tactic(auto, using(crate::proofs::SmallRanges::small_times))]
fn term_between(coefficient: i64, low: i64, high: i64) -> Range
    requires { IsTrue (is_coefficient coefficient) }
    ensures range { result ≡ times_range coefficient (record { low = low; high = high -ℤ pos 1 }) }
    ensures small { IsSmallRange (2 ^ 95) result }
{
    times_range(coefficient, range_between(low, high))
}

/// The range of a term of an inner index, where its bounds are constant.
fn term_range(inner: &[InnerLoop], term: Term) -> Option<Range>
    requires { IsTrue (is_coefficient term.coefficient) }
    ensures range { result ≡ term_in inner.now term }
    ensures small { IfSome result (IsSmallRange (2 ^ 95)) }
{
    match inner_bounds(inner, term.id) {
        None => None,
        Some((low, high)) => Some(term_between(term.coefficient, low, high)),
    }
}

/// The sum of two small ranges.
#[tactic(auto, using(crate::proofs::SmallRanges::small_sum))]
pub fn sum_range(left: Range, right: Range) -> Range
    requires left { IsSmallRange (2 ^ 117) left }
    requires right { IsSmallRange (2 ^ 117) right }
    ensures sum { result ≡ sum_range left right }
    ensures small { (m n : ℕ) → IsSmallRange m left → IsSmallRange n right → IsSmallRange (m + n) result }
{
    left.sum(right)
}

/// A range and that of one more term, unless it is no inner index's.
fn add_term(total: Range, index: u32, inner: &[InnerLoop], term: Term) -> Option<Range>
    requires coefficient { IsTrue (is_coefficient term.coefficient) }
    requires total { IsSmallRange (2 ^ 116) total }
    ensures sum { result ≡ added_term index inner.now term total }
    ensures small { (n : ℕ) → IsSmallRange n total → IfSome result (IsSmallRange (n + 2 ^ 95)) }
{
    if index < term.id {
        match term_range(inner, term) {
            None => None,
            Some(range) => Some(sum_range(total, range)),
        }
    } else {
        Some(total)
    }
}

/// The box range of the inner part of a form's terms, where all inner indices that occur have constant bounds.
pub fn inner_range(index: u32, inner: &[InnerLoop], terms: &[Term]) -> Option<Range>
    requires within { All (λ (t : Term). IsTrue (is_coefficient t.coefficient)) terms.now }
    requires few { length terms.now ≤ 1048576 }
    ensures range { result ≡ inner_part index inner.now terms.now }
    ensures small { IfSome result (IsSmallRange (2 ^ 115)) }
{
    let mut total = Range { low: 0, high: 0 };
    for t in terms {
        match add_term(total, index, inner, *t) {
            None => return None,
            Some(next) => total = next,
        }
    }
    Some(total)
}
