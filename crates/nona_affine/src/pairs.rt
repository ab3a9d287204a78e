//! The dependence test.

ghost use Rattle.std.specs.Prelude.{◌≡◌, ◌≤◌, ◌<◌, pos, length, drop, nat_lt, slice_index_or, ◌^◌, ◌&&◌, not};
ghost use Rattle.std.specs.Prelude.{◌-ℤ◌, neg_ℤ, negsuc, unsigned_abs, true, IsTrue, Some, IfSome};
ghost use Rattle.std.specs.List.{list_any};
ghost use Rattle.std.specs.Ordering.{int_eq};
ghost use Rattle.nona_tree.specs.Value.{is_zero};
ghost use Rattle.nona_forms.specs.Boxes.{sum_range, times_range};
ghost use Rattle.nona_forms.specs.Verdicts.{is_empty, fixed_inner, divides, has_multiple, has_distance, is_outside, coefficient_of, range_in};
ghost use Rattle.nona_forms.specs.Verdicts.{some_empty, is_undivided, near_of, far_of, rest_range, whole_range, has_reason, inner_part};
ghost use Rattle.nona_forms.specs.Verdicts.{is_too_near, is_too_far, invariant_terms, same_terms, are_apart, if_form, is_apart, verdict_of};
ghost use Rattle.nona_affine.specs.Small.{IsSmallRange};

use crate::arithmetic::{can_reach, coefficient, gcd, gcd_behind};
use crate::boxes::{fixed_bounds, inner_range, range_between, sum_range};
use nona_forms::{Form, InnerLoop, LoopShape, Spot, Term, Verdict};
use nona_num::Range;

/// Whether no number lies between constant bounds.
fn is_empty(fixed: Option<(i64, i64)>) -> bool
    ensures { result ≡ is_empty fixed }
{
    match fixed {
        None => false,
        Some((low, high)) => high <= low,
    }
}

/// Whether an inner loop has constant bounds and no turn.
fn is_empty_inner(inner: &InnerLoop) -> bool
    ensures { result ≡ is_empty (fixed_inner inner.now) }
{
    is_empty(fixed_bounds(&inner.low, &inner.high))
}

/// Whether one of some inner loops has constant bounds and no turn.
fn has_empty(inner: &[InnerLoop]) -> bool
    ensures { result ≡ list_any (λ l. is_empty (fixed_inner l)) inner.now }
{
    inner.iter().any(|l| is_empty_inner(l))
}

/// Whether the region, or an inner loop around one of the two, has constant bounds and no turn.
fn some_loop_is_empty(shape: &LoopShape, x: &Spot, y: &Spot) -> bool
    ensures { result ≡ some_empty shape.now x.now y.now }
{
    is_empty(shape.fixed) || has_empty(x.inner.as_slice()) || has_empty(y.inner.as_slice())
}

/// Whether a divisor divides a number.
fn is_divided(divisor: u64, number: i128) -> bool
    ensures { result ≡ divides divisor number }
{
    if divisor == 0 {
        number == 0
    } else {
        number.unsigned_abs() % divisor as u128 == 0
    }
}

/// How far the second form's constant lies above the first's.
fn difference(f: &Form, g: &Form) -> i128
    ensures difference { result ≡ g.now.constant -ℤ f.now.constant }
    ensures small { unsigned_abs result ≤ 2 ^ 64 }
{
    g.constant() - f.constant()
}

/// Whether the greatest common divisor of all coefficients of region and inner indices doesn't divide the difference.
fn is_undivided(shape: &LoopShape, f: &Form, g: &Form) -> bool
    ensures { result ≡ is_undivided shape.now f.now g.now }
{
    let index = shape.index;
    let own = gcd(
        coefficient(index, f.terms()).unsigned_abs(),
        coefficient(index, g.terms()).unsigned_abs(),
    );
    let inner = gcd_behind(own, index, f.terms());
    !is_divided(gcd_behind(inner, index, g.terms()), difference(f, g))
}

/// The opposites of a range's numbers.
#[tactic(auto, using(crate::proofs::SmallRanges::small_turned))]
fn turned(range: Range) -> Range
    requires { IsSmallRange (2 ^ 117) range }
    ensures turned { result ≡ record { low = neg_ℤ range.high; high = neg_ℤ range.low } }
    ensures small { IsSmallRange (2 ^ 117) result }
{
    Range {
        low: -range.high,
        high: -range.low,
    }
}

/// Whether `factor` times some distance above 0 lies in a range.
fn reaches_range(fixed: Option<(i64, i64)>, factor: u64, range: Range) -> bool
    requires some { 0 < factor }
    requires factor { factor ≤ 2 ^ 51 }
    requires range { IsSmallRange (2 ^ 117) range }
    ensures { result ≡ has_multiple fixed factor range.low range.high }
{
    can_reach(fixed, factor, range.low, range.high)
}

/// Whether `factor` times some distance other than 0 lies in a range.
fn has_distance(fixed: Option<(i64, i64)>, factor: i64, range: Range) -> bool
    requires some { IsTrue (not (is_zero factor)) }
    requires factor { unsigned_abs factor ≤ 2 ^ 51 }
    requires range { IsSmallRange (2 ^ 117) range }
    ensures { result ≡ has_distance fixed factor range }
{
    let size = factor.unsigned_abs();
    reaches_range(fixed, size, range) || reaches_range(fixed, size, turned(range))
}

/// The range of opposites, as a multiple.
fn minus_once(range: Range) -> Range
    requires { IsSmallRange (2 ^ 115) range }
    ensures { result ≡ times_range (negsuc 0) range }
{
    range.times(-1)
}

/// The range of opposites, which is as small.
fn opposite(range: Range) -> Range
    requires { IsSmallRange (2 ^ 115) range }
    ensures range { result ≡ times_range (negsuc 0) range }
    ensures small { IsSmallRange (2 ^ 115) result }
{
    minus_once(range)
}

/// A number as a range.
fn alone(number: i128) -> Range
    requires { unsigned_abs number ≤ 2 ^ 64 }
    ensures range { result ≡ record { low = number; high = number } }
    ensures small { IsSmallRange (2 ^ 64) result }
{
    Range {
        low: number,
        high: number,
    }
}

/// The range of differences of the numbers of two ranges, and of those and a number.
fn rest_range(left: Range, right: Range, number: i128) -> Range
    requires left { IsSmallRange (2 ^ 115) left }
    requires right { IsSmallRange (2 ^ 115) right }
    requires number { unsigned_abs number ≤ 2 ^ 64 }
    ensures rest { result ≡ rest_range left right number }
    ensures small { IsSmallRange (2 ^ 117) result }
{
    sum_range(sum_range(right, opposite(left)), alone(number))
}

/// Where both inner parts have ranges, no distance between iterations makes up for them and the difference.
fn is_near(
    fixed: Option<(i64, i64)>,
    factor: i64,
    left: Option<Range>,
    right: Option<Range>,
    number: i128,
) -> bool
    requires some { IsTrue (not (is_zero factor)) }
    requires factor { unsigned_abs factor ≤ 2 ^ 51 }
    requires left { IfSome left (IsSmallRange (2 ^ 115)) }
    requires right { IfSome right (IsSmallRange (2 ^ 115)) }
    requires number { unsigned_abs number ≤ 2 ^ 64 }
    ensures { result ≡ near_of fixed factor left right number }
{
    match left {
        None => false,
        Some(left) => match right {
            None => false,
            Some(right) => !has_distance(fixed, factor, rest_range(left, right, number)),
        },
    }
}

/// The coefficient of the region's index in a form.
fn own_coefficient(shape: &LoopShape, form: &Form) -> i64
    ensures coefficient { result ≡ coefficient_of shape.now.index form.now.terms }
    ensures small { unsigned_abs result ≤ 2 ^ 51 }
{
    coefficient(shape.index, form.terms())
}

/// The box range of the inner part of a form.
fn part(shape: &LoopShape, spot: &Spot, form: &Form) -> Option<Range>
    ensures part { result ≡ inner_part shape.now.index spot.now.inner form.now.terms }
    ensures small { IfSome result (IsSmallRange (2 ^ 115)) }
{
    inner_range(shape.index, spot.inner.as_slice(), form.terms())
}

/// Whether two numbers are the same.
fn is_same(a: i64, b: i64) -> bool
    ensures { result ≡ int_eq a b }
{
    a == b
}

/// Whether a number is 0.
fn is_nothing(number: i64) -> bool
    ensures { result ≡ is_zero number }
{
    number == 0
}

/// The same of a coefficient, where it isn't 0.
fn is_near_by(
    fixed: Option<(i64, i64)>,
    factor: i64,
    left: Option<Range>,
    right: Option<Range>,
    number: i128,
) -> bool
    requires factor { unsigned_abs factor ≤ 2 ^ 51 }
    requires left { IfSome left (IsSmallRange (2 ^ 115)) }
    requires right { IfSome right (IsSmallRange (2 ^ 115)) }
    requires number { unsigned_abs number ≤ 2 ^ 64 }
    ensures { result ≡ (not (is_zero factor) && near_of fixed factor left right number) }
{
    if is_nothing(factor) {
        false
    } else {
        is_near(fixed, factor, left, right, number)
    }
}

/// Whether the same coefficient of the region's index, and no distance between iterations, tell two accesses apart.
fn is_too_near(shape: &LoopShape, x: &Spot, y: &Spot, f: &Form, g: &Form) -> bool
    ensures { result ≡ is_too_near shape.now x.now y.now f.now g.now }
{
    let factor = own_coefficient(shape, f);
    if is_same(factor, own_coefficient(shape, g)) {
        is_near_by(
            shape.fixed,
            factor,
            part(shape, x, f),
            part(shape, y, g),
            difference(f, g),
        )
    } else {
        false
    }
}

/// The range of a coefficient times the index of a loop with these bounds.
fn index_part(factor: i64, low: i64, high: i64) -> Range
    requires { unsigned_abs factor ≤ 2 ^ 51 }
    ensures { result ≡ times_range factor (range_in (Some (low, high))) }
{
    range_between(low, high).times(factor as i128)
}

/// The same, which is small.
fn small_index_part(factor: i64, low: i64, high: i64) -> Range
    requires { unsigned_abs factor ≤ 2 ^ 51 }
    ensures range { result ≡ times_range factor (range_in (Some (low, high))) }
    ensures small { IsSmallRange (2 ^ 115) result }
{
    index_part(factor, low, high)
}

/// A coefficient times -1.
fn opposite_of(factor: i64) -> i64
    requires { unsigned_abs factor ≤ 2 ^ 51 }
    ensures opposite { result ≡ neg_ℤ factor }
    ensures small { unsigned_abs result ≤ 2 ^ 51 }
{
    -factor
}

/// The range of all that two indices and two inner parts make.
fn all_range(own: Range, other: Range, left: Range, right: Range) -> Range
    requires own { IsSmallRange (2 ^ 115) own }
    requires other { IsSmallRange (2 ^ 115) other }
    requires left { IsSmallRange (2 ^ 115) left }
    requires right { IsSmallRange (2 ^ 115) right }
    ensures { result ≡ sum_range (sum_range own other) (sum_range left (times_range (negsuc 0) right)) }
{
    sum_range(sum_range(own, other), sum_range(left, opposite(right)))
}

/// Whether a number lies outside a range.
fn is_outside(number: i128, range: Range) -> bool
    ensures { result ≡ is_outside number range }
{
    number < range.low || range.high < number
}

/// The range of all that the indices of a loop with these bounds make.
fn far_range(low: i64, high: i64, first: i64, second: i64, left: Range, right: Range) -> Range
    requires first { unsigned_abs first ≤ 2 ^ 51 }
    requires second { unsigned_abs second ≤ 2 ^ 51 }
    requires left { IsSmallRange (2 ^ 115) left }
    requires right { IsSmallRange (2 ^ 115) right }
    ensures { result ≡ whole_range (low, high) first second left right }
{
    let own = small_index_part(first, low, high);
    let other = small_index_part(opposite_of(second), low, high);
    all_range(own, other, left, right)
}

/// Where all ranges are known, whether the difference lies outside what all indices make.
fn is_far(
    fixed: Option<(i64, i64)>,
    first: i64,
    second: i64,
    left: Option<Range>,
    right: Option<Range>,
    number: i128,
) -> bool
    requires first { unsigned_abs first ≤ 2 ^ 51 }
    requires second { unsigned_abs second ≤ 2 ^ 51 }
    requires left { IfSome left (IsSmallRange (2 ^ 115)) }
    requires right { IfSome right (IsSmallRange (2 ^ 115)) }
    ensures { result ≡ far_of fixed first second left right number }
{
    match fixed {
        None => false,
        Some((low, high)) => match left {
            None => false,
            Some(left) => match right {
                None => false,
                Some(right) => is_outside(number, far_range(low, high, first, second, left, right)),
            },
        },
    }
}

/// Whether other coefficients of the region's index, and a difference outside what all indices make, tell two accesses
/// apart.
fn is_too_far(shape: &LoopShape, x: &Spot, y: &Spot, f: &Form, g: &Form) -> bool
    ensures { result ≡ is_too_far shape.now x.now y.now f.now g.now }
{
    let first = own_coefficient(shape, f);
    let second = own_coefficient(shape, g);
    if is_same(first, second) {
        false
    } else {
        is_far(
            shape.fixed,
            first,
            second,
            part(shape, x, f),
            part(shape, y, g),
            difference(f, g),
        )
    }
}

/// Whether one of four reasons tells two accesses of the same invariant part apart.
fn has_reason(shape: &LoopShape, x: &Spot, y: &Spot, f: &Form, g: &Form) -> bool
    ensures { result ≡ has_reason shape.now x.now y.now f.now g.now }
{
    some_loop_is_empty(shape, x, y)
        || is_undivided(shape, f, g)
        || is_too_near(shape, x, y, f, g)
        || is_too_far(shape, x, y, f, g)
}

/// The next place from which on a term is before an index.
fn next_before(index: u32, terms: &[Term], from: usize) -> usize
    requires { from ≤ length terms.now }
    ensures within { result ≤ length terms.now }
    ensures from { from ≤ result }
    ensures skipped { invariant_terms index (drop from terms.now) ≡ invariant_terms index (drop result terms.now) }
    ensures here { result < length terms.now → nat_lt (slice_index_or terms.now result (record { id = 0; coefficient = pos 0 })).id index ≡ true }
{
    let mut place = from;
    while place < terms.len() && index <= terms[place].id {
        place += 1;
    }
    place
}

/// Whether two lists of terms have the same terms before an index.
fn same_before(index: u32, left: &[Term], right: &[Term]) -> bool
    ensures { result ≡ same_terms (invariant_terms index left.now) (invariant_terms index right.now) }
{
    let mut i = next_before(index, left, 0);
    let mut j = next_before(index, right, 0);
    while i < left.len() && j < right.len() && left[i] == right[j] {
        i = next_before(index, left, i + 1);
        j = next_before(index, right, j + 1);
    }
    i == left.len() && j == right.len()
}

/// Whether two forms are told apart.
fn forms_apart(shape: &LoopShape, x: &Spot, y: &Spot, f: &Form, g: &Form) -> bool
    ensures { result ≡ are_apart shape.now x.now y.now f.now g.now }
{
    same_before(shape.index, f.terms(), g.terms()) && has_reason(shape, x, y, f, g)
}

/// Whether two accesses of these forms are told apart, where they have forms.
fn spots_apart(shape: &LoopShape, x: &Spot, y: &Spot) -> bool
    ensures { result ≡ if_form x.now.form (λ f. if_form y.now.form (λ g. are_apart shape.now x.now y.now f g)) }
{
    match &x.form {
        None => false,
        Some(f) => match &y.form {
            None => false,
            Some(g) => forms_apart(shape, x, y, f, g),
        },
    }
}

/// Whether an access in an iteration and another in another iteration are told apart.
fn is_apart(x: &Spot, y: &Spot, shape: &LoopShape) -> bool
    ensures { result ≡ is_apart shape.now x.now y.now }
{
    !x.wrap && !y.wrap && spots_apart(shape, x, y)
}

/// What the dependence test says of an access in an iteration of a loop and another in another iteration. It takes no memory,
/// and a time that is linear in the terms of the two forms, times how many inner loops lie around each other. Its sums are
/// exact: with the bounds that a form keeps, none leaves an `i128`.
pub fn apart(x: &Spot, y: &Spot, shape: &LoopShape) -> Verdict
    ensures { result ≡ verdict_of shape.now x.now y.now }
{
    if is_apart(x, y, shape) {
        Verdict::Apart
    } else {
        Verdict::Maybe
    }
}
