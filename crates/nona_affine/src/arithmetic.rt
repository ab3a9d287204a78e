//! Divisors, coefficients and distances.

ghost use Rattle.std.specs.Prelude.{◌≡◌, ◌≤◌, ◌<◌, ◌+◌, ◌^◌, ◌==◌, ℕ, ◌+ℤ◌, nat_lt};
ghost use Rattle.std.specs.Prelude.{if◌then◌else◌, length, unsigned_abs, All, IsTrue};
ghost use Rattle.std.specs.Int.{IsGcd};
ghost use Rattle.nona_forms.specs.Affine.{is_coefficient};
ghost use Rattle.nona_forms.specs.Verdicts.{coefficient_of, inner_terms, gcd_of, gcd_terms, is_distance, has_multiple};
ghost use Rattle.nona_forms.specs.declared.terms.Term.{Term};

use nona_forms::{Term, pair_laws};
use nona_num::gap;

/// The greatest common divisor, by Euclid's algorithm.
fn euclid(a: u64, b: u64) -> u64
    ensures { IsGcd a b result }
{
    let mut x = a;
    let mut y = b;
    while y != 0 {
        let rest = x % y;
        x = y;
        y = rest;
    }
    x
}

/// The greatest common divisor.
pub fn gcd(a: u64, b: u64) -> u64
    ensures { result ≡ gcd_of a b }
{
    pair_laws();
    euclid(a, b)
}

/// The greatest common divisor of a number and a term's coefficient, where the term is behind an index.
fn gcd_with(divisor: u64, index: u32, term: Term) -> u64
    ensures { result ≡ (if nat_lt index term.id then gcd_of divisor (unsigned_abs term.coefficient) else divisor) }
{
    if index < term.id {
        gcd(divisor, term.coefficient.unsigned_abs())
    } else {
        divisor
    }
}

/// The greatest common divisor of a number and all coefficients of terms behind an index.
#[tactic(auto, using(crate::proofs::PairLoops::gcd_next))]
pub fn gcd_behind(first: u64, index: u32, terms: &[Term]) -> u64
    ensures { result ≡ gcd_terms first (inner_terms index terms.now) }
{
    let mut divisor = first;
    for t in terms {
        divisor = gcd_with(divisor, index, *t);
    }
    divisor
}

/// A term and another one, whose coefficient is added where it is of the same scalar.
#[tactic(auto, using(crate::proofs::PairLoops::small_more))]
fn add_like(sum: Term, term: Term) -> Term
    requires coefficient { IsTrue (is_coefficient term.coefficient) }
    requires sum { unsigned_abs sum.coefficient ≤ 2 ^ 52 }
    ensures id { result.id ≡ sum.id }
    ensures sum { result.coefficient ≡ (if term.id == sum.id then sum.coefficient +ℤ term.coefficient else sum.coefficient) }
    ensures small { (n : ℕ) → unsigned_abs sum.coefficient ≤ n → unsigned_abs result.coefficient ≤ n + 2 ^ 31 }
{
    if term.id == sum.id {
        Term {
            id: sum.id,
            coefficient: sum.coefficient + term.coefficient,
        }
    } else {
        sum
    }
}

/// The coefficient of a scalar.
#[tactic(auto, using(crate::proofs::PairLoops::coefficient_next))]
pub fn coefficient(id: u32, terms: &[Term]) -> i64
    requires within { All (λ (t : Term). IsTrue (is_coefficient t.coefficient)) terms.now }
    requires few { length terms.now ≤ 1048576 }
    ensures coefficient { result ≡ coefficient_of id terms.now }
    ensures small { unsigned_abs result ≤ 2 ^ 51 }
{
    let mut sum = Term { id, coefficient: 0 };
    for t in terms {
        sum = add_like(sum, *t);
    }
    sum.coefficient
}

/// Whether so many iterations lie between two of a loop with these bounds.
fn is_within_turns(fixed: Option<(i64, i64)>, distance: u128) -> bool
    ensures { result ≡ is_distance fixed distance }
{
    match fixed {
        None => true,
        Some((low, high)) => distance < gap(low, high) as u128,
    }
}

/// Whether `factor` times some distance above 0 lies from `low` to `high`.
pub fn can_reach(fixed: Option<(i64, i64)>, factor: u64, low: i128, high: i128) -> bool
    requires some { 0 < factor }
    requires factor { factor ≤ 2 ^ 51 }
    requires low { unsigned_abs low ≤ 2 ^ 118 }
    ensures { result ≡ has_multiple fixed factor low high }
{
    let least = low.max(0) as u128;
    let distance = least.div_ceil(factor as u128).max(1);
    let reached = factor as u128 * distance;
    0 <= high && reached <= high as u128 && is_within_turns(fixed, distance)
}
