//! Coefficients by id, to which terms are added.

ghost use Rattle.std.specs.Prelude.{◌≡◌, ◌+ℤ◌, ◌*ℤ◌, ℕ, ℤ, OnOk, IfOk, IsTrue};
ghost use Rattle.std.specs.List.{list_all};
ghost use Rattle.std.specs.Ordering.{nat_cmp};
ghost use Rattle.std.specs.BTreeMap.{values, IsOrdered};
ghost use Rattle.nona_tree.specs.Value.{is_zero};
ghost use Rattle.nona_forms.specs.Affine.{is_coefficient};
ghost use Rattle.nona_affine.specs.Tallies.{AreUsed, IsAdded, IsPoured, scaled, signed, sum_at, terms_in, value_at};

use nona_forms::{Term, is_coefficient};
use std::alloc::{AllocError, Global};
use std::collections::BTreeMap;

/// The coefficient of a scalar, 0 where it has none.
fn value(sums: &BTreeMap<u32, i64>, id: u32) -> i64
    ensures { result ≡ value_at id sums.now.entries }
{
    match sums.get(&id) {
        None => 0,
        Some(value) => *value,
    }
}

/// Whether a coefficient is 0.
pub fn is_zero(value: i64) -> bool
    ensures { result ≡ is_zero value }
{
    value == 0
}

/// Gives a scalar this coefficient, and takes it out where that is 0.
fn set(sums: &mut BTreeMap<u32, i64>, id: u32, value: i64) -> Result<(), AllocError>
    requires within { IsTrue (is_coefficient value) }
    requires used { AreUsed sums.old }
    ensures sum { OnOk result ((scalar : ℕ → ℤ)
        → sum_at scalar sums.new.entries +ℤ (value_at id sums.old.entries *ℤ scalar id) ≡ sum_at scalar sums.old.entries +ℤ (value *ℤ scalar id)) }
    ensures used { OnOk result (AreUsed sums.new) }
{
    if is_zero(value) {
        let _ = sums.remove(&id);
    } else {
        sums.insert(id, value)?;
    }
    Ok(())
}

/// The sum of two coefficients.
fn sum(left: i64, right: i64) -> i128
    ensures { result ≡ left +ℤ right }
{
    left as i128 + right as i128
}

/// A coefficient within bounds, as a number of 64 bits.
fn narrowed(coefficient: i128) -> i64
    requires { IsTrue (is_coefficient coefficient) }
    ensures { result ≡ coefficient }
{
    coefficient as i64
}

/// Adds a term, where the sum's coefficient is within bounds. `false` says that it isn't.
fn add(sums: &mut BTreeMap<u32, i64>, id: u32, coefficient: i64) -> Result<bool, AllocError>
    requires { AreUsed sums.old }
    ensures { IfOk result (IsAdded id coefficient sums.old sums.new) }
{
    let sum = sum(value(sums, id), coefficient);
    if is_coefficient(sum) {
        set(sums, id, narrowed(sum))?;
        Ok(true)
    } else {
        Ok(false)
    }
}

/// A coefficient, or its opposite.
pub fn signed(turned: bool, coefficient: i64) -> i64
    requires { IsTrue (is_coefficient coefficient) }
    ensures { result ≡ signed turned coefficient }
{
    if turned { -coefficient } else { coefficient }
}

/// Moves all terms into other ones, each with its opposite where that is asked for. `false` says that a coefficient of the sum
/// isn't within bounds; then some may have been moved.
pub fn pour(
    into: &mut BTreeMap<u32, i64>,
    from: &mut BTreeMap<u32, i64>,
    turned: bool,
) -> Result<bool, AllocError>
    requires into { AreUsed into.old }
    requires from { AreUsed from.old }
    ensures { IfOk result (IsPoured turned into.old from.old into.new) }
{
    while let Some((id, coefficient)) = from.pop_first() {
        if !add(into, id, signed(turned, coefficient))? {
            return Ok(false);
        }
    }
    Ok(true)
}

/// A number times a coefficient.
fn product(factor: i64, coefficient: i64) -> i128
    ensures { result ≡ factor *ℤ coefficient }
{
    factor as i128 * coefficient as i128
}

/// Whether all coefficients are within bounds when each is taken times a number.
pub fn can_scale(sums: &BTreeMap<u32, i64>, factor: i64) -> bool
    ensures { result ≡ list_all (λ c. is_coefficient (factor *ℤ c)) (values sums.now) }
{
    sums.values().all(|c| is_coefficient(product(factor, *c)))
}

/// A number times a coefficient, where that is within bounds.
fn multiple(factor: i64, coefficient: i64) -> i64
    ensures { IsTrue (is_coefficient (factor *ℤ coefficient)) → result ≡ factor *ℤ coefficient }
{
    factor.wrapping_mul(coefficient)
}

/// Takes each coefficient times a number. The products have to be within bounds.
pub fn scale(sums: &mut BTreeMap<u32, i64>, factor: i64)
    requires used { AreUsed sums.old }
    requires within { IsTrue (list_all (λ c. is_coefficient (factor *ℤ c)) (values sums.old)) }
    ensures entries { sums.new.entries ≡ scaled factor sums.old.entries }
    ensures rising { IsOrdered nat_cmp sums.new }
{
    sums.retain(|_, c| {
        *c = multiple(factor, *c);
        true
    });
}

/// Moves the terms to a list, in order of id, each with its opposite where that is asked for.
pub fn listed(
    alloc: Global,
    sums: &mut BTreeMap<u32, i64>,
    turned: bool,
) -> Result<Vec<Term>, AllocError>
    requires { AreUsed sums.old }
    ensures { IfOk result (λ terms. terms.items ≡ terms_in turned sums.old.entries) }
{
    let mut terms = Vec::new(alloc);
    while let Some((id, coefficient)) = sums.pop_first() {
        terms.push(Term {
            id,
            coefficient: signed(turned, coefficient),
        })?;
    }
    Ok(terms)
}
