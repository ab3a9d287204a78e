//! Affine forms that are being worked out.

ghost use Rattle.std.specs.Prelude.{◌≡◌, ◌+ℤ◌, ◌*ℤ◌, not, if◌then◌else◌, negsuc, pos, nat_le, length, true, false, Some, IfOk, IsTrue};
ghost use Rattle.std.specs.BTreeMap.{btree_map_len};
ghost use Rattle.nona_tree.specs.Value.{is_zero};
ghost use Rattle.nona_forms.specs.declared.limits.TheConstants as limits;
ghost use Rattle.nona_forms.specs.Affine.{constant_form, if_bounded, is_constant, no_terms, scalar_form, sum_form, times_form};

use crate::sums::{can_scale, is_zero, listed, pour, scale};
use nona_forms::{Form, TERMS, is_constant};
use std::alloc::{AllocError, Global};
use std::collections::BTreeMap;
use std::marker::Model;

/// A form that is being worked out: a constant, and the coefficients by the scalars' ids.
///
/// One sign of all coefficients is put off, so that the opposite of a form takes constant time. A sum moves the fewer terms to
/// the others.
#[derive(Drop)]
pub struct Tally {
    constant: i128,
    turned: bool,
    coefficients: BTreeMap<u32, i64>,
}

impl Model for Tally {
    ghost use Rattle.nona_forms.specs.Affine.{Affine};
    ghost use Rattle.nona_affine.specs.Tallies.{IsTally, terms_in};

    ghost Value = { Affine };

    ghost view = { λ t. record { constant = t.constant; terms = terms_in t.turned t.coefficients.entries } };

    ghost invariant = { λ t. IsTally t.constant t.coefficients };
}

/// Whether a form may have as many terms.
fn are_few(coefficients: &BTreeMap<u32, i64>) -> bool
    ensures { result ≡ nat_le (btree_map_len coefficients.now) limits.TERMS }
{
    coefficients.len() <= TERMS
}

/// The sum of two constants.
fn summed(left: i128, right: i128) -> i128
    requires left { IsTrue (is_constant left) }
    requires right { IsTrue (is_constant right) }
    ensures { result ≡ left +ℤ right }
{
    left + right
}

/// A constant times -1.
fn opposite(constant: i128) -> i128
    requires { IsTrue (is_constant constant) }
    ensures { result ≡ negsuc 0 *ℤ constant }
{
    -constant
}

/// A number times a constant.
fn multiplied(factor: i64, constant: i128) -> i128
    requires { IsTrue (is_constant constant) }
    ensures { result ≡ factor *ℤ constant }
{
    factor as i128 * constant
}

/// Whether terms are turned among those of another form.
fn relative(turned: bool, other: bool) -> bool
    ensures { result ≡ (if turned then not other else other) }
{
    if turned { !other } else { other }
}

/// The sum of two forms, if it is within bounds; the terms of the second one are moved to those of the first.
fn join(larger: Tally, smaller: Tally) -> Result<Option<Tally>, AllocError>
    ensures first { IfOk result (λ o. o ≡ if_bounded (sum_form larger smaller)) }
    ensures second { IfOk result (λ o. o ≡ if_bounded (sum_form smaller larger)) }
{
    let Tally {
        constant,
        turned,
        coefficients: mut into,
    } = larger;
    let Tally {
        constant: more,
        turned: other,
        coefficients: mut from,
    } = smaller;
    let sum = summed(constant, more);
    if !is_constant(sum) {
        return Ok(None);
    }
    if !pour(&mut into, &mut from, relative(turned, other))? {
        return Ok(None);
    }
    if !are_few(&into) {
        return Ok(None);
    }
    Ok(Some(Tally {
        constant: sum,
        turned,
        coefficients: into,
    }))
}

impl Tally {
    /// A number, if it is within bounds.
    pub fn of_number(alloc: Global, number: i128) -> Option<Tally>
        ensures { result ≡ if_bounded (constant_form number) }
    {
        if is_constant(number) {
            Some(Tally {
                constant: number,
                turned: false,
                coefficients: BTreeMap::new(alloc),
            })
        } else {
            None
        }
    }

    /// A scalar. The one error is that memory ran out.
    pub fn of_scalar(alloc: Global, id: u32) -> Result<Tally, AllocError>
        ensures { IfOk result (λ t. t ≡ scalar_form id) }
    {
        let mut coefficients = BTreeMap::new(alloc);
        coefficients.insert(id, 1)?;
        Ok(Tally {
            constant: 0,
            turned: false,
            coefficients,
        })
    }

    /// The constant, as a number of 64 bits.
    pub fn factor(&self) -> i64
        ensures { result ≡ self.now.constant }
    {
        self.constant as i64
    }

    /// Whether it has no terms.
    pub fn is_constant_alone(&self) -> bool
        ensures { result ≡ no_terms self.now.terms }
    {
        self.coefficients.is_empty()
    }

    /// How many terms it has.
    fn len(&self) -> usize
        ensures { result ≡ length self.now.terms }
    {
        self.coefficients.len()
    }

    /// The opposite, which is within bounds.
    pub fn turned(self) -> Tally
        ensures opposite { result ≡ times_form (negsuc 0) self }
        ensures bounded { if_bounded (times_form (negsuc 0) self) ≡ Some result }
    {
        let Tally {
            constant,
            turned,
            coefficients,
        } = self;
        Tally {
            constant: opposite(constant),
            turned: !turned,
            coefficients,
        }
    }

    /// Itself, as its own product with 1.
    fn once(self) -> Tally
        ensures { if_bounded (times_form (pos 1) self) ≡ Some result }
    {
        let Tally {
            constant,
            turned,
            coefficients,
        } = self;
        Tally {
            constant,
            turned,
            coefficients,
        }
    }

    /// The product with a number other than 0, if it is within bounds.
    fn multiple(self, factor: i64) -> Option<Tally>
        requires { is_zero factor ≡ false }
        ensures { result ≡ if_bounded (times_form factor self) }
    {
        let Tally {
            constant,
            turned,
            mut coefficients,
        } = self;
        let product = multiplied(factor, constant);
        if !is_constant(product) {
            return None;
        }
        if !can_scale(&coefficients, factor) {
            return None;
        }
        scale(&mut coefficients, factor);
        Some(Tally {
            constant: product,
            turned,
            coefficients,
        })
    }

    /// The product with a number, if it is within bounds.
    pub fn times(self, alloc: Global, factor: i64) -> Option<Tally>
        ensures { result ≡ if_bounded (times_form factor self) }
    {
        if is_zero(factor) {
            return Tally::of_number(alloc, 0);
        }
        match factor {
            1 => Some(self.once()),
            -1 => Some(self.turned()),
            _ => self.multiple(factor),
        }
    }

    /// The sum, if it is within bounds. The one error is that memory ran out.
    pub fn plus(self, other: Tally) -> Result<Option<Tally>, AllocError>
        ensures { IfOk result (λ o. o ≡ if_bounded (sum_form self other)) }
    {
        if self.len() < other.len() {
            join(other, self)
        } else {
            join(self, other)
        }
    }

    /// A form less another one, if it is within bounds. The one error is that memory ran out.
    pub fn minus(self, other: Tally) -> Result<Option<Tally>, AllocError>
        ensures { IfOk result (λ o. o ≡ if_bounded (sum_form self (times_form (negsuc 0) other))) }
    {
        self.plus(other.turned())
    }

    /// The form itself. The one error is that memory ran out.
    pub fn into_form(self, alloc: Global) -> Result<Form, AllocError>
        ensures { IfOk result (λ f. f ≡ self) }
    {
        let Tally {
            constant,
            turned,
            mut coefficients,
        } = self;
        let terms = listed(alloc, &mut coefficients, turned)?;
        Form::of(alloc, constant, terms)
    }
}
