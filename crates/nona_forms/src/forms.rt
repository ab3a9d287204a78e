//! Affine forms.

ghost use Rattle.std.specs.Prelude.{◌≡◌, ◌≤◌, length, All, IfOk, IsTrue};
ghost use Rattle.std.specs.List.{list_all};
ghost use Rattle.nona_forms.specs.Affine.{Affine, is_bounded, is_coefficient, is_constant, if_bounded};
ghost use Rattle.nona_forms.specs.declared.limits.TheConstants as limits;
ghost use Rattle.nona_forms.specs.declared.terms.Term.{Term};

use crate::limits::{COEFFICIENT, CONSTANT, TERMS};
use crate::terms::Term;
use std::alloc::{AllocError, Global};
use std::marker::Model;
use std::sync::Arc;

/// An affine form: a constant, and whole numbers of scalars.
///
/// The absolute value of the constant is at most `CONSTANT`, that of each coefficient at most `COEFFICIENT`, and there are
/// at most `TERMS` terms. The form of an expression has its terms in order of id, each id once and none of them 0
/// (`form_is_kept`). Equal forms may share their terms, so that a copy takes constant time.
#[derive(Debug, Drop)]
pub struct Form {
    constant: i128,
    terms: Arc<Vec<Term>>,
}

impl Model for Form {
    ghost use Rattle.std.specs.Prelude.{IsTrue};
    ghost use Rattle.nona_forms.specs.Affine.{Affine, is_bounded};

    ghost Value = { Affine };

    ghost view = { λ f. record { constant = f.constant; terms = f.terms.value.items } };

    ghost invariant = { λ f. IsTrue (is_bounded (record { constant = f.constant; terms = f.terms.value.items })) };
}

/// Whether a number may be the coefficient of a form.
pub fn is_coefficient(number: i128) -> bool
    ensures { result ≡ is_coefficient number }
{
    -(COEFFICIENT as i128) <= number && number <= COEFFICIENT as i128
}

/// Whether a number may be the constant of a form.
pub fn is_constant(number: i128) -> bool
    ensures { result ≡ is_constant number }
{
    -(CONSTANT as i128) <= number && number <= CONSTANT as i128
}

/// Whether all coefficients may be those of a form.
fn are_coefficients(terms: &[Term]) -> bool
    ensures { result ≡ list_all (λ t. is_coefficient t.coefficient) terms.now }
{
    terms.iter().all(|t| is_coefficient(t.coefficient as i128))
}

/// Whether a constant and terms are within a form's bounds.
fn are_bounded(constant: i128, terms: &[Term]) -> bool
    ensures { result ≡ is_bounded (record { constant = constant; terms = terms.now }) }
{
    is_constant(constant) && terms.len() <= TERMS && are_coefficients(terms)
}

impl Form {
    /// The form with this constant and these terms, where they are within a form's bounds; else none. The one error is that
    /// memory ran out.
    pub fn within(
        alloc: Global,
        constant: i128,
        terms: Vec<Term>,
    ) -> Result<Option<Form>, AllocError>
        ensures { IfOk result (λ o. o ≡ if_bounded (record { constant = constant; terms = terms.items })) }
    {
        if are_bounded(constant, &terms) {
            let terms = Arc::new(alloc, terms)?;
            Ok(Some(Form { constant, terms }))
        } else {
            Ok(None)
        }
    }

    /// The form with this constant and these terms, which have to be within a form's bounds. The one error is that memory ran
    /// out.
    pub fn of(alloc: Global, constant: i128, terms: Vec<Term>) -> Result<Form, AllocError>
        requires { IsTrue (is_bounded (record { constant = constant; terms = terms.items })) }
        ensures { IfOk result (λ f. f ≡ record { constant = constant; terms = terms.items }) }
    {
        let terms = Arc::new(alloc, terms)?;
        Ok(Form { constant, terms })
    }

    /// An equal form, which shares its terms with this one: it takes constant time. The one error is that it has too many
    /// copies.
    pub fn copy(&self) -> Result<Form, AllocError>
        ensures { IfOk result (λ f. f ≡ self.now) }
    {
        Ok(Form {
            constant: self.constant,
            terms: self.terms.clone()?,
        })
    }

    /// The constant. Its absolute value is at most `CONSTANT`.
    pub fn constant(&self) -> i128
        ensures constant { result ≡ self.now.constant }
        ensures within { IsTrue (is_constant result) }
    {
        self.constant
    }

    /// The terms: at most `TERMS`, each coefficient at most `COEFFICIENT` from 0.
    pub fn terms(&self) -> &[Term]
        ensures terms { result.now ≡ self.now.terms }
        ensures within { All (λ (t : Term). IsTrue (is_coefficient t.coefficient)) result.now }
        ensures few { length result.now ≤ limits.TERMS }
    {
        self.terms.as_ref().as_slice()
    }

    /// Whether it keeps a form's bounds, which is always so. It does nothing when called.
    pub fn is_kept(&self)
        ensures { IsTrue (is_bounded self.now) }
    {
        let _constant = self.constant;
    }
}
