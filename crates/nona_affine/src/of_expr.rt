//! The forms of expressions.

ghost use Rattle.std.specs.Prelude.{◌≡◌, ◌++◌, IfOk};
ghost use Rattle.nona_forms.specs.Affine.{form_of};
ghost use Rattle.nona_affine.specs.Put.{IsPut, scope_ids};

use crate::combining::Scope;
use crate::names::{Ids, Names};
use crate::tallies::Tally;
use nona_forms::Form;
use nona_tree::Expr;
use std::alloc::{AllocError, Global};

/// Puts the form of an expression behind others, if it has one; `false` says that it has none.
///
/// An expression may be some 4,096 levels deep: 64 brackets with 64 operators in each. So a level takes little of the stack
/// here: the forms of its parts stand in a list, what all levels share in one struct, and what is large is in a function of its own.
#[tactic(auto, using(crate::proofs::FormEquations::form_laws))]
fn put_form(scope: &Scope, e: &Expr, forms: &mut Vec<Tally>) -> Result<bool, AllocError>
    ensures { IfOk result (IsPut (form_of e.now (scope_ids scope.now)) forms.old.items forms.new.items) }
{
    match e {
        Expr::Neg(part) => {
            if !put_form(scope, part.get(), forms)? {
                return Ok(false);
            }
            scope.act_on(e, forms)
        }
        Expr::Binary { left, right, .. } => {
            if !put_form(scope, left.get(), forms)? {
                return Ok(false);
            }
            if !put_form(scope, right.get(), forms)? {
                return Ok(false);
            }
            scope.act_on(e, forms)
        }
        Expr::Number(_) | Expr::Scalar(_) | Expr::Cell(_) | Expr::Len(_) | Expr::Not(_) => {
            scope.act_on(e, forms)
        }
    }
}

/// The form of an expression in which the indices of some inner loops and some other scalars may occur, if it has one.
pub fn form_inside(
    alloc: Global,
    e: &Expr,
    inner: &Ids,
    names: &Names,
) -> Result<Option<Form>, AllocError>
    ensures { IfOk result (λ o. o ≡ form_of e.now (inner.now ++ names.now)) }
{
    let scope = Scope {
        alloc,
        inner,
        names,
    };
    let mut forms = Vec::new(alloc);
    if !put_form(&scope, e, &mut forms)? {
        return Ok(None);
    }
    match forms.pop() {
        None => Ok(None),
        Some(form) => {
            let form = form.into_form(alloc)?;
            Ok(Some(form))
        }
    }
}

/// The affine form of an expression in which these scalars may occur, if it has one.
///
/// A number, a scalar that may occur, `-`, `+`, `-` of two parts and a product of which one side has no terms have a form where
/// their parts have one, and where the form itself and that of each part is within a form's bounds; anything else has none.
/// The one error is that memory ran out.
pub fn form(alloc: Global, e: &Expr, names: &Names) -> Result<Option<Form>, AllocError>
    ensures { IfOk result (λ o. o ≡ form_of e.now names.now) }
{
    let none = Ids::new(alloc);
    form_inside(alloc, e, &none, names)
}
