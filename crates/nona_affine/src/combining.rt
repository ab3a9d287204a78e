//! What the operators make of forms that are being worked out.

ghost use Rattle.std.specs.Prelude.{◌≡◌, List, [], ◌∷◌, ◌++◌, None, Some, if◌then◌else◌, negsuc, IfOk};
ghost use Rattle.nona_forms.specs.Affine.{Affine, if_bounded, times_form, constant_form, scalar_form, among, form_by};
ghost use Rattle.nona_affine.specs.Put.{HasActed, IsPut, scope_ids};
ghost use Rattle.nona_tree.specs.declared.trees.Op.TheVariants as op;

use crate::names::{Ids, Names};
use crate::tallies::Tally;
use nona_tree::{Expr, Op};
use std::alloc::{AllocError, Global};

/// The product of two forms, of which one is a constant.
fn product(alloc: Global, left: Tally, right: Tally) -> Option<Tally>
    ensures { result ≡ form_by op.Mul left right }
{
    if left.is_constant_alone() {
        right.times(alloc, left.factor())
    } else if right.is_constant_alone() {
        left.times(alloc, right.factor())
    } else {
        None
    }
}

/// What an operator makes of two forms, where that is a form.
fn combine(alloc: Global, op: Op, left: Tally, right: Tally) -> Result<Option<Tally>, AllocError>
    ensures { IfOk result (λ o. o ≡ form_by op left right) }
{
    match op {
        Op::Add => left.plus(right),
        Op::Sub => left.minus(right),
        Op::Mul => Ok(product(alloc, left, right)),
        _ => Ok(None),
    }
}

/// Puts a form behind others, if there is one. `false` says that there is none.
fn put(form: Option<Tally>, forms: &mut Vec<Tally>) -> Result<bool, AllocError>
    ensures { IfOk result (IsPut form forms.old.items forms.new.items) }
{
    match form {
        None => Ok(false),
        Some(form) => {
            forms.push(form)?;
            Ok(true)
        }
    }
}

/// Puts the form of a number behind others, if it has one.
fn put_number(alloc: Global, number: i64, forms: &mut Vec<Tally>) -> Result<bool, AllocError>
    ensures { IfOk result (IsPut (if_bounded (constant_form number)) forms.old.items forms.new.items) }
{
    put(Tally::of_number(alloc, number as i128), forms)
}

/// Takes the last form, and puts its opposite in its place.
fn turn_last(forms: &mut Vec<Tally>) -> Result<bool, AllocError>
    ensures { (before : List Affine) (f : Affine) → forms.old.items ≡ before ++ f ∷ []
        → IfOk result (IsPut (if_bounded (times_form (negsuc 0) f)) before forms.new.items) }
{
    match forms.pop() {
        None => Ok(false),
        Some(form) => put(Some(form.turned()), forms),
    }
}

/// Takes the last two forms, and puts what an operator makes of them in their place, where that is a form.
fn combine_last(alloc: Global, op: Op, forms: &mut Vec<Tally>) -> Result<bool, AllocError>
    ensures { (before : List Affine) (f g : Affine) → forms.old.items ≡ (before ++ f ∷ []) ++ g ∷ []
        → IfOk result (IsPut (form_by op f g) before forms.new.items) }
{
    match forms.pop() {
        None => Ok(false),
        Some(right) => match forms.pop() {
            None => Ok(false),
            Some(left) => {
                let form = combine(alloc, op, left, right)?;
                put(form, forms)
            }
        },
    }
}

/// What all parts of an expression share while its form is worked out: where memory comes from, and the scalars that may occur.
#[derive(Drop)]
pub struct Scope<'a> {
    pub alloc: Global,
    /// The indices of some inner loops.
    pub inner: &'a Ids,
    /// Some other scalars.
    pub names: &'a Names,
}

impl<'a> Scope<'a> {
    /// Whether a scalar may occur.
    #[tactic(auto, using(crate::proofs::Members::among_either))]
    fn has(&self, id: u32) -> bool
        ensures { result ≡ among id (scope_ids self.now) }
    {
        self.inner.has(id) || self.names.has(id)
    }

    /// The form of a scalar, if it may occur.
    fn scalar(&self, id: u32) -> Result<Option<Tally>, AllocError>
        ensures { IfOk result (λ o. o ≡ (if among id (scope_ids self.now) then Some (scalar_form id) else None)) }
    {
        if self.has(id) {
            let form = Tally::of_scalar(self.alloc, id)?;
            Ok(Some(form))
        } else {
            Ok(None)
        }
    }

    /// Puts the form of a scalar behind others, if it may occur.
    fn put_scalar(&self, id: u32, forms: &mut Vec<Tally>) -> Result<bool, AllocError>
        ensures { IfOk result (IsPut (if among id (scope_ids self.now) then Some (scalar_form id) else None) forms.old.items forms.new.items) }
    {
        let form = self.scalar(id)?;
        put(form, forms)
    }

    /// Takes the forms of an expression's parts, which are the last ones, and puts its own in their place, if it has one. `false` says
    /// that it has none.
    ///
    /// Whoever goes down an expression calls it at several places: so no compiler takes what it needs of the stack into each level.
    #[inline(never)]
    pub fn act_on(&self, e: &Expr, forms: &mut Vec<Tally>) -> Result<bool, AllocError>
        ensures { IfOk result (HasActed e.now (scope_ids self.now) forms.old.items forms.new.items) }
    {
        match e {
            Expr::Number(number) => put_number(self.alloc, *number, forms),
            Expr::Scalar(x) => self.put_scalar(x.id, forms),
            Expr::Neg(_) => turn_last(forms),
            Expr::Binary { op, .. } => combine_last(self.alloc, *op, forms),
            Expr::Cell(_) | Expr::Len(_) | Expr::Not(_) => Ok(false),
        }
    }
}
