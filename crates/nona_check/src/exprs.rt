// The names in expressions, and those that statements use.

ghost use Rattle.std.specs.Prelude.{◌≡◌, ◌++◌, false, IfOk, OnOk};
ghost use Rattle.nona_tree.specs.Faults.{scalar_faults, array_faults, target_faults, use_faults, new_faults, expr_faults, place_faults};
ghost use Rattle.nona_tree.specs.Ids.{scalar_ids, array_ids, new_ids, expr_ids, access_ids};
ghost use Rattle.nona_check.specs.First.{first_from};
ghost use Rattle.nona_check.specs.Primaries.{IsPrimary};

use crate::fault::{note, note_where};
use crate::scope::{Scope, is_input};
use nona_tree::{Access, Expr, ProgramFault, Use};
use sqlite_items::Boxed;
use std::alloc::{AllocError, Global};

/// Takes a name into account that isn't what it stands for: it is of the other kind, or it isn't visible.
fn note_other(first: &mut Option<ProgramFault>, other: bool, at: u32)
    ensures { first.new ≡ first_from first.old (use_faults false other at) }
{
    if other {
        note(first, ProgramFault::KindWrong { at });
    } else {
        note(first, ProgramFault::Unknown { at });
    }
}

/// A name that stands for a scalar, with its id.
pub fn resolve_scalar(name: &Use, scope: &Scope, first: &mut Option<ProgramFault>) -> Use
    ensures ids { result ≡ scalar_ids name.now scope.now }
    ensures faults { first.new ≡ first_from first.old (scalar_faults name.now scope.now) }
{
    match scope.scalar(&name.text) {
        Some(id) => name.with_id(id),
        None => {
            note_other(first, scope.array(&name.text).is_some(), name.at);
            name.with_id(0)
        }
    }
}

/// A name that stands for an array, with its id.
pub fn resolve_array(name: &Use, scope: &Scope, first: &mut Option<ProgramFault>) -> Use
    ensures ids { result ≡ array_ids name.now scope.now }
    ensures faults { first.new ≡ first_from first.old (array_faults name.now scope.now) }
{
    match scope.array(&name.text) {
        Some(id) => name.with_id(id),
        None => {
            note_other(first, scope.scalar(&name.text).is_some(), name.at);
            name.with_id(0)
        }
    }
}

/// A name that is assigned, with its id.
pub fn resolve_target(name: &Use, scope: &Scope, first: &mut Option<ProgramFault>) -> Use
    ensures ids { result ≡ scalar_ids name.now scope.now }
    ensures faults { first.new ≡ first_from first.old (target_faults name.now scope.now) }
{
    let resolved = resolve_scalar(name, scope, first);
    let fault = ProgramFault::IndexAssigned { at: name.at };
    note_where(first, scope.is_index(&name.text), fault);
    resolved
}

/// Takes a name that is declared into account.
pub fn note_new(first: &mut Option<ProgramFault>, name: &Use, scope: &Scope)
    ensures { first.new ≡ first_from first.old (new_faults name.now scope.now) }
{
    let fault = ProgramFault::Twice { at: name.at };
    note_where(first, scope.is_seen(&name.text), fault);
}

/// A scalar's name where it is declared, with its id.
pub fn resolve_new(name: &Use, scope: &Scope, first: &mut Option<ProgramFault>) -> Use
    ensures ids { result ≡ new_ids name.now scope.now }
    ensures faults { first.new ≡ first_from first.old (new_faults name.now scope.now) }
{
    note_new(first, name, scope);
    name.with_id(scope.count())
}

/// A scalar with its id, in a box.
#[inline(never)]
fn boxed_scalar(
    alloc: Global,
    name: &Use,
    scope: &Scope,
    first: &mut Option<ProgramFault>,
) -> Result<Boxed<Expr>, AllocError>
    ensures ids { IfOk result (λ e. e ≡ Expr.Scalar (scalar_ids name.now scope.now)) }
    ensures faults { OnOk result (first.new ≡ first_from first.old (scalar_faults name.now scope.now)) }
{
    Boxed::new(alloc, Expr::Scalar(resolve_scalar(name, scope, first)))
}

/// The length of an array with its id, in a box.
#[inline(never)]
fn boxed_length(
    alloc: Global,
    array: &Use,
    scope: &Scope,
    first: &mut Option<ProgramFault>,
) -> Result<Boxed<Expr>, AllocError>
    ensures ids { IfOk result (λ e. e ≡ Expr.Len (array_ids array.now scope.now)) }
    ensures faults { OnOk result (first.new ≡ first_from first.old (array_faults array.now scope.now)) }
{
    Boxed::new(alloc, Expr::Len(resolve_array(array, scope, first)))
}

/// A number, a scalar, a cell or the length of an array with its ids, in a box.
#[inline(never)]
#[cycle(expr)]
#[tactic(auto, using(crate::proofs::Steps::expr_steps))]
fn resolve_primary(
    alloc: Global,
    expr: &Expr,
    scope: &Scope,
    first: &mut Option<ProgramFault>,
) -> Result<Boxed<Expr>, AllocError>
    requires { IsPrimary expr.now }
    ensures ids { IfOk result (λ e. e ≡ expr_ids expr.now scope.now) }
    ensures faults { OnOk result (first.new ≡ first_from first.old (expr_faults expr.now scope.now)) }
{
    match expr {
        Expr::Number(value) => Expr::boxed_number(alloc, *value),
        Expr::Scalar(name) => boxed_scalar(alloc, name, scope, first),
        Expr::Cell(place) => boxed_cell(alloc, place.get(), scope, first),
        Expr::Len(array) => boxed_length(alloc, array, scope, first),
        Expr::Neg(_) | Expr::Not(_) | Expr::Binary { .. } => unreachable!(),
    }
}

/// An expression with its ids, in a box. An expression may be some 4,096 levels deep: 64 brackets with 64 operators in
/// each. So a level takes little of the stack here: what is large is in `resolve_primary`, which is called at four places
/// and so stays a function of its own in every build.
#[cycle(expr)]
#[tactic(auto, using(crate::proofs::Steps::expr_steps))]
fn resolve_boxed(
    alloc: Global,
    expr: &Expr,
    scope: &Scope,
    first: &mut Option<ProgramFault>,
) -> Result<Boxed<Expr>, AllocError>
    ensures ids { IfOk result (λ e. e ≡ expr_ids expr.now scope.now) }
    ensures faults { OnOk result (first.new ≡ first_from first.old (expr_faults expr.now scope.now)) }
{
    match expr {
        Expr::Number(_) => resolve_primary(alloc, expr, scope, first),
        Expr::Scalar(_) => resolve_primary(alloc, expr, scope, first),
        Expr::Cell(_) => resolve_primary(alloc, expr, scope, first),
        Expr::Len(_) => resolve_primary(alloc, expr, scope, first),
        Expr::Neg(value) => {
            let value = resolve_boxed(alloc, value.get(), scope, first)?;
            Expr::boxed_neg(alloc, value)
        }
        Expr::Not(value) => {
            let value = resolve_boxed(alloc, value.get(), scope, first)?;
            Expr::boxed_not(alloc, value)
        }
        Expr::Binary {
            op,
            at,
            left,
            right,
        } => {
            let left = resolve_boxed(alloc, left.get(), scope, first)?;
            let right = resolve_boxed(alloc, right.get(), scope, first)?;
            Expr::boxed_binary(alloc, *op, *at, left, right)
        }
    }
}

/// A cell that is read with its ids, in a box.
#[inline(never)]
#[cycle(expr)]
#[tactic(auto, using(crate::proofs::Steps::expr_steps))]
fn boxed_cell(
    alloc: Global,
    place: &Access,
    scope: &Scope,
    first: &mut Option<ProgramFault>,
) -> Result<Boxed<Expr>, AllocError>
    ensures ids { IfOk result (λ e. e ≡ Expr.Cell (access_ids place.now scope.now)) }
    ensures faults { OnOk result (first.new ≡ first_from first.old
        (array_faults place.now.array scope.now ++ expr_faults place.now.index scope.now)) }
{
    let place = resolve_access(alloc, place, scope, first)?;
    Boxed::new(alloc, Expr::Cell(place))
}

/// A cell with its ids, in a box.
#[inline(never)]
#[cycle(expr)]
#[tactic(auto, using(crate::proofs::Steps::expr_steps))]
fn resolve_access(
    alloc: Global,
    place: &Access,
    scope: &Scope,
    first: &mut Option<ProgramFault>,
) -> Result<Boxed<Access>, AllocError>
    ensures ids { IfOk result (λ c. c ≡ access_ids place.now scope.now) }
    ensures faults { OnOk result (first.new ≡ first_from first.old
        (array_faults place.now.array scope.now ++ expr_faults place.now.index scope.now)) }
{
    let array = resolve_array(&place.array, scope, first);
    let index = resolve_boxed(alloc, &place.index, scope, first)?;
    let resolved = Access {
        array,
        wrap: place.wrap,
        index: index.into_inner(),
    };
    Boxed::new(alloc, resolved)
}

/// An expression with its ids.
pub fn resolve_expr(
    alloc: Global,
    expr: &Expr,
    scope: &Scope,
    first: &mut Option<ProgramFault>,
) -> Result<Expr, AllocError>
    ensures ids { IfOk result (λ e. e ≡ expr_ids expr.now scope.now) }
    ensures faults { OnOk result (first.new ≡ first_from first.old (expr_faults expr.now scope.now)) }
{
    let resolved = resolve_boxed(alloc, expr, scope, first)?;
    Ok(resolved.into_inner())
}

/// A cell that is written, with its ids.
pub fn resolve_place(
    alloc: Global,
    place: &Access,
    scope: &Scope,
    first: &mut Option<ProgramFault>,
) -> Result<Access, AllocError>
    ensures ids { IfOk result (λ c. c ≡ access_ids place.now scope.now) }
    ensures faults { OnOk result (first.new ≡ first_from first.old (place_faults place.now scope.now)) }
{
    let array = resolve_array(&place.array, scope, first);
    let fault = ProgramFault::InputWritten { at: place.array.at };
    note_where(first, is_input(&place.array.text), fault);
    let index = resolve_expr(alloc, &place.index, scope, first)?;
    Ok(Access {
        array,
        wrap: place.wrap,
        index,
    })
}
