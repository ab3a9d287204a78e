//! Which loops are calm.

ghost use Rattle.std.specs.Prelude.{◌≡◌, ◌++◌, ◌&&◌, not, if◌then◌else◌, true, nat_le, length, is_some, IfOk, OnOk};
ghost use Rattle.nona_tree.specs.declared.trees.Stmt.{For};
ghost use Rattle.nona_tree.specs.Value.{is_zero};
ghost use Rattle.nona_forms.specs.Affine.{form_of};
ghost use Rattle.nona_forms.specs.Calm.{is_division, is_divisor, is_plain, is_calm_expr, is_calm_cell, is_calm_stmt, is_calm_all, is_calm};
ghost use Rattle.nona_forms.specs.References.{references_all};
ghost use Rattle.nona_forms.specs.declared.limits.TheConstants as limits;

use crate::touching::push_all_arrays;
use nona_affine::{Ids, Names, form_inside, loop_names};
use nona_forms::ACCESSES;
use nona_tree::{Access, Expr, Loop, Op, Stmt};
use std::alloc::{AllocError, Global};

/// Whether two hold.
fn are_both(one: bool, other: bool) -> bool
    ensures { result ≡ (one && other) }
{
    one && other
}

/// Whether an operator divides.
fn is_division(op: Op) -> bool
    ensures { result ≡ is_division op }
{
    match op {
        Op::Div | Op::Rem => true,
        _ => false,
    }
}

/// Whether a number is 0.
fn is_nothing(number: i64) -> bool
    ensures { result ≡ is_zero number }
{
    number == 0
}

/// Whether an expression is a number other than 0.
fn is_divisor(e: &Expr) -> bool
    ensures { result ≡ is_divisor e.now }
{
    match e {
        Expr::Number(number) => !is_nothing(*number),
        _ => false,
    }
}

/// Whether what stands on the right of an operator is no divisor that may be 0.
fn is_safe(op: Op, right: &Expr) -> bool
    ensures { result ≡ (if is_division op then is_divisor right.now else true) }
{
    if is_division(op) {
        is_divisor(right)
    } else {
        true
    }
}

/// Whether an expression has a form.
fn has_form(alloc: Global, e: &Expr, inner: &Ids, names: &Names) -> Result<bool, AllocError>
    ensures { IfOk result (λ has. has ≡ is_some (form_of e.now (inner.now ++ names.now))) }
{
    let form = form_inside(alloc, e, inner, names)?;
    Ok(form.is_some())
}

/// Whether an index is wrapped or has a form.
fn is_plain(
    alloc: Global,
    wrap: bool,
    index: &Expr,
    inner: &Ids,
    names: &Names,
) -> Result<bool, AllocError>
    ensures { IfOk result (λ plain. plain ≡ is_plain wrap index.now (inner.now ++ names.now)) }
{
    if wrap {
        Ok(true)
    } else {
        has_form(alloc, index, inner, names)
    }
}

/// Whether each divisor of an expression is a number other than 0, and each index without wrap has a form.
#[cycle(expr_calm)]
fn is_calm_expr(alloc: Global, e: &Expr, inner: &Ids, names: &Names) -> Result<bool, AllocError>
    ensures { IfOk result (λ calm. calm ≡ is_calm_expr e.now (inner.now ++ names.now)) }
{
    match e {
        Expr::Cell(place) => {
            let access = place.get();
            let plain = is_plain(alloc, access.wrap, &access.index, inner, names)?;
            let calm = is_calm_expr(alloc, &access.index, inner, names)?;
            Ok(are_both(plain, calm))
        }
        Expr::Neg(part) => {
            let calm = is_calm_expr(alloc, part.get(), inner, names)?;
            Ok(calm)
        }
        Expr::Not(part) => {
            let calm = is_calm_expr(alloc, part.get(), inner, names)?;
            Ok(calm)
        }
        Expr::Binary {
            op,
            left,
            right,
            ..
        } => {
            let safe = is_safe(*op, right.get());
            let first = is_calm_expr(alloc, left.get(), inner, names)?;
            let second = is_calm_expr(alloc, right.get(), inner, names)?;
            Ok(are_both(safe, are_both(first, second)))
        }
        Expr::Number(_) | Expr::Scalar(_) | Expr::Len(_) => Ok(true),
    }
}

/// The same of an access that is written.
fn is_calm_cell(
    alloc: Global,
    access: &Access,
    inner: &Ids,
    names: &Names,
) -> Result<bool, AllocError>
    ensures { IfOk result (λ calm. calm ≡ is_calm_cell access.now (inner.now ++ names.now)) }
{
    let plain = is_plain(alloc, access.wrap, &access.index, inner, names)?;
    let calm = is_calm_expr(alloc, &access.index, inner, names)?;
    Ok(plain && calm)
}

/// The same of an access that is written, and of an expression.
fn is_calm_put(
    alloc: Global,
    access: &Access,
    value: &Expr,
    inner: &Ids,
    names: &Names,
) -> Result<bool, AllocError>
    ensures { IfOk result (λ calm. calm ≡ (is_calm_cell access.now (inner.now ++ names.now) && is_calm_expr value.now (inner.now ++ names.now))) }
{
    let cell = is_calm_cell(alloc, access, inner, names)?;
    let calm = is_calm_expr(alloc, value, inner, names)?;
    Ok(cell && calm)
}

/// The same of a statement, which besides has no `while`, and inner loops whose bounds have forms. The inner loops' indices
/// are then as before.
#[cycle(stmt_calm)]
fn is_calm_stmt(alloc: Global, s: &Stmt, inner: &mut Ids, names: &Names) -> Result<bool, AllocError>
    ensures calm { IfOk result (λ calm. calm ≡ is_calm_stmt s.now (inner.old ++ names.now)) }
    ensures inner { OnOk result (inner.new ≡ inner.old) }
{
    match s {
        Stmt::Let { value, .. } => is_calm_expr(alloc, value, inner, names),
        Stmt::Set { value, .. } => is_calm_expr(alloc, value, inner, names),
        Stmt::Fold { value, .. } => is_calm_expr(alloc, value, inner, names),
        Stmt::Put { place, value } => is_calm_put(alloc, place, value, inner, names),
        Stmt::FoldPut { place, value, .. } => is_calm_put(alloc, place, value, inner, names),
        Stmt::If { test, yes, no } => {
            let tested = is_calm_expr(alloc, test, inner, names)?;
            let first = is_calm_all(alloc, yes.as_slice(), inner, names)?;
            let second = is_calm_all(alloc, no.as_slice(), inner, names)?;
            Ok(are_both(tested, are_both(first, second)))
        }
        Stmt::While { .. } => Ok(false),
        Stmt::For(l) => is_calm_loop(alloc, l, inner, names),
        Stmt::Print { value, .. } => is_calm_expr(alloc, value, inner, names),
    }
}

/// The same of an inner loop.
#[cycle(stmt_calm)]
fn is_calm_loop(alloc: Global, l: &Loop, inner: &mut Ids, names: &Names) -> Result<bool, AllocError>
    ensures calm { IfOk result (λ calm. calm ≡ is_calm_stmt (For l.now) (inner.old ++ names.now)) }
    ensures inner { OnOk result (inner.new ≡ inner.old) }
{
    let low = has_form(alloc, &l.low, inner, names)?;
    let high = has_form(alloc, &l.high, inner, names)?;
    inner.push(l.index.id)?;
    let body = is_calm_all(alloc, l.body.as_slice(), inner, names)?;
    inner.pop();
    Ok(are_both(low, are_both(high, body)))
}

/// The same of one statement after another.
#[cycle(stmt_calm)]
#[tactic(auto, using(crate::proofs::CalmEquations::calm_next))]
fn is_calm_all(
    alloc: Global,
    stmts: &[Stmt],
    inner: &mut Ids,
    names: &Names,
) -> Result<bool, AllocError>
    ensures calm { IfOk result (λ calm. calm ≡ is_calm_all stmts.now (inner.old ++ names.now)) }
    ensures inner { OnOk result (inner.new ≡ inner.old) }
{
    let mut calm = true;
    for s in stmts {
        let next = is_calm_stmt(alloc, s, inner, names)?;
        calm = calm && next;
    }
    Ok(calm)
}

/// Whether a loop's body has at most as many accesses as a calm one may have.
fn has_few_accesses(alloc: Global, looped: &Loop) -> Result<bool, AllocError>
    ensures { IfOk result (λ few. few ≡ nat_le (length (references_all looped.now.body)) limits.ACCESSES) }
{
    let mut arrays = Vec::new(alloc);
    push_all_arrays(looped.body.as_slice(), &mut arrays)?;
    Ok(arrays.len() <= ACCESSES)
}

/// Whether a loop is calm: its body has no `while`, each divisor is a number other than 0, each index without `wrap` and each
/// bound of an inner loop has an affine form, and there are at most `ACCESSES` accesses. The one error is that memory ran out.
pub fn calm(alloc: Global, looped: &Loop) -> Result<bool, AllocError>
    ensures { IfOk result (λ calm. calm ≡ is_calm looped.now) }
{
    let names = loop_names(alloc, looped)?;
    let mut inner = Ids::new(alloc);
    let plain = is_calm_all(alloc, looped.body.as_slice(), &mut inner, &names)?;
    let few = has_few_accesses(alloc, looped)?;
    Ok(plain && few)
}
