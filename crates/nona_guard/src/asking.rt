//! What the guard asks of a loop's body.

ghost use Rattle.std.specs.Prelude.{◌≡◌, ◌++◌, ◌∷◌, [], None, if◌then◌else◌, IfOk, OnOk};
ghost use Rattle.nona_tree.specs.declared.trees.Stmt.{For};
ghost use Rattle.nona_forms.specs.Affine.{form_of};
ghost use Rattle.nona_guard.specs.Asked.{asked_place, asked_expr, asked_cell, asked_loop, asked, asked_all};

use crate::checks::Check;
use nona_affine::{Ids, Names, form_inside};
use nona_forms::Form;
use nona_tree::{Access, Expr, Loop, Stmt};
use sqlite_items::Items;
use std::alloc::{AllocError, Global};

/// The form of an access's index, unless it is wrapped.
fn place_form(
    alloc: Global,
    access: &Access,
    inner: &Ids,
    names: &Names,
) -> Result<Option<Form>, AllocError>
    ensures { IfOk result (λ o. o ≡ (if access.now.wrap then None else form_of access.now.index (inner.now ++ names.now))) }
{
    if access.wrap {
        Ok(None)
    } else {
        form_inside(alloc, &access.index, inner, names)
    }
}

/// Appends what is asked of an access itself.
fn push_place(
    alloc: Global,
    access: &Access,
    inner: &Ids,
    names: &Names,
    checks: &mut Items<Check>,
) -> Result<(), AllocError>
    ensures { OnOk result (checks.new
        ≡ checks.old ++ asked_place access.now.array.id access.now.wrap access.now.index (inner.now ++ names.now) ∷ []) }
{
    let form = place_form(alloc, access, inner, names)?;
    checks.push(Check::Place {
        array: access.array.id,
        wrap: access.wrap,
        form,
    })?;
    Ok(())
}

/// Appends what is asked of an expression.
#[cycle(expr_checks)]
fn push_expr(
    alloc: Global,
    e: &Expr,
    inner: &Ids,
    names: &Names,
    checks: &mut Items<Check>,
) -> Result<(), AllocError>
    ensures { OnOk result (checks.new ≡ checks.old ++ asked_expr e.now (inner.now ++ names.now)) }
{
    match e {
        Expr::Cell(place) => {
            let access = place.get();
            push_place(alloc, access, inner, names, checks)?;
            push_expr(alloc, &access.index, inner, names, checks)?;
            Ok(())
        }
        Expr::Neg(part) => {
            push_expr(alloc, part.get(), inner, names, checks)?;
            Ok(())
        }
        Expr::Not(part) => {
            push_expr(alloc, part.get(), inner, names, checks)?;
            Ok(())
        }
        Expr::Binary { left, right, .. } => {
            push_expr(alloc, left.get(), inner, names, checks)?;
            push_expr(alloc, right.get(), inner, names, checks)?;
            Ok(())
        }
        Expr::Number(_) | Expr::Scalar(_) | Expr::Len(_) => Ok(()),
    }
}

/// Appends what is asked of an access that is written.
fn push_cell(
    alloc: Global,
    access: &Access,
    inner: &Ids,
    names: &Names,
    checks: &mut Items<Check>,
) -> Result<(), AllocError>
    ensures { OnOk result (checks.new ≡ checks.old ++ asked_cell access.now (inner.now ++ names.now)) }
{
    push_place(alloc, access, inner, names, checks)?;
    push_expr(alloc, &access.index, inner, names, checks)?;
    Ok(())
}

/// Appends what is asked of an access that is written, and of an expression.
fn push_put(
    alloc: Global,
    access: &Access,
    value: &Expr,
    inner: &Ids,
    names: &Names,
    checks: &mut Items<Check>,
) -> Result<(), AllocError>
    ensures { OnOk result (checks.new
        ≡ checks.old ++ (asked_cell access.now (inner.now ++ names.now) ++ asked_expr value.now (inner.now ++ names.now))) }
{
    push_cell(alloc, access, inner, names, checks)?;
    push_expr(alloc, value, inner, names, checks)?;
    Ok(())
}

/// Appends what is asked of an inner loop with these bounds and this body, where the bounds have forms.
fn push_turns(
    id: u32,
    low: Option<Form>,
    high: Option<Form>,
    body: Items<Check>,
    checks: &mut Items<Check>,
) -> Result<(), AllocError>
    ensures { OnOk result (checks.new ≡ checks.old ++ asked_loop id low high body) }
{
    match low {
        None => Ok(()),
        Some(low) => match high {
            None => Ok(()),
            Some(high) => {
                checks.push(Check::Turns {
                    id,
                    low,
                    high,
                    body,
                })?;
                Ok(())
            }
        },
    }
}

/// Appends what is asked of a statement. The inner loops' indices are then as before.
#[cycle(stmt_checks)]
fn push_stmt(
    alloc: Global,
    s: &Stmt,
    inner: &mut Ids,
    names: &Names,
    checks: &mut Items<Check>,
) -> Result<(), AllocError>
    ensures checks { OnOk result (checks.new ≡ checks.old ++ asked s.now (inner.old ++ names.now)) }
    ensures inner { OnOk result (inner.new ≡ inner.old) }
{
    match s {
        Stmt::Let { value, .. } => push_expr(alloc, value, inner, names, checks),
        Stmt::Set { value, .. } => push_expr(alloc, value, inner, names, checks),
        Stmt::Fold { value, .. } => push_expr(alloc, value, inner, names, checks),
        Stmt::Put { place, value } => push_put(alloc, place, value, inner, names, checks),
        Stmt::FoldPut { place, value, .. } => push_put(alloc, place, value, inner, names, checks),
        Stmt::If { test, yes, no } => {
            push_expr(alloc, test, inner, names, checks)?;
            push_all(alloc, yes.as_slice(), inner, names, checks)?;
            push_all(alloc, no.as_slice(), inner, names, checks)?;
            Ok(())
        }
        Stmt::While { .. } => Ok(()),
        Stmt::For(l) => push_loop(alloc, l, inner, names, checks),
        Stmt::Print { value, .. } => push_expr(alloc, value, inner, names, checks),
    }
}

/// Appends what is asked of an inner loop. The inner loops' indices are then as before.
#[cycle(stmt_checks)]
fn push_loop(
    alloc: Global,
    l: &Loop,
    inner: &mut Ids,
    names: &Names,
    checks: &mut Items<Check>,
) -> Result<(), AllocError>
    ensures checks { OnOk result (checks.new ≡ checks.old ++ asked (For l.now) (inner.old ++ names.now)) }
    ensures inner { OnOk result (inner.new ≡ inner.old) }
{
    let low = form_inside(alloc, &l.low, inner, names)?;
    let high = form_inside(alloc, &l.high, inner, names)?;
    inner.push(l.index.id)?;
    let mut body = Items::new(alloc);
    push_all(alloc, l.body.as_slice(), inner, names, &mut body)?;
    inner.pop();
    push_turns(l.index.id, low, high, body, checks)?;
    Ok(())
}

/// Appends what is asked of one statement after another. The inner loops' indices are then as before. The one error is that
/// memory ran out.
#[cycle(stmt_checks)]
pub fn push_all(
    alloc: Global,
    stmts: &[Stmt],
    inner: &mut Ids,
    names: &Names,
    checks: &mut Items<Check>,
) -> Result<(), AllocError>
    ensures checks { OnOk result (checks.new ≡ checks.old ++ asked_all stmts.now (inner.old ++ names.now)) }
    ensures inner { OnOk result (inner.new ≡ inner.old) }
{
    for s in stmts {
        push_stmt(alloc, s, inner, names, checks)?;
    }
    Ok(())
}
