//! The arrays of which statements have cells.

ghost use Rattle.std.specs.Prelude.{◌≡◌, ◌++◌, map, OnOk};
ghost use Rattle.nona_forms.specs.References.{expr_references, written_references, references, references_all};
ghost use Rattle.nona_graph.specs.Touched.{arrays_of};

use nona_tree::{Access, Expr, Stmt};
use std::alloc::AllocError;

/// Appends the arrays of an expression's accesses, in text order.
#[cycle(expr_arrays)]
fn push_expr(e: &Expr, arrays: &mut Vec<u32>) -> Result<(), AllocError>
    ensures { OnOk result (arrays.new.items ≡ arrays.old.items ++ arrays_of (expr_references e.now)) }
{
    match e {
        Expr::Cell(place) => {
            let access = place.get();
            arrays.push(access.array.id)?;
            push_expr(&access.index, arrays)?;
            Ok(())
        }
        Expr::Neg(part) => {
            push_expr(part.get(), arrays)?;
            Ok(())
        }
        Expr::Not(part) => {
            push_expr(part.get(), arrays)?;
            Ok(())
        }
        Expr::Binary { left, right, .. } => {
            push_expr(left.get(), arrays)?;
            push_expr(right.get(), arrays)?;
            Ok(())
        }
        Expr::Number(_) | Expr::Scalar(_) | Expr::Len(_) => Ok(()),
    }
}

/// Appends the array of an access that writes, those of its index, and those of an expression.
fn push_put(access: &Access, value: &Expr, arrays: &mut Vec<u32>) -> Result<(), AllocError>
    ensures { OnOk result (arrays.new.items ≡ arrays.old.items ++ arrays_of (written_references access.now ++ expr_references value.now)) }
{
    arrays.push(access.array.id)?;
    push_expr(&access.index, arrays)?;
    push_expr(value, arrays)?;
    Ok(())
}

/// Appends the arrays of a statement's accesses, in text order. The one error is that memory ran out.
#[cycle(stmt_arrays)]
pub fn push_arrays(s: &Stmt, arrays: &mut Vec<u32>) -> Result<(), AllocError>
    ensures { OnOk result (arrays.new.items ≡ arrays.old.items ++ arrays_of (references s.now)) }
{
    match s {
        Stmt::Let { value, .. } => push_expr(value, arrays),
        Stmt::Set { value, .. } => push_expr(value, arrays),
        Stmt::Fold { value, .. } => push_expr(value, arrays),
        Stmt::Put { place, value } => push_put(place, value, arrays),
        Stmt::FoldPut { place, value, .. } => push_put(place, value, arrays),
        Stmt::If { test, yes, no } => {
            push_expr(test, arrays)?;
            push_all_arrays(yes.as_slice(), arrays)?;
            push_all_arrays(no.as_slice(), arrays)?;
            Ok(())
        }
        Stmt::While { test, body, .. } => {
            push_expr(test, arrays)?;
            push_all_arrays(body.as_slice(), arrays)?;
            Ok(())
        }
        Stmt::For(l) => {
            push_expr(&l.low, arrays)?;
            push_expr(&l.high, arrays)?;
            push_all_arrays(l.body.as_slice(), arrays)?;
            Ok(())
        }
        Stmt::Print { value, .. } => push_expr(value, arrays),
    }
}

/// Appends the arrays of the accesses of one statement after another, in text order. The one error is that memory ran out.
#[cycle(stmt_arrays)]
pub fn push_all_arrays(stmts: &[Stmt], arrays: &mut Vec<u32>) -> Result<(), AllocError>
    ensures { OnOk result (arrays.new.items ≡ arrays.old.items ++ arrays_of (references_all stmts.now)) }
{
    for s in stmts {
        push_arrays(s, arrays)?;
    }
    Ok(())
}
