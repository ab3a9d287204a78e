//! The scalars that statements name, and whether statements print.

ghost use Rattle.std.specs.Prelude.{◌≡◌, ◌++◌, ◌∷◌, ◌||◌, OnOk};
ghost use Rattle.nona_plans.specs.Mentions.{expr_mentions, mentions, mentions_all, prints};
ghost use Rattle.nona_graph.specs.Printing.{prints_all};

use nona_num::Fold;
use nona_plans::Mention;
use nona_tree::{Access, Expr, Stmt};
use std::alloc::AllocError;

/// Appends the scalars that an expression names, in text order.
#[cycle(expr_mentions)]
fn push_expr(e: &Expr, found: &mut Vec<Mention>) -> Result<(), AllocError>
    ensures { OnOk result (found.new.items ≡ found.old.items ++ expr_mentions e.now) }
{
    match e {
        Expr::Scalar(name) => {
            found.push(Mention {
                id: name.id,
                by: None,
            })?;
            Ok(())
        }
        Expr::Cell(place) => {
            push_expr(&place.get().index, found)?;
            Ok(())
        }
        Expr::Neg(part) => {
            push_expr(part.get(), found)?;
            Ok(())
        }
        Expr::Not(part) => {
            push_expr(part.get(), found)?;
            Ok(())
        }
        Expr::Binary { left, right, .. } => {
            push_expr(left.get(), found)?;
            push_expr(right.get(), found)?;
            Ok(())
        }
        Expr::Number(_) | Expr::Len(_) => Ok(()),
    }
}

/// Appends a scalar that a statement names, and those of an expression.
fn push_named(
    id: u32,
    by: Option<Fold>,
    value: &Expr,
    found: &mut Vec<Mention>,
) -> Result<(), AllocError>
    ensures { OnOk result (found.new.items ≡ found.old.items ++ record { id = id; by = by } ∷ expr_mentions value.now) }
{
    found.push(Mention { id, by })?;
    push_expr(value, found)?;
    Ok(())
}

/// Appends the scalars of an access's index and of an expression.
fn push_put(access: &Access, value: &Expr, found: &mut Vec<Mention>) -> Result<(), AllocError>
    ensures { OnOk result (found.new.items ≡ found.old.items ++ (expr_mentions access.now.index ++ expr_mentions value.now)) }
{
    push_expr(&access.index, found)?;
    push_expr(value, found)?;
    Ok(())
}

/// Appends the scalars that a statement names, in text order. The one error is that memory ran out.
#[cycle(stmt_mentions)]
pub fn push_mentions(s: &Stmt, found: &mut Vec<Mention>) -> Result<(), AllocError>
    ensures { OnOk result (found.new.items ≡ found.old.items ++ mentions s.now) }
{
    match s {
        Stmt::Let { name, value } => push_named(name.id, None, value, found),
        Stmt::Set { name, value } => push_named(name.id, None, value, found),
        Stmt::Fold { name, fold, value } => push_named(name.id, Some(*fold), value, found),
        Stmt::Put { place, value } => push_put(place, value, found),
        Stmt::FoldPut { place, value, .. } => push_put(place, value, found),
        Stmt::If { test, yes, no } => {
            push_expr(test, found)?;
            push_all_mentions(yes.as_slice(), found)?;
            push_all_mentions(no.as_slice(), found)?;
            Ok(())
        }
        Stmt::While { test, body, .. } => {
            push_expr(test, found)?;
            push_all_mentions(body.as_slice(), found)?;
            Ok(())
        }
        Stmt::For(l) => {
            found.push(Mention {
                id: l.index.id,
                by: None,
            })?;
            push_expr(&l.low, found)?;
            push_expr(&l.high, found)?;
            push_all_mentions(l.body.as_slice(), found)?;
            Ok(())
        }
        Stmt::Print { value, .. } => push_expr(value, found),
    }
}

/// Appends the scalars that one statement after another names, in text order. The one error is that memory ran out.
#[cycle(stmt_mentions)]
pub fn push_all_mentions(stmts: &[Stmt], found: &mut Vec<Mention>) -> Result<(), AllocError>
    ensures { OnOk result (found.new.items ≡ found.old.items ++ mentions_all stmts.now) }
{
    for s in stmts {
        push_mentions(s, found)?;
    }
    Ok(())
}

/// Whether one of two holds.
fn either(one: bool, other: bool) -> bool
    ensures { result ≡ (one || other) }
{
    one || other
}

/// Whether a statement has a print.
#[cycle(prints)]
pub fn has_print(s: &Stmt) -> bool
    ensures { result ≡ prints s.now }
{
    match s {
        Stmt::If { yes, no, .. } => {
            let first = has_print_in(yes.as_slice());
            let second = has_print_in(no.as_slice());
            either(first, second)
        }
        Stmt::While { body, .. } => has_print_in(body.as_slice()),
        Stmt::For(l) => has_print_in(l.body.as_slice()),
        Stmt::Print { .. } => true,
        _ => false,
    }
}

/// Whether one of some statements has a print.
#[cycle(prints)]
#[tactic(auto, using(crate::proofs::MentionEquations::prints_next))]
pub fn has_print_in(stmts: &[Stmt]) -> bool
    ensures { result ≡ prints_all stmts.now }
{
    let mut found = false;
    for s in stmts {
        let next = has_print(s);
        found = found || next;
    }
    found
}
