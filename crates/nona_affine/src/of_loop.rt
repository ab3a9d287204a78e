//! The accesses of a loop, as the dependence test sees them.

ghost use Rattle.std.specs.Prelude.{◌≡◌, ◌++◌, [], ◌∷◌, map, IfOk, OnOk};
ghost use Rattle.nona_tree.specs.declared.trees.Stmt.{For};
ghost use Rattle.nona_forms.specs.References.{expr_references, written_references, references, references_all, names_of};
ghost use Rattle.nona_forms.specs.Verdicts.{spot_of, shape_of};
ghost use Rattle.nona_affine.specs.Lists.{bare};
ghost use Rattle.nona_affine.specs.Spotted.{spots_in};

use crate::around::Around;
use crate::assigned::push_all_assigned;
use crate::boxes::fixed_bounds;
use crate::names::Names;
use crate::of_expr::{form, form_inside};
use nona_forms::{InnerLoop, LoopShape, Spot};
use nona_tree::{Access, Expr, Loop, Stmt};
use sqlite_items::Items;
use std::alloc::{AllocError, Global};

/// Equal inner loops, in the same order, which share their forms with these.
fn copy_loops(alloc: Global, loops: &[InnerLoop]) -> Result<Items<InnerLoop>, AllocError>
    ensures { IfOk result (λ copies. copies ≡ loops.now) }
{
    let mut copies = Items::new(alloc);
    for l in loops {
        copies.push(l.copy()?)?;
    }
    Ok(copies)
}

/// Appends an access.
fn push_spot(
    alloc: Global,
    access: &Access,
    write: bool,
    names: &Names,
    around: &Around,
    spots: &mut Vec<Spot>,
) -> Result<(), AllocError>
    ensures { OnOk result (spots.new.items ≡ spots.old.items ++ spots_in names.now around.now (bare access.now write ∷ [])) }
{
    spots.push(Spot {
        array: access.array.id,
        at: access.array.at,
        wrap: access.wrap,
        write,
        form: form_inside(alloc, &access.index, &around.indices, names)?,
        inner: copy_loops(alloc, around.loops.as_slice())?,
    })?;
    Ok(())
}

/// Appends the accesses of an expression, in text order.
#[cycle(expr_spots)]
fn push_expr(
    alloc: Global,
    e: &Expr,
    names: &Names,
    around: &Around,
    spots: &mut Vec<Spot>,
) -> Result<(), AllocError>
    ensures { OnOk result (spots.new.items ≡ spots.old.items ++ spots_in names.now around.now (expr_references e.now)) }
{
    match e {
        Expr::Cell(place) => {
            let access = place.get();
            push_spot(alloc, access, false, names, around, spots)?;
            push_expr(alloc, &access.index, names, around, spots)?;
            Ok(())
        }
        Expr::Neg(part) => {
            push_expr(alloc, part.get(), names, around, spots)?;
            Ok(())
        }
        Expr::Not(part) => {
            push_expr(alloc, part.get(), names, around, spots)?;
            Ok(())
        }
        Expr::Binary { left, right, .. } => {
            push_expr(alloc, left.get(), names, around, spots)?;
            push_expr(alloc, right.get(), names, around, spots)?;
            Ok(())
        }
        Expr::Number(_) | Expr::Scalar(_) | Expr::Len(_) => Ok(()),
    }
}

/// Appends an access that writes, and those of its index.
fn push_written(
    alloc: Global,
    access: &Access,
    names: &Names,
    around: &Around,
    spots: &mut Vec<Spot>,
) -> Result<(), AllocError>
    ensures { OnOk result (spots.new.items ≡ spots.old.items ++ spots_in names.now around.now (written_references access.now)) }
{
    push_spot(alloc, access, true, names, around, spots)?;
    push_expr(alloc, &access.index, names, around, spots)?;
    Ok(())
}

/// Appends an access that writes, those of its index, and those of an expression.
fn push_put(
    alloc: Global,
    access: &Access,
    value: &Expr,
    names: &Names,
    around: &Around,
    spots: &mut Vec<Spot>,
) -> Result<(), AllocError>
    ensures { OnOk result (spots.new.items
        ≡ spots.old.items ++ spots_in names.now around.now (written_references access.now ++ expr_references value.now)) }
{
    push_written(alloc, access, names, around, spots)?;
    push_expr(alloc, value, names, around, spots)?;
    Ok(())
}

/// Appends the accesses of a statement, in text order. The loops around are then as before.
#[cycle(stmt_spots)]
fn push_stmt(
    alloc: Global,
    s: &Stmt,
    names: &Names,
    around: &mut Around,
    spots: &mut Vec<Spot>,
) -> Result<(), AllocError>
    ensures spots { OnOk result (spots.new.items ≡ spots.old.items ++ spots_in names.now around.old (references s.now)) }
    ensures around { OnOk result (around.new ≡ around.old) }
{
    match s {
        Stmt::Let { value, .. } => push_expr(alloc, value, names, around, spots),
        Stmt::Set { value, .. } => push_expr(alloc, value, names, around, spots),
        Stmt::Fold { value, .. } => push_expr(alloc, value, names, around, spots),
        Stmt::Put { place, value } => push_put(alloc, place, value, names, around, spots),
        Stmt::FoldPut { place, value, .. } => push_put(alloc, place, value, names, around, spots),
        Stmt::If { test, yes, no } => {
            push_expr(alloc, test, names, around, spots)?;
            push_all(alloc, yes.as_slice(), names, around, spots)?;
            push_all(alloc, no.as_slice(), names, around, spots)?;
            Ok(())
        }
        Stmt::While { test, body, .. } => {
            push_expr(alloc, test, names, around, spots)?;
            push_all(alloc, body.as_slice(), names, around, spots)?;
            Ok(())
        }
        Stmt::For(l) => push_loop(alloc, l, names, around, spots),
        Stmt::Print { value, .. } => push_expr(alloc, value, names, around, spots),
    }
}

/// Appends the accesses of an inner loop, in text order. The loops around are then as before.
#[cycle(stmt_spots)]
fn push_loop(
    alloc: Global,
    l: &Loop,
    names: &Names,
    around: &mut Around,
    spots: &mut Vec<Spot>,
) -> Result<(), AllocError>
    ensures spots { OnOk result (spots.new.items ≡ spots.old.items ++ spots_in names.now around.old (references (For l.now))) }
    ensures around { OnOk result (around.new ≡ around.old) }
{
    push_expr(alloc, &l.low, names, around, spots)?;
    push_expr(alloc, &l.high, names, around, spots)?;
    around.enter(alloc, l, names)?;
    push_all(alloc, l.body.as_slice(), names, around, spots)?;
    around.leave();
    Ok(())
}

/// Appends the accesses of one statement after another, in text order. The loops around are then as before.
#[cycle(stmt_spots)]
fn push_all(
    alloc: Global,
    stmts: &[Stmt],
    names: &Names,
    around: &mut Around,
    spots: &mut Vec<Spot>,
) -> Result<(), AllocError>
    ensures spots { OnOk result (spots.new.items ≡ spots.old.items ++ spots_in names.now around.old (references_all stmts.now)) }
    ensures around { OnOk result (around.new ≡ around.old) }
{
    for s in stmts {
        push_stmt(alloc, s, names, around, spots)?;
    }
    Ok(())
}

/// The scalars that may occur in the forms of a loop: its index and its invariants, which are the scalars that are declared
/// outside it and not assigned in its body. The one error is that memory ran out.
pub fn loop_names(alloc: Global, looped: &Loop) -> Result<Names, AllocError>
    ensures { IfOk result (λ names. names ≡ names_of looped.now) }
{
    let mut assigned = Vec::new(alloc);
    push_all_assigned(looped.body.as_slice(), &mut assigned)?;
    Names::of_loop(alloc, looped.index.id, assigned)
}

/// A loop as the dependence test sees it: its index, and its bounds where both have a form without terms. The one error is that
/// memory ran out.
pub fn shape(alloc: Global, looped: &Loop) -> Result<LoopShape, AllocError>
    ensures { IfOk result (λ shape. shape ≡ shape_of looped.now) }
{
    let names = loop_names(alloc, looped)?;
    let low = form(alloc, &looped.low, &names)?;
    let high = form(alloc, &looped.high, &names)?;
    Ok(LoopShape {
        index: looped.index.id,
        fixed: fixed_bounds(&low, &high),
    })
}

/// The accesses of a loop's body in text order, each with the form of its index, where it has one, and the inner loops around
/// it. The one error is that memory ran out.
pub fn spots(alloc: Global, looped: &Loop) -> Result<Vec<Spot>, AllocError>
    ensures { IfOk result (λ spots. spots.items ≡ map (spot_of (names_of looped.now)) (references_all looped.now.body)) }
{
    let names = loop_names(alloc, looped)?;
    let mut around = Around::new(alloc);
    let mut spots = Vec::new(alloc);
    push_all(
        alloc,
        looped.body.as_slice(),
        &names,
        &mut around,
        &mut spots,
    )?;
    Ok(spots)
}
