// The names and loops of statements.

ghost use Rattle.std.specs.Prelude.{◌≡◌, ◌+◌, ◌<◌, ◌^◌, length, IfOk, OnOk};
ghost use Rattle.nona_tree.specs.Faults.{units_faults, stmt_faults, all_faults};
ghost use Rattle.nona_tree.specs.Ids.{stmt_ids, all_ids};
ghost use Rattle.nona_tree.specs.Seen.{seen_after};
ghost use Rattle.nona_tree.specs.Smallness.{stmt_size, all_size};
ghost use Rattle.nona_check.specs.After.{seen_after_all};
ghost use Rattle.nona_check.specs.First.{first_from};

use crate::exprs::{resolve_expr, resolve_new, resolve_place, resolve_target};
use crate::fault::note_where;
use crate::scope::Scope;
use nona_num::Fold;
use nona_tree::{Access, Expr, Loop, ProgramFault, Stmt, UNITS, Use};
use sqlite_items::Items;
use std::alloc::{AllocError, Global};

/// Takes the number of a loop's units into account.
fn note_units(first: &mut Option<ProgramFault>, seq: bool, count: usize, at: u32)
    ensures { first.new ≡ first_from first.old (units_faults seq count at) }
{
    let too_many = !seq && count > UNITS;
    note_where(first, too_many, ProgramFault::Units { at });
}

/// A scalar's declaration with its ids. The scalar is visible from then on.
fn resolve_let(
    alloc: Global,
    name: &Use,
    value: &Expr,
    scope: &mut Scope,
    first: &mut Option<ProgramFault>,
) -> Result<Stmt, AllocError>
    requires { length scope.old.scalars + 1 < 2 ^ 32 }
    ensures ids { IfOk result (λ s. s ≡ stmt_ids (Stmt.Let name.now value.now) scope.old) }
    ensures faults { OnOk result (first.new ≡ first_from first.old (stmt_faults (Stmt.Let name.now value.now) scope.old)) }
    ensures seen { OnOk result (scope.new ≡ seen_after (Stmt.Let name.now value.now) scope.old) }
{
    let resolved = resolve_new(name, scope, first);
    let value = resolve_expr(alloc, value, scope, first)?;
    scope.declare_scalar(alloc, &name.text, false)?;
    Ok(Stmt::Let {
        name: resolved,
        value,
    })
}

/// `name = value;` with its ids.
fn resolve_set(
    alloc: Global,
    name: &Use,
    value: &Expr,
    scope: &Scope,
    first: &mut Option<ProgramFault>,
) -> Result<Stmt, AllocError>
    ensures ids { IfOk result (λ s. s ≡ stmt_ids (Stmt.Set name.now value.now) scope.now) }
    ensures faults { OnOk result (first.new ≡ first_from first.old (stmt_faults (Stmt.Set name.now value.now) scope.now)) }
{
    Ok(Stmt::Set {
        name: resolve_target(name, scope, first),
        value: resolve_expr(alloc, value, scope, first)?,
    })
}

/// `name op= value;` with its ids.
fn resolve_fold(
    alloc: Global,
    name: &Use,
    fold: Fold,
    value: &Expr,
    scope: &Scope,
    first: &mut Option<ProgramFault>,
) -> Result<Stmt, AllocError>
    ensures ids { IfOk result (λ s. s ≡ stmt_ids (Stmt.Fold name.now fold value.now) scope.now) }
    ensures faults { OnOk result (first.new ≡ first_from first.old (stmt_faults (Stmt.Fold name.now fold value.now) scope.now)) }
{
    Ok(Stmt::Fold {
        name: resolve_target(name, scope, first),
        fold,
        value: resolve_expr(alloc, value, scope, first)?,
    })
}

/// `array[index] = value;` with its ids.
#[tactic(auto, using(crate::proofs::Steps::stmt_steps))]
fn resolve_put(
    alloc: Global,
    place: &Access,
    value: &Expr,
    scope: &Scope,
    first: &mut Option<ProgramFault>,
) -> Result<Stmt, AllocError>
    ensures ids { IfOk result (λ s. s ≡ stmt_ids (Stmt.Put place.now value.now) scope.now) }
    ensures faults { OnOk result (first.new ≡ first_from first.old (stmt_faults (Stmt.Put place.now value.now) scope.now)) }
{
    Ok(Stmt::Put {
        place: resolve_place(alloc, place, scope, first)?,
        value: resolve_expr(alloc, value, scope, first)?,
    })
}

/// `array[index] op= value;` with its ids.
#[tactic(auto, using(crate::proofs::Steps::stmt_steps))]
fn resolve_fold_put(
    alloc: Global,
    place: &Access,
    fold: Fold,
    value: &Expr,
    scope: &Scope,
    first: &mut Option<ProgramFault>,
) -> Result<Stmt, AllocError>
    ensures ids { IfOk result (λ s. s ≡ stmt_ids (Stmt.FoldPut place.now fold value.now) scope.now) }
    ensures faults { OnOk result (first.new ≡ first_from first.old (stmt_faults (Stmt.FoldPut place.now fold value.now) scope.now)) }
{
    Ok(Stmt::FoldPut {
        place: resolve_place(alloc, place, scope, first)?,
        fold,
        value: resolve_expr(alloc, value, scope, first)?,
    })
}

/// `print value;` with its ids.
fn resolve_print(
    alloc: Global,
    value: &Expr,
    at: u32,
    scope: &Scope,
    first: &mut Option<ProgramFault>,
) -> Result<Stmt, AllocError>
    ensures ids { IfOk result (λ s. s ≡ stmt_ids (Stmt.Print value.now at) scope.now) }
    ensures faults { OnOk result (first.new ≡ first_from first.old (stmt_faults (Stmt.Print value.now at) scope.now)) }
{
    Ok(Stmt::Print {
        value: resolve_expr(alloc, value, scope, first)?,
        at,
    })
}

/// A statement with its ids. Each id of a scalar in it fits into 32 bits.
#[cycle(stmt)]
#[tactic(auto, using(crate::proofs::Steps::stmt_steps))]
fn resolve_stmt(
    alloc: Global,
    stmt: &Stmt,
    scope: &mut Scope,
    first: &mut Option<ProgramFault>,
) -> Result<Stmt, AllocError>
    requires { length scope.old.scalars + stmt_size stmt.now < 2 ^ 32 }
    ensures ids { IfOk result (λ s. s ≡ stmt_ids stmt.now scope.old) }
    ensures faults { OnOk result (first.new ≡ first_from first.old (stmt_faults stmt.now scope.old)) }
    ensures seen { OnOk result (scope.new ≡ seen_after stmt.now scope.old) }
{
    match stmt {
        Stmt::Let { name, value } => resolve_let(alloc, name, value, scope, first),
        Stmt::Set { name, value } => resolve_set(alloc, name, value, scope, first),
        Stmt::Fold { name, fold, value } => resolve_fold(alloc, name, *fold, value, scope, first),
        Stmt::Put { place, value } => resolve_put(alloc, place, value, scope, first),
        Stmt::FoldPut { place, fold, value } => {
            resolve_fold_put(alloc, place, *fold, value, scope, first)
        }
        Stmt::If { test, yes, no } => Ok(Stmt::If {
            test: resolve_expr(alloc, test, scope, first)?,
            yes: resolve_block(alloc, yes.as_slice(), scope, first)?,
            no: resolve_block(alloc, no.as_slice(), scope, first)?,
        }),
        Stmt::While { test, body, at } => Ok(Stmt::While {
            test: resolve_expr(alloc, test, scope, first)?,
            body: resolve_block(alloc, body.as_slice(), scope, first)?,
            at: *at,
        }),
        Stmt::For(l) => resolve_loop(alloc, l, scope, first),
        Stmt::Print { value, at } => resolve_print(alloc, value, *at, scope, first),
    }
}

/// A `for` with its ids. Its index is visible in its body alone.
#[cycle(stmt)]
#[tactic(auto, using(crate::proofs::Steps::stmt_steps))]
fn resolve_loop(
    alloc: Global,
    l: &Loop,
    scope: &mut Scope,
    first: &mut Option<ProgramFault>,
) -> Result<Stmt, AllocError>
    requires { length scope.old.scalars + stmt_size (Stmt.For l.now) < 2 ^ 32 }
    ensures ids { IfOk result (λ s. s ≡ stmt_ids (Stmt.For l.now) scope.old) }
    ensures faults { OnOk result (first.new ≡ first_from first.old (stmt_faults (Stmt.For l.now) scope.old)) }
    ensures seen { OnOk result (scope.new ≡ scope.old) }
{
    note_units(first, l.seq, l.body.len(), l.at);
    let index = resolve_new(&l.index, scope, first);
    let low = resolve_expr(alloc, &l.low, scope, first)?;
    let high = resolve_expr(alloc, &l.high, scope, first)?;
    let count = scope.count();
    scope.declare_scalar(alloc, &l.index.text, true)?;
    let body = resolve_block(alloc, l.body.as_slice(), scope, first)?;
    scope.cut(count);
    Ok(Stmt::For(Loop {
        index,
        low,
        high,
        body,
        seq: l.seq,
        at: l.at,
    }))
}

/// The statements of a block with their ids. What is visible after them is what was before.
#[cycle(stmt)]
#[tactic(auto, using(crate::proofs::Steps::stmt_steps))]
fn resolve_block(
    alloc: Global,
    stmts: &[Stmt],
    scope: &mut Scope,
    first: &mut Option<ProgramFault>,
) -> Result<Items<Stmt>, AllocError>
    requires { length scope.old.scalars + all_size stmts.now < 2 ^ 32 }
    ensures ids { IfOk result (λ ss. ss ≡ all_ids stmts.now scope.old) }
    ensures faults { OnOk result (first.new ≡ first_from first.old (all_faults stmts.now scope.old)) }
    ensures seen { OnOk result (scope.new ≡ scope.old) }
{
    let count = scope.count();
    let resolved = resolve_all(alloc, stmts, scope, first)?;
    scope.cut(count);
    Ok(resolved)
}

/// One statement after another, with their ids.
#[cycle(stmt)]
#[tactic(auto, using(crate::proofs::Steps::stmt_steps))]
pub fn resolve_all(
    alloc: Global,
    stmts: &[Stmt],
    scope: &mut Scope,
    first: &mut Option<ProgramFault>,
) -> Result<Items<Stmt>, AllocError>
    requires { length scope.old.scalars + all_size stmts.now < 2 ^ 32 }
    ensures ids { IfOk result (λ ss. ss ≡ all_ids stmts.now scope.old) }
    ensures faults { OnOk result (first.new ≡ first_from first.old (all_faults stmts.now scope.old)) }
    ensures seen { OnOk result (scope.new ≡ seen_after_all stmts.now scope.old) }
{
    let mut resolved = Items::new(alloc);
    for stmt in stmts {
        resolved.push(resolve_stmt(alloc, stmt, scope, first)?)?;
    }
    Ok(resolved)
}
