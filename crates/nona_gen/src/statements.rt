//! The code of statements, behind what is there.

ghost use Rattle.std.specs.Prelude.{◌≡◌, ◌++◌, length, IfOk, OnOk};
ghost use Rattle.nona_gen.specs.Code.{leave_code, body_code, for_code, loop_code, lets_all, all_code, stmt_code};

use crate::emit::{emit_cell, emit_then, put};
use crate::jumps::{
    close_for, close_if, close_while, one_more, open_for, open_if, open_while, turn_if,
};
use nona_code::Instr;
use nona_tree::{Expr, Loop, Stmt};
use std::alloc::AllocError;

/// How many scalars statements declare where they stand.
pub(crate) fn count_lets(body: &[Stmt]) -> Result<u32, AllocError>
    ensures { IfOk result (λ count. count ≡ lets_all body.now) }
{
    let mut count = 0u32;
    for statement in body {
        if let Stmt::Let { .. } = statement {
            count = one_more(count)?;
        }
    }
    Ok(count)
}

/// What leaves so many scalars.
pub(crate) fn put_leave(count: u32, code: &mut Vec<Instr>) -> Result<(), AllocError>
    ensures { OnOk result (code.new.items ≡ code.old.items ++ leave_code count) }
{
    if count > 0 {
        put(code, Instr::Leave(count))
    } else {
        Ok(())
    }
}

/// Statements one after another.
#[cycle(emit)]
fn emit_all(body: &[Stmt], depth: u32, code: &mut Vec<Instr>) -> Result<(), AllocError>
    ensures { OnOk result (code.new.items ≡ code.old.items ++ all_code body.now depth (length code.old.items)) }
{
    for statement in body {
        emit_stmt(statement, depth, code)?;
    }
    Ok(())
}

/// A block.
#[cycle(emit)]
fn emit_block(body: &[Stmt], depth: u32, code: &mut Vec<Instr>) -> Result<(), AllocError>
    ensures { OnOk result (code.new.items ≡ code.old.items ++ body_code body.now depth (length code.old.items)) }
{
    emit_all(body, depth, code)?;
    let count = count_lets(body)?;
    put_leave(count, code)
}

/// A `while`.
#[cycle(emit)]
fn emit_while(
    body: &[Stmt],
    test: &Expr,
    at: u32,
    depth: u32,
    code: &mut Vec<Instr>,
) -> Result<(), AllocError>
    ensures { OnOk result (code.new.items ≡ code.old.items ++ loop_code test.now body.now at depth (length code.old.items)) }
{
    let deeper = one_more(depth)?;
    let begin = open_while(at, depth, code)?;
    emit_block(body, deeper, code)?;
    close_while(test, begin, code)
}

/// A `for`.
#[cycle(emit)]
fn emit_for(l: &Loop, depth: u32, code: &mut Vec<Instr>) -> Result<(), AllocError>
    ensures { OnOk result (code.new.items ≡ code.old.items ++ for_code l.now depth (length code.old.items)) }
{
    let deeper = one_more(depth)?;
    let top = open_for(l, depth, code)?;
    emit_block(l.body.as_slice(), deeper, code)?;
    close_for(l, depth, top, code)
}

/// The code of a statement that stands in as many loops as `depth`, behind what is there.
#[cycle(emit)]
pub fn emit_stmt(s: &Stmt, depth: u32, code: &mut Vec<Instr>) -> Result<(), AllocError>
    ensures { OnOk result (code.new.items ≡ code.old.items ++ stmt_code s.now depth (length code.old.items)) }
{
    match s {
        Stmt::Let { value, .. } => emit_then(value, Instr::Declare, code),
        Stmt::Set { name, value } => emit_then(value, Instr::Save(name.id), code),
        Stmt::Fold { name, fold, value } => emit_then(value, Instr::FoldSave(name.id, *fold), code),
        Stmt::Put { place, value } => emit_cell(place, value, Instr::Put(place.array.id), code),
        Stmt::FoldPut { place, fold, value } => {
            emit_cell(place, value, Instr::FoldPut(place.array.id, *fold), code)
        }
        Stmt::If { test, yes, no } => {
            let hole = open_if(test, code)?;
            emit_block(yes.as_slice(), depth, code)?;
            let last = turn_if(hole, code)?;
            emit_block(no.as_slice(), depth, code)?;
            close_if(last, code)
        }
        Stmt::While { test, body, at } => emit_while(body.as_slice(), test, *at, depth, code),
        Stmt::For(l) => emit_for(l, depth, code),
        Stmt::Print { value, .. } => emit_then(value, Instr::Print, code),
    }
}
