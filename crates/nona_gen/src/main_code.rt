//! The code of main statements, which stops at their regions.

ghost use Rattle.std.specs.Prelude.{◌≡◌, ◌<◌, ◌+◌, ◌^◌, ◌++◌, length, IfOk, OnOk};
ghost use Rattle.nona_tree.specs.Entries.{count_in, count_all};
ghost use Rattle.nona_gen.specs.Code.{expr_code, stmt_code};
ghost use Rattle.nona_gen.specs.MainCode.{region_code, main_code, main_all, program_code};
ghost use Rattle.nona_gen.specs.Gathered.{is_seen};
ghost use Rattle.nona_gen.specs.MainParts.{main_block, main_loop, main_turns};

use crate::emit::{emit_expr, emit_then, put};
use crate::jumps::{
    close_for, close_if, close_while, one_more, open_for, open_if, open_while, turn_if,
};
use crate::statements::{count_lets, emit_stmt, put_leave};
use nona_code::Instr;
use nona_stages::Plans;
use nona_tree::{Expr, Loop, Stmt};
use std::alloc::{AllocError, Global};

/// Where main statements stand: the number of the first region in them, counted from 1, and in how many loops they are.
#[derive(Clone, Copy)]
struct Standing {
    first: u32,
    depth: u32,
}

/// A region with this number: its bounds, and the stop. The answer is the number of the next region.
fn emit_region(l: &Loop, number: u32, code: &mut Vec<Instr>) -> Result<u32, AllocError>
    ensures code { OnOk result (code.new.items ≡ code.old.items ++ region_code number (expr_code l.now.low) (expr_code l.now.high)) }
    ensures next { IfOk result (λ next. next ≡ number + 1) }
{
    emit_expr(&l.low, code)?;
    emit_then(&l.high, Instr::Region(number), code)?;
    one_more(number)
}

/// A statement in which no region can stand.
fn emit_plain(s: &Stmt, at: Standing, code: &mut Vec<Instr>) -> Result<u32, AllocError>
    ensures code { OnOk result (code.new.items ≡ code.old.items ++ stmt_code s.now at.depth (length code.old.items)) }
    ensures next { IfOk result (λ next. next ≡ at.first) }
{
    emit_stmt(s, at.depth, code)?;
    Ok(at.first)
}

/// What stands in one loop more.
fn deeper(at: Standing) -> Result<Standing, AllocError>
    ensures inside { IfOk result (λ inside. inside ≡ record { first = at.first; depth = at.depth + 1 }) }
    ensures small { OnOk result (at.depth < 2 ^ 31) }
{
    Ok(Standing {
        first: at.first,
        depth: one_more(at.depth)?,
    })
}

/// Main statements one after another. The answer is the number of the next region.
#[cycle(main)]
fn emit_main_all(
    body: &[Stmt],
    plans: &Plans<'_>,
    at: Standing,
    code: &mut Vec<Instr>,
) -> Result<u32, AllocError>
    ensures code { OnOk result (code.new.items ≡ code.old.items ++ main_all (is_seen plans.now) at.first body.now at.depth (length code.old.items)) }
    ensures next { IfOk result (λ next. next ≡ at.first + count_all (is_seen plans.now) body.now) }
{
    let mut first = at.first;
    for s in body {
        let here = Standing {
            first,
            depth: at.depth,
        };
        first = emit_main(s, plans, here, code)?;
    }
    Ok(first)
}

/// A block of main statements.
#[cycle(main)]
fn emit_main_block(
    body: &[Stmt],
    plans: &Plans<'_>,
    at: Standing,
    code: &mut Vec<Instr>,
) -> Result<u32, AllocError>
    ensures code { OnOk result (code.new.items
        ≡ code.old.items ++ main_block (is_seen plans.now) at.first body.now at.depth (length code.old.items)) }
    ensures next { IfOk result (λ next. next ≡ at.first + count_all (is_seen plans.now) body.now) }
{
    let next = emit_main_all(body, plans, at, code)?;
    let count = count_lets(body)?;
    put_leave(count, code)?;
    Ok(next)
}

/// A `while` of main statements.
#[cycle(main)]
fn emit_main_while(
    body: &[Stmt],
    test: &Expr,
    word: u32,
    plans: &Plans<'_>,
    at: Standing,
    code: &mut Vec<Instr>,
) -> Result<u32, AllocError>
    ensures code { OnOk result (code.new.items
        ≡ code.old.items ++ main_loop (is_seen plans.now) at.first test.now body.now word at.depth (length code.old.items)) }
    ensures next { IfOk result (λ next. next ≡ at.first + count_all (is_seen plans.now) body.now) }
{
    let inside = deeper(at)?;
    let begin = open_while(word, at.depth, code)?;
    let next = emit_main_block(body, plans, inside, code)?;
    close_while(test, begin, code)?;
    Ok(next)
}

/// A `for` of main statements, which is no region.
#[cycle(main)]
fn emit_main_for(
    l: &Loop,
    plans: &Plans<'_>,
    at: Standing,
    code: &mut Vec<Instr>,
) -> Result<u32, AllocError>
    ensures code { OnOk result (code.new.items ≡ code.old.items ++ main_turns (is_seen plans.now) at.first l.now at.depth (length code.old.items)) }
    ensures next { IfOk result (λ next. next ≡ at.first + count_all (is_seen plans.now) l.now.body) }
{
    let inside = deeper(at)?;
    let top = open_for(l, at.depth, code)?;
    let next = emit_main_block(l.body.as_slice(), plans, inside, code)?;
    close_for(l, at.depth, top, code)?;
    Ok(next)
}

/// A main statement, behind what is there. The answer is the number of the next region.
#[cycle(main)]
fn emit_main(
    s: &Stmt,
    plans: &Plans<'_>,
    at: Standing,
    code: &mut Vec<Instr>,
) -> Result<u32, AllocError>
    ensures code { OnOk result (code.new.items ≡ code.old.items ++ main_code (is_seen plans.now) at.first s.now at.depth (length code.old.items)) }
    ensures next { IfOk result (λ next. next ≡ at.first + count_in (is_seen plans.now) s.now) }
{
    match s {
        Stmt::Let { .. } => emit_plain(s, at, code),
        Stmt::Set { .. } => emit_plain(s, at, code),
        Stmt::Fold { .. } => emit_plain(s, at, code),
        Stmt::Put { .. } => emit_plain(s, at, code),
        Stmt::FoldPut { .. } => emit_plain(s, at, code),
        Stmt::Print { .. } => emit_plain(s, at, code),
        Stmt::If { test, yes, no } => {
            let hole = open_if(test, code)?;
            let first = emit_main_block(yes.as_slice(), plans, at, code)?;
            let last = turn_if(hole, code)?;
            let other = Standing {
                first,
                depth: at.depth,
            };
            let next = emit_main_block(no.as_slice(), plans, other, code)?;
            close_if(last, code)?;
            Ok(next)
        }
        Stmt::While {
            test,
            body,
            at: word,
        } => emit_main_while(body.as_slice(), test, *word, plans, at, code),
        Stmt::For(l) => {
            if plans.has(l) {
                emit_region(l, at.first, code)
            } else {
                emit_main_for(l, plans, at, code)
            }
        }
    }
}

/// The main code of statements whose regions have these plans, of which nothing is verified yet. The one error is that memory
/// ran out; code of 2^31 instructions or more is want of memory.
pub(crate) fn emit_program(
    alloc: Global,
    body: &[Stmt],
    plans: &Plans<'_>,
) -> Result<Vec<Instr>, AllocError>
    ensures { IfOk result (λ code. code.items ≡ program_code (is_seen plans.now) body.now) }
{
    let mut code = Vec::new(alloc);
    emit_main_all(body, plans, Standing { first: 1, depth: 0 }, &mut code)?;
    put(&mut code, Instr::Stop)?;
    Ok(code)
}
