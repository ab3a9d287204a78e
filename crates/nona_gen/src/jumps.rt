//! Loops and choices, whose jumps are written once their targets are known.

ghost use Rattle.std.specs.Prelude.{◌≡◌, ◌<◌, ◌+◌, ◌^◌, ◌++◌, ◌∷◌, [], length, slice_set, IfOk, OnOk};
ghost use Rattle.nona_code.specs.declared.instr.Instr.TheVariants.{Zero, Jump};
ghost use Rattle.nona_gen.specs.Code.{expr_code, flip_code, loop_bounds, head_code, next_code, while_head};

use crate::emit::{emit_expr, emit_flip, put, put_all};
use nona_code::{FIRST_HIDDEN, INSTRUCTIONS, Instr};
use nona_num::Fold;
use nona_tree::{Expr, Loop, Op};
use std::alloc::AllocError;

/// The place of the next instruction; code of 2^31 instructions or more is want of memory.
fn here(code: &[Instr]) -> Result<u32, AllocError>
    ensures place { IfOk result (λ p. p ≡ length code.now) }
    ensures small { IfOk result (λ p. p < 2 ^ 31) }
{
    if code.len() < INSTRUCTIONS {
        Ok(code.len() as u32)
    } else {
        Err(AllocError)
    }
}

/// How many instructions there are.
fn size(code: &[Instr]) -> usize
    ensures { result ≡ length code.now }
{
    code.len()
}

/// One more, of less than 2^31.
pub(crate) fn one_more(count: u32) -> Result<u32, AllocError>
    ensures next { IfOk result (λ n. n ≡ count + 1) }
    ensures small { OnOk result (count < 2 ^ 31) }
{
    if count < FIRST_HIDDEN {
        Ok(count + 1)
    } else {
        Err(AllocError)
    }
}

/// Writes an instruction anew.
fn set(code: &mut Vec<Instr>, place: usize, instr: Instr)
    requires { place < length code.old.items }
    ensures { code.new.items ≡ slice_set code.old.items place instr }
{
    code[place] = instr;
}

/// The bounds of a loop.
fn emit_bounds(low: &Expr, high: &Expr, depth: u32, code: &mut Vec<Instr>) -> Result<(), AllocError>
    requires { depth < 2 ^ 31 }
    ensures { OnOk result (code.new.items ≡ code.old.items ++ loop_bounds low.now high.now depth) }
{
    emit_expr(low, code)?;
    emit_expr(high, code)?;
    put_all(
        code,
        &[
            Instr::Save(FIRST_HIDDEN + depth),
            Instr::Declare,
            Instr::Enter(depth),
        ],
    )
}

/// Begins a choice: its test, and the jump to its other branch, which isn't written yet. The answer is the place of that jump.
pub(crate) fn open_if(test: &Expr, code: &mut Vec<Instr>) -> Result<usize, AllocError>
    ensures hole { IfOk result (λ hole. hole ≡ length code.old.items + length (expr_code test.now)) }
    ensures opened { OnOk result (code.new.items ≡ code.old.items ++ (expr_code test.now ++ (Zero 0 ∷ []))) }
{
    emit_expr(test, code)?;
    let hole = size(code);
    put(code, Instr::Zero(0))?;
    Ok(hole)
}

/// Ends the first branch of a choice: the jump behind the other one isn't written yet, and the one to it is. The answer is
/// the place of the jump that isn't.
pub(crate) fn turn_if(hole: usize, code: &mut Vec<Instr>) -> Result<usize, AllocError>
    requires { hole < length code.old.items }
    ensures last { IfOk result (λ last. last ≡ length code.old.items) }
    ensures turned { OnOk result (code.new.items
        ≡ slice_set (code.old.items ++ (Jump 0 ∷ [])) hole (Zero (length code.old.items + 1))) }
{
    let last = size(code);
    put(code, Instr::Jump(0))?;
    let other = here(code)?;
    set(code, hole, Instr::Zero(other));
    Ok(last)
}

/// Ends a choice: the jump at this place leads behind its other branch.
pub(crate) fn close_if(last: usize, code: &mut Vec<Instr>) -> Result<(), AllocError>
    requires { last < length code.old.items }
    ensures { OnOk result (code.new.items ≡ slice_set code.old.items last (Jump (length code.old.items))) }
{
    let end = here(code)?;
    set(code, last, Instr::Jump(end));
    Ok(())
}

/// Begins a `while`, whose word stands at this place: the jump to its test isn't written yet. The answer is where it begins.
pub(crate) fn open_while(at: u32, depth: u32, code: &mut Vec<Instr>) -> Result<u32, AllocError>
    ensures begin { IfOk result (λ begin. begin ≡ length code.old.items) }
    ensures small { IfOk result (λ begin. begin < 2 ^ 31) }
    ensures opened { OnOk result (code.new.items ≡ code.old.items ++ while_head depth at) }
{
    let begin = here(code)?;
    put_all(
        code,
        &[Instr::Enter(depth), Instr::Jump(0), Instr::Turn(depth, at)],
    )?;
    Ok(begin)
}

/// Ends a `while` that began there: the jump to its test is written, and the test stands behind its body.
pub(crate) fn close_while(test: &Expr, begin: u32, code: &mut Vec<Instr>) -> Result<(), AllocError>
    requires small { begin < 2 ^ 31 }
    requires there { begin + 1 < length code.old.items }
    ensures { OnOk result (code.new.items
        ≡ slice_set code.old.items (begin + 1) (Jump (length code.old.items)) ++ (flip_code test.now ++ (Zero (begin + 2) ∷ []))) }
{
    let place = here(code)?;
    set(code, begin as usize + 1, Instr::Jump(place));
    emit_flip(test, code)?;
    put(code, Instr::Zero(begin + 2))
}

/// Begins a `for`: its bounds, and what it does before its first turn, where the jump behind it isn't written yet. The answer
/// is where its turns begin.
pub(crate) fn open_for(l: &Loop, depth: u32, code: &mut Vec<Instr>) -> Result<u32, AllocError>
    requires { depth < 2 ^ 31 }
    ensures top { IfOk result (λ top. top ≡ length code.old.items + length (loop_bounds l.now.low l.now.high depth)) }
    ensures small { IfOk result (λ top. top < 2 ^ 31) }
    ensures opened { OnOk result (code.new.items
        ≡ code.old.items ++ (loop_bounds l.now.low l.now.high depth ++ head_code 0 l.now.index.id depth l.now.at)) }
{
    emit_bounds(&l.low, &l.high, depth, code)?;
    let top = here(code)?;
    put_all(
        code,
        &[
            Instr::Load(l.index.id),
            Instr::Load(FIRST_HIDDEN + depth),
            Instr::Binary(Op::Lt, l.at),
            Instr::Zero(0),
            Instr::Turn(depth, l.at),
        ],
    )?;
    Ok(top)
}

/// Ends a `for` whose turns begin there: the next index, and the jump behind it is written.
pub(crate) fn close_for(
    l: &Loop,
    depth: u32,
    top: u32,
    code: &mut Vec<Instr>,
) -> Result<(), AllocError>
    requires shallow { depth < 2 ^ 31 }
    requires small { top < 2 ^ 31 }
    requires there { top + 3 < length code.old.items }
    ensures { OnOk result (code.new.items
        ≡ slice_set (code.old.items ++ next_code (top + 4) l.now.index.id depth l.now.at) (top + 3) (Zero (length code.old.items + 6))) }
{
    let id = l.index.id;
    let high = FIRST_HIDDEN + depth;
    let next = here(code)?;
    put_all(
        code,
        &[
            Instr::Push(1),
            Instr::FoldSave(id, Fold::Add),
            Instr::Load(id),
            Instr::Load(high),
            Instr::Binary(Op::Ge, l.at),
            Instr::Zero(top + 4),
            Instr::Leave(1),
        ],
    )?;
    set(code, top as usize + 3, Instr::Zero(next + 6));
    Ok(())
}
