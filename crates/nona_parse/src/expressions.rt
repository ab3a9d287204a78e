ghost use Rattle.std.specs.Prelude.{◌<◌, ◌≤◌, ◌∷◌, [], length, IfOk, MatchResult};
ghost use Rattle.nona_grammar.specs.Levels.{loosest};
ghost use Rattle.nona_grammar.specs.Stack.{push};
ghost use Rattle.nona_grammar.specs.Machine.{Primary, Whole, Compare, Level, Tail, Want};
ghost use Rattle.nona_parse.specs.Steps.{Reads, ReadsBehind, Fails};

use crate::accesses::{array_length, scalar_or_cell};
use crate::fault::ReadFault;
use crate::operators::{binary, operator_above, prefixed, split_prefix};
use crate::pieces::{sign, split_first};
use nona_lex::{Keyword, Sign, Spot, Token};
use nona_tree::Expr;
use sqlite_items::Boxed;
use std::alloc::Global;

/// The loosest level whose operators may stand one after another.
const LOOSEST: u8 = 6;

/// An expression.
#[cycle(expr)]
pub fn expression(alloc: Global, spots: &[Spot]) -> Result<(Expr, &[Spot]), ReadFault>
    ensures shorter { IfOk result (λ x. length x.1.now < length spots.now) }
    ensures read { MatchResult result
        (λ x. Reads (Whole ∷ []) spots.now (push x.0) x.1.now)
        (λ fault. Fails fault (Whole ∷ []) spots.now) }
{
    match operand(alloc, LOOSEST, spots) {
        Ok((first, rest)) => compared(alloc, first, rest),
        Err(fault) => Err(fault),
    }
}

/// An expression that begins with `first`, which a comparison may follow, and one only.
#[cycle(expr)]
fn compared(alloc: Global, first: Boxed<Expr>, spots: &[Spot]) -> Result<(Expr, &[Spot]), ReadFault>
    ensures shorter { IfOk result (λ x. length x.1.now ≤ length spots.now) }
    ensures read { MatchResult result
        (λ x. ReadsBehind (Compare ∷ []) (push first) spots.now (push x.0) x.1.now)
        (λ fault. Fails fault (Compare ∷ []) spots.now) }
{
    match operator_above(LOOSEST, spots) {
        None => Ok((first.into_inner(), spots)),
        Some((op, at, later)) => match operand(alloc, LOOSEST, later) {
            Ok((right, rest)) => Ok((
                Expr::Binary {
                    op,
                    at,
                    left: first,
                    right,
                },
                rest,
            )),
            Err(fault) => Err(fault),
        },
    }
}

/// An expression whose operators are of this level and those below: at level 0 of none but one sign before it.
#[cycle(expr)]
fn operand(alloc: Global, level: u8, spots: &[Spot]) -> Result<(Boxed<Expr>, &[Spot]), ReadFault>
    requires { level ≤ loosest }
    ensures shorter { IfOk result (λ x. length x.1.now < length spots.now) }
    ensures read { MatchResult result
        (λ x. Reads (Level level ∷ []) spots.now (push x.0) x.1.now)
        (λ fault. Fails fault (Level level ∷ []) spots.now) }
{
    if level == 0 {
        unary(alloc, spots)
    } else {
        match operand(alloc, level - 1, spots) {
            Ok((first, rest)) => joined(alloc, level - 1, first, rest),
            Err(fault) => Err(fault),
        }
    }
}

/// An expression of the level above `below` that begins with `first`: what stands behind it is joined to it, operator
/// by operator from left to right.
#[cycle(expr)]
fn joined(
    alloc: Global,
    below: u8,
    first: Boxed<Expr>,
    spots: &[Spot],
) -> Result<(Boxed<Expr>, &[Spot]), ReadFault>
    requires { below < loosest }
    ensures shorter { IfOk result (λ x. length x.1.now ≤ length spots.now) }
    ensures read { MatchResult result
        (λ x. ReadsBehind (Tail below ∷ []) (push first) spots.now (push x.0) x.1.now)
        (λ fault. Fails fault (Tail below ∷ []) spots.now) }
{
    let mut left = first;
    let mut rest = spots;
    while let Some((op, at, later)) = operator_above(below, rest) {
        match operand(alloc, below, later) {
            Ok((right, behind)) => {
                match binary(alloc, op, at, left, right) {
                    Ok(both) => left = both,
                    Err(fault) => return Err(fault),
                }
                rest = behind;
            }
            Err(fault) => return Err(fault),
        }
    }
    Ok((left, rest))
}

/// A primary, before which one `-` or one `!` may stand. Kept out of `operand`, which is on the stack seven times for each
/// bracket that is open.
#[cycle(expr)]
#[inline(never)]
fn unary(alloc: Global, spots: &[Spot]) -> Result<(Boxed<Expr>, &[Spot]), ReadFault>
    ensures shorter { IfOk result (λ x. length x.1.now < length spots.now) }
    ensures read { MatchResult result
        (λ x. Reads (Level 0 ∷ []) spots.now (push x.0) x.1.now)
        (λ fault. Fails fault (Level 0 ∷ []) spots.now) }
{
    let (before, later) = split_prefix(spots);
    match primary(alloc, later) {
        Ok((value, rest)) => match prefixed(alloc, before, value) {
            Ok(whole) => Ok((whole, rest)),
            Err(fault) => Err(fault),
        },
        Err(fault) => Err(fault),
    }
}

/// A number, a name, a cell of an array, the length of an array, or an expression in brackets.
#[cycle(expr)]
fn primary(alloc: Global, spots: &[Spot]) -> Result<(Expr, &[Spot]), ReadFault>
    ensures shorter { IfOk result (λ x. length x.1.now < length spots.now) }
    ensures read { MatchResult result
        (λ x. Reads (Primary ∷ []) spots.now (push x.0) x.1.now)
        (λ fault. Fails fault (Primary ∷ []) spots.now) }
{
    match split_first(spots) {
        None => Err(ReadFault::Ended),
        Some((first, later)) => match &first.token {
            Token::Number(n) => Ok((Expr::Number(*n), later)),
            Token::Name(text) => scalar_or_cell(alloc, text, first.at, later),
            Token::Word(Keyword::Len) => array_length(later),
            Token::Sign(Sign::Open) => bracketed(alloc, later),
            _ => Err(ReadFault::Syntax { at: first.at }),
        },
    }
}

/// An expression and the bracket that closes it.
#[cycle(expr)]
fn bracketed(alloc: Global, spots: &[Spot]) -> Result<(Expr, &[Spot]), ReadFault>
    ensures shorter { IfOk result (λ x. length x.1.now < length spots.now) }
    ensures read { MatchResult result
        (λ x. Reads (Whole ∷ Want Sign.Close ∷ []) spots.now (push x.0) x.1.now)
        (λ fault. Fails fault (Whole ∷ Want Sign.Close ∷ []) spots.now) }
{
    match expression(alloc, spots) {
        Ok((inner, rest)) => match sign(Sign::Close, rest) {
            Ok(behind) => Ok((inner, behind)),
            Err(fault) => Err(fault),
        },
        Err(fault) => Err(fault),
    }
}
