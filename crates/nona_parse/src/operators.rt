// Binary operators, of which each has a level.

ghost use Rattle.std.specs.Prelude.{◌≡◌, ◌<◌, ◌≤◌, ◌∷◌, [], length, IfSome, MatchOption, MatchResult};
ghost use Rattle.nona_grammar.specs.Levels.{op_of, level, loosest};
ghost use Rattle.nona_grammar.specs.Stack.{Join};
ghost use Rattle.nona_grammar.specs.Machine.{Primary, Compare, Level, Tail, Do};
ghost use Rattle.nona_parse.specs.Steps.{Turns};
ghost use Rattle.nona_parse.specs.Prefixes.{acts_of, prefixed_of};

use crate::fault::ReadFault;
use crate::pieces::split_first;
use nona_lex::{Operator, Spot, Token};
use nona_tree::{Expr, Op};
use sqlite_items::Boxed;
use std::alloc::Global;

/// The binary operator that a token is, if it is one.
fn binary_operator(written: Operator) -> Option<Op>
    ensures { result ≡ op_of written }
{
    match written {
        Operator::Add => Some(Op::Add),
        Operator::Sub => Some(Op::Sub),
        Operator::Mul => Some(Op::Mul),
        Operator::Div => Some(Op::Div),
        Operator::Rem => Some(Op::Rem),
        Operator::And => Some(Op::And),
        Operator::Or => Some(Op::Or),
        Operator::Xor => Some(Op::Xor),
        Operator::Shl => Some(Op::Shl),
        Operator::Shr => Some(Op::Shr),
        Operator::Eq => Some(Op::Eq),
        Operator::Ne => Some(Op::Ne),
        Operator::Lt => Some(Op::Lt),
        Operator::Le => Some(Op::Le),
        Operator::Gt => Some(Op::Gt),
        Operator::Ge => Some(Op::Ge),
        Operator::Not => None,
    }
}

/// The level of an operator: the lower, the tighter it binds.
fn level_of(op: Op) -> u8
    ensures { result ≡ level op }
{
    match op {
        Op::Mul | Op::Div | Op::Rem => 1,
        Op::Add | Op::Sub => 2,
        Op::Shl | Op::Shr => 3,
        Op::And => 4,
        Op::Xor => 5,
        Op::Or => 6,
        Op::Eq | Op::Ne | Op::Lt | Op::Le | Op::Gt | Op::Ge => 7,
    }
}

/// The operator that the tokens begin with, its place and the tokens behind it, where it is one of the level above
/// `below`: above the loosest that is a comparison.
pub fn operator_above(below: u8, spots: &[Spot]) -> Option<(Op, u32, &[Spot])>
    requires { below ≤ loosest }
    ensures shorter { IfSome result (λ x. length x.2.now < length spots.now) }
    ensures read { MatchOption result
        (Turns (Tail below) spots.now [] spots.now)
        (λ x. Turns (Tail below) spots.now (Level below ∷ Do (Join x.0 x.1) ∷ Tail below ∷ []) x.2.now) }
    ensures compared { below ≡ loosest → MatchOption result
        (Turns Compare spots.now [] spots.now)
        (λ x. Turns Compare spots.now (Level loosest ∷ Do (Join x.0 x.1) ∷ []) x.2.now) }
{
    let (first, later) = split_first(spots)?;
    let Token::Operator(written) = &first.token else {
        return None;
    };
    let op = binary_operator(*written)?;
    if level_of(op) == below + 1 {
        Some((op, first.at, later))
    } else {
        None
    }
}

/// An expression in a box.
fn boxed(alloc: Global, value: Expr) -> Result<Boxed<Expr>, ReadFault>
    ensures { MatchResult result (λ e. e ≡ value) (λ fault. fault ≡ ReadFault.NoMemory) }
{
    match Boxed::new(alloc, value) {
        Ok(boxed) => Ok(boxed),
        Err(_) => Err(ReadFault::NoMemory),
    }
}

/// `left op right`.
pub fn binary(
    alloc: Global,
    op: Op,
    at: u32,
    left: Boxed<Expr>,
    right: Boxed<Expr>,
) -> Result<Boxed<Expr>, ReadFault>
    ensures { MatchResult result (λ e. e ≡ Expr.Binary op at left right) (λ fault. fault ≡ ReadFault.NoMemory) }
{
    boxed(
        alloc,
        Expr::Binary {
            op,
            at,
            left,
            right,
        },
    )
}

/// What may stand before a primary.
#[derive(Clone, Copy)]
pub enum Prefix {
    Minus,
    Not,
    Nothing,
}

/// What stands before the primary that the tokens begin with, and the primary's tokens.
pub fn split_prefix(spots: &[Spot]) -> (Prefix, &[Spot])
    ensures shorter { length result.1.now ≤ length spots.now }
    ensures read { Turns (Level 0) spots.now (Primary ∷ acts_of result.0) result.1.now }
{
    match split_first(spots) {
        None => (Prefix::Nothing, spots),
        Some((first, later)) => match first.token {
            Token::Operator(Operator::Sub) => (Prefix::Minus, later),
            Token::Operator(Operator::Not) => (Prefix::Not, later),
            _ => (Prefix::Nothing, spots),
        },
    }
}

/// A value with what stands before it.
pub fn prefixed(alloc: Global, prefix: Prefix, value: Expr) -> Result<Boxed<Expr>, ReadFault>
    ensures { MatchResult result (λ e. e ≡ prefixed_of prefix value) (λ fault. fault ≡ ReadFault.NoMemory) }
{
    match prefix {
        Prefix::Nothing => boxed(alloc, value),
        Prefix::Minus => match boxed(alloc, value) {
            Ok(value) => boxed(alloc, Expr::Neg(value)),
            Err(fault) => Err(fault),
        },
        Prefix::Not => match boxed(alloc, value) {
            Ok(value) => boxed(alloc, Expr::Not(value)),
            Err(fault) => Err(fault),
        },
    }
}
