// Statements with blocks, and lists of statements.

ghost use Rattle.std.specs.Prelude.{◌≡◌, ◌<◌, ◌≤◌, ◌∷◌, [], true, false, length, IfOk, IfSome, MatchOption, MatchResult};
ghost use Rattle.nona_grammar.specs.Stack.{Branch, Repeat, push, adds, with_block, act};
ghost use Rattle.nona_grammar.specs.Machine.{Stmts, Statement, Else, ForWord, ForName, Block, Whole, In, Want, Do};
ghost use Rattle.nona_parse.specs.Steps.{Reads, Fails, Turns};

use crate::expressions::expression;
use crate::fault::ReadFault;
use crate::pieces::{for_word, in_word, name, sign, split_first};
use crate::statements::{assignment, new_scalar, print};
use nona_lex::{Keyword, Sign, Spot, Token};
use nona_tree::{Expr, Loop, Stmt};
use sqlite_items::Items;
use std::alloc::Global;

/// Whether a statement begins with these tokens.
fn starts(spots: &[Spot]) -> bool
    ensures more { result ≡ true → Turns Stmts spots.now (Statement ∷ Stmts ∷ []) spots.now }
    ensures none { result ≡ false → Turns Stmts spots.now [] spots.now }
{
    match split_first(spots) {
        None => false,
        Some((first, _)) => matches!(
            first.token,
            Token::Name(_)
                | Token::Word(Keyword::Let)
                | Token::Word(Keyword::If)
                | Token::Word(Keyword::While)
                | Token::Word(Keyword::For)
                | Token::Word(Keyword::Seq)
                | Token::Word(Keyword::Print)
        ),
    }
}

/// Statements, up to what is none.
#[cycle(stmt)]
pub fn statements(alloc: Global, spots: &[Spot]) -> Result<(Items<Stmt>, &[Spot]), ReadFault>
    ensures shorter { IfOk result (λ x. length x.1.now ≤ length spots.now) }
    ensures read { MatchResult result
        (λ x. Reads (Stmts ∷ []) spots.now (adds x.0) x.1.now)
        (λ fault. Fails fault (Stmts ∷ []) spots.now) }
{
    let mut statements = Items::new(alloc);
    let mut rest = spots;
    while starts(rest) {
        match statement(alloc, rest) {
            Ok((next, behind)) => {
                let Ok(()) = statements.push(next) else {
                    return Err(ReadFault::NoMemory);
                };
                rest = behind;
            }
            Err(fault) => return Err(fault),
        }
    }
    Ok((statements, rest))
}

/// A statement.
#[cycle(stmt)]
fn statement(alloc: Global, spots: &[Spot]) -> Result<(Stmt, &[Spot]), ReadFault>
    ensures shorter { IfOk result (λ x. length x.1.now < length spots.now) }
    ensures read { MatchResult result
        (λ x. Reads (Statement ∷ []) spots.now (adds (x.0 ∷ [])) x.1.now)
        (λ fault. Fails fault (Statement ∷ []) spots.now) }
{
    match split_first(spots) {
        None => Err(ReadFault::Ended),
        Some((first, later)) => match &first.token {
            Token::Name(text) => assignment(alloc, text, first.at, later),
            Token::Word(Keyword::Let) => new_scalar(alloc, later),
            Token::Word(Keyword::If) => branch(alloc, later),
            Token::Word(Keyword::While) => while_loop(alloc, first.at, later),
            Token::Word(Keyword::For) => for_loop(alloc, false, first.at, later),
            Token::Word(Keyword::Seq) => seq_loop(alloc, later),
            Token::Word(Keyword::Print) => print(alloc, first.at, later),
            _ => Err(ReadFault::Syntax { at: first.at }),
        },
    }
}

/// `expr { stmt* }` behind the word `if`, and `else { stmt* }` where it stands there.
#[cycle(stmt)]
fn branch(alloc: Global, spots: &[Spot]) -> Result<(Stmt, &[Spot]), ReadFault>
    ensures shorter { IfOk result (λ x. length x.1.now < length spots.now) }
    ensures read { MatchResult result
        (λ x. Reads (Whole ∷ Block ∷ Else ∷ []) spots.now (adds (x.0 ∷ [])) x.1.now)
        (λ fault. Fails fault (Whole ∷ Block ∷ Else ∷ []) spots.now) }
{
    let (test, later) = expression(alloc, spots)?;
    let (yes, rest) = body(alloc, later)?;
    let (no, behind) = otherwise(alloc, rest)?;
    Ok((Stmt::If { test, yes, no }, behind))
}

/// The tokens behind the word `else`, where they begin with it.
fn behind_else(spots: &[Spot]) -> Option<&[Spot]>
    ensures shorter { IfSome result (λ rest. length rest.now < length spots.now) }
    ensures read { MatchOption result
        (Reads (Else ∷ []) spots.now (λ v. act Branch (with_block [] v)) spots.now)
        (λ rest. Turns Else spots.now (Block ∷ Do Branch ∷ []) rest.now) }
{
    match split_first(spots) {
        None => None,
        Some((first, later)) => match first.token {
            Token::Word(Keyword::Else) => Some(later),
            _ => None,
        },
    }
}

/// The block behind the word `else`. Where that doesn't stand there, no statement.
#[cycle(stmt)]
fn otherwise(alloc: Global, spots: &[Spot]) -> Result<(Items<Stmt>, &[Spot]), ReadFault>
    ensures shorter { IfOk result (λ x. length x.1.now ≤ length spots.now) }
    ensures read { MatchResult result
        (λ x. Reads (Else ∷ []) spots.now (λ v. act Branch (with_block x.0 v)) x.1.now)
        (λ fault. Fails fault (Else ∷ []) spots.now) }
{
    match behind_else(spots) {
        None => Ok((Items::new(alloc), spots)),
        Some(later) => body(alloc, later),
    }
}

/// `expr { stmt* }` behind the word `while`, which stands at `at`.
#[cycle(stmt)]
fn while_loop(alloc: Global, at: u32, spots: &[Spot]) -> Result<(Stmt, &[Spot]), ReadFault>
    ensures shorter { IfOk result (λ x. length x.1.now < length spots.now) }
    ensures read { MatchResult result
        (λ x. Reads (Whole ∷ Block ∷ Do (Repeat at) ∷ []) spots.now (adds (x.0 ∷ [])) x.1.now)
        (λ fault. Fails fault (Whole ∷ Block ∷ Do (Repeat at) ∷ []) spots.now) }
{
    let (test, later) = expression(alloc, spots)?;
    let (body, rest) = body(alloc, later)?;
    Ok((Stmt::While { test, body, at }, rest))
}

/// `for` and a loop behind the word `seq`.
#[cycle(stmt)]
fn seq_loop(alloc: Global, spots: &[Spot]) -> Result<(Stmt, &[Spot]), ReadFault>
    ensures shorter { IfOk result (λ x. length x.1.now < length spots.now) }
    ensures read { MatchResult result
        (λ x. Reads (ForWord ∷ []) spots.now (adds (x.0 ∷ [])) x.1.now)
        (λ fault. Fails fault (ForWord ∷ []) spots.now) }
{
    match for_word(spots) {
        Ok((at, later)) => for_loop(alloc, true, at, later),
        Err(fault) => Err(fault),
    }
}

/// `NAME in expr .. expr { stmt* }` behind the word `for`, which stands at `at`.
#[cycle(stmt)]
fn for_loop(alloc: Global, seq: bool, at: u32, spots: &[Spot]) -> Result<(Stmt, &[Spot]), ReadFault>
    ensures shorter { IfOk result (λ x. length x.1.now < length spots.now) }
    ensures read { MatchResult result
        (λ x. Reads (ForName seq at ∷ []) spots.now (adds (x.0 ∷ [])) x.1.now)
        (λ fault. Fails fault (ForName seq at ∷ []) spots.now) }
{
    let (index, rest) = name(spots)?;
    let (low, high, later) = bounds(alloc, rest)?;
    let (body, behind) = body(alloc, later)?;
    let each = Loop {
        index,
        low,
        high,
        body,
        seq,
        at,
    };
    Ok((Stmt::For(each), behind))
}

/// `in expr .. expr`.
fn bounds(alloc: Global, spots: &[Spot]) -> Result<(Expr, Expr, &[Spot]), ReadFault>
    ensures shorter { IfOk result (λ x. length x.2.now < length spots.now) }
    ensures read { MatchResult result
        (λ x. Reads (In ∷ Whole ∷ Want Sign.Range ∷ Whole ∷ []) spots.now (λ v. push x.1 (push x.0 v)) x.2.now)
        (λ fault. Fails fault (In ∷ Whole ∷ Want Sign.Range ∷ Whole ∷ []) spots.now) }
{
    let spots = in_word(spots)?;
    let (low, spots) = expression(alloc, spots)?;
    let spots = sign(Sign::Range, spots)?;
    let (high, spots) = expression(alloc, spots)?;
    Ok((low, high, spots))
}

/// `{ stmt* }`.
#[cycle(stmt)]
fn body(alloc: Global, spots: &[Spot]) -> Result<(Items<Stmt>, &[Spot]), ReadFault>
    ensures shorter { IfOk result (λ x. length x.1.now < length spots.now) }
    ensures read { MatchResult result
        (λ x. Reads (Block ∷ []) spots.now (with_block x.0) x.1.now)
        (λ fault. Fails fault (Block ∷ []) spots.now) }
{
    match sign(Sign::OpenBlock, spots) {
        Ok(inner) => match statements(alloc, inner) {
            Ok((body, rest)) => match sign(Sign::CloseBlock, rest) {
                Ok(behind) => Ok((body, behind)),
                Err(fault) => Err(fault),
            },
            Err(fault) => Err(fault),
        },
        Err(fault) => Err(fault),
    }
}
