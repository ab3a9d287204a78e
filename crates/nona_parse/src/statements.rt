// Statements that end with `;`.

ghost use Rattle.std.specs.Prelude.{◌≡◌, ◌<◌, ◌∷◌, [], None, Some, length, IfOk, MatchResult};
ghost use Rattle.nona_grammar.specs.Levels.{named};
ghost use Rattle.nona_grammar.specs.Stack.{Assign, Merge, Store, Show, push, put, adds};
ghost use Rattle.nona_grammar.specs.Machine.{LetName, AfterName, AfterCell, Index, Whole, Want, Do};
ghost use Rattle.nona_parse.specs.Steps.{Reads, ReadsBehind, Fails, Turns, reaches};

use crate::accesses::cell;
use crate::expressions::expression;
use crate::fault::ReadFault;
use crate::pieces::{name, sign, split_first, use_of};
use nona_lex::{Sign, Spot, Token};
use nona_num::Fold;
use nona_tree::{Access, Expr, Name, Stmt};
use std::alloc::Global;

/// An expression and the `;` that ends a statement.
fn value(alloc: Global, spots: &[Spot]) -> Result<(Expr, &[Spot]), ReadFault>
    ensures shorter { IfOk result (λ x. length x.1.now < length spots.now) }
    ensures read { MatchResult result
        (λ x. Reads (Whole ∷ Want Sign.Semicolon ∷ []) spots.now (push x.0) x.1.now)
        (λ fault. Fails fault (Whole ∷ Want Sign.Semicolon ∷ []) spots.now) }
{
    match expression(alloc, spots) {
        Ok((value, rest)) => match sign(Sign::Semicolon, rest) {
            Ok(behind) => Ok((value, behind)),
            Err(fault) => Err(fault),
        },
        Err(fault) => Err(fault),
    }
}

/// `NAME = expr ;` behind the word `let`.
pub fn new_scalar(alloc: Global, spots: &[Spot]) -> Result<(Stmt, &[Spot]), ReadFault>
    ensures shorter { IfOk result (λ x. length x.1.now < length spots.now) }
    ensures read { MatchResult result
        (λ x. Reads (LetName ∷ []) spots.now (adds (x.0 ∷ [])) x.1.now)
        (λ fault. Fails fault (LetName ∷ []) spots.now) }
{
    let (name, rest) = name(spots)?;
    let later = sign(Sign::Set, rest)?;
    let (value, behind) = value(alloc, later)?;
    Ok((Stmt::Let { name, value }, behind))
}

/// What stands behind the name, at `at`, that a statement begins with: `= expr ;`, `FOLD expr ;`, or an index and either
/// of these.
pub fn assignment<'a>(
    alloc: Global,
    text: &Name,
    at: u32,
    spots: &'a [Spot],
) -> Result<(Stmt, &'a [Spot]), ReadFault>
    ensures shorter { IfOk result (λ x. length x.1.now < length spots.now) }
    ensures read { MatchResult result
        (λ x. Reads (AfterName text.now at ∷ []) spots.now (adds (x.0 ∷ [])) x.1.now)
        (λ fault. Fails fault (AfterName text.now at ∷ []) spots.now) }
{
    match split_first(spots) {
        None => Err(ReadFault::Ended),
        Some((first, later)) => match &first.token {
            Token::Sign(Sign::Set) => set(alloc, text, at, later),
            Token::Fold(fold) => folded(alloc, text, at, *fold, later),
            Token::Sign(Sign::OpenIndex) => cell_assignment(alloc, text, at, later),
            _ => Err(ReadFault::Syntax { at: first.at }),
        },
    }
}

/// `expr ;` behind `NAME =`.
fn set<'a>(
    alloc: Global,
    text: &Name,
    at: u32,
    spots: &'a [Spot],
) -> Result<(Stmt, &'a [Spot]), ReadFault>
    ensures shorter { IfOk result (λ x. length x.1.now < length spots.now) }
    ensures read { MatchResult result
        (λ x. Reads (Whole ∷ Want Sign.Semicolon ∷ Do (Assign (named text.now at)) ∷ []) spots.now (adds (x.0 ∷ [])) x.1.now)
        (λ fault. Fails fault (Whole ∷ Want Sign.Semicolon ∷ Do (Assign (named text.now at)) ∷ []) spots.now) }
{
    let (value, rest) = value(alloc, spots)?;
    let name = use_of(text, at);
    Ok((Stmt::Set { name, value }, rest))
}

/// `expr ;` behind `NAME FOLD`.
fn folded<'a>(
    alloc: Global,
    text: &Name,
    at: u32,
    fold: Fold,
    spots: &'a [Spot],
) -> Result<(Stmt, &'a [Spot]), ReadFault>
    ensures shorter { IfOk result (λ x. length x.1.now < length spots.now) }
    ensures read { MatchResult result
        (λ x. Reads (Whole ∷ Want Sign.Semicolon ∷ Do (Merge (named text.now at) fold) ∷ []) spots.now (adds (x.0 ∷ [])) x.1.now)
        (λ fault. Fails fault (Whole ∷ Want Sign.Semicolon ∷ Do (Merge (named text.now at) fold) ∷ []) spots.now) }
{
    let (value, rest) = value(alloc, spots)?;
    let name = use_of(text, at);
    Ok((Stmt::Fold { name, fold, value }, rest))
}

/// An index and what is done with the cell there, behind `NAME [`.
fn cell_assignment<'a>(
    alloc: Global,
    text: &Name,
    at: u32,
    spots: &'a [Spot],
) -> Result<(Stmt, &'a [Spot]), ReadFault>
    ensures shorter { IfOk result (λ x. length x.1.now < length spots.now) }
    ensures read { MatchResult result
        (λ x. Reads (Index text.now at ∷ Want Sign.CloseIndex ∷ AfterCell ∷ []) spots.now (adds (x.0 ∷ [])) x.1.now)
        (λ fault. Fails fault (Index text.now at ∷ Want Sign.CloseIndex ∷ AfterCell ∷ []) spots.now) }
{
    match cell(alloc, text, at, spots) {
        Ok((place, rest)) => cell_value(alloc, place, rest),
        Err(fault) => Err(fault),
    }
}

/// `= expr ;` or `FOLD expr ;` behind a cell.
fn cell_value(alloc: Global, place: Access, spots: &[Spot]) -> Result<(Stmt, &[Spot]), ReadFault>
    ensures shorter { IfOk result (λ x. length x.1.now < length spots.now) }
    ensures read { MatchResult result
        (λ x. ReadsBehind (AfterCell ∷ []) (reaches place) spots.now (adds (x.0 ∷ [])) x.1.now)
        (λ fault. Fails fault (AfterCell ∷ []) spots.now) }
{
    let (fold, later) = cell_sign(spots)?;
    let (value, rest) = value(alloc, later)?;
    Ok((put_of(fold, place, value), rest))
}

/// `place = value;`, or `place FOLD value;` where there is a fold.
fn put_of(fold: Option<Fold>, place: Access, value: Expr) -> Stmt
    ensures { result ≡ put fold place value }
{
    match fold {
        None => Stmt::Put { place, value },
        Some(fold) => Stmt::FoldPut { place, fold, value },
    }
}

/// `=` or a fold behind a cell.
fn cell_sign(spots: &[Spot]) -> Result<(Option<Fold>, &[Spot]), ReadFault>
    ensures shorter { IfOk result (λ x. length x.1.now < length spots.now) }
    ensures read { MatchResult result
        (λ x. Turns AfterCell spots.now (Whole ∷ Want Sign.Semicolon ∷ Do (Store x.0) ∷ []) x.1.now)
        (λ fault. Fails fault (AfterCell ∷ []) spots.now) }
{
    match split_first(spots) {
        None => Err(ReadFault::Ended),
        Some((first, later)) => match &first.token {
            Token::Sign(Sign::Set) => Ok((None, later)),
            Token::Fold(fold) => Ok((Some(*fold), later)),
            _ => Err(ReadFault::Syntax { at: first.at }),
        },
    }
}

/// `expr ;` behind the word `print`, which stands at `at`.
pub fn print(alloc: Global, at: u32, spots: &[Spot]) -> Result<(Stmt, &[Spot]), ReadFault>
    ensures shorter { IfOk result (λ x. length x.1.now < length spots.now) }
    ensures read { MatchResult result
        (λ x. Reads (Whole ∷ Want Sign.Semicolon ∷ Do (Show at) ∷ []) spots.now (adds (x.0 ∷ [])) x.1.now)
        (λ fault. Fails fault (Whole ∷ Want Sign.Semicolon ∷ Do (Show at) ∷ []) spots.now) }
{
    let (value, rest) = value(alloc, spots)?;
    Ok((Stmt::Print { value, at }, rest))
}
