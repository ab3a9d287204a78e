// Names in expressions, cells and lengths of arrays.

ghost use Rattle.std.specs.Prelude.{◌<◌, ◌≤◌, ◌∷◌, [], ℕ, List, length, IfOk, MatchResult};
ghost use Rattle.nona_grammar.specs.Levels.{named};
ghost use Rattle.nona_grammar.specs.Stack.{Reach, Fetch, push};
ghost use Rattle.nona_grammar.specs.Machine.{MaybeCell, Index, LenOpen, Whole, Want, Do};
ghost use Rattle.nona_parse.specs.Steps.{Reads, Fails, Turns, reaches};

use crate::expressions::expression;
use crate::fault::ReadFault;
use crate::pieces::{name, sign, split_first, use_of};
use nona_lex::{Keyword, Sign, Spot, Token};
use nona_tree::{Access, Expr, Name};
use sqlite_items::Boxed;
use std::alloc::Global;

/// What a name in an expression, which stands at `at`, begins: a scalar, or a cell where `[` stands behind it.
#[cycle(expr)]
pub fn scalar_or_cell<'a>(
    alloc: Global,
    text: &Name,
    at: u32,
    spots: &'a [Spot],
) -> Result<(Expr, &'a [Spot]), ReadFault>
    ensures shorter { IfOk result (λ x. length x.1.now ≤ length spots.now) }
    ensures read { MatchResult result
        (λ x. Reads (MaybeCell text.now at ∷ []) spots.now (push x.0) x.1.now)
        (λ fault. Fails fault (MaybeCell text.now at ∷ []) spots.now) }
{
    match split_first(spots) {
        None => Ok((Expr::Scalar(use_of(text, at)), spots)),
        Some((first, later)) => match &first.token {
            Token::Sign(Sign::OpenIndex) => cell_value(alloc, text, at, later),
            _ => Ok((Expr::Scalar(use_of(text, at)), spots)),
        },
    }
}

/// The value of a cell behind the name of its array and the `[`.
#[cycle(expr)]
fn cell_value<'a>(
    alloc: Global,
    text: &Name,
    at: u32,
    spots: &'a [Spot],
) -> Result<(Expr, &'a [Spot]), ReadFault>
    ensures shorter { IfOk result (λ x. length x.1.now < length spots.now) }
    ensures read { MatchResult result
        (λ x. Reads (Index text.now at ∷ Want Sign.CloseIndex ∷ Do Fetch ∷ []) spots.now (push x.0) x.1.now)
        (λ fault. Fails fault (Index text.now at ∷ Want Sign.CloseIndex ∷ Do Fetch ∷ []) spots.now) }
{
    match cell(alloc, text, at, spots) {
        Ok((place, rest)) => match Boxed::new(alloc, place) {
            Ok(place) => Ok((Expr::Cell(place), rest)),
            Err(_) => Err(ReadFault::NoMemory),
        },
        Err(fault) => Err(fault),
    }
}

/// The cell of the array of this name, which stands at `at`, by its index and the `]` behind it.
#[cycle(expr)]
pub fn cell<'a>(
    alloc: Global,
    text: &Name,
    at: u32,
    spots: &'a [Spot],
) -> Result<(Access, &'a [Spot]), ReadFault>
    ensures shorter { IfOk result (λ x. length x.1.now < length spots.now) }
    ensures read { MatchResult result
        (λ x. Reads (Index text.now at ∷ Want Sign.CloseIndex ∷ []) spots.now (reaches x.0) x.1.now)
        (λ fault. Fails fault (Index text.now at ∷ Want Sign.CloseIndex ∷ []) spots.now) }
{
    let (wrap, later) = maybe_wrap(spots);
    match expression(alloc, later) {
        Ok((index, rest)) => match sign(Sign::CloseIndex, rest) {
            Ok(behind) => Ok((
                Access {
                    array: use_of(text, at),
                    wrap,
                    index,
                },
                behind,
            )),
            Err(fault) => Err(fault),
        },
        Err(fault) => Err(fault),
    }
}

/// Whether the word `wrap` stands before an index, and the tokens behind it.
fn maybe_wrap(spots: &[Spot]) -> (bool, &[Spot])
    ensures shorter { length result.1.now ≤ length spots.now }
    ensures read { (n : List ℕ) (at : ℕ) → Turns (Index n at) spots.now (Whole ∷ Do (Reach (named n at) result.0) ∷ []) result.1.now }
{
    match split_first(spots) {
        None => (false, spots),
        Some((first, later)) => match first.token {
            Token::Word(Keyword::Wrap) => (true, later),
            _ => (false, spots),
        },
    }
}

/// `( NAME )` behind the word `len`.
pub fn array_length(spots: &[Spot]) -> Result<(Expr, &[Spot]), ReadFault>
    ensures shorter { IfOk result (λ x. length x.1.now < length spots.now) }
    ensures read { MatchResult result
        (λ x. Reads (LenOpen ∷ Want Sign.Close ∷ []) spots.now (push x.0) x.1.now)
        (λ fault. Fails fault (LenOpen ∷ Want Sign.Close ∷ []) spots.now) }
{
    match sign(Sign::Open, spots) {
        Ok(inner) => match name(inner) {
            Ok((array, rest)) => match sign(Sign::Close, rest) {
                Ok(behind) => Ok((Expr::Len(array), behind)),
                Err(fault) => Err(fault),
            },
            Err(fault) => Err(fault),
        },
        Err(fault) => Err(fault),
    }
}
