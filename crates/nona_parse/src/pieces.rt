// Single tokens. Here and in the files beside, a fault is that of the first token that fits nowhere, or that the tokens
// end too early.

ghost use Rattle.std.specs.Prelude.{◌≡◌, ◌<◌, ◌∷◌, [], List, Bool, true, ℕ, length, IfOk, MatchOption, MatchResult};
ghost use Rattle.nona_tree.specs.declared.trees.Expr.TheVariants as expr;
ghost use Rattle.nona_grammar.specs.Levels.{named};
ghost use Rattle.nona_grammar.specs.Machine.{Want, In, Whole, Block, Do, ArrayName, CellsOpen, Cells, VarName, Init, InitNumber};
ghost use Rattle.nona_grammar.specs.Machine.{LetName, ForWord, ForName, LenName, sign_code};
ghost use Rattle.nona_grammar.specs.Stack.{Leaf, Bind, Each};
ghost use Rattle.nona_parse.specs.Declaring.{declares_one};
ghost use Rattle.nona_parse.specs.Steps.{Reads, Fails, Turns, same};

use crate::declarations::Decl;
use crate::fault::ReadFault;
use nona_lex::{Keyword, Sign, Spot, Token};
use nona_tree::{Name, Use};

/// The first token and those behind it.
pub fn split_first(spots: &[Spot]) -> Option<(&Spot, &[Spot])>
    ensures { MatchOption result (spots.now ≡ []) (λ x. spots.now ≡ x.0.now ∷ x.1.now) }
{
    match spots {
        [] => None,
        [first, later @ ..] => Some((first, later)),
    }
}

/// A number for each sign.
fn code_of(sign: Sign) -> u8
    ensures { result ≡ sign_code sign }
{
    match sign {
        Sign::Set => 0,
        Sign::Semicolon => 1,
        Sign::Comma => 2,
        Sign::Range => 3,
        Sign::Open => 4,
        Sign::Close => 5,
        Sign::OpenIndex => 6,
        Sign::CloseIndex => 7,
        Sign::OpenBlock => 8,
        Sign::CloseBlock => 9,
    }
}

/// Takes this sign.
pub fn sign(wanted: Sign, spots: &[Spot]) -> Result<&[Spot], ReadFault>
    ensures shorter { IfOk result (λ rest. length rest.now < length spots.now) }
    ensures read { MatchResult result
        (λ rest. Reads (Want wanted ∷ []) spots.now same rest.now)
        (λ fault. Fails fault (Want wanted ∷ []) spots.now) }
{
    match split_first(spots) {
        None => Err(ReadFault::Ended),
        Some((first, later)) => match &first.token {
            Token::Sign(found) => {
                if code_of(*found) == code_of(wanted) {
                    Ok(later)
                } else {
                    Err(ReadFault::Syntax { at: first.at })
                }
            }
            _ => Err(ReadFault::Syntax { at: first.at }),
        },
    }
}

/// Takes the word `in`.
pub fn in_word(spots: &[Spot]) -> Result<&[Spot], ReadFault>
    ensures shorter { IfOk result (λ rest. length rest.now < length spots.now) }
    ensures read { MatchResult result
        (λ rest. Reads (In ∷ []) spots.now same rest.now)
        (λ fault. Fails fault (In ∷ []) spots.now) }
{
    match split_first(spots) {
        None => Err(ReadFault::Ended),
        Some((first, later)) => match &first.token {
            Token::Word(Keyword::In) => Ok(later),
            _ => Err(ReadFault::Syntax { at: first.at }),
        },
    }
}

/// Takes the word `for` behind the word `seq`, and gives its place.
pub fn for_word(spots: &[Spot]) -> Result<(u32, &[Spot]), ReadFault>
    ensures shorter { IfOk result (λ x. length x.1.now < length spots.now) }
    ensures read { MatchResult result
        (λ x. Turns ForWord spots.now (ForName true x.0 ∷ []) x.1.now)
        (λ fault. Fails fault (ForWord ∷ []) spots.now) }
{
    match split_first(spots) {
        None => Err(ReadFault::Ended),
        Some((first, later)) => match &first.token {
            Token::Word(Keyword::For) => Ok((first.at, later)),
            _ => Err(ReadFault::Syntax { at: first.at }),
        },
    }
}

/// A name that stands at this place; its id isn't known yet.
pub fn use_of(text: &Name, at: u32) -> Use
    ensures { result ≡ named text.now at }
{
    Use::new(text.copy(), at)
}

/// Takes a name where nothing else may stand: that of an array, a variable, a new scalar, the index of a loop, or the
/// array whose length is asked for.
pub fn name(spots: &[Spot]) -> Result<(Use, &[Spot]), ReadFault>
    ensures shorter { IfOk result (λ x. length x.1.now < length spots.now) }
    ensures named { IfOk result (λ x. x.0 ≡ named x.0.text x.0.at) }
    ensures array { MatchResult result
        (λ x. Turns ArrayName spots.now (CellsOpen x.0.text x.0.at ∷ Want Sign.CloseIndex ∷ Want Sign.Semicolon ∷ []) x.1.now)
        (λ fault. Fails fault (ArrayName ∷ []) spots.now) }
    ensures variable { MatchResult result
        (λ x. Turns VarName spots.now (Init x.0.text x.0.at ∷ []) x.1.now)
        (λ fault. Fails fault (VarName ∷ []) spots.now) }
    ensures scalar { MatchResult result
        (λ x. Turns LetName spots.now (Want Sign.Set ∷ Whole ∷ Want Sign.Semicolon ∷ Do (Bind x.0) ∷ []) x.1.now)
        (λ fault. Fails fault (LetName ∷ []) spots.now) }
    ensures index { (seq : Bool) (at : ℕ) → MatchResult result
        (λ x. Turns (ForName seq at) spots.now (In ∷ Whole ∷ Want Sign.Range ∷ Whole ∷ Block ∷ Do (Each x.0 seq at) ∷ []) x.1.now)
        (λ fault. Fails fault (ForName seq at ∷ []) spots.now) }
    ensures measured { MatchResult result
        (λ x. Turns LenName spots.now (Do (Leaf (expr.Len x.0)) ∷ []) x.1.now)
        (λ fault. Fails fault (LenName ∷ []) spots.now) }
{
    match split_first(spots) {
        None => Err(ReadFault::Ended),
        Some((first, later)) => match &first.token {
            Token::Name(text) => Ok((use_of(text, first.at), later)),
            _ => Err(ReadFault::Syntax { at: first.at }),
        },
    }
}

/// Takes a number where nothing else may stand, and gives its place: the cells of an array, or the value of a variable.
pub fn number(spots: &[Spot]) -> Result<(i64, u32, &[Spot]), ReadFault>
    ensures shorter { IfOk result (λ x. length x.2.now < length spots.now) }
    ensures cells { (n : List ℕ) (at : ℕ) → MatchResult result
        (λ x. Reads (Cells n at ∷ []) spots.now (declares_one (Decl.Array (record { name = named n at; cells = x.0; cells_at = x.1 }))) x.2.now)
        (λ fault. Fails fault (Cells n at ∷ []) spots.now) }
    ensures value { (n : List ℕ) (at : ℕ) → MatchResult result
        (λ x. Reads (InitNumber n at ∷ []) spots.now (declares_one (Decl.Var (record { name = named n at; value = x.0 }))) x.2.now)
        (λ fault. Fails fault (InitNumber n at ∷ []) spots.now) }
{
    match split_first(spots) {
        None => Err(ReadFault::Ended),
        Some((first, later)) => match &first.token {
            Token::Number(n) => Ok((*n, first.at, later)),
            _ => Err(ReadFault::Syntax { at: first.at }),
        },
    }
}
