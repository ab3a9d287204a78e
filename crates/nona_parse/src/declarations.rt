ghost use Rattle.std.specs.Prelude.{◌≡◌, ◌<◌, ◌≤◌, ◌∷◌, [], ℕ, List, length, IfOk, IfSome, MatchOption, MatchResult};
ghost use Rattle.nona_grammar.specs.Levels.{named};
ghost use Rattle.nona_grammar.specs.Stack.{Trees};
ghost use Rattle.nona_grammar.specs.Machine.{Decls, ArrayName, CellsOpen, VarName, Init, InitNumber, Want};
ghost use Rattle.nona_parse.specs.Declaring.{name_of, declares_one};
ghost use Rattle.nona_parse.specs.Steps.{Reads, Fails, Turns, same, declares};

use crate::fault::ReadFault;
use crate::pieces::{name, number, sign, split_first};
use nona_lex::{Keyword, Sign, Spot, Token};
use nona_tree::{ArrayDecl, VarDecl};
use sqlite_items::Items;
use std::alloc::Global;

/// What a declaration is of.
#[derive(Clone, Copy)]
pub enum Kind {
    Array,
    Var,
}

/// A declaration.
#[derive(Drop)]
pub enum Decl {
    Array(ArrayDecl),
    Var(VarDecl),
}

/// The arrays and the variables that were declared so far, each in text order.
#[derive(Drop)]
pub struct Declared {
    pub arrays: Items<ArrayDecl>,
    pub vars: Items<VarDecl>,
}

impl Declared {
    /// Puts a declaration behind the others.
    fn add(&mut self, decl: Decl) -> Result<(), ReadFault>
        ensures { MatchResult result
            (λ _. (v : Trees) → declares self.new.arrays self.new.vars v ≡ declares_one decl (declares self.old.arrays self.old.vars v))
            (λ fault. fault ≡ ReadFault.NoMemory) }
    {
        let added = match decl {
            Decl::Array(array) => self.arrays.push(array),
            Decl::Var(var) => self.vars.push(var),
        };
        match added {
            Ok(()) => Ok(()),
            Err(_) => Err(ReadFault::NoMemory),
        }
    }
}

/// Declarations, up to what is none.
pub fn declarations(alloc: Global, spots: &[Spot]) -> Result<(Declared, &[Spot]), ReadFault>
    ensures shorter { IfOk result (λ x. length x.1.now ≤ length spots.now) }
    ensures read { MatchResult result
        (λ x. Reads (Decls ∷ []) spots.now (declares x.0.arrays x.0.vars) x.1.now)
        (λ fault. Fails fault (Decls ∷ []) spots.now) }
{
    let mut declared = Declared {
        arrays: Items::new(alloc),
        vars: Items::new(alloc),
    };
    let mut rest = spots;
    while let Some((kind, later)) = first_word(rest) {
        match declaration(kind, later) {
            Ok((next, behind)) => {
                if let Err(fault) = declared.add(next) {
                    return Err(fault);
                }
                rest = behind;
            }
            Err(fault) => return Err(fault),
        }
    }
    Ok((declared, rest))
}

/// What the declaration is of that the tokens begin with, and the tokens behind its first word.
fn first_word(spots: &[Spot]) -> Option<(Kind, &[Spot])>
    ensures shorter { IfSome result (λ x. length x.1.now < length spots.now) }
    ensures read { MatchOption result
        (Turns Decls spots.now [] spots.now)
        (λ x. Turns Decls spots.now (name_of x.0 ∷ Decls ∷ []) x.1.now) }
{
    match split_first(spots) {
        None => None,
        Some((first, later)) => match first.token {
            Token::Word(Keyword::Array) => Some((Kind::Array, later)),
            Token::Word(Keyword::Var) => Some((Kind::Var, later)),
            _ => None,
        },
    }
}

/// A declaration behind its first word.
fn declaration(kind: Kind, spots: &[Spot]) -> Result<(Decl, &[Spot]), ReadFault>
    ensures shorter { IfOk result (λ x. length x.1.now < length spots.now) }
    ensures read { MatchResult result
        (λ x. Reads (name_of kind ∷ []) spots.now (declares_one x.0) x.1.now)
        (λ fault. Fails fault (name_of kind ∷ []) spots.now) }
{
    match kind {
        Kind::Array => array(spots),
        Kind::Var => variable(spots),
    }
}

/// `NAME [ NUMBER ] ;` behind the word `array`.
fn array(spots: &[Spot]) -> Result<(Decl, &[Spot]), ReadFault>
    ensures shorter { IfOk result (λ x. length x.1.now < length spots.now) }
    ensures read { MatchResult result
        (λ x. Reads (ArrayName ∷ []) spots.now (declares_one x.0) x.1.now)
        (λ fault. Fails fault (ArrayName ∷ []) spots.now) }
{
    let (name, rest) = name(spots)?;
    match cells(rest) {
        Ok((cells, cells_at, behind)) => Ok((
            Decl::Array(ArrayDecl {
                name,
                cells,
                cells_at,
            }),
            behind,
        )),
        Err(fault) => Err(fault),
    }
}

/// `[ NUMBER ] ;` behind the name of an array: the number of its cells, and its place.
fn cells(spots: &[Spot]) -> Result<(i64, u32, &[Spot]), ReadFault>
    ensures shorter { IfOk result (λ x. length x.2.now < length spots.now) }
    ensures read { (n : List ℕ) (at : ℕ) → MatchResult result
        (λ x. Reads (CellsOpen n at ∷ Want Sign.CloseIndex ∷ Want Sign.Semicolon ∷ []) spots.now
        (declares_one (Decl.Array (record { name = named n at; cells = x.0; cells_at = x.1 }))) x.2.now)
        (λ fault. Fails fault (CellsOpen n at ∷ Want Sign.CloseIndex ∷ Want Sign.Semicolon ∷ []) spots.now) }
{
    match sign(Sign::OpenIndex, spots) {
        Ok(inner) => match number(inner) {
            Ok((cells, at, rest)) => match array_end(rest) {
                Ok(behind) => Ok((cells, at, behind)),
                Err(fault) => Err(fault),
            },
            Err(fault) => Err(fault),
        },
        Err(fault) => Err(fault),
    }
}

/// `] ;` behind the number of an array's cells.
fn array_end(spots: &[Spot]) -> Result<&[Spot], ReadFault>
    ensures shorter { IfOk result (λ rest. length rest.now < length spots.now) }
    ensures read { MatchResult result
        (λ rest. Reads (Want Sign.CloseIndex ∷ Want Sign.Semicolon ∷ []) spots.now same rest.now)
        (λ fault. Fails fault (Want Sign.CloseIndex ∷ Want Sign.Semicolon ∷ []) spots.now) }
{
    let rest = sign(Sign::CloseIndex, spots)?;
    sign(Sign::Semicolon, rest)
}

/// `NAME ;` or `NAME = NUMBER ;` behind the word `var`.
fn variable(spots: &[Spot]) -> Result<(Decl, &[Spot]), ReadFault>
    ensures shorter { IfOk result (λ x. length x.1.now < length spots.now) }
    ensures read { MatchResult result
        (λ x. Reads (VarName ∷ []) spots.now (declares_one x.0) x.1.now)
        (λ fault. Fails fault (VarName ∷ []) spots.now) }
{
    let (name, rest) = name(spots)?;
    match initial(rest) {
        Ok((value, behind)) => Ok((Decl::Var(VarDecl { name, value }), behind)),
        Err(fault) => Err(fault),
    }
}

/// `;` or `= NUMBER ;` behind the name of a variable: its value, which is 0 where no number stands there.
fn initial(spots: &[Spot]) -> Result<(i64, &[Spot]), ReadFault>
    ensures shorter { IfOk result (λ x. length x.1.now < length spots.now) }
    ensures read { (n : List ℕ) (at : ℕ) → MatchResult result
        (λ x. Reads (Init n at ∷ []) spots.now (declares_one (Decl.Var (record { name = named n at; value = x.0 }))) x.1.now)
        (λ fault. Fails fault (Init n at ∷ []) spots.now) }
{
    match split_first(spots) {
        None => Err(ReadFault::Ended),
        Some((first, later)) => match first.token {
            Token::Sign(Sign::Semicolon) => Ok((0, later)),
            Token::Sign(Sign::Set) => number_and_end(later),
            _ => Err(ReadFault::Syntax { at: first.at }),
        },
    }
}

/// `NUMBER ;` behind the `=` of a variable.
fn number_and_end(spots: &[Spot]) -> Result<(i64, &[Spot]), ReadFault>
    ensures shorter { IfOk result (λ x. length x.1.now < length spots.now) }
    ensures read { (n : List ℕ) (at : ℕ) → MatchResult result
        (λ x. Reads (InitNumber n at ∷ Want Sign.Semicolon ∷ []) spots.now
        (declares_one (Decl.Var (record { name = named n at; value = x.0 }))) x.1.now)
        (λ fault. Fails fault (InitNumber n at ∷ Want Sign.Semicolon ∷ []) spots.now) }
{
    match number(spots) {
        Ok((value, _, rest)) => match sign(Sign::Semicolon, rest) {
            Ok(behind) => Ok((value, behind)),
            Err(fault) => Err(fault),
        },
        Err(fault) => Err(fault),
    }
}
