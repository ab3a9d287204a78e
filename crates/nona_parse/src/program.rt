ghost use Rattle.std.specs.Prelude.{◌≡◌, ◌≤◌, ◌⊎◌, ℕ, List, length, Ok, Err, IfOk, IfErr, MatchResult};
ghost use Rattle.nona_tree.specs.Numbers.{IsI64Program};
ghost use Rattle.nona_tree.specs.Places.{HasOwnPlaces};
ghost use Rattle.nona_tree.specs.Smallness.{IsSmall};
ghost use Rattle.nona_tree.specs.declared.trees.Program.{Program};
ghost use Rattle.nona_grammar.specs.Stack.{whole_of};
ghost use Rattle.nona_grammar.specs.Machine.{built};
ghost use Rattle.nona_grammar.specs.Grammar.{IsProgram};
ghost use Rattle.nona_lex.specs.Bounds.{tokens_of};
ghost use Rattle.nona_parse.specs.Steps.{IsStuck, IsUnread, refusal_of};
ghost use Rattle.nona_parse.specs.Reading.{IsReading, IsRefusal, IsRefusedFor, IsReadOrRefused};

use crate::blocks::statements;
use crate::declarations::declarations;
use crate::fault::{ParseFault, ReadFault};
use crate::pieces::split_first;
use nona_grammar::{
    fault_is_exact, grammar_is_read, programs_are_i64, programs_are_small, programs_have_places,
};
use nona_lex::{Cut, Fault, Spot, read_tokens, tokens_are_few, tokens_are_i64};
use nona_tree::Program;
use std::alloc::Global;

/// The most bytes of a program's text.
pub const TEXT_BYTES: usize = 1_048_576;

/// Reads the text of a program, of at most 2^20 bytes. The result is the one tree that the grammar gives the text; the
/// names in it have the id 0, since they are not resolved, its numbers have 64 bits, and its loops stand at places of
/// their own. Takes time and memory in proportion to the text, and stack in proportion to the brackets that are open at
/// once, of which there are 64 at most.
///
/// A text that is no program is refused for its first fault from the left. The only other refusal is `NoMemory`, after
/// which the text may still be a program.
pub fn parse(alloc: Global, text: &[u8]) -> Result<Program, ParseFault>
    requires { length text.now ≤ TEXT_BYTES }
    ensures reads { IfOk result (λ p. IsReading text.now p) }
    ensures small { IfOk result (λ p. IsSmall p) }
    ensures numbers { IfOk result (λ p. IsI64Program p) }
    ensures places { IfOk result (λ p. HasOwnPlaces p) }
    ensures refused { IfErr result (λ fault. IsRefusal text.now fault) }
    ensures every { (p : Program) → IsReading text.now p → (result ≡ Ok p) ⊎ (result ≡ Err ParseFault.NoMemory) }
{
    grammar_is_read();
    programs_are_small();
    programs_are_i64();
    programs_have_places();
    tokens_are_few();
    tokens_are_i64();
    let end = text.len() as u32;
    let Ok(tokens) = read_tokens(alloc, text) else {
        return Err(ParseFault::NoMemory);
    };
    let read = read_program(alloc, tokens.spots.as_slice());
    answer(end, tokens.cut, read)
}

/// The answer to a text that ends at `end`, by what its tokens were read as, and by their cut: a fault before the cut
/// comes first.
fn answer(
    end: u32,
    cut: Option<Cut>,
    read: Result<Program, ReadFault>,
) -> Result<Program, ParseFault>
    ensures { (text : List ℕ) → end ≡ length text → cut ≡ (tokens_of text).cut
        → MatchResult read (λ p. IsProgram (tokens_of text).spots p) (λ fault. IsUnread fault (tokens_of text).spots)
        → MatchResult result (λ p. IsReading text p) (λ fault. IsRefusal text fault) }
{
    match read {
        Ok(program) => match cut {
            None => Ok(program),
            Some(cut) => Err(cut_fault(cut)),
        },
        Err(ReadFault::Ended) => match cut {
            None => Err(ParseFault::Syntax { at: end }),
            Some(cut) => Err(cut_fault(cut)),
        },
        Err(ReadFault::Syntax { at }) => Err(ParseFault::Syntax { at }),
        Err(ReadFault::NoMemory) => Err(ParseFault::NoMemory),
    }
}

/// The refusal for a cut.
fn cut_fault(cut: Cut) -> ParseFault
    ensures { result ≡ refusal_of cut.fault cut.at }
{
    let at = cut.at;
    match cut.fault {
        Fault::Byte => ParseFault::Byte { at },
        Fault::Number => ParseFault::Number { at },
        Fault::NameLong => ParseFault::NameLong { at },
        Fault::Deep => ParseFault::Deep { at },
    }
}

/// The program that these tokens are.
fn read_program(alloc: Global, spots: &[Spot]) -> Result<Program, ReadFault>
    ensures { MatchResult result (λ p. IsProgram spots.now p) (λ fault. IsUnread fault spots.now) }
{
    grammar_is_read();
    fault_is_exact();
    match build_program(alloc, spots) {
        Ok(program) => Ok(program),
        Err(fault) => Err(fault),
    }
}

/// The program that the machine makes of these tokens.
fn build_program(alloc: Global, spots: &[Spot]) -> Result<Program, ReadFault>
    ensures { MatchResult result
        (λ p. (end : ℕ) → built end spots.now ≡ Ok (whole_of p))
        (λ fault. IsStuck fault spots.now) }
{
    let (declared, rest) = declarations(alloc, spots)?;
    let (body, behind) = statements(alloc, rest)?;
    match split_first(behind) {
        None => Ok(Program {
            arrays: declared.arrays,
            vars: declared.vars,
            body,
        }),
        Some((first, _)) => Err(ReadFault::Syntax { at: first.at }),
    }
}

/// Says that no text is two programs. It does nothing when called.
pub fn reads_one_tree()
    ensures { (text : List ℕ) (p q : Program) → IsReading text p → IsReading text q → p ≡ q }
{
    grammar_is_read();
}

/// Says that each text is a program or is refused for a reason, never both, and for one reason alone. It does nothing
/// when called.
pub fn refuses_for_one_reason()
    ensures some { (text : List ℕ) → IsReadOrRefused text }
    ensures other { (text : List ℕ) (p : Program) (fault : ParseFault) → IsReading text p → ¬ IsRefusedFor text fault }
    ensures one { (text : List ℕ) (f g : ParseFault) → IsRefusedFor text f → IsRefusedFor text g → f ≡ g }
{
    grammar_is_read();
    fault_is_exact();
}
