ghost use Rattle.std.specs.Prelude.{◌≡◌, ◌≢◌, ◌≤◌, ◌^◌, length, All, Ok, Err, IfOk, IfErr, OnOk, MatchResult};
ghost use Rattle.nona_tree.specs.Numbers.{IsI64};
ghost use Rattle.nona_store.specs.Input.{number_bound, with_token, numbers_of};

use nona_text::{first_token, signed_number};
use std::alloc::{AllocFailed, Global};

/// The most numbers of an input.
pub const NUMBERS: usize = 1048576;

/// Why the text of an input is refused.
#[derive(Clone, Copy, Debug, PartialEq, Eq)]
pub enum InputFault {
    /// A token is no number: an optional `-` and one or more digits, whose value is an `i64`. Its first byte stands at
    /// `at`, counted from 0.
    Token { at: u32 },
    /// There are more than 1,048,576 tokens, and the first 1,048,576 are numbers.
    Count,
    /// Memory ran out, which says nothing of the text.
    NoMemory,
}

impl From<AllocFailed<i64>> for InputFault {
    ghost use Rattle.std.specs.Prelude.{◌≡◌};
    ghost use Rattle.nona_store.specs.declared.input.InputFault.TheVariants.{NoMemory};

    ghost from_gives = { λ _ fault. fault ≡ NoMemory };

    fn from(_error: AllocFailed<i64>) -> InputFault {
        InputFault::NoMemory
    }
}

// Puts the number that a token at a place is behind the others.
fn add_token(numbers: &mut Vec<i64>, at: u32, token: &[u8]) -> Result<(), InputFault>
    ensures token { MatchResult result
        (λ _. with_token numbers.old.items at token.now ≡ Ok numbers.new.items)
        (λ fault. fault ≢ InputFault.NoMemory → with_token numbers.old.items at token.now ≡ Err fault) }
    ensures numbers { OnOk result (All IsI64 numbers.old.items → All IsI64 numbers.new.items) }
{
    if numbers.len() >= NUMBERS {
        return Err(InputFault::Count);
    }
    match signed_number(token) {
        None => Err(InputFault::Token { at }),
        Some(value) => {
            numbers.push(value)?;
            Ok(())
        }
    }
}

/// The numbers of an input's text, of at most 33,554,432 bytes: tokens between spaces, tabs, CR and LF. The answer has at
/// most 1,048,576 numbers, each of 64 bits. The first token that is no number is refused by its place, and where 1,048,576 numbers stand
/// before another token, their count is. Takes time and memory in proportion to the text.
pub fn read_numbers(alloc: Global, text: &[u8]) -> Result<Vec<i64>, InputFault>
    requires { length text.now ≤ 2 ^ 25 }
    ensures reads { IfOk result (λ numbers. numbers_of text.now ≡ Ok numbers.items) }
    ensures few { IfOk result (λ numbers. length numbers.items ≤ number_bound) }
    ensures numbers { IfOk result (λ numbers. All IsI64 numbers.items) }
    ensures refused { IfErr result (λ fault. fault ≢ InputFault.NoMemory → numbers_of text.now ≡ Err fault) }
{
    let mut numbers = Vec::new(alloc);
    let mut at = 0;
    let mut rest = text;
    while let Some(first) = first_token(rest) {
        at += first.blanks;
        add_token(&mut numbers, at as u32, first.bytes)?;
        at += first.bytes.len();
        rest = first.behind;
    }
    Ok(numbers)
}
