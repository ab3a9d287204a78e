// The loop over a text.

ghost use Rattle.std.specs.Prelude.{◌≡◌, ◌<◌, ◌^◌, length, IfOk};
ghost use Rattle.nona_lex.specs.Bounds.{tokens_of};

use crate::bounds::Counter;
use crate::lexemes::{Lexeme, first_lexeme};
use crate::tokens::{Cut, Fault, Spot, Tokens};
use sqlite_items::Items;
use std::alloc::{AllocError, Global};

/// The tokens of a text of fewer than 2^32 bytes, in order, up to its end or to the first place where one may not
/// stand. Words, numbers and signs are taken by the longest match; blanks and comments, from `#` to the end of the
/// line, stand between them. Takes time in proportion to the text. An error is that memory ran out.
pub fn read_tokens(alloc: Global, text: &[u8]) -> Result<Tokens, AllocError>
    requires { length text.now < 2 ^ 32 }
    ensures exact { IfOk result (λ t. t ≡ tokens_of text.now) }
{
    let mut spots = Items::new(alloc);
    let mut counter = Counter::new(alloc);
    let mut at = 0;
    while at < text.len() {
        let (_, rest) = text.split_at(at);
        let place = at as u32;
        match first_lexeme(rest) {
            Lexeme::Gap(len) => at += len,
            Lexeme::Found(token, len) => {
                if !counter.admits(&token)? {
                    return Ok(cut_at(spots, Fault::Deep, place));
                }
                spots.push(Spot { token, at: place })?;
                at += len;
            }
            Lexeme::Refused(fault) => return Ok(cut_at(spots, fault, place)),
        }
    }
    Ok(Tokens { spots, cut: None })
}

/// These tokens, and the end of the list at a place.
fn cut_at(spots: Items<Spot>, fault: Fault, at: u32) -> Tokens
    ensures { result ≡ record { spots = spots; cut = Some (record { fault = fault; at = at }) } }
{
    let cut = Some(Cut { fault, at });
    Tokens { spots, cut }
}
