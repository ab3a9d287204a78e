//! Plain texts that users write beside programs: their lines, the pieces between blanks, and numbers.
//!
//! `specs/` says what they are: `Bytes` which bytes are blanks and digits, `Pieces` where pieces and lines begin and end,
//! `Digits` which bytes are numbers, and `Fronts` what the first of them leaves behind.
#![tactic(auto)]

mod bytes;
mod digits;
mod law;
mod lines;
mod pieces;

pub use bytes::{is_blank, is_digit};
pub use digits::{DIGITS, FARTHEST, GREATEST, number_within, signed_number, value};
pub use law::numbers_are_within;
pub use lines::{FirstLine, first_line, without_cr};
pub use pieces::{FirstPiece, first_token, first_word};
