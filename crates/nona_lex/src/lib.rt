//! Bytes of a program's text to tokens.
//!
//! `specs/` says what the tokens of a text are: `Words` and `Signs` how each is spelled, `Lexis` the list by the
//! longest match, and `Bounds` how deep brackets and operators may stand. `Spelling` and `Laws` say in words of the
//! text alone what the longest match is, and that blanks and comments alone stand between tokens.
#![tactic(auto)]

mod bounds;
mod law;
mod lexemes;
mod lexer;
mod tokens;

pub use bounds::{BRACKETS, OPERATORS};
pub use law::{gaps_are_blank, longest_match, tokens_are_few, tokens_are_i64};
pub use lexer::read_tokens;
pub use tokens::{Cut, Fault, Keyword, Operator, Sign, Spot, Token, Tokens};
