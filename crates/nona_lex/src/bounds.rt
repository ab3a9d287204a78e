// The counts of open brackets and of operators.

ghost use Rattle.std.specs.Prelude.{◌≡◌, IfOk, None, Some, true};
ghost use Rattle.nona_lex.specs.Bounds.{no_counts, behind_opening, behind_operator, behind_closing, restarted, behind_sign, behind_token};
ghost use Rattle.nona_lex.specs.Progress.{counts_of, if_admitted};

use crate::tokens::{Sign, Token};
use sqlite_items::Items;
use std::alloc::{AllocError, Global};

/// The most brackets that are open at once.
pub const BRACKETS: usize = 64;

/// The most operators of one count.
pub const OPERATORS: usize = 64;

/// Where a token stands: the operators of its count, and those of the count before each open bracket.
#[derive(Debug, Drop)]
pub struct Counter {
    operators: usize,
    /// The newest bracket's is the last.
    outside: Items<usize>,
}

impl Counter {
    /// The counts before the first token: no operator, and no open bracket.
    pub fn new(alloc: Global) -> Counter
        ensures { counts_of result ≡ no_counts }
    {
        Counter {
            operators: 0,
            outside: Items::new(alloc),
        }
    }

    /// Whether the token may stand there, and counts it if so.
    pub fn admits(&mut self, token: &Token) -> Result<bool, AllocError>
        ensures { IfOk result (λ b. if_admitted b self.new ≡ behind_token token.now (counts_of self.old)) }
    {
        match token {
            Token::Sign(sign) => self.admits_sign(*sign),
            Token::Operator(_) => Ok(self.operate()),
            _ => Ok(true),
        }
    }

    fn admits_sign(&mut self, sign: Sign) -> Result<bool, AllocError>
        ensures { IfOk result (λ b. if_admitted b self.new ≡ behind_sign sign (counts_of self.old)) }
    {
        match sign {
            Sign::Open | Sign::OpenIndex | Sign::OpenBlock => return self.open(),
            Sign::Close | Sign::CloseIndex => self.close(),
            Sign::CloseBlock => {
                self.close();
                self.operators = 0;
            }
            Sign::Semicolon => self.operators = 0,
            Sign::Set | Sign::Comma | Sign::Range => {}
        }
        Ok(true)
    }

    fn open(&mut self) -> Result<bool, AllocError>
        ensures { IfOk result (λ b. if_admitted b self.new ≡ behind_opening (counts_of self.old)) }
    {
        if self.outside.len() >= BRACKETS {
            return Ok(false);
        }
        self.outside.push(self.operators)?;
        self.operators = 0;
        Ok(true)
    }

    fn operate(&mut self) -> bool
        ensures { if_admitted result self.new ≡ behind_operator (counts_of self.old) }
    {
        if self.operators >= OPERATORS {
            return false;
        }
        self.operators += 1;
        true
    }

    fn close(&mut self)
        ensures { counts_of self.new ≡ behind_closing (counts_of self.old) }
    {
        if let Some(operators) = self.outside.pop() {
            self.operators = operators;
        }
    }
}
