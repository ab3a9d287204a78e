// What stands where a token may begin.

ghost use Rattle.std.specs.Prelude.{◌≡◌, ◌+◌, ◌<◌, ◌≤◌, ◌^◌, length, take_while, pos};
ghost use Rattle.nona_text.specs.Bytes.{is_digit};
ghost use Rattle.nona_lex.specs.Words.{is_letter, is_word_byte, is_comment_byte, keyword_of, fold_word};
ghost use Rattle.nona_lex.specs.Signs.{with_equals, doubled, token_of_two, operator_of_one, sign_of_one, token_of_one};
ghost use Rattle.nona_lex.specs.Lexis.{word_token, begins_with, word_lexeme, number_lexeme, single_lexeme, sign_lexeme};
ghost use Rattle.nona_lex.specs.Progress.{FitsIn, IsLexeme};

use crate::tokens::{Fault, Keyword, Operator, Sign, Token};
use nona_num::Fold;
use nona_text::{GREATEST, is_blank, is_digit, value};
use nona_tree::{NAME_BYTES, Name};

/// What stands where a token may begin, and how many bytes it has.
#[derive(Debug, Drop)]
pub enum Lexeme {
    /// A blank or a comment.
    Gap(usize),
    Found(Token, usize),
    Refused(Fault),
}

fn is_letter(b: u8) -> bool
    ensures { result ≡ is_letter b }
{
    b'a' <= b && b <= b'z'
}

fn is_word_byte(b: u8) -> bool
    ensures { result ≡ is_word_byte b }
{
    is_letter(b) || is_digit(b) || b == b'_'
}

fn word_len(bytes: &[u8]) -> usize
    ensures { result ≡ length (take_while is_word_byte bytes.now) }
{
    bytes.iter().take_while(|b| is_word_byte(**b)).count()
}

fn digits_len(bytes: &[u8]) -> usize
    ensures { result ≡ length (take_while is_digit bytes.now) }
{
    bytes.iter().take_while(|b| is_digit(**b)).count()
}

fn comment_len(bytes: &[u8]) -> usize
    ensures { result ≡ length (take_while is_comment_byte bytes.now) }
{
    bytes.iter().take_while(|b| **b != b'\n').count()
}

#[tactic(auto, unfolding(crate::specs::Words::keyword_of))]
fn keyword(word: &[u8]) -> Option<Keyword>
    ensures { result ≡ keyword_of word.now }
{
    match word {
        b"array" => Some(Keyword::Array),
        b"var" => Some(Keyword::Var),
        b"let" => Some(Keyword::Let),
        b"if" => Some(Keyword::If),
        b"else" => Some(Keyword::Else),
        b"while" => Some(Keyword::While),
        b"for" => Some(Keyword::For),
        b"in" => Some(Keyword::In),
        b"seq" => Some(Keyword::Seq),
        b"print" => Some(Keyword::Print),
        b"len" => Some(Keyword::Len),
        b"wrap" => Some(Keyword::Wrap),
        b"min" => Some(Keyword::Min),
        b"max" => Some(Keyword::Max),
        b"leave" => Some(Keyword::Leave),
        b"when" => Some(Keyword::When),
        _ => None,
    }
}

/// The fold that this word is with `=` behind it.
fn fold_word(word: &[u8]) -> Option<Fold>
    ensures { result ≡ fold_word word.now }
{
    if word == b"min".as_slice() {
        Some(Fold::Min)
    } else if word == b"max".as_slice() {
        Some(Fold::Max)
    } else {
        None
    }
}

fn word_token(word: &[u8]) -> Token
    requires { length word.now ≤ NAME_BYTES }
    ensures { result ≡ word_token (keyword_of word.now) word.now }
{
    match keyword(word) {
        Some(keyword) => Token::Word(keyword),
        None => Token::Name(Name::of(word)),
    }
}

fn begins_with_equals(bytes: &[u8]) -> bool
    ensures { result ≡ begins_with 61 bytes.now }
{
    match bytes {
        [b, ..] => *b == b'=',
        [] => false,
    }
}

/// The lexeme of a word and the bytes behind it.
fn word(word: &[u8], behind: &[u8]) -> Lexeme
    ensures value { result ≡ word_lexeme word.now behind.now }
{
    if word.len() > NAME_BYTES {
        return Lexeme::Refused(Fault::NameLong);
    }
    match fold_word(word) {
        Some(fold) if begins_with_equals(behind) => Lexeme::Found(
            Token::Fold(fold),
            word.len() + 1,
        ),
        _ => Lexeme::Found(word_token(word), word.len()),
    }
}

/// The token of a number.
fn number_token(value: u64) -> Token
    requires { value < 2 ^ 63 }
    ensures { result ≡ Token.Number (pos value) }
{
    Token::Number(value as i64)
}

fn number(digits: &[u8]) -> Lexeme
    ensures { result ≡ number_lexeme digits.now }
{
    let value = value(digits);
    if value > GREATEST {
        Lexeme::Refused(Fault::Number)
    } else {
        Lexeme::Found(number_token(value), digits.len())
    }
}

#[tactic(auto, unfolding(crate::specs::Signs::with_equals))]
fn with_equals(b: u8) -> Option<Token>
    ensures { result ≡ with_equals b }
{
    match b {
        b'+' => Some(Token::Fold(Fold::Add)),
        b'*' => Some(Token::Fold(Fold::Mul)),
        b'&' => Some(Token::Fold(Fold::And)),
        b'|' => Some(Token::Fold(Fold::Or)),
        b'^' => Some(Token::Fold(Fold::Xor)),
        b'=' => Some(Token::Operator(Operator::Eq)),
        b'!' => Some(Token::Operator(Operator::Ne)),
        b'<' => Some(Token::Operator(Operator::Le)),
        b'>' => Some(Token::Operator(Operator::Ge)),
        _ => None,
    }
}

#[tactic(auto, unfolding(crate::specs::Signs::doubled))]
fn doubled(b: u8) -> Option<Token>
    ensures { result ≡ doubled b }
{
    match b {
        b'<' => Some(Token::Operator(Operator::Shl)),
        b'>' => Some(Token::Operator(Operator::Shr)),
        b'.' => Some(Token::Sign(Sign::Range)),
        _ => None,
    }
}

#[tactic(auto, unfolding(crate::specs::Signs::token_of_two))]
fn token_of_two(b: u8, c: u8) -> Option<Token>
    ensures { result ≡ token_of_two b c }
{
    if c == b'=' {
        with_equals(b)
    } else if b == c {
        doubled(b)
    } else {
        None
    }
}

#[tactic(auto, unfolding(crate::specs::Signs::operator_of_one))]
fn operator_of_one(b: u8) -> Option<Token>
    ensures { result ≡ operator_of_one b }
{
    match b {
        b'+' => Some(Token::Operator(Operator::Add)),
        b'-' => Some(Token::Operator(Operator::Sub)),
        b'*' => Some(Token::Operator(Operator::Mul)),
        b'/' => Some(Token::Operator(Operator::Div)),
        b'%' => Some(Token::Operator(Operator::Rem)),
        b'&' => Some(Token::Operator(Operator::And)),
        b'|' => Some(Token::Operator(Operator::Or)),
        b'^' => Some(Token::Operator(Operator::Xor)),
        b'<' => Some(Token::Operator(Operator::Lt)),
        b'>' => Some(Token::Operator(Operator::Gt)),
        b'!' => Some(Token::Operator(Operator::Not)),
        _ => None,
    }
}

#[tactic(auto, unfolding(crate::specs::Signs::sign_of_one))]
fn sign_of_one(b: u8) -> Option<Token>
    ensures { result ≡ sign_of_one b }
{
    match b {
        b'=' => Some(Token::Sign(Sign::Set)),
        b';' => Some(Token::Sign(Sign::Semicolon)),
        b',' => Some(Token::Sign(Sign::Comma)),
        b'(' => Some(Token::Sign(Sign::Open)),
        b')' => Some(Token::Sign(Sign::Close)),
        b'[' => Some(Token::Sign(Sign::OpenIndex)),
        b']' => Some(Token::Sign(Sign::CloseIndex)),
        b'{' => Some(Token::Sign(Sign::OpenBlock)),
        b'}' => Some(Token::Sign(Sign::CloseBlock)),
        _ => None,
    }
}

fn token_of_one(b: u8) -> Option<Token>
    ensures { result ≡ token_of_one b }
{
    match operator_of_one(b) {
        Some(token) => Some(token),
        None => sign_of_one(b),
    }
}

/// The lexeme of one byte.
fn single(b: u8) -> Lexeme
    ensures { result ≡ single_lexeme (token_of_one b) }
{
    match token_of_one(b) {
        Some(token) => Lexeme::Found(token, 1),
        None => Lexeme::Refused(Fault::Byte),
    }
}

/// The lexeme of a byte that begins neither a word nor a number, and the bytes behind it.
fn sign(b: u8, behind: &[u8]) -> Lexeme
    ensures value { result ≡ sign_lexeme b behind.now }
    ensures within { FitsIn result (length behind.now + 1) }
{
    match behind {
        [] => single(b),
        [c, ..] => match token_of_two(b, *c) {
            Some(token) => Lexeme::Found(token, 2),
            None => single(b),
        },
    }
}

/// The lexeme at the front of bytes.
#[tactic(auto, unfolding(crate::specs::Lexis::lexeme_of))]
pub fn first_lexeme(bytes: &[u8]) -> Lexeme
    requires { 0 < length bytes.now }
    ensures { IsLexeme bytes.now result }
{
    match bytes {
        [] => unreachable!(),
        [first, behind @ ..] => {
            let first = *first;
            if is_blank(first) {
                Lexeme::Gap(1)
            } else if first == b'#' {
                Lexeme::Gap(comment_len(bytes))
            } else if is_letter(first) {
                let (front, back) = bytes.split_at(word_len(bytes));
                word(front, back)
            } else if is_digit(first) {
                let (front, _) = bytes.split_at(digits_len(bytes));
                number(front)
            } else {
                sign(first, behind)
            }
        }
    }
}
