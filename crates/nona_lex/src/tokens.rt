use nona_num::Fold;
use nona_tree::Name;
use sqlite_items::Items;

/// A reserved word. Those without a place in the language yet are reserved all the same.
#[derive(Clone, Copy, Debug, PartialEq, Eq)]
pub enum Keyword {
    Array,
    Var,
    Let,
    If,
    Else,
    While,
    For,
    In,
    Seq,
    Print,
    Len,
    Wrap,
    Min,
    Max,
    Leave,
    When,
}

/// A sign that stands between other tokens.
#[derive(Clone, Copy, Debug, PartialEq, Eq)]
pub enum Sign {
    /// `=`
    Set,
    /// `;`
    Semicolon,
    /// `,`
    Comma,
    /// `..`
    Range,
    /// `(`
    Open,
    /// `)`
    Close,
    /// `[`
    OpenIndex,
    /// `]`
    CloseIndex,
    /// `{`
    OpenBlock,
    /// `}`
    CloseBlock,
}

/// An operator of an expression.
#[derive(Clone, Copy, Debug, PartialEq, Eq)]
pub enum Operator {
    /// `+`
    Add,
    /// `-`
    Sub,
    /// `*`
    Mul,
    /// `/`
    Div,
    /// `%`
    Rem,
    /// `&`
    And,
    /// `|`
    Or,
    /// `^`
    Xor,
    /// `<<`
    Shl,
    /// `>>`
    Shr,
    /// `==`
    Eq,
    /// `!=`
    Ne,
    /// `<`
    Lt,
    /// `<=`
    Le,
    /// `>`
    Gt,
    /// `>=`
    Ge,
    /// `!`
    Not,
}

/// A token.
#[derive(Debug, Drop)]
pub enum Token {
    Word(Keyword),
    Name(Name),
    Number(i64),
    /// `+= *= &= |= ^= min= max=`
    Fold(Fold),
    Operator(Operator),
    Sign(Sign),
}

/// A token and the place of its first byte, from 0.
#[derive(Debug, Drop)]
pub struct Spot {
    pub token: Token,
    pub at: u32,
}

/// What no list of tokens goes past.
#[derive(Clone, Copy, Debug, PartialEq, Eq)]
pub enum Fault {
    /// No token begins with this byte.
    Byte,
    /// These digits spell a number above 9223372036854775807.
    Number,
    /// This word has more than 32 bytes.
    NameLong,
    /// One bracket or operator more than may stand there.
    Deep,
}

/// The end of a list of tokens before the end of the text: what stands there, and its first byte's place.
#[derive(Clone, Copy, Debug, PartialEq, Eq)]
pub struct Cut {
    pub fault: Fault,
    pub at: u32,
}

/// The tokens of a text in order, up to its end or to the cut.
#[derive(Debug, Drop)]
pub struct Tokens {
    pub spots: Items<Spot>,
    pub cut: Option<Cut>,
}
