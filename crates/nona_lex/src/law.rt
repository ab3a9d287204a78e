// Laws of the tokens of every text.

ghost use Rattle.std.specs.Prelude.{◌≤◌, ℕ, List, length};
ghost use Rattle.nona_lex.specs.Bounds.{tokens_of};
ghost use Rattle.nona_lex.specs.Laws.{FrontIsSpelled, FrontIsLongest, LexemesFollow, AreSpread, AreI64Tokens};

/// The longest match, for every text: where a token stands at the front, its bytes spell it, and no longer front of
/// the text spells any token. Where no token stands there, a front of the text spells one only if it is a word or a
/// number out of bounds. Behind a token, a blank or a comment the rest of the text is read in the same way.
pub fn longest_match()
    ensures spelled { FrontIsSpelled }
    ensures longest { FrontIsLongest }
    ensures onward { LexemesFollow }
{}

/// A text has no more tokens than bytes.
pub fn tokens_are_few()
    ensures { (text : List ℕ) → length (tokens_of text).spots ≤ length text }
{}

/// Before, between and behind the tokens of a text stand blanks and comments alone, and the bytes at each one's place
/// spell it: up to the text's end, or to the place of the cut.
pub fn gaps_are_blank()
    ensures { (text : List ℕ) → AreSpread 0 text (tokens_of text) }
{}

/// The numbers among the tokens of a text have 64 bits.
pub fn tokens_are_i64()
    ensures { (text : List ℕ) → AreI64Tokens (tokens_of text).spots }
{}
