// The pieces of bytes, one by one.

ghost use Rattle.std.specs.Prelude.{◌≡◌, ◌+◌, not, length, take_while};
ghost use Rattle.nona_text.specs.Bytes.{is_blank};
ghost use Rattle.nona_text.specs.Pieces.{is_space};
ghost use Rattle.nona_text.specs.Fronts.{IsFirstPiece};

use crate::bytes::is_blank;

/// The first piece of bytes: how many blanks stand before it, its own bytes, of which there is one at least, and the bytes
/// behind it.
#[derive(Clone, Copy, Debug)]
pub struct FirstPiece<'a> {
    pub blanks: usize,
    pub bytes: &'a [u8],
    pub behind: &'a [u8],
}

fn is_space(b: u8) -> bool
    ensures { result ≡ is_space b }
{
    b == b' ' || b == b'\t'
}

fn blanks_len(bytes: &[u8]) -> usize
    ensures { result ≡ length (take_while is_blank bytes.now) }
{
    bytes.iter().take_while(|b| is_blank(**b)).count()
}

fn token_len(bytes: &[u8]) -> usize
    ensures { result ≡ length (take_while (λ b. not (is_blank b)) bytes.now) }
{
    bytes.iter().take_while(|b| !is_blank(**b)).count()
}

fn spaces_len(bytes: &[u8]) -> usize
    ensures { result ≡ length (take_while is_space bytes.now) }
{
    bytes.iter().take_while(|b| is_space(**b)).count()
}

fn word_len(bytes: &[u8]) -> usize
    ensures { result ≡ length (take_while (λ b. not (is_space b)) bytes.now) }
{
    bytes.iter().take_while(|b| !is_space(**b)).count()
}

/// The first piece between spaces, tabs, CR and LF, or none where there are only those. Takes time in proportion to the
/// piece and the blanks before it.
pub fn first_token(bytes: &[u8]) -> Option<FirstPiece<'_>>
    ensures { IsFirstPiece is_blank bytes.now result }
{
    let blanks = blanks_len(bytes);
    let (_, from) = bytes.split_at(blanks);
    if from.is_empty() {
        return None;
    }
    let (bytes, behind) = from.split_at(token_len(from));
    Some(FirstPiece {
        blanks,
        bytes,
        behind,
    })
}

/// The first piece between spaces and tabs, or none where there are only those. Takes time in proportion to the piece and
/// the spaces and tabs before it.
pub fn first_word(bytes: &[u8]) -> Option<FirstPiece<'_>>
    ensures { IsFirstPiece is_space bytes.now result }
{
    let blanks = spaces_len(bytes);
    let (_, from) = bytes.split_at(blanks);
    if from.is_empty() {
        return None;
    }
    let (bytes, behind) = from.split_at(word_len(from));
    Some(FirstPiece {
        blanks,
        bytes,
        behind,
    })
}
