// The lines of a text, one by one.

ghost use Rattle.std.specs.Prelude.{◌≡◌, ◌<◌, ◌∷◌, false, length, drop, take_while};
ghost use Rattle.nona_text.specs.Pieces.{is_in_line, lines_from, without_cr};

/// The first line of a text, without the LF that ends it, and the bytes behind that.
#[derive(Clone, Copy, Debug)]
pub struct FirstLine<'a> {
    pub bytes: &'a [u8],
    pub behind: &'a [u8],
}

fn line_len(bytes: &[u8]) -> usize
    ensures { result ≡ length (take_while is_in_line bytes.now) }
{
    bytes.iter().take_while(|b| **b != b'\n').count()
}

/// The bytes behind the first one, if there is one.
fn behind_first(bytes: &[u8]) -> &[u8]
    ensures { result.now ≡ drop 1 bytes.now }
{
    match bytes {
        [] => bytes,
        [_, behind @ ..] => behind,
    }
}

/// The first line of a text that has one byte at least. It ends with an LF or with the text. Takes time in proportion to
/// the line.
pub fn first_line(text: &[u8]) -> FirstLine<'_>
    requires { 0 < length text.now }
    ensures lines { lines_from false text.now ≡ result.bytes.now ∷ lines_from false result.behind.now }
    ensures shorter { length result.behind.now < length text.now }
{
    let (bytes, from) = text.split_at(line_len(text));
    FirstLine {
        bytes,
        behind: behind_first(from),
    }
}

/// A line without the CR that it may end with.
pub fn without_cr(line: &[u8]) -> &[u8]
    ensures { result.now ≡ without_cr line.now }
{
    match line {
        [] => line,
        [front @ .., last] => { if *last == b'\r' { front } else { line } }
    }
}
