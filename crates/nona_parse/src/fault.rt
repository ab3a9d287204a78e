/// Why a text was not read. A place counts the bytes of the text from 0.
#[derive(Clone, Copy, Debug, PartialEq, Eq)]
pub enum ParseFault {
    /// No token begins with the byte there.
    Byte { at: u32 },
    /// The digits there spell a number above 9223372036854775807.
    Number { at: u32 },
    /// The word there has more than 32 bytes.
    NameLong { at: u32 },
    /// The tokens before the place are the front of a program, and with the token there they are not. At the text's end
    /// the text is the front of a program, and more is to come.
    Syntax { at: u32 },
    /// A bracket there would be the 65th that is open, or an operator there the 65th of its count. A count begins behind
    /// a `;`, with each block and behind it, and within each pair of `(` and `)` or of `[` and `]`, behind which the
    /// count outside goes on.
    Deep { at: u32 },
    /// Memory ran out before the answer was known.
    NoMemory,
}

/// Why tokens were not read.
#[derive(Clone, Copy, Debug, PartialEq, Eq)]
pub enum ReadFault {
    /// The token at this place is the first that fits nowhere.
    Syntax { at: u32 },
    /// The tokens end where one more is to come.
    Ended,
    NoMemory,
}
