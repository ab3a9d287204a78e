/// What is wrong with a program whose text fits the grammar. Each kind has the place where it stands, in bytes from 0.
#[derive(Clone, Copy, Debug, PartialEq, Eq)]
pub enum ProgramFault {
    /// A name is used that isn't visible; `at` is its place, as in all those that speak of a name.
    Unknown { at: u32 },
    /// A name is declared that is visible, or the name `input`, which always is.
    Twice { at: u32 },
    /// An array's name stands for a scalar, or a scalar's name for an array.
    KindWrong { at: u32 },
    /// The index of a `for` is assigned.
    IndexAssigned { at: u32 },
    /// A cell of `input` is written.
    InputWritten { at: u32 },
    /// An array is declared with fewer cells than 1, or the cells so far with its own are more than 2^22; `at` is the
    /// place of its number.
    Cells { at: u32 },
    /// The body of a `for` that isn't `seq for` has more than 64 statements at its top; `at` is the place of the word
    /// `for`.
    Units { at: u32 },
}
