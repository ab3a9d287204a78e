//! The limits of programs.

/// The most bytes of a name.
pub const NAME_BYTES: usize = 32;

/// The most cells that the declared arrays of a program have together.
pub const CELLS: u64 = 4_194_304;

/// The most statements at the top of the body of a `for` that isn't written `seq for`.
pub const UNITS: usize = 64;

/// The most declarations, statements and expressions of a small program together.
pub const SIZE: u64 = 1_048_576;

/// The most blocks of a small program that lie one inside another.
pub const NESTING: u64 = 64;
