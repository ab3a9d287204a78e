//! The limits of code.

/// The least id that names a hidden scalar.
pub const FIRST_HIDDEN: u32 = 2_147_483_648;

/// How many hidden scalars a frame has, and how many counters.
pub const PLACES: u32 = 256;

/// Code has fewer instructions than this.
pub const INSTRUCTIONS: usize = 2_147_483_648;
