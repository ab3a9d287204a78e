//! The limits of runs.

/// The most turns that a loop may take whenever it is entered.
pub const TURNS: u64 = 1_000_000_000_000;

/// The most workers of a configuration.
pub const WORKERS: u8 = 16;
