//! The limit of a replay.

/// The most messages that a link between two tasks holds.
pub const CAPACITY: usize = 64;
