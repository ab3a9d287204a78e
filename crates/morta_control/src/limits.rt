//! The limits of a controller.

/// How many iterations a probe has at most.
pub const PROBED: u64 = 64;

/// How many iterations an interval of the kept configuration has at most.
pub const WATCHED: u64 = 1_024;
