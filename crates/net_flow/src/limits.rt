//! The limits of a net.

/// The most steps that a net counts as waits. Its count of waits stays here once it is here.
pub const WAITS: u64 = u64::MAX;
