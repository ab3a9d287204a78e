//! The limits of counters.

/// How many tasks are counted at most: a task has a number below it.
pub const TASKS: u32 = 52;

/// The most moves of a task, and the most iterations, that are counted.
pub const MOST: u64 = u64::MAX;
