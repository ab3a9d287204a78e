//! The limits of a script.

/// The most commands of a script.
pub const COMMANDS: usize = 65_536;

/// The greatest number of a task that a command may name.
pub const LAST_TASK: u32 = 255;

/// The most moves of a command.
pub const MOVES: u64 = 1_000_000;
