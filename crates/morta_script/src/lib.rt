//! Scripts: their commands, and their texts.
//!
//! `specs/` says which numbers a command may have (`Commands`), what the commands of a text are (`Lines`), and what one line adds to
//! those before it (`Turns`).
#![tactic(auto)]

mod limits;
mod line;
mod reading;
mod script;

pub use limits::{COMMANDS, LAST_TASK, MOVES};
pub use reading::{ScriptFault, read_script};
pub use script::{Command, Script};
