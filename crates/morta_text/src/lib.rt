//! The lines that a run writes: its printed numbers, its outcome, its memory, and its log.
//!
//! `specs/Texts` says what the lines are. Each line goes to the sink in one put, and takes memory for itself alone.
#![tactic(auto)]

mod joining;
mod log_lines;
mod memory_lines;
mod number_lines;
mod outcome_line;

pub use log_lines::send_log;
pub use memory_lines::send_memory;
pub use number_lines::put_numbers;
pub use outcome_line::send_outcome;
