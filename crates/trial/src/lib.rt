//! The trial of a number: the input and the program on which one command tries replays at length.
//!
//! `specs/` says what the numbers of a trial are (`Numbers`), what its text is, which is the same for each number
//! (`Text`), and which tree the text has (`Tree`). Laws say that the text is this program, and that its run ends.
#![tactic(auto)]

mod laws;
mod numbers;
#[cfg(test)]
mod tests;
mod text;

pub use laws::{trial_is_a_program, trial_runs_to_its_end};
pub use numbers::trial_numbers;
pub use text::{BLOCKS, trial_text};
