//! The report on the loops of a program: which of them are regions, with which versions and stages, and why the others are none.
//!
//! `specs/Report` says what the lines are. Each line goes to the sink in one put, and takes memory for itself alone.
#![tactic(auto)]

mod lines;
mod report;
#[cfg(test)]
mod tests;

pub use report::send_report;
