//! Statements that are compiled one by one, and run by their code.
//!
//! `specs/` says what code stands for which statements (`Units`). Each statement runs as one unit over the store. What a run
//! leaves and how it ends is what the sequential meaning says.
#![tactic(auto)]

mod compiled;
mod running;

pub use compiled::Units;
pub use running::{leave, run_unit, run_units, turn_units};
