//! The text of a program to its tree, by one function for each kind of the grammar.
//!
//! `specs/Reading.antt` says which program a text is, and why it is none. `specs/Steps.antt` is what the functions
//! within say of the tokens that they take.
#![tactic(auto)]

mod accesses;
mod blocks;
mod declarations;
mod expressions;
mod fault;
mod operators;
mod pieces;
mod program;
mod statements;

pub use fault::ParseFault;
pub use program::{TEXT_BYTES, parse, reads_one_tree, refuses_for_one_reason};
