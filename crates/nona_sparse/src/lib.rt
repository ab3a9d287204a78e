//! A sparse array of numbers of 64 bits: what a task has written over the cells of an array, and what isn't in the array yet.
//!
//! `specs/` defines what stands at a place, a place with another value, what is left of the values beside the cells of an array, and
//! the cells of an array under the values (`Sparse`).
#![tactic(auto)]

mod block;
mod group;
mod page;
mod sparse;
mod values;

pub use sparse::{PLACES, SparseArray};
