//! The store that a program computes on: three lists of numbers of 64 bits, of which contracts see no more.
//!
//! `specs/` defines what it means that an array has other cells, which sizes declared arrays may have and what a store
//! keeps of its numbers (`Arrays`), what a bank allows, which is a store or a part of one (`Banks`), what is written over the
//! cells of a store (`Overlays`), and which numbers the text of an input has (`Input`); what a store holds and what statements
//! change in it is defined with the trees.
#![tactic(auto)]

mod banks;
mod cells;
mod ended;
mod input;
mod laws;
mod overlay;
mod share;
mod store;

pub use banks::Bank;
pub use cells::Cells;
pub use ended::Ended;
pub use input::{InputFault, NUMBERS, read_numbers};
pub use laws::overlays_cover;
pub use overlay::Overlay;
pub use share::{Share, ShareBank};
pub use store::Store;
