//! The dependence graph of a loop and its components, computed.
#![tactic(auto)]

mod calmness;
mod edges;
mod grouping;
mod lists;
mod meeting;
mod mentioning;
mod parts;
mod reaching;
mod reducing;
mod sets;
mod touching;
mod tying;

pub use calmness::calm;
pub use edges::{graph, graph_by};
pub use grouping::components;
pub use lists::IdList;
pub use mentioning::has_print_in;
pub use parts::{Parts, UnitNames, parts_of};
pub use reducing::reductions;
pub use tying::{does_use, ties};
