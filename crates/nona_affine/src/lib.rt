//! Affine forms of the expressions of a loop, its accesses, and the dependence test on two of them.
#![tactic(auto)]

mod arithmetic;
mod around;
mod assigned;
mod boxes;
mod combining;
mod names;
mod of_expr;
mod of_loop;
mod pairs;
mod ranges;
mod sums;
mod tallies;

pub use assigned::push_all_assigned;
pub use boxes::add_times;
pub use names::{Ids, Names};
pub use of_expr::{form, form_inside};
pub use of_loop::{loop_names, shape, spots};
pub use pairs::apart;
pub use ranges::{are_bound, range};
