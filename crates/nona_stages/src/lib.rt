//! Which loops of a program may run in other versions than one thread's, by which plans, and why the others don't.
//!
//! `stages` chooses stages from the components of a dependence graph, `links` tells which locals cross between them, and `plan`
//! makes the plan of a loop. `regions` follows the plans: a loop is a region where its plan has a version. `specs/` defines the
//! loops outside regions and what is seen of them (`Seen`).
#![tactic(auto)]

mod crossing;
mod laws;
mod outer;
mod placing;
mod planning;
mod plans;
mod seen;
mod waiting;

pub use crossing::links;
pub use laws::regions_are_planned;
pub use outer::regions;
pub use placing::stages;
pub use planning::plan;
pub use plans::Plans;
pub use seen::{Plain, Region, Seen};
