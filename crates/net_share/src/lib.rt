//! The tasks of an interval that share its iterations, as a machine that steps one task at a time.
//!
//! Each task claims the next iteration, does its units in text order on its own share of the store, and claims again, until a claim
//! is refused. Once all have finished, their shares are settled into the store. `specs/` says what a step computes (`Works`), which
//! reductions may be joined (`Begins`), how a task is seen (`Tasks`), what a unit needs to run (`May`), what stands of the machine
//! (`Kept`), what the shares together make of the store (`Gathered`), and the same by what each task saw (`Settled`); and when the
//! iterations of an entry may be shared out, and what the tasks' stores then mean (`Entries`). How claims are granted and tasks step
//! is defined with the nets.
#![tactic(auto)]

mod begun;
mod iterations;
mod laws;
mod settling;
mod shares;
mod sharing;
mod task;

pub use begun::{first_scalars, room_for};
pub use iterations::Iterations;
pub use laws::{reductions_stand, sharing_begins, sharing_goes_on, sharing_settles};
pub use shares::{declare_on, leave_on, run_on};
pub use sharing::{Sharing, StepEnd};
pub use task::Position;
