//! Why some units of a loop's body may be run apart from the others: loop fission.
//!
//! `specs/` defines what each of several tasks runs of a loop's iterations where it runs only some units, the statements at the top
//! of the body, is given numbers for the other units' locals, and may have copies of fold arrays, whose cells the body names only on
//! the left of one fold (`Fission`). The law is that the tasks together do to the store what these units do in one thread. Where
//! each task runs whole iterations (`Sharing`), they give together what one thread gives.
#![tactic(auto)]

mod iterations;
mod laws;

pub use iterations::{
    iterations_may_be_shared, settled_is_behind, tasks_keep, turns_go_on,
    whole_iterations_are_apart,
};
pub use laws::{
    apart_copies_join, apart_partials_join, apart_tasks_keep, one_thread_leaves, own_units_go_on,
    own_units_hand_on, own_units_print, parts_add_up, units_may_be_apart,
};
