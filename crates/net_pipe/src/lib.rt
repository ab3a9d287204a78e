//! The tasks of an interval whose iterations go through the stages of a pipeline, as a machine that steps one task at a time.
//!
//! The head claims the next iteration, does its own units on its share of the store, and sends the iteration's packet to a worker of
//! the next stage; each later task receives a packet, does its own units, and sends on. After a refused claim Ends follow the
//! packets. Once all tasks have finished, their shares are settled into the store.
//!
//! `specs/` says in this order what the tasks of the stages compute (`Works`), when an entry's iterations may go through stages and
//! what then stands of their net at every moment (`Entries`, `Steps`), and what a store is once it is settled (`Settled`); the functions
//! of `laws` are its laws. Of the machine it says how a link and a task are seen (`Links`, `Tasks`), what it is (`Staged`, `Begun`,
//! `Kept`), and what it makes of the store in the end (`Gathered`). How claims, packets and Ends go is defined with the nets.
#![tactic(auto)]

mod begun;
mod laws;
mod link;
mod pipeline;
mod position;
mod settling;
mod stages;
mod task;

pub use laws::{stages_begin, stages_go_on, stages_settle};
pub use net_share::StepEnd;
pub use pipeline::Pipeline;
pub use position::Position;
pub use stages::Stages;
