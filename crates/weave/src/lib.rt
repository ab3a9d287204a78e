//! The replay of a script: the machine of an interval, whose tasks step in the order that the script gives, and which asks
//! for the intervals that the script names.
#![tactic(auto)]

mod following;
mod laws;
mod limits;
mod net;
mod one_task;
mod setting;
mod shared_tasks;
mod staged_tasks;
mod weaving;

pub use laws::{replays_agree, runs_out_to_one, seq_moves, shared_moves, staged_moves};
pub use limits::CAPACITY;
pub use weaving::Weave;
