//! The net of an interval: the protocol by which tasks claim iterations, pass them on by packets, and come to their end.
//!
//! It is one net for one task alone, for tasks that share the claims, and for a pipeline, and it knows nothing of what an iteration
//! is. `specs/` defines machines of tasks that step one at a time (`Machines`), how iterations are dealt out round robin
//! (`Dealing`), the shape of a net (`Shapes`), the net and its steps (`Net`, `Begun`), what stands of it at every moment (`Flow`,
//! `Sound`, `Sharing`), where each granted number is (`Located`), how often its tasks move (`MoveCounts`), and nets whose tasks note
//! their numbers (`Tracing`), of which the laws here speak.
#![tactic(auto)]

mod laws;
mod limits;

pub use laws::{
    pipeline_claims, pipeline_keeps, pipeline_runs_out, sharing_claims, sharing_keeps,
    sharing_runs_out,
};
pub use limits::WAITS;
