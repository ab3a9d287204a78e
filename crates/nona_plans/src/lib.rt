//! The dependence graph of a loop, its strongly connected components, and the plans that it allows.
//!
//! `specs/` defines what the units of a loop name and which scalars are reductions (`Mentions`), ties, edges and the dependence
//! graph (`Units`), walks along edges (`Walks`), components (`Components`), the choice of stages (`Stages`), what lawful stages
//! are (`Lawful`), and the plan of a loop and what any lawful plan is (`Plans`). The types here are what the crates that compute
//! these work on.
#![tactic(auto)]

mod graphs;
mod laws;
mod limits;

pub use graphs::{Component, Graph, Local, Mention, Tie};
pub use laws::{
    graph_is_between_units, leads_where_walk, limits_are, plan_is_lawful, some_component_is_ready,
    stages_are_lawful,
};
pub use limits::{CROSSING, PARALLEL, STAGES};
