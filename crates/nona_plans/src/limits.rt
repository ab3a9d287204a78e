//! The limits of plans.

/// The most stages of a plan.
pub const STAGES: usize = 7;

/// The most parallel stages of a plan.
pub const PARALLEL: usize = 3;

/// The most locals that cross from one stage to the next.
pub const CROSSING: usize = 8;
