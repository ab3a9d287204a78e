//! The counters of an interval: how many iterations were done, and how often the task that moved most has moved; and
//! the rates that they tell.
#![tactic(auto)]

mod counters;
mod limits;
mod rates;
mod readings;
#[cfg(test)]
mod tests;

pub use counters::Counters;
pub use limits::{MOST, TASKS};
pub use rates::{has_fallen, rate_cmp};
pub use readings::Reading;
