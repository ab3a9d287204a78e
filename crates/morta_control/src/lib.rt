//! The controller: what asks for the intervals of a run by the rates of those before.
#![tactic(auto)]

mod controller;
mod laws;
mod limits;
mod offers;
mod stages;
#[cfg(test)]
mod tests;

pub use controller::{Controller, Phase};
pub use laws::{kept_is_the_greatest, no_probe_twice, probes_are_few, requests_are_decided};
pub use limits::{PROBED, WATCHED};
