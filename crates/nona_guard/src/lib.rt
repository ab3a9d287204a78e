//! The guard of an entry: whether the iterations of a calm loop all end well, told before the first of them begins.
#![tactic(auto)]

mod asking;
mod bounds;
mod checks;
mod fitting;
mod guards;
mod walking;

pub use checks::Check;
pub use guards::Guard;
