//! Runs of images, interval by interval, for every runner and asker.
#![tactic(auto)]

mod driving;
mod entry_run;
mod fault;
mod interval_run;
mod main_run;
mod one_thread;
mod shown;
mod start;

pub use driving::{drive, run_through};
pub use entry_run::MOST;
pub use fault::DriveFault;
pub use start::Beginning;
