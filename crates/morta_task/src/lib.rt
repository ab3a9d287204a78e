//! What a run is made of, and who takes part in it: images, entries, intervals and the log, and the traits of what runs
//! an interval and of what asks for one.
#![tactic(auto)]

mod both;
mod entry;
mod image;
mod intervals;
mod limits;
mod log;
mod opening;
mod regions;
mod schemes;
mod traits;

pub use both::Both;
pub use entry::Entry;
pub use image::Image;
pub use intervals::{Cut, Handoff, Interval, Ran, Work};
pub use limits::{TURNS, WORKERS};
pub use log::Log;
pub use opening::Opening;
pub use regions::RegionCode;
pub use schemes::{Ask, Config, Scheme};
pub use traits::{Asker, Morta, Runner};
