//! The iterations that tasks share.

use nona_units::Units;

/// The iterations of an interval: the units of the loop's body, the index of the first one, how many there are at most, and how many
/// turns a loop in a unit may take.
#[derive(Drop)]
pub struct Iterations<'a> {
    pub units: &'a Units,
    pub from: i64,
    pub limit: u64,
    pub turns: u64,
}
