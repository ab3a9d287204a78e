//! Readings of counters.

ghost use Rattle.std.specs.Prelude.{◌≤◌};

/// What an interval did, by its counters.
#[derive(Clone, Copy, PartialEq, Eq, Debug, Drop)]
pub struct Reading {
    /// How many iterations were done.
    pub iterations: u64,
    /// How long it took: the moves of the task that moved most, and 1 where none moved. It is at least 1.
    pub ticks: u64,
    pub ghost some_tick: { 1 ≤ ticks },
}
