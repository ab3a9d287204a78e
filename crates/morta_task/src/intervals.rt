ghost use Rattle.std.specs.Prelude.{◌≡◌};
ghost use Rattle.morta_task.specs.Running.{cut_of};

use crate::schemes::{Ask, Config};
use nona_store::Store;
use nona_tree::{Outcome, Trap};

/// Why an interval ended.
#[derive(Clone, Copy, Debug, PartialEq, Eq)]
pub enum Cut {
    /// All iterations up to its limit were done.
    Limit,
    /// It was paused before its limit.
    Paused,
    /// Its last iteration stopped by a trap.
    Trap(Trap),
    /// A loop in its last iteration is out of turns; `at` is the place of that loop's word `for` or `while`.
    Turns { at: u32 },
}

impl Cut {
    /// Why an interval ends whose last iteration ended so, where so many of its iterations were begun, up to a limit.
    pub fn of(end: Outcome, begun: u64, limit: u64) -> Cut
        ensures { result ≡ cut_of end begun limit }
    {
        match end {
            Outcome::Done => {
                if begun < limit {
                    Cut::Paused
                } else {
                    Cut::Limit
                }
            }
            Outcome::Trap(trap) => Cut::Trap(trap),
            Outcome::OutOfTurns { at } => Cut::Turns { at },
        }
    }
}

/// How often the tasks of a replayed interval moved, and how often they waited.
#[derive(Clone, Copy, Debug, PartialEq, Eq)]
pub struct Work {
    pub steps: u64,
    pub waits: u64,
}

/// What an interval did: the index behind its last iteration, its work where that was counted, its length in ticks (at
/// least 1), and why it ended.
#[derive(Clone, Copy, Debug, PartialEq, Eq)]
pub struct Ran {
    pub to: i64,
    pub work: Option<Work>,
    pub ticks: u64,
    pub cut: Cut,
}

/// An interval of a run: the number of its entry, what was asked for it, the configuration that ran, the index of its first
/// iteration, and what it did.
#[derive(Clone, Copy, Debug, PartialEq, Eq)]
pub struct Interval {
    pub entry: u32,
    pub asked: Ask,
    pub ran: Config,
    pub from: i64,
    pub done: Ran,
}

/// The live state between two intervals: the index of the next iteration, and the store. It is moved and never copied.
#[derive(Debug, Drop)]
pub struct Handoff {
    pub next: i64,
    pub store: Store,
}
