use crate::store::Store;
use nona_tree::Outcome;

/// How a run ended, and the store that it left.
#[derive(Debug, Drop)]
pub struct Ended {
    /// How it ended.
    pub outcome: Outcome,
    /// What it left: the declared scalars, the arrays and what it printed. Where it is done, the scalars that its
    /// outermost statements declared come behind.
    pub store: Store,
}
