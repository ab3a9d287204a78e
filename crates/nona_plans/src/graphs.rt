//! The dependence graph of a loop.

use nona_num::Fold;
use sqlite_items::Items;

/// A place where a scalar is named.
#[derive(Clone, Copy, Debug)]
pub struct Mention {
    pub id: u32,
    /// The fold, where the place is the left side of an assignment by one.
    pub by: Option<Fold>,
}

/// A local of the top of a loop's body.
#[derive(Clone, Copy, Debug)]
pub struct Local {
    /// The unit that declares it.
    pub unit: u32,
    pub id: u32,
    /// Whether it is assigned after its `let`.
    pub assigned: bool,
}

/// Two units of a loop that have to stay together, since they share what one of them writes; or one unit with itself.
#[derive(Clone, Copy, Debug, PartialEq, Eq)]
pub struct Tie {
    /// The lesser unit, by its number from 1.
    pub first: u32,
    /// The greater unit, or the same one.
    pub second: u32,
    /// Whether the dependence may be loop-carried: from one iteration to another.
    pub carried: bool,
}

/// The dependence graph of a loop's units, the statements at the top of its body.
#[derive(Debug, Drop)]
pub struct Graph {
    /// How many units there are. Their numbers go from 1 to this, in text order.
    pub units: u32,
    /// The pairs of units of which the second uses what the first makes in the same iteration.
    pub edges: Items<(u32, u32)>,
    pub ties: Items<Tie>,
}

/// A strongly connected component of a dependence graph: units between which walks along edges lead both ways.
#[derive(Debug, Drop)]
pub struct Component {
    /// Its units, in rising order.
    pub units: Items<u32>,
    /// Whether a carried tie joins two of its units, or one with itself.
    pub sequential: bool,
}
