use nona_tree::Plan;

/// A loop that may run in other versions than one thread's: its number among them in text order, from 1, the place of its word
/// `for`, and the plan of its versions.
#[derive(Debug, Drop)]
pub struct Region {
    pub number: u32,
    pub at: u32,
    pub plan: Plan,
}

/// Why a loop is no region.
#[derive(Clone, Copy, Debug, PartialEq, Eq)]
pub enum Plain {
    /// It is written `seq for`.
    Seq,
    /// It isn't calm: its body has a `while`, a divisor that isn't a number other than 0, an index without `wrap` or a bound without
    /// an affine form, or too many accesses. So no guard tells beforehand whether an iteration ends early.
    Wild,
    /// It is calm, but its plan has no version beside `seq`: as far as is told, its iterations depend on one another.
    Tied,
}

/// What is seen of a loop outside regions: it is a region, or it runs in one thread alone; `at` is the place of its word `for`.
#[derive(Debug, Drop)]
pub enum Seen {
    Region(Region),
    Plain { at: u32, why: Plain },
}
