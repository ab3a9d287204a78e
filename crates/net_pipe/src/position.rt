//! Where tasks stand.

/// Where a task stands.
#[derive(Clone, Copy, Debug, PartialEq, Eq)]
pub enum Position {
    /// Before a claim.
    Claims,
    /// Before the unit of its iteration that has this number among its stage's own ones, from 0.
    Unit(usize),
    /// Before it sends the packet of its iteration.
    Sends,
    /// Before it receives, where it has received so many Ends.
    Receives(usize),
    /// Before it sends an End over the link to the worker with this number.
    SendsEnd(usize),
    /// It has finished.
    Finished,
}
