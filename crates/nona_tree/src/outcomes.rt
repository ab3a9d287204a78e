/// Why a run stops at an access or an operator.
#[derive(Clone, Copy, Debug, PartialEq, Eq)]
pub enum TrapKind {
    /// A plain index is below 0, or not below the array's length.
    Index,
    /// A wrapped index has no array to wrap in: the array has no cells.
    Empty,
    /// A number is divided by 0.
    Divide,
}

/// Where and why a run stops.
#[derive(Clone, Copy, Debug, PartialEq, Eq)]
pub struct Trap {
    /// Why it stops.
    pub kind: TrapKind,
    /// The place of the array's name, or of the operator that divides.
    pub at: u32,
}

/// How a run ends.
#[derive(Clone, Copy, Debug, PartialEq, Eq)]
pub enum Outcome {
    /// Every statement was run.
    Done,
    /// It stopped at an access or an operator.
    Trap(Trap),
    /// A loop would have taken more turns than it may; `at` is the place of its word `for` or `while`.
    OutOfTurns { at: u32 },
}
