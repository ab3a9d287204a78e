use morta_task::Config;

/// A command of a script.
#[derive(Clone, Copy, Debug, PartialEq, Eq)]
pub enum Command {
    /// The next interval, and those behind it up to the next `use`, run in this configuration; the next one ends after
    /// `until` iterations, 1 to `morta_task::TURNS`, where that is said. An interval that runs where this comes first is paused.
    Use { config: Config, until: Option<u64> },
    /// A task, 0 to `LAST_TASK`, steps until it has moved `moves` times, 1 to `MOVES`, has waited once, or has finished.
    Step { task: u32, moves: u64 },
    /// The interval is paused: no claim is granted any more.
    Pause,
}

/// The commands of a script, in order.
#[derive(Debug, Drop)]
pub struct Script {
    pub commands: Vec<Command>,
}
