/// A version of a loop.
#[derive(Clone, Copy, Debug, PartialEq, Eq)]
pub enum Scheme {
    /// One thread takes the iterations one after another.
    Seq,
    /// Workers take whole iterations, each any of them.
    Any,
    /// Each iteration goes through the stages of a pipeline.
    Pipe,
}

/// In which version, and with how many workers, a loop runs: `Seq` with 1, the others with 1 to `WORKERS`.
#[derive(Clone, Copy, Debug, PartialEq, Eq)]
pub struct Config {
    pub scheme: Scheme,
    pub workers: u8,
}

impl Config {
    /// One thread.
    pub const SEQ: Config = Config {
        scheme: Scheme::Seq,
        workers: 1,
    };
}

/// What is asked for an interval: a configuration, and after how many iterations at most the interval ends, where that is
/// asked.
#[derive(Clone, Copy, Debug, PartialEq, Eq)]
pub struct Ask {
    pub config: Config,
    pub until: Option<u64>,
}
