use morta_task::Config;

/// How an interval runs: in which configuration, and how many messages a link between two tasks holds.
#[derive(Clone, Copy)]
pub struct Setting {
    pub config: Config,
    pub capacity: usize,
}
