//! A runner and an asker as plain as they can be: one thread, and the same request each time.
#![tactic(auto)]

mod one_thread;
mod plain_asker;

pub use one_thread::OneThread;
pub use plain_asker::PlainAsker;
