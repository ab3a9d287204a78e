//! What a run reaches outside of itself: a shelf of files that are read by name, and a sink of bytes.
//! Each has a kind in memory, for tests and worked cases, and a kind over the real machine.
//! What was opened is read by `read_opened`, over any reader.
#![tactic(auto)]

mod machine_shelf;
mod machine_sink;
mod memory_shelf;
mod memory_sink;
mod readers;
mod sending;
mod shelves;
mod sinks;

pub use machine_shelf::FileShelf;
pub use machine_sink::OutSink;
pub use memory_shelf::MemoryShelf;
pub use memory_sink::MemorySink;
pub use readers::{CountedReader, read_opened};
pub use sending::{SendFault, send};
pub use shelves::{Shelf, ShelfFault};
pub use sinks::{Failed, Sink};
