use morta_task::{Entry, Handoff, Image};
use nona_store::Store;
use std::alloc::Global;
use std::snapshot::Snapshot;

/// Where a run begins: the store, and how many turns a loop may take whenever it is entered, from 1 to 10^12.
#[derive(Debug, Drop)]
pub struct Beginning {
    pub store: Store,
    pub turns: u64,
}

/// What a run began with, for all that runs in it: where its memory comes from, the image, and the turn bound; and for
/// contracts alone the store, what runs and asks, and the sink as they were then.
#[derive(Drop)]
pub struct Start<'a, M, K> {
    pub alloc: Global,
    pub image: &'a Image,
    pub turns: u64,
    pub store: Snapshot<Store>,
    pub morta: Snapshot<M>,
    pub out: Snapshot<K>,
}

/// What the next interval of an entry begins with: the handoff, and until the entry has an interval the entry itself once
/// more, for the log.
#[derive(Drop)]
pub struct Pending {
    pub kept: Option<Entry>,
    pub handoff: Handoff,
}

/// An entry that a run has come to, before its first interval.
#[derive(Drop)]
pub struct Arrival {
    pub entry: Entry,
    pub pending: Pending,
}
