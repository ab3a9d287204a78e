//! Links between stages.

ghost use Rattle.std.specs.Prelude.{◌≡◌, ◌++◌, ◌∷◌, ◌<◌, ◌≤◌, [], length, IfOk, MatchOption};
ghost use Rattle.std.specs.Bool.{OnTrue, OnFalse};
ghost use Rattle.net_pipe.specs.Links.{message_view};

use arrayvec::ArrayVec;
use circular_buffer::HeapCircularBuffer;
use nona_plans::CROSSING;
use std::alloc::{AllocError, Global};
use std::marker::Model;

/// The values of the locals that cross from one stage to the next, in order of their ids.
pub(crate) type Packet = ArrayVec<i64, CROSSING>;

/// A message of a link.
#[derive(Drop)]
pub(crate) enum Message {
    /// The packet of the iteration with this number.
    Packet { iteration: u64, values: Packet },
    /// No further packet follows.
    End,
}

/// A link: messages, first in, first out, as many as it was made for. Its memory is reserved when it is made.
#[derive(Drop)]
pub(crate) struct Link {
    ring: HeapCircularBuffer<Message>,
}

impl Model for Link {
    ghost use Rattle.std.specs.Prelude.{map};
    ghost use Rattle.net_pipe.specs.Links.{LinkView, message_view};

    ghost Value = { LinkView };

    ghost view = { λ l. record { messages = map message_view l.ring.items; capacity = l.ring.capacity } };
}

impl Link {
    /// A link without messages, for so many. It is refused for want of memory alone.
    pub(crate) fn begin(alloc: Global, capacity: usize) -> Result<Link, AllocError>
        ensures { IfOk result (λ link. link ≡ record { messages = []; capacity = capacity }) }
    {
        let ring = HeapCircularBuffer::with_capacity(alloc, capacity)?;
        Ok(Link { ring })
    }

    /// Puts a message behind the others, where there is room, and says whether there was. A full link stays as it is.
    pub(crate) fn send(&mut self, message: Message) -> bool
        ensures sent { OnTrue result ((length self.old.messages < self.old.capacity)
            × (self.new ≡ record { messages = self.old.messages ++ message_view message ∷ []; capacity = self.old.capacity })) }
        ensures full { OnFalse result ((self.old.capacity ≤ length self.old.messages) × (self.new ≡ self.old)) }
    {
        self.ring.try_push_back(message).is_ok()
    }

    /// Takes the first message, if there is one.
    pub(crate) fn take(&mut self) -> Option<Message>
        ensures { MatchOption result ((self.old.messages ≡ []) × (self.new ≡ self.old))
            (λ m. (self.old.messages ≡ message_view m ∷ self.new.messages) × (self.new.capacity ≡ self.old.capacity)) }
    {
        self.ring.pop_front()
    }
}
