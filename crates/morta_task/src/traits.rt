ghost use Rattle.std.specs.Prelude.{◌≡◌, IfOk, OnOk};
ghost use Rattle.morta_task.specs.Entries.{IsWithin};
ghost use Rattle.morta_task.specs.Running.{MayRun, IsConfig, IsDone, HandsOn, MovesOn, IsOf};
ghost use Rattle.morta_task.specs.Promise.{Promise, Keeps, GoesOn, MayAsk, HasAskedFor, StandsOn, StandsOnly, IsLed, AsksAlone};

use crate::entry::Entry;
use crate::image::Image;
use crate::intervals::{Handoff, Interval, Ran};
use crate::schemes::{Ask, Config};
use std::alloc::AllocError;

/// What contracts say of a value that runs intervals or asks for them. It has no calls.
pub trait Morta {
    ghost promise: { Promise Self };
}

/// What runs an interval of a loop.
pub trait Runner: Morta {
    /// Runs up to `limit` iterations of an entry from where a handoff stands, in this configuration.
    ///
    /// It hands on the store that one thread has after as many iterations, and says why it ended: at the limit; paused
    /// before it; or, in one thread alone, in a last iteration that stopped by a trap or ran out of turns. An error comes
    /// where memory runs out: the handoff and the runner are then spent, and the run ends.
    fn interval(
        &mut self,
        image: &Image,
        entry: &Entry,
        handoff: Handoff,
        config: Config,
        limit: u64,
    ) -> Result<(Handoff, Ran), AllocError>
        requires may { MayRun ((Self.promise).serves self.old) image.now entry.now handoff config limit }
        ensures done { IfOk result (λ r. IsDone entry.now config handoff.next limit r.1) }
        ensures hands_on { IfOk result (λ r. HandsOn entry.now r.1 r.0) }
        ensures ticks { IfOk result (λ r. MovesOn ((Self.promise).ticks_to_come self.old) ((Self.promise).ticks_to_come self.new) r.1.ticks) }
        ensures meets { IfOk result (λ r. (Self.promise).meets self.old entry.now config handoff.next r.1) }
        ensures keeps { OnOk result (Keeps Self.promise self.old self.new) }
        ensures goes_on { IfOk result (λ r. GoesOn Self.promise self.old self.new entry.now config handoff.next limit r.1) };

    ghost runs_only: { StandsOnly Self.promise };

    ghost led: { IsLed Self.promise };
}

/// What asks for the intervals of a run.
pub trait Asker: Morta {
    /// The request for the next interval of an entry, which begins at the index `next`. It takes no memory.
    fn ask(&mut self, entry: &Entry, next: i64) -> Ask
        requires within { IsWithin entry.now next }
        ensures config { IsConfig result.config }
        ensures names { (Self.promise).names self.old result.config.scheme }
        ensures may { MayAsk Self.promise self.old entry.now result }
        ensures asked { HasAskedFor Self.promise self.old self.new entry.now next result }
        ensures ticks { (Self.promise).ticks_to_come self.new ≡ (Self.promise).ticks_to_come self.old }
        ensures keeps { Keeps Self.promise self.old self.new };

    /// Tells of the interval that was run for the last request. It takes no memory.
    fn told(&mut self, entry: &Entry, interval: &Interval)
        requires of { IsOf entry.now interval.now }
        ensures stands { StandsOn Self.promise self.old self.new entry.now interval.now }
        ensures ticks { (Self.promise).ticks_to_come self.new ≡ (Self.promise).ticks_to_come self.old }
        ensures keeps { Keeps Self.promise self.old self.new };

    ghost stands_only: { StandsOnly Self.promise };

    ghost asks_alone: { AsksAlone Self.promise };
}
