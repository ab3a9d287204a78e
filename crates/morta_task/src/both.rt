ghost use Rattle.morta_task.specs.Promise.{both_promise};

use crate::entry::Entry;
use crate::image::Image;
use crate::intervals::{Handoff, Interval, Ran};
use crate::schemes::{Ask, Config};
use crate::traits::{Asker, Morta, Runner};
use std::alloc::AllocError;

/// A runner and an asker in one: the one runs what the other asks for.
#[derive(Debug, Drop)]
pub struct Both<R, A> {
    pub runner: R,
    pub asker: A,
}

impl<R: Runner, A: Asker> Morta for Both<R, A> {
    ghost promise = { both_promise (λ b. b.runner) (λ b. b.asker) R.promise A.promise };
}

impl<R: Runner, A: Asker> Runner for Both<R, A> {
    ghost runs_only = { λ b log h. ((λ alone. A.stands_only b.asker log (h.1 alone)), (λ led. R.runs_only b.runner log (h.2 led))) };

    ghost led = { record { by_any = λ b log e from ask h. absurd h; untold = λ b log e i h. absurd h } };

    fn interval(
        &mut self,
        image: &Image,
        entry: &Entry,
        handoff: Handoff,
        config: Config,
        limit: u64,
    ) -> Result<(Handoff, Ran), AllocError> {
        self.runner.interval(image, entry, handoff, config, limit)
    }
}

impl<R: Runner, A: Asker> Asker for Both<R, A> {
    ghost stands_only = { λ b log h. ((λ alone. A.stands_only b.asker log (h.1 alone)), (λ led. R.runs_only b.runner log (h.2 led))) };

    ghost asks_alone = { λ b log e from ask i h. absurd h };

    fn ask(&mut self, entry: &Entry, next: i64) -> Ask {
        self.asker.ask(entry, next)
    }

    fn told(&mut self, entry: &Entry, interval: &Interval) {
        self.asker.told(entry, interval)
    }
}
