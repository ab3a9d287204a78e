ghost use Rattle.std.specs.Prelude.{◌≡◌, ◌≤◌};
ghost use Rattle.decima.specs.Rates.{rate_of_reading};
ghost use Rattle.morta_task.specs.declared.limits.TheConstants as limits;
ghost use Rattle.morta_task.specs.Entries.{EntryView};
ghost use Rattle.morta_task.specs.LogView.{empty_log};
ghost use Rattle.morta_task.specs.Running.{IsConfig};
ghost use Rattle.morta_control.specs.ControllerInside.{offer_of};
ghost use Rattle.morta_control.specs.ControllerPromise.{controller_promise, StandsFor};
ghost use Rattle.morta_control.specs.ControllerView.{new_controller, come_to, decided, phase_of};
ghost use Rattle.morta_control.specs.Decisions.{next_of, rate_of};

use crate::offers::Offer;
use crate::stages::Stage;
use decima::Reading;
use morta_task::{Ask, Asker, Entry, Interval, Morta};
use nona_num::gap;
use std::marker::Model;

/// What a controller does at an entry.
#[derive(Clone, Copy, Debug, PartialEq, Eq)]
pub enum Phase {
    /// It probes the versions that the entry offers.
    Calibrate,
    /// It probes fewer and more workers for the version that it keeps.
    Optimise,
    /// It keeps a configuration, and watches its rate.
    Monitor,
}

/// An asker that looks for the configuration with the greatest rate, at each entry anew. It probes the versions that
/// the entry offers and keeps the best; then, at a distance that is halved each time, fewer and more workers; then it
/// keeps the best configuration for as long as its rate doesn't fall below seven eighths of that of its probe. It takes
/// no memory, and each of its calls takes constant time.
#[derive(Drop)]
pub struct Controller {
    workers: u8,
    /// The number of the entry that it is at, and 0 before the first.
    number: u32,
    stage: Stage,
}

impl Model for Controller {
    ghost use Rattle.morta_control.specs.ControllerView.{ControllerView};
    ghost use Rattle.morta_control.specs.ControllerInside.{view_of, IsController};

    ghost Value = { ControllerView };

    ghost view = { view_of };

    ghost invariant = { IsController };
}

/// What an interval did, as counters read it: its iterations and its ticks.
fn reading_of(interval: &Interval) -> Reading
    requires { 1 ≤ interval.now.done.ticks }
    ensures { rate_of_reading result ≡ rate_of interval.now }
{
    Reading {
        iterations: gap(interval.from, interval.done.to),
        ticks: interval.done.ticks,
    }
}

impl Controller {
    /// A controller for at most so many workers, from 1 to `WORKERS`, before its first entry. It stands for the log of
    /// a run that begins.
    pub fn new(workers: u8) -> Controller
        requires some { 1 ≤ workers }
        requires few { workers ≤ limits.WORKERS }
        ensures value { result ≡ new_controller workers }
        ensures stands { StandsFor result empty_log }
    {
        Controller {
            workers,
            number: 0,
            stage: Stage::new(),
        }
    }

    /// What it does at its entry: it calibrates where it was asked for nothing yet.
    pub fn phase(&self) -> Phase
        ensures { result ≡ phase_of self.now.decision }
    {
        self.stage.phase()
    }

    /// Comes to the entry with this number and this offer: where it is at another one, it begins anew.
    pub(crate) fn come_to(&mut self, number: u32, offer: Offer)
        ensures { (e : EntryView) → number ≡ e.number → offer ≡ offer_of e → self.new ≡ come_to e self.old }
    {
        if self.number != number {
            self.number = number;
            self.stage = Stage::calibrate(self.workers, offer);
        }
    }

    /// Decides by what was read of an interval of the entry that it is at, which has this offer.
    pub(crate) fn decide(&mut self, offer: Offer, reading: Reading)
        ensures { (e : EntryView) → offer ≡ offer_of e → self.new ≡ decided e self.old (rate_of_reading reading) }
    {
        self.stage = self.stage.decide(self.workers, offer, reading);
    }

    /// What it asks for at its entry.
    pub(crate) fn next(&self) -> Ask
        ensures ask { result ≡ next_of self.now.decision }
        ensures config { IsConfig result.config }
    {
        self.stage.ask()
    }
}

impl Morta for Controller {
    ghost promise = { controller_promise };
}

impl Asker for Controller {
    ghost stands_only = { λ c log h. tt };

    ghost asks_alone = { λ c log e from ask i alone h is. record { from = from; ask = ask; asked = h; ran = is } };

    fn ask(&mut self, entry: &Entry, _next: i64) -> Ask {
        self.come_to(entry.number(), Offer::of(entry));
        self.next()
    }

    fn told(&mut self, entry: &Entry, interval: &Interval) {
        self.decide(Offer::of(entry), reading_of(interval));
    }
}
