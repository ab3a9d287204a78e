//! The stages of a controller at an entry.

ghost use Rattle.std.specs.Prelude.{◌≡◌, ℕ, ◌*◌, ◌≤◌, false, [], ◌∷◌, ◌++◌};
ghost use Rattle.decima.specs.Rates.{rate_of_reading};
ghost use Rattle.morta_task.specs.declared.limits.TheConstants as limits;
ghost use Rattle.morta_task.specs.Entries.{EntryView};
ghost use Rattle.morta_task.specs.Running.{IsConfig, seq_one};
ghost use Rattle.morta_control.specs.ControllerInside.{offer_of, left_of, rest_of, best_of, probe_of, decision_of};
ghost use Rattle.morta_control.specs.ControllerInside.{IsUpTo, AreUpTo, IsRestUpTo, IsBestUpTo, IsStage};
ghost use Rattle.morta_control.specs.ControllerView.{phase_of};
ghost use Rattle.morta_control.specs.Decisions as decisions;

use crate::controller::Phase;
use crate::limits::{PROBED, WATCHED};
use crate::offers::Offer;
use decima::{Reading, has_fallen, rate_cmp};
use morta_task::{Ask, Config, Scheme};
use std::cmp::Ordering;

/// A configuration that was probed, and what was read of its interval.
#[derive(Clone, Copy)]
pub(crate) struct Probed {
    pub config: Config,
    pub reading: Reading,
}

impl Probed {
    /// The better of two probes: the one with the greater rate, and of equals the first.
    pub fn better(self, later: Probed) -> Probed
        ensures better { probe_of result ≡ decisions.better (probe_of self) (probe_of later) }
        ensures up_to { (workers : ℕ) → IsUpTo workers self.config → IsUpTo workers later.config → IsUpTo workers result.config }
    {
        match rate_cmp(&self.reading, &later.reading) {
            Ordering::Less => later,
            Ordering::Equal => self,
            Ordering::Greater => self,
        }
    }

    /// The better of the best probe so far, where there is one, and a later one.
    pub fn best_with(best: Option<Probed>, later: Probed) -> Probed
        ensures best { probe_of result ≡ decisions.best_with (best_of best) (probe_of later) }
        ensures up_to { (workers : ℕ) → IsBestUpTo workers best → IsUpTo workers later.config → IsUpTo workers result.config }
    {
        match best {
            Some(best) => best.better(later),
            None => later,
        }
    }
}

/// The configurations of a round that are left to probe, of which the first is next.
#[derive(Clone, Copy)]
pub(crate) enum Left {
    One(Config),
    Two(Config, Config),
    Three(Config, Config, Config),
}

impl Left {
    /// The next one, and those behind it, where there are any.
    pub fn split(self) -> (Config, Option<Left>)
        ensures split { left_of self ≡ result.0 ∷ rest_of result.1 }
        ensures next { (workers : ℕ) → AreUpTo workers self → IsUpTo workers result.0 }
        ensures rest { (workers : ℕ) → AreUpTo workers self → IsRestUpTo workers result.1 }
    {
        match self {
            Left::One(next) => (next, None),
            Left::Two(next, last) => (next, Some(Left::One(last))),
            Left::Three(next, middle, last) => (next, Some(Left::Two(middle, last))),
        }
    }

    /// What is probed first at an entry with this offer: each version of it, one thread and then all workers.
    pub fn versions(workers: u8, offer: Offer) -> Left
        requires some { 1 ≤ workers }
        requires few { workers ≤ limits.WORKERS }
        ensures versions { (e : EntryView) → offer ≡ offer_of e → left_of result ≡ decisions.versions workers e }
        ensures up_to { AreUpTo workers result }
    {
        let any = Config {
            scheme: Scheme::Any,
            workers,
        };
        let pipe = Config {
            scheme: Scheme::Pipe,
            workers,
        };
        match (offer.any, offer.pipe) {
            (false, false) => Left::One(Config::SEQ),
            (true, false) => Left::Two(Config::SEQ, any),
            (false, true) => Left::Two(Config::SEQ, pipe),
            (true, true) => Left::Three(Config::SEQ, any, pipe),
        }
    }

    /// What a round at this distance probes: so many workers fewer than a configuration has, where one is left at
    /// least, and then so many more, where there are as many.
    pub fn around(workers: u8, half: u8, config: Config) -> Left
        requires few { workers ≤ limits.WORKERS }
        requires some { 1 ≤ half }
        requires half { 2 * half ≤ workers }
        requires config { IsUpTo workers config }
        requires parallel { decisions.is_sequential config.scheme ≡ false }
        ensures around { left_of result ≡ decisions.fewer half config ++ decisions.more workers half config }
        ensures up_to { AreUpTo workers result }
    {
        let more = Config {
            scheme: config.scheme,
            workers: config.workers + half,
        };
        if config.workers <= half {
            return Left::One(more);
        }
        let fewer = Config {
            scheme: config.scheme,
            workers: config.workers - half,
        };
        if more.workers <= workers {
            Left::Two(fewer, more)
        } else {
            Left::One(fewer)
        }
    }
}

/// What a controller does next at an entry.
#[derive(Clone, Copy)]
pub(crate) enum Stage {
    /// It probes one version after another, with the best probe so far.
    Calibrates { best: Option<Probed>, left: Left },
    /// It probes so many workers fewer and more than the best probe had, from 1 to half of all.
    Optimises { half: u8, best: Probed, left: Left },
    /// It monitors the configuration that it keeps.
    Monitors { kept: Probed },
}

impl Stage {
    /// The stage before the first entry: as at one that offers one thread alone.
    pub fn new() -> Stage
        ensures decision { decision_of result ≡ decisions.Calibrates None (seq_one ∷ []) }
        ensures stage { (workers : ℕ) → 1 ≤ workers → IsStage workers result }
    {
        Stage::Calibrates {
            best: None,
            left: Left::One(Config::SEQ),
        }
    }

    /// The first stage at an entry with this offer.
    pub fn calibrate(workers: u8, offer: Offer) -> Stage
        requires some { 1 ≤ workers }
        requires few { workers ≤ limits.WORKERS }
        ensures decision { (e : EntryView) → offer ≡ offer_of e → decision_of result ≡ decisions.calibrate workers e }
        ensures stage { IsStage workers result }
    {
        Stage::Calibrates {
            best: None,
            left: Left::versions(workers, offer),
        }
    }

    /// The stage behind a round: that of the next round, at this distance from the best probe; where the distance is 0,
    /// or the best probe is one thread, that probe is kept.
    fn optimise(workers: u8, half: u8, best: Probed) -> Stage
        requires few { workers ≤ limits.WORKERS }
        requires half { 2 * half ≤ workers }
        requires best { IsUpTo workers best.config }
        ensures decision { decision_of result ≡ decisions.optimise workers half (probe_of best) }
        ensures stage { IsStage workers result }
    {
        if half == 0 {
            return Stage::Monitors { kept: best };
        }
        match best.config.scheme {
            Scheme::Seq => Stage::Monitors { kept: best },
            Scheme::Any | Scheme::Pipe => Stage::Optimises {
                half,
                best,
                left: Left::around(workers, half, best.config),
            },
        }
    }

    /// What follows in calibrating where the next configuration that was left had this reading: the one behind it, or
    /// the first round of optimising.
    fn calibrated(workers: u8, best: Option<Probed>, left: Left, reading: Reading) -> Stage
        requires few { workers ≤ limits.WORKERS }
        requires best { IsBestUpTo workers best }
        requires left { AreUpTo workers left }
        ensures decision { (e : EntryView) → decision_of result
            ≡ decisions.decide workers e (decisions.Calibrates (best_of best) (left_of left)) (rate_of_reading reading) }
        ensures stage { IsStage workers result }
    {
        let (config, rest) = left.split();
        let best = Probed::best_with(best, Probed { config, reading });
        match rest {
            Some(left) => Stage::Calibrates {
                best: Some(best),
                left,
            },
            None => Stage::optimise(workers, workers / 2, best),
        }
    }

    /// What follows in a round of optimising where the next configuration that was left had this reading: the one
    /// behind it, or the round at half the distance.
    fn optimised(workers: u8, half: u8, best: Probed, left: Left, reading: Reading) -> Stage
        requires few { workers ≤ limits.WORKERS }
        requires half { 2 * half ≤ workers }
        requires best { IsUpTo workers best.config }
        requires left { AreUpTo workers left }
        ensures decision { (e : EntryView) → decision_of result
            ≡ decisions.decide workers e (decisions.Optimises half (probe_of best) (left_of left)) (rate_of_reading reading) }
        ensures stage { IsStage workers result }
    {
        let (config, rest) = left.split();
        let best = best.better(Probed { config, reading });
        match rest {
            Some(left) => Stage::Optimises { half, best, left },
            None => Stage::optimise(workers, half / 2, best),
        }
    }

    /// What follows at an entry with this offer, where the interval that was asked for had this reading.
    pub fn decide(self, workers: u8, offer: Offer, reading: Reading) -> Stage
        requires some { 1 ≤ workers }
        requires few { workers ≤ limits.WORKERS }
        requires stage { IsStage workers self }
        ensures decision { (e : EntryView) → offer ≡ offer_of e
            → decision_of result ≡ decisions.decide workers e (decision_of self) (rate_of_reading reading) }
        ensures stage { IsStage workers result }
    {
        match self {
            Stage::Calibrates { best, left } => Stage::calibrated(workers, best, left, reading),
            Stage::Optimises { half, best, left } => {
                Stage::optimised(workers, half, best, left, reading)
            }
            Stage::Monitors { kept } => {
                if has_fallen(&reading, &kept.reading) {
                    Stage::calibrate(workers, offer)
                } else {
                    self
                }
            }
        }
    }

    /// What it asks for: the first configuration that is left, or the kept one.
    pub fn ask(self) -> Ask
        ensures ask { result ≡ decisions.next_of (decision_of self) }
        ensures config { (workers : ℕ) → IsStage workers self → IsConfig result.config }
    {
        match self {
            Stage::Calibrates { best: _, left } => probe(left.split().0),
            Stage::Optimises {
                half: _,
                best: _,
                left,
            } => probe(left.split().0),
            Stage::Monitors { kept } => Ask {
                config: kept.config,
                until: Some(WATCHED),
            },
        }
    }

    /// Its phase.
    pub fn phase(self) -> Phase
        ensures { result ≡ phase_of (decision_of self) }
    {
        match self {
            Stage::Calibrates { best: _, left: _ } => Phase::Calibrate,
            Stage::Optimises {
                half: _,
                best: _,
                left: _,
            } => Phase::Optimise,
            Stage::Monitors { kept: _ } => Phase::Monitor,
        }
    }
}

/// The request of a probe.
fn probe(config: Config) -> Ask
    ensures { result ≡ record { config = config; until = Some PROBED } }
{
    Ask {
        config,
        until: Some(PROBED),
    }
}
