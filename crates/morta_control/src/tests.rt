//! What a controller asks for, by the rates of its intervals.

ghost use Rattle.std.specs.Prelude.{◌≤◌};
ghost use Rattle.morta_task.specs.declared.limits.TheConstants as limits;

use crate::controller::{Controller, Phase};
use crate::limits::{PROBED, WATCHED};
use crate::offers::Offer;
use decima::Reading;
use morta_task::{Ask, Config, Scheme};
use std::process::Abort;
use std::test::Fail;

const SEQ: Scheme = Scheme::Seq;

const ANY: Scheme = Scheme::Any;

const PIPE: Scheme = Scheme::Pipe;

/// The offer of an entry that has each version, and that of one that has one thread alone.
const ALL: Offer = Offer {
    any: true,
    pipe: true,
};

const NONE: Offer = Offer {
    any: false,
    pipe: false,
};

/// A request, and what is read of its interval: its iterations and its ticks.
#[derive(Clone, Copy)]
struct Row {
    ask: Ask,
    reading: Reading,
}

/// A probe of a version with so many workers, with its iterations and ticks.
fn probe(scheme: Scheme, workers: u8, iterations: u64, ticks: u64) -> Row
    requires { 1 ≤ ticks }
{
    let config = Config { scheme, workers };
    Row {
        ask: Ask {
            config,
            until: Some(PROBED),
        },
        reading: Reading { iterations, ticks },
    }
}

/// An interval of the kept version with so many workers, with its iterations and ticks.
fn watch(scheme: Scheme, workers: u8, iterations: u64, ticks: u64) -> Row
    requires { 1 ≤ ticks }
{
    let config = Config { scheme, workers };
    Row {
        ask: Ask {
            config,
            until: Some(WATCHED),
        },
        reading: Reading { iterations, ticks },
    }
}

/// Compares what a controller for so many workers asks for, at its first entry, while its intervals have these
/// readings.
fn assert_asks(rt: &impl Abort, workers: u8, offer: Offer, rows: &[Row]) -> Result<(), Fail>
    requires some { 1 ≤ workers }
    requires few { workers ≤ limits.WORKERS }
{
    let mut controller = Controller::new(workers);
    controller.come_to(1, offer);
    for row in rows {
        assert_eq!(rt; controller.next(), row.ask);
        controller.decide(offer, row.reading);
    }
    Ok(())
}

#[test]
fn the_version_is_looked_for_and_then_the_workers(rt: HostRuntime) -> Result<(), Fail> {
    let rows = [
        probe(SEQ, 1, 64, 129),
        probe(ANY, 8, 64, 17),
        probe(PIPE, 8, 64, 137),
        probe(ANY, 4, 64, 33),
        probe(ANY, 6, 64, 23),
        probe(ANY, 7, 64, 21),
        watch(ANY, 8, 1024, 257),
        watch(ANY, 8, 1024, 257),
        watch(ANY, 8, 1024, 257),
        watch(ANY, 8, 544, 137),
        watch(ANY, 8, 1024, 257),
    ];
    assert_asks(&rt, 8, ALL, &rows)
}

#[test]
fn of_equal_rates_the_first_is_kept(rt: HostRuntime) -> Result<(), Fail> {
    let versions = [
        probe(SEQ, 1, 64, 64),
        probe(ANY, 8, 32, 32),
        probe(PIPE, 8, 64, 64),
        watch(SEQ, 1, 1024, 1024),
    ];
    let workers = [
        probe(SEQ, 1, 64, 64),
        probe(ANY, 4, 64, 32),
        probe(PIPE, 4, 64, 32),
        probe(ANY, 2, 64, 16),
        probe(ANY, 1, 64, 8),
        probe(ANY, 3, 64, 8),
        watch(ANY, 1, 1024, 128),
    ];
    assert_asks(&rt, 8, ALL, &versions)?;
    assert_asks(&rt, 4, ALL, &workers)
}

#[test]
fn one_worker_and_one_thread_are_kept_at_once(rt: HostRuntime) -> Result<(), Fail> {
    let one_worker = [
        probe(SEQ, 1, 64, 129),
        probe(ANY, 1, 64, 130),
        probe(PIPE, 1, 64, 128),
        watch(PIPE, 1, 1024, 2048),
    ];
    let one_thread = [probe(SEQ, 1, 64, 129), watch(SEQ, 1, 1024, 2048)];
    assert_asks(&rt, 1, ALL, &one_worker)?;
    assert_asks(&rt, 16, NONE, &one_thread)
}

#[test]
fn below_seven_eighths_all_begins_again(rt: HostRuntime) -> Result<(), Fail> {
    let rows = [
        probe(SEQ, 1, 64, 64),
        probe(ANY, 2, 64, 32),
        probe(PIPE, 2, 64, 64),
        probe(ANY, 1, 64, 64),
        watch(ANY, 2, 1024, 512),
        watch(ANY, 2, 896, 512),
        watch(ANY, 2, 895, 512),
        probe(SEQ, 1, 64, 64),
        probe(ANY, 2, 64, 96),
        probe(PIPE, 2, 64, 96),
        watch(SEQ, 1, 1024, 1024),
    ];
    assert_asks(&rt, 2, ALL, &rows)
}

#[test]
fn a_paused_probe_counts_by_what_it_did(rt: HostRuntime) -> Result<(), Fail> {
    let rows = [
        probe(SEQ, 1, 64, 64),
        probe(ANY, 3, 3, 1),
        probe(PIPE, 3, 0, 1),
        probe(ANY, 2, 64, 22),
        watch(ANY, 3, 1024, 342),
    ];
    assert_asks(&rt, 3, ALL, &rows)
}

#[test]
fn each_entry_begins_anew(rt: HostRuntime) -> Result<(), Fail> {
    let mut controller = Controller::new(4);
    assert_eq!(rt; controller.phase(), Phase::Calibrate);
    controller.come_to(1, NONE);
    controller.decide(NONE, watch(SEQ, 1, 64, 64).reading);
    assert_eq!(rt; controller.phase(), Phase::Monitor);
    controller.come_to(1, NONE);
    assert_eq!(rt; controller.phase(), Phase::Monitor);
    controller.come_to(2, ALL);
    assert_eq!(rt; controller.phase(), Phase::Calibrate);
    assert_eq!(rt; controller.next(), probe(SEQ, 1, 64, 64).ask);
    Ok(())
}
