//! One interval: asked for, run, logged and told.
ghost use Rattle.std.specs.Prelude.{◌≡◌, length, IfOk, OnOk, OnErr};
ghost use Rattle.morta_task.specs.LogView.{with_interval};
ghost use Rattle.morta_task.specs.Running.{chosen, limit_of};
ghost use Rattle.morta_exec.specs.Began.{began};
ghost use Rattle.morta_exec.specs.Log.{ServesAll};
ghost use Rattle.morta_exec.specs.Standing.{StandsBetween, IsOfRun, KeptFor, StandsBefore, HasRunInterval};

use crate::start::{Pending, Start};
use morta_task::{Asker, Config, Entry, Handoff, Interval, Log, Runner};
use nona_num::gap;
use std::alloc::AllocError;

/// What runs where this is asked for.
fn choose(entry: &Entry, asked: Config) -> Config
    ensures { result ≡ chosen entry.now asked }
{
    if entry.offers(asked.scheme) {
        asked
    } else {
        Config::SEQ
    }
}

/// The limit of an interval that begins at `from`.
fn limit_for(entry: &Entry, from: i64, until: Option<u64>) -> u64
    ensures { result ≡ limit_of entry.now from until }
{
    let count = gap(from, entry.last());
    match until {
        None => count,
        Some(most) => count.min(most),
    }
}

/// Logs an interval, with its entry where that is its first.
fn note(
    log: &mut Log,
    entry: &Entry,
    kept: Option<Entry>,
    interval: Interval,
) -> Result<(), AllocError>
    requires { KeptFor kept (length log.old.entries) entry.now }
    ensures ok { OnOk result (log.new ≡ with_interval log.old entry.now interval) }
    ensures err { OnErr result (log.new ≡ log.old) }
{
    match kept {
        Some(first) => log.enter(first, interval),
        None => log.add(interval),
    }
}

/// Runs the next interval of an entry, as it is asked for, logs it, and tells of it.
pub fn run_interval<M: Runner + Asker, K>(
    start: &Start<'_, M, K>,
    entry: &Entry,
    pending: Pending,
    morta: &mut M,
    log: &mut Log,
) -> Result<(Handoff, Interval), AllocError>
    requires serves { ServesAll M.promise start.now.morta.value start.now.image.now }
    requires entry { IsOfRun (began start.now) entry.now }
    requires stands { StandsBefore M.promise (began start.now) morta.old entry.now log.old pending }
    ensures stands { OnOk result (StandsBetween M.promise (began start.now) morta.new log.new) }
    ensures ran { IfOk result (λ r. HasRunInterval entry.now pending.handoff.next log.old log.new r.0 r.1) }
    ensures err { OnErr result (log.new ≡ log.old) }
{
    let Pending { kept, handoff } = pending;
    let from = handoff.next;
    let asked = morta.ask(entry, from);
    let ran = choose(entry, asked.config);
    let limit = limit_for(entry, from, asked.until);
    let (handoff, done) = morta.interval(start.image, entry, handoff, ran, limit)?;
    let interval = Interval {
        entry: entry.number(),
        asked,
        ran,
        from,
        done,
    };
    note(log, entry, kept, interval)?;
    morta.told(entry, &interval);
    Ok((handoff, interval))
}
