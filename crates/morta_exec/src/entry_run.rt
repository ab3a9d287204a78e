//! One entry, interval by interval.
ghost use Rattle.std.specs.Prelude.{◌≡◌, ◌+◌, ◌<◌, ◌≤◌, length, IfOk, IfErr, OnOk};
ghost use Rattle.std.specs.Int.{int_gap};
ghost use Rattle.fate_io.specs.Sending.{sent_since};
ghost use Rattle.nona_tree.specs.Memory.{Memory};
ghost use Rattle.nona_tree.specs.Run.{done, Reaches};
ghost use Rattle.morta_task.specs.Entries.{IsEntered, last, before, state_after};
ghost use Rattle.morta_task.specs.Running.{IsIn, IsDone, limit_of};
ghost use Rattle.morta_exec.specs.Began.{began};
ghost use Rattle.morta_exec.specs.Log.{ServesAll};
ghost use Rattle.morta_exec.specs.Places.{most};
ghost use Rattle.morta_exec.specs.Puts.{HasPut};
ghost use Rattle.morta_exec.specs.Standing.{StandsBefore};
ghost use Rattle.morta_exec.specs.EntryRun.{whole_loop, LoopsOfEntries, EndsWith, HasEnded, GoesOnAt, HasStopped, IsOn};

use crate::fault::DriveFault;
use crate::interval_run::run_interval;
use crate::shown::show;
use crate::start::{Pending, Start};
use fate_io::Sink;
use morta_task::{Asker, Cut, Entry, Handoff, Image, Interval, Log, Runner};
use nona_num::gap;
use nona_store::Store;
use nona_tree::{Outcome, after_next, loop_is_after, printed_grows};

/// The most intervals that a log has.
pub const MOST: usize = 1_048_576;

/// Says how the loop of an entry stands to its iterations. It does nothing when called.
pub fn loops_of_entries()
    ensures { LoopsOfEntries }
{
    after_next();
    loop_is_after();
    printed_grows();
}

/// How many turns lie between the bounds of an entry's loop.
fn span(entry: &Entry) -> u64
    ensures { result ≡ int_gap entry.now.low entry.now.high }
{
    gap(entry.low(), entry.high())
}

/// How the loop of an entry ends whose last turn is done: it may be out of turns then.
pub fn whole_end(image: &Image, entry: &Entry) -> Outcome
    requires entered { IsEntered entry.now }
    requires region { IsIn entry.now image.now }
    ensures { (m : Memory) → state_after entry.now (before entry.now (last entry.now)) ≡ done m → Reaches (whole_loop entry.now) m result }
{
    loops_of_entries();
    if span(entry) <= entry.turns() {
        Outcome::Done
    } else {
        Outcome::OutOfTurns {
            at: image.region(entry.region()).place(),
        }
    }
}

/// How the loop of an entry has ended with an interval, or `None` where the entry goes on.
fn loop_end(image: &Image, entry: &Entry, interval: &Interval) -> Option<Outcome>
    requires entered { IsEntered entry.now }
    requires region { IsIn entry.now image.now }
    requires done { IsDone entry.now interval.now.ran interval.now.from
        (limit_of entry.now interval.now.from interval.now.asked.until) interval.now.done }
    ensures { EndsWith entry.now interval.now result }
{
    loops_of_entries();
    match interval.done.cut {
        Cut::Trap(trap) => Some(Outcome::Trap(trap)),
        Cut::Turns { at } => Some(Outcome::OutOfTurns { at }),
        _ => {
            if interval.done.to == entry.last() {
                Some(whole_end(image, entry))
            } else {
                None
            }
        }
    }
}

/// One interval of an entry, and then the lines of what it printed. The answer has how the entry's loop ended, where it
/// did.
fn run_and_show<M: Runner + Asker, K: Sink>(
    start: &Start<'_, M, K>,
    entry: &Entry,
    pending: Pending,
    morta: &mut M,
    out: &mut K,
    log: &mut Log,
) -> Result<(Handoff, Option<Outcome>), DriveFault>
    requires serves { ServesAll M.promise start.now.morta.value start.now.image.now }
    requires entry { IsOn (began start.now) entry.now }
    requires stands { StandsBefore M.promise (began start.now) morta.old entry.now log.old pending }
    requires put { HasPut (sent_since K.written K.faults start.now.out.value out.old) pending.handoff.store.printed }
    requires room { length log.old.intervals < most }
    ensures goes_on { IfOk result (λ r. GoesOnAt M.promise (began start.now) morta.new entry.now log.new r.0 r.1) }
    ensures put { IfOk result (λ r. HasPut (sent_since K.written K.faults start.now.out.value out.new) r.0.store.printed) }
    ensures added { OnOk result (length log.new.intervals ≡ length log.old.intervals + 1) }
    ensures stopped { IfErr result (λ fault.
        HasStopped M.promise (began start.now) log.new (sent_since K.written K.faults start.now.out.value out.new) fault) }
{
    loops_of_entries();
    let shown = pending.handoff.store.printed().len();
    let (after, interval) = run_interval(start, entry, pending, morta, log)?;
    show(start, &after.store, shown, out)?;
    let end = loop_end(start.image, entry, &interval);
    Ok((after, end))
}

/// Runs an entry to the end of its loop, interval by interval.
pub fn run_entry<M: Runner + Asker, K: Sink>(
    start: &Start<'_, M, K>,
    entry: &Entry,
    pending: Pending,
    morta: &mut M,
    out: &mut K,
    log: &mut Log,
) -> Result<(Store, Outcome), DriveFault>
    requires serves { ServesAll M.promise start.now.morta.value start.now.image.now }
    requires entry { IsOn (began start.now) entry.now }
    requires stands { StandsBefore M.promise (began start.now) morta.old entry.now log.old pending }
    requires put { HasPut (sent_since K.written K.faults start.now.out.value out.old) pending.handoff.store.printed }
    requires few { length log.old.intervals ≤ most }
    ensures ended { IfOk result (λ r. HasEnded M.promise (began start.now) morta.new entry.now log.new r.0 r.1) }
    ensures put { IfOk result (λ r. HasPut (sent_since K.written K.faults start.now.out.value out.new) r.0.printed) }
    ensures few { OnOk result (length log.new.intervals ≤ most) }
    ensures added { OnOk result (length log.old.intervals < length log.new.intervals) }
    ensures stopped { IfErr result (λ fault.
        HasStopped M.promise (began start.now) log.new (sent_since K.written K.faults start.now.out.value out.new) fault) }
{
    loops_of_entries();
    let mut pending = pending;
    while log.intervals().len() < MOST {
        let (after, end) = run_and_show(start, entry, pending, morta, out, log)?;
        if let Some(end) = end {
            return Ok((after.store, end));
        }
        pending = Pending {
            kept: None,
            handoff: after,
        };
    }
    Err(DriveFault::LogFull)
}
