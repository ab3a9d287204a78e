//! The main statements, from one entry to the next.
ghost use Rattle.std.specs.Prelude.{◌≡◌, ◌+◌, ◌-◌, ◌<◌, ◌≤◌, ◌^◌, [], length, IfOk, IfErr, OnOk, None, Some, slice_get};
ghost use Rattle.fate_io.specs.Sending.{sent_since};
ghost use Rattle.nona_tree.specs.declared.trees.Stmt.{For};
ghost use Rattle.nona_tree.specs.Entries.{regions_all, count_all};
ghost use Rattle.nona_tree.specs.Numbers.{IsI64Stmt};
ghost use Rattle.nona_tree.specs.Scope.{IsSteady};
ghost use Rattle.nona_tree.specs.Smallness.{IsSmallLoop};
ghost use Rattle.morta_task.specs.ImageView.{is_region_of};
ghost use Rattle.morta_exec.specs.Began.{began};
ghost use Rattle.morta_exec.specs.Log.{ServesAll};
ghost use Rattle.morta_exec.specs.Places.{most};
ghost use Rattle.morta_exec.specs.Puts.{HasPut};
ghost use Rattle.morta_exec.specs.EntryRun.{HasStopped};
ghost use Rattle.morta_exec.specs.MainRun.{Between, AtEntry, IsOver, GoesOnTo, CanEnter, IsOpened, BeginsEntry};

use crate::entry_run::{loops_of_entries, run_entry};
use crate::fault::DriveFault;
use crate::shown::show;
use crate::start::{Arrival, Pending, Start};
use fate_io::Sink;
use morta_task::{Asker, Entry, Handoff, Image, Log, Opening, RegionCode, Runner};
use nona_code::{MainFrame, Stop};
use nona_store::{Ended, Store};
use nona_tree::{Outcome, printed_grows};

/// The code of a region by its number, counted from 1, and what an image says of it.
fn code_of(image: &Image, number: u32) -> &RegionCode
    requires first { 1 ≤ number }
    requires there { number ≤ count_all (is_region_of image.now) image.now.main }
    ensures code { slice_get image.now.regions (number - 1) ≡ Some result.now }
    ensures looped { slice_get (regions_all (is_region_of image.now) image.now.main) (number - 1) ≡ Some result.now.looped }
    ensures steady { IsSteady (For result.now.looped) [] }
    ensures small { IsSmallLoop result.now.looped }
    ensures numbers { IsI64Stmt (For result.now.looped) }
{
    let regions = image.regions();
    &regions[number as usize - 1]
}

/// The number of the entry that comes behind those of a log.
fn next_number(log: &Log) -> u32
    requires { length log.now.entries ≤ most }
    ensures { result ≡ length log.now.entries + 1 }
{
    log.entries().len() as u32 + 1
}

/// The entry that opens so, and what its first interval begins with. Its guard is asked once.
pub fn arrive<M, K>(start: &Start<'_, M, K>, opening: Opening, store: Store) -> Arrival
    requires some_turns { 1 ≤ start.now.turns }
    requires few_turns { start.now.turns ≤ 10 ^ 12 }
    requires enters { CanEnter start.now.image.now opening.region store }
    ensures opened { IsOpened start.now.image.now opening start.now.turns store result.entry }
    ensures begins { BeginsEntry result }
{
    // The store's numbers are of 64 bits.
    store.is_kept();
    let code = code_of(start.image, opening.region);
    let entry = Entry::begin(opening, code, start.turns, &store);
    let kept = entry.again(code, &store);
    let handoff = Handoff {
        next: opening.low,
        store,
    };
    let pending = Pending {
        kept: Some(kept),
        handoff,
    };
    Arrival { entry, pending }
}

/// Runs the loop of the region that the main statements have come to. Where it ends otherwise than done, the blocks around
/// it are left, and the run is at its end.
fn run_region<F: MainFrame, M: Runner + Asker, K: Sink>(
    start: &Start<'_, M, K>,
    frame: &mut F,
    arrival: Arrival,
    morta: &mut M,
    out: &mut K,
    log: &mut Log,
) -> Result<(Store, Option<Outcome>), DriveFault>
    requires serves { ServesAll M.promise start.now.morta.value start.now.image.now }
    requires at { AtEntry M.promise (F.left frame.old start.now.turns) (began start.now) morta.old log.old arrival.entry }
    requires begins { BeginsEntry arrival }
    requires put { HasPut (sent_since K.written K.faults start.now.out.value out.old) arrival.entry.store.printed }
    ensures goes_on { IfOk result (λ r. GoesOnTo M.promise (F.left frame.new start.now.turns) (began start.now) morta.new log.new r.0 r.1) }
    ensures put { IfOk result (λ r. HasPut (sent_since K.written K.faults start.now.out.value out.new) r.0.printed) }
    ensures added { OnOk result (length log.old.intervals < length log.new.intervals) }
    ensures stopped { IfErr result (λ fault.
        HasStopped M.promise (began start.now) log.new (sent_since K.written K.faults start.now.out.value out.new) fault) }
{
    loops_of_entries();
    let Arrival { entry, pending } = arrival;
    let (mut store, end) = run_entry(start, &entry, pending, morta, out, log)?;
    match end {
        Outcome::Done => Ok((store, None)),
        end => {
            frame.leave(&mut store);
            Ok((store, Some(end)))
        }
    }
}

/// From one entry to the next, or to the end of the run. What the main statements print comes first, and then the loop of
/// the region that they come to.
fn step<F: MainFrame, M: Runner + Asker, K: Sink>(
    start: &Start<'_, M, K>,
    frame: &mut F,
    store: Store,
    morta: &mut M,
    out: &mut K,
    log: &mut Log,
) -> Result<(Store, Option<Outcome>), DriveFault>
    requires some_turns { 1 ≤ start.now.turns }
    requires few_turns { start.now.turns ≤ 10 ^ 12 }
    requires serves { ServesAll M.promise start.now.morta.value start.now.image.now }
    requires between { Between M.promise (F.left frame.old start.now.turns) (began start.now) morta.old store log.old }
    requires put { HasPut (sent_since K.written K.faults start.now.out.value out.old) store.printed }
    ensures goes_on { IfOk result (λ r. GoesOnTo M.promise (F.left frame.new start.now.turns) (began start.now) morta.new log.new r.0 r.1) }
    ensures put { IfOk result (λ r. HasPut (sent_since K.written K.faults start.now.out.value out.new) r.0.printed) }
    ensures added { IfOk result (λ r. r.1 ≡ None → length log.old.intervals < length log.new.intervals) }
    ensures stopped { IfErr result (λ fault.
        HasStopped M.promise (began start.now) log.new (sent_since K.written K.faults start.now.out.value out.new) fault) }
{
    printed_grows();
    let mut store = store;
    let shown = store.printed().len();
    let stop = frame.next(start.turns, &mut store)?;
    show(start, &store, shown, out)?;
    match stop {
        Stop::Ended(end) => Ok((store, Some(end))),
        Stop::Region { number, low, high } => {
            let opening = Opening {
                number: next_number(log),
                region: number,
                low,
                high,
            };
            let arrival = arrive(start, opening, store);
            run_region(start, frame, arrival, morta, out, log)
        }
    }
}

/// Runs an image from where a frame of its main statements stands to the end of the run.
pub fn drive_frame<F: MainFrame, M: Runner + Asker, K: Sink>(
    start: &Start<'_, M, K>,
    frame: &mut F,
    store: Store,
    morta: &mut M,
    out: &mut K,
    log: &mut Log,
) -> Result<Ended, DriveFault>
    requires some_turns { 1 ≤ start.now.turns }
    requires few_turns { start.now.turns ≤ 10 ^ 12 }
    requires serves { ServesAll M.promise start.now.morta.value start.now.image.now }
    requires between { Between M.promise (F.left frame.old start.now.turns) (began start.now) morta.old store log.old }
    requires put { HasPut (sent_since K.written K.faults start.now.out.value out.old) store.printed }
    ensures run { IfOk result (λ ended. IsOver M.promise (began start.now) log.new ended.store ended.outcome) }
    ensures put { IfOk result (λ ended. HasPut (sent_since K.written K.faults start.now.out.value out.new) ended.store.printed) }
    ensures stopped { IfErr result (λ fault.
        HasStopped M.promise (began start.now) log.new (sent_since K.written K.faults start.now.out.value out.new) fault) }
{
    let mut store = store;
    loop {
        let (after, end) = step(start, frame, store, morta, out, log)?;
        store = after;
        if let Some(outcome) = end {
            return Ok(Ended { outcome, store });
        }
    }
}
