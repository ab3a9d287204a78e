//! A run in one thread, from one region to the next, without a log.
ghost use Rattle.std.specs.Prelude.{◌≡◌, ◌-◌, ◌≤◌, ◌^◌, pos, ◌+ℤ◌, length, IfOk, IfErr};
ghost use Rattle.fate_io.specs.Sending.{sent_since, BreaksOff};
ghost use Rattle.nona_tree.specs.Run.{Reaches};
ghost use Rattle.morta_task.specs.Entries.{IsEntered, before, last, entries_of};
ghost use Rattle.morta_task.specs.Running.{IsIn};
ghost use Rattle.morta_text.specs.Texts.{number_lines};
ghost use Rattle.morta_exec.specs.Began.{began, whole_run};
ghost use Rattle.morta_exec.specs.EntryRun.{whole_loop};
ghost use Rattle.morta_exec.specs.MainRun.{BeginsEntry};
ghost use Rattle.morta_exec.specs.Puts.{HasPut};
ghost use Rattle.morta_exec.specs.Through.{IsThrough, IsBefore, GoesThrough};

use crate::entry_run::{loops_of_entries, whole_end};
use crate::main_run::arrive;
use crate::shown::show;
use crate::start::{Arrival, Start};
use fate_io::{SendFault, Sink};
use morta_task::{Entry, Image, Opening};
use named::Named;
use nona_main::{MainFrame, Stop};
use nona_num::{gap, offset};
use nona_store::{Ended, Store};
use nona_tree::{Outcome, after_next, lengths_stay, printed_grows, scalars_stay};
use nona_units::{Units, turn_units};
use std::alloc::AllocError;
use std::snapshot::Snapshot;

/// The code of the statements of the loop that an entry names.
fn units_of<'a>(image: &'a Image, entry: &Entry) -> &'a Units
    requires { IsIn entry.now image.now }
    ensures { result.now.body ≡ entry.now.looped.body }
{
    image.region(entry.region()).units()
}

/// The index of the iteration with this number, from 0.
fn index_of(entry: &Entry, k: u64) -> i64
    requires { k ≤ before entry.now (last entry.now) }
    ensures { result ≡ entry.now.low +ℤ pos k }
{
    let _last = entry.last();
    offset(entry.low(), k)
}

/// How many iterations an entry has.
fn count_of(entry: &Entry) -> u64
    ensures { result ≡ before entry.now (last entry.now) }
{
    gap(entry.low(), entry.last())
}

/// Runs the whole loop of an entry, one iteration after another.
fn run_loop(image: &Image, entry: &Entry, store: Store) -> Result<(Store, Outcome), AllocError>
    requires entered { IsEntered entry.now }
    requires region { IsIn entry.now image.now }
    requires store { store ≡ entry.now.store }
    ensures { IfOk result (λ r. Reaches (whole_loop entry.now) r.0 r.1) }
{
    after_next();
    scalars_stay();
    lengths_stay();
    loops_of_entries();
    let units = units_of(image, entry);
    let turns = entry.turns();
    let mut frame = units.frame()?;
    let mut store = store;
    let count = count_of(entry);
    'iterations: for k in 0..count {
        let index = index_of(entry, k);
        match turn_units(units, index, &mut frame, turns, &mut store)? {
            Outcome::Done => {}
            end => return Ok((store, end)),
        }
    }
    Ok((store, whole_end(image, entry)))
}

/// How many regions the run of an image from a store comes to, for contracts alone.
pub fn count_all(image: &Image, store: &Store, turns: u64) -> Named<u64>
    ensures { result.value ≡ length (entries_of image.now turns store.now) }
{
    let whole = (Snapshot::of(image), Snapshot::of(store), turns);
    Named::by(&whole)
}

/// One region less.
fn one_less(count: &Named<u64>) -> Named<u64>
    ensures { result.value ≡ count.now.value - 1 }
{
    Named::by(count)
}

/// Runs the loop of the region that the main statements have come to, and then puts the lines of what it printed. Where it ends
/// otherwise than done, the blocks around it are left, and the run is at its end.
fn pass_region<F: MainFrame, K: Sink>(
    start: &Start<'_, (), K>,
    frame: &mut F,
    arrival: Arrival,
    count: &Named<u64>,
    out: &mut K,
) -> Result<(Store, Option<Outcome>), SendFault>
    requires at { IsBefore (F.left frame.old start.now.turns) (began start.now) arrival.entry count.now.value }
    requires begins { BeginsEntry arrival }
    requires put { HasPut (sent_since K.written K.faults start.now.out.value out.old) arrival.entry.store.printed }
    ensures goes_on { IfOk result (λ r. GoesThrough (F.left frame.new start.now.turns) (began start.now) count.now.value r.0 r.1) }
    ensures put { IfOk result (λ r. HasPut (sent_since K.written K.faults start.now.out.value out.new) r.0.printed) }
    ensures later { K.faults start.now.out.value ≤ K.faults out.new }
    ensures stopped { IfErr result (λ fault.
        BreaksOff (sent_since K.written K.faults start.now.out.value out.new) (number_lines (whole_run (began start.now)).store.printed) fault) }
{
    printed_grows();
    loops_of_entries();
    let Arrival { entry, pending } = arrival;
    let store = pending.handoff.store;
    let shown = store.printed().len();
    let (mut store, end) = match run_loop(start.image, &entry, store) {
        Ok(ran) => ran,
        Err(_) => return Err(SendFault::NoMemory),
    };
    show(start, &store, shown, out)?;
    match end {
        Outcome::Done => Ok((store, None)),
        end => {
            frame.leave(&mut store);
            Ok((store, Some(end)))
        }
    }
}

/// From one region to the next, or to the end of the run. What the main statements print is put first, and then what the loop
/// of the region prints.
fn pass<F: MainFrame, K: Sink>(
    start: &Start<'_, (), K>,
    frame: &mut F,
    store: Store,
    count: &Named<u64>,
    out: &mut K,
) -> Result<(Store, Option<Outcome>), SendFault>
    requires some_turns { 1 ≤ start.now.turns }
    requires few_turns { start.now.turns ≤ 10 ^ 12 }
    requires through { IsThrough (F.left frame.old start.now.turns) (began start.now) store count.now.value }
    requires put { HasPut (sent_since K.written K.faults start.now.out.value out.old) store.printed }
    ensures goes_on { IfOk result (λ r. GoesThrough (F.left frame.new start.now.turns) (began start.now) count.now.value r.0 r.1) }
    ensures put { IfOk result (λ r. HasPut (sent_since K.written K.faults start.now.out.value out.new) r.0.printed) }
    ensures later { K.faults start.now.out.value ≤ K.faults out.new }
    ensures stopped { IfErr result (λ fault.
        BreaksOff (sent_since K.written K.faults start.now.out.value out.new) (number_lines (whole_run (began start.now)).store.printed) fault) }
{
    printed_grows();
    let mut store = store;
    let shown = store.printed().len();
    let stop = match frame.next(start.turns, &mut store) {
        Ok(stop) => stop,
        Err(_) => return Err(SendFault::NoMemory),
    };
    show(start, &store, shown, out)?;
    match stop {
        Stop::Ended(end) => Ok((store, Some(end))),
        Stop::Region { number, low, high } => {
            let opening = Opening {
                number: 1,
                region: number,
                low,
                high,
            };
            let arrival = arrive(start, opening, store);
            pass_region(start, frame, arrival, count, out)
        }
    }
}

/// Runs an image from where a frame of its main statements stands to the end of the run.
pub fn pass_all<F: MainFrame, K: Sink>(
    start: &Start<'_, (), K>,
    frame: &mut F,
    store: Store,
    count: Named<u64>,
    out: &mut K,
) -> Result<Ended, SendFault>
    requires some_turns { 1 ≤ start.now.turns }
    requires few_turns { start.now.turns ≤ 10 ^ 12 }
    requires through { IsThrough (F.left frame.old start.now.turns) (began start.now) store count.value }
    requires put { HasPut (sent_since K.written K.faults start.now.out.value out.old) store.printed }
    ensures ended { IfOk result (λ ended. Reaches (whole_run (began start.now)) ended.store ended.outcome) }
    ensures put { IfOk result (λ ended. HasPut (sent_since K.written K.faults start.now.out.value out.new) ended.store.printed) }
    ensures later { K.faults start.now.out.value ≤ K.faults out.new }
    ensures stopped { IfErr result (λ fault.
        BreaksOff (sent_since K.written K.faults start.now.out.value out.new) (number_lines (whole_run (began start.now)).store.printed) fault) }
{
    let mut store = store;
    let mut count = count;
    loop {
        let (after, end) = pass(start, frame, store, &count, out)?;
        store = after;
        if let Some(outcome) = end {
            return Ok(Ended { outcome, store });
        }
        count = one_less(&count);
    }
}
