ghost use Rattle.std.specs.Prelude.{◌≡◌, ◌≤◌, ◌^◌, ℕ, [], length, IfOk, IfErr, OnOk};
ghost use Rattle.std.specs.Io.KnownBytes.{Appends};
ghost use Rattle.fate_io.specs.Sending.{sent_since, Sends};
ghost use Rattle.nona_tree.specs.Memory.{Memory};
ghost use Rattle.nona_tree.specs.Run.{done, Reaches};
ghost use Rattle.nona_tree.specs.Scope.{AreScoped};
ghost use Rattle.morta_task.specs.LogView.{empty_log};
ghost use Rattle.morta_task.specs.Legal.{IsWholeLog};
ghost use Rattle.morta_text.specs.Texts.{number_lines};
ghost use Rattle.morta_exec.specs.Began.{entries_from, run_from};
ghost use Rattle.morta_exec.specs.Log.{ServesAll, LogStands};
ghost use Rattle.morta_exec.specs.Places.{most};
ghost use Rattle.morta_exec.specs.Drive.{RunStops};
ghost use Rattle.morta_exec.specs.Starts.{BeginsImage};

use crate::fault::DriveFault;
use crate::main_run::drive_frame;
use crate::one_thread::{count_all, pass_all};
use crate::start::{Beginning, Start};
use fate_io::{SendFault, Sink};
use morta_task::{Asker, Image, Log, Runner};
use nona_code::CodeFrame;
use nona_store::Ended;
use nona_tree::entries_are_regions;
use std::alloc::{AllocError, Global};
use std::snapshot::Snapshot;

/// A frame before the first of the main statements. The one error is that memory ran out.
fn frame_of(alloc: Global, image: &Image) -> Result<CodeFrame<'_>, AllocError>
    ensures { IfOk result (BeginsImage image.now) }
{
    CodeFrame::begin(alloc, image.code())
}

/// Runs an image to its end, interval by interval.
///
/// At each region that the run comes to it makes the entry, and then as often as it takes: it asks for a configuration,
/// puts `seq 1` in the place of a version that the entry doesn't offer, runs the interval, logs it, tells of it, and puts
/// the numbers that it printed on the sink, one put for each line. An entry has one interval at least. The numbers that the
/// main statements print are put before the next entry.
///
/// After a fault the log has the intervals that were run up to there, and `morta` is spent. Takes the guard's time for an entry
/// and constant time for an interval beside the runner's own, and the store is never copied.
pub fn drive<M: Runner + Asker, K: Sink>(
    alloc: Global,
    image: &Image,
    from: Beginning,
    morta: &mut M,
    out: &mut K,
    log: &mut Log,
) -> Result<Ended, DriveFault>
    requires some_turns { 1 ≤ from.turns }
    requires few_turns { from.turns ≤ 10 ^ 12 }
    requires scoped { AreScoped image.now.main (length from.store.scalars) (length from.store.arrays) }
    requires printed { from.store.printed ≡ [] }
    requires empty { log.old ≡ empty_log }
    requires stands { (M.promise).stands_for morta.old empty_log }
    requires serves { ServesAll M.promise morta.old image.now }
    ensures ended { IfOk result (λ ended. Reaches (run_from image.now from) ended.store ended.outcome) }
    ensures put { OnOk result (Appends (K.written out.old) (K.written out.new) (number_lines (run_from image.now from).store.printed)) }
    ensures kept { OnOk result (K.faults out.new ≡ K.faults out.old) }
    ensures log { LogStands M.promise (entries_from image.now from) morta.old log.new }
    ensures whole { OnOk result (IsWholeLog ((M.promise).may_ask morta.old) (entries_from image.now from) log.new) }
    ensures few { length log.new.intervals ≤ most }
    ensures later { K.faults out.old ≤ K.faults out.new }
    ensures stops { IfErr result (λ fault. RunStops image.now from log.new.intervals (sent_since K.written K.faults out.old out.new) fault) }
{
    entries_are_regions();
    let Beginning { store, turns } = from;
    // The store's numbers are of 64 bits.
    store.is_kept();
    let start = Start {
        alloc,
        image,
        turns,
        store: Snapshot::of(&store),
        morta: Snapshot::of(morta),
        out: Snapshot::of(out),
    };
    let mut frame = frame_of(alloc, image)?;
    drive_frame(&start, &mut frame, store, morta, out, log)
}

/// Runs an image to its end in one thread, without a log.
///
/// At each region that the run comes to its iterations run one after another. The numbers that the main statements print are
/// put on the sink before the region, and those of the region behind it, one put for each line.
///
/// After a fault a front of the lines of all numbers that the run prints was put. Takes the guard's time for an entry beside the
/// iterations, and the store is never copied.
pub fn run_through<K: Sink>(
    alloc: Global,
    image: &Image,
    from: Beginning,
    out: &mut K,
) -> Result<Ended, SendFault>
    requires some_turns { 1 ≤ from.turns }
    requires few_turns { from.turns ≤ 10 ^ 12 }
    requires scoped { AreScoped image.now.main (length from.store.scalars) (length from.store.arrays) }
    requires printed { from.store.printed ≡ [] }
    ensures ended { IfOk result (λ ended. Reaches (run_from image.now from) ended.store ended.outcome) }
    ensures sent { Sends (sent_since K.written K.faults out.old out.new) (number_lines (run_from image.now from).store.printed) result }
    ensures later { K.faults out.old ≤ K.faults out.new }
{
    entries_are_regions();
    let Beginning { store, turns } = from;
    // The store's numbers are of 64 bits.
    store.is_kept();
    let count = count_all(image, &store, turns);
    let start = Start {
        alloc,
        image,
        turns,
        store: Snapshot::of(&store),
        morta: Snapshot::of(&()),
        out: Snapshot::of(out),
    };
    let Ok(mut frame) = frame_of(alloc, image) else {
        return Err(SendFault::NoMemory);
    };
    pass_all(&start, &mut frame, store, count, out)
}
