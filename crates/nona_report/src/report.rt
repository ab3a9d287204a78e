//! The report, line by line.

ghost use Rattle.std.specs.Prelude.{◌≡◌, ◌≤◌, ◌+◌, ◌<◌, ◌^◌, OnOk};
ghost use Rattle.std.specs.List.{flat_map};
ghost use Rattle.fate_io.specs.Numbered.{texts_from};
ghost use Rattle.fate_io.specs.Sending.{sent_since, Sends};
ghost use Rattle.nona_report.specs.Report.{stage_line, region_line, plain_line, seen_text, report_text};
ghost use Rattle.nona_stages.specs.declared.seen.Seen.TheVariants as seen;

use crate::lines::{line_of_plain, line_of_region, line_of_stage};
use fate_io::{SendFault, Sink, send};
use nona_stages::{Plain, Region, Seen};
use nona_tree::Stage;
use std::alloc::Global;

/// Sends the line of the stage at a place of a pipeline, from 0.
fn send_stage<K: Sink>(
    alloc: Global,
    place: usize,
    stage: &Stage,
    out: &mut K,
) -> Result<(), SendFault>
    requires few { place + 1 < 2 ^ 64 }
    ensures later { K.faults out.old ≤ K.faults out.new }
    ensures sent { Sends (sent_since K.written K.faults out.old out.new) (stage_line (place + 1) stage.now) result }
    ensures kept { OnOk result (K.faults out.new ≡ K.faults out.old) }
{
    match line_of_stage(alloc, place, stage) {
        Ok(text) => send(out, text.as_bytes()),
        Err(_) => Err(SendFault::NoMemory),
    }
}

/// Sends the line of each stage of a pipeline.
fn send_stages<K: Sink>(alloc: Global, stages: &[Stage], out: &mut K) -> Result<(), SendFault>
    ensures later { K.faults out.old ≤ K.faults out.new }
    ensures sent { Sends (sent_since K.written K.faults out.old out.new) (texts_from stage_line 1 stages.now) result }
    ensures kept { OnOk result (K.faults out.new ≡ K.faults out.old) }
{
    for (place, stage) in stages.iter().enumerate() {
        send_stage(alloc, place, stage, out)?;
    }
    Ok(())
}

/// Sends the line of a region.
fn send_line<K: Sink>(alloc: Global, region: &Region, out: &mut K) -> Result<(), SendFault>
    ensures later { K.faults out.old ≤ K.faults out.new }
    ensures sent { Sends (sent_since K.written K.faults out.old out.new) (region_line region.now) result }
    ensures kept { OnOk result (K.faults out.new ≡ K.faults out.old) }
{
    match line_of_region(alloc, region) {
        Ok(text) => send(out, text.as_bytes()),
        Err(_) => Err(SendFault::NoMemory),
    }
}

/// Sends the line of a region, and then those of the stages of its pipeline.
fn send_region<K: Sink>(alloc: Global, region: &Region, out: &mut K) -> Result<(), SendFault>
    ensures later { K.faults out.old ≤ K.faults out.new }
    ensures sent { Sends (sent_since K.written K.faults out.old out.new) (seen_text (seen.Region region.now)) result }
    ensures kept { OnOk result (K.faults out.new ≡ K.faults out.old) }
{
    match send_line(alloc, region, out) {
        Ok(()) => send_stages(alloc, region.plan.pipe.as_slice(), out),
        Err(fault) => Err(fault),
    }
}

/// Sends the line of a loop that is no region.
fn send_plain<K: Sink>(alloc: Global, at: u32, why: Plain, out: &mut K) -> Result<(), SendFault>
    ensures later { K.faults out.old ≤ K.faults out.new }
    ensures sent { Sends (sent_since K.written K.faults out.old out.new) (plain_line at why) result }
    ensures kept { OnOk result (K.faults out.new ≡ K.faults out.old) }
{
    match line_of_plain(alloc, at, why) {
        Ok(text) => send(out, text.as_bytes()),
        Err(_) => Err(SendFault::NoMemory),
    }
}

/// Sends what is seen of a loop.
fn send_seen<K: Sink>(alloc: Global, one: &Seen, out: &mut K) -> Result<(), SendFault>
    ensures later { K.faults out.old ≤ K.faults out.new }
    ensures sent { Sends (sent_since K.written K.faults out.old out.new) (seen_text one.now) result }
    ensures kept { OnOk result (K.faults out.new ≡ K.faults out.old) }
{
    match one {
        Seen::Region(region) => send_region(alloc, region, out),
        Seen::Plain { at, why } => send_plain(alloc, *at, *why, out),
    }
}

/// Sends what is seen of each loop.
fn send_loops<K: Sink>(alloc: Global, all: &[Seen], out: &mut K) -> Result<(), SendFault>
    ensures later { K.faults out.old ≤ K.faults out.new }
    ensures sent { Sends (sent_since K.written K.faults out.old out.new) (flat_map seen_text all.now) result }
    ensures kept { OnOk result (K.faults out.new ≡ K.faults out.old) }
{
    for one in all {
        send_seen(alloc, one, out)?;
    }
    Ok(())
}

/// Sends the report on the loops of a program, each line in one put: for each loop that is seen, in order,
/// `region NUMBER at PLACE any ANSWER pipe ANSWER`, where an answer is `yes` or `no`, or `plain at PLACE REASON`, where the
/// reason is `seq`, `wild` or `tied`; after a region with a pipeline `stage NUMBER LETTER` for each stage, from 1, with its
/// units each behind a blank, where the letter is `S` where one task alone may run it, and else `P`; and at the end `ok`. The
/// place is that of the loop's word `for`, as a byte of the program's text, from 0.
///
/// `WriteFailed` comes where a put failed, `NoMemory` where memory for a line ran out; a front of the lines went out.
pub fn send_report<K: Sink>(alloc: Global, seen: &[Seen], out: &mut K) -> Result<(), SendFault>
    ensures later { K.faults out.old ≤ K.faults out.new }
    ensures sent { Sends (sent_since K.written K.faults out.old out.new) (report_text seen.now) result }
    ensures kept { OnOk result (K.faults out.new ≡ K.faults out.old) }
{
    match send_loops(alloc, seen, out) {
        Ok(()) => send(out, b"ok\n"),
        Err(fault) => Err(fault),
    }
}
