ghost use Rattle.std.specs.Prelude.{◌≡◌, ◌≤◌, ◌-◌, ◌==◌, if◌then◌else◌, [], ◌∷◌, ◌++◌, length, codes, IfOk, OnOk, slice_get, string_bytes};
ghost use Rattle.std.specs.Fmt.{decimal};
ghost use Rattle.fate_io.specs.Sending.{sent_since, Sends};
ghost use Rattle.fate_io.specs.Numbered.{texts_from};
ghost use Rattle.morta_text.specs.Texts.{scheme_word, cut_word, config_text, work_text, interval_end, interval_line};
ghost use Rattle.morta_text.specs.Texts.{entry_line, entry_text, entry_before, entry_if_new, interval_text, intervals_line, log_text};

use fate_io::{SendFault, Sink, send};
use morta_task::{Config, Cut, Entry, Interval, Log, Ran, Scheme, Work};
use std::alloc::{AllocError, Global};

/// The word for a version.
fn word_of_scheme(scheme: Scheme) -> &'static str
    ensures { result.now ≡ scheme_word scheme }
{
    match scheme {
        Scheme::Seq => "seq",
        Scheme::Any => "any",
        Scheme::Pipe => "pipe",
    }
}

/// The word for why an interval ended.
fn word_of_cut(cut: Cut) -> &'static str
    ensures { result.now ≡ cut_word cut }
{
    match cut {
        Cut::Limit => "limit",
        Cut::Paused => "paused",
        Cut::Trap(_) => "trap",
        Cut::Turns { .. } => "turns",
    }
}

/// The text of a configuration.
fn text_of_config(alloc: Global, config: Config) -> Result<String, AllocError>
    ensures { IfOk result (λ text. string_bytes text ≡ config_text config) }
{
    let scheme = word_of_scheme(config.scheme);
    let workers = config.workers;
    format!(in alloc; "{scheme} {workers}")
}

/// The text of the work of an interval, where it was counted.
fn text_of_work(alloc: Global, work: Option<Work>) -> Result<String, AllocError>
    ensures { IfOk result (λ text. string_bytes text ≡ work_text work) }
{
    match work {
        None => Ok(String::new(alloc)),
        Some(Work { steps, waits }) => format!(in alloc; " steps {steps} waits {waits}"),
    }
}

/// The end of an interval's line, from its work on.
fn end_of_interval(alloc: Global, done: Ran) -> Result<String, AllocError>
    ensures { IfOk result (λ text. string_bytes text ≡ interval_end done) }
{
    let work = text_of_work(alloc, done.work)?;
    let ticks = done.ticks;
    let why = word_of_cut(done.cut);
    format!(in alloc; "{work} ticks {ticks} end {why}\n")
}

/// The line of an interval.
fn line_of_interval(alloc: Global, interval: Interval) -> Result<String, AllocError>
    ensures { IfOk result (λ text. string_bytes text ≡ interval_line interval) }
{
    let asked = text_of_config(alloc, interval.asked.config)?;
    let ran = text_of_config(alloc, interval.ran)?;
    let end = end_of_interval(alloc, interval.done)?;
    let from = interval.from;
    let to = interval.done.to;
    format!(in alloc; "from {from} to {to} asked {asked} ran {ran}{end}")
}

/// The line of an entry.
fn line_of_entry(alloc: Global, entry: &Entry) -> Result<String, AllocError>
    ensures { IfOk result (λ text. string_bytes text ≡ entry_line entry.now) }
{
    let number = entry.number();
    let region = entry.region();
    let low = entry.low();
    let high = entry.high();
    format!(in alloc; "entry {number} region {region} low {low} high {high}\n")
}

/// The number of the entry of the interval before the one at this place, and 0 where there is none.
fn entry_number_before(intervals: &[Interval], place: usize) -> u32
    ensures { result ≡ entry_before intervals.now place }
{
    if place == 0 {
        return 0;
    }
    match intervals.get(place - 1) {
        Some(interval) => interval.entry,
        None => 0,
    }
}

/// Sends the line of an entry.
fn send_entry<K: Sink>(alloc: Global, entry: &Entry, out: &mut K) -> Result<(), SendFault>
    ensures later { K.faults out.old ≤ K.faults out.new }
    ensures sent { Sends (sent_since K.written K.faults out.old out.new) (entry_line entry.now) result }
    ensures kept { OnOk result (K.faults out.new ≡ K.faults out.old) }
{
    match line_of_entry(alloc, entry) {
        Ok(text) => send(out, text.as_bytes()),
        Err(_) => Err(SendFault::NoMemory),
    }
}

/// Sends the line of the entry with this number, where it is there.
fn send_numbered<K: Sink>(
    alloc: Global,
    entries: &[Entry],
    number: u32,
    out: &mut K,
) -> Result<(), SendFault>
    ensures later { K.faults out.old ≤ K.faults out.new }
    ensures sent { Sends (sent_since K.written K.faults out.old out.new) (entry_text (slice_get entries.now (number - 1))) result }
    ensures kept { OnOk result (K.faults out.new ≡ K.faults out.old) }
{
    let at = number.saturating_sub(1) as usize;
    match entries.get(at) {
        Some(entry) => send_entry(alloc, entry, out),
        None => Ok(()),
    }
}

/// Sends the line of an interval's entry, where the interval before it is of another one.
fn send_if_new<K: Sink>(
    alloc: Global,
    log: &Log,
    place: usize,
    number: u32,
    out: &mut K,
) -> Result<(), SendFault>
    ensures later { K.faults out.old ≤ K.faults out.new }
    ensures sent { Sends (sent_since K.written K.faults out.old out.new) (entry_if_new log.now place number) result }
    ensures kept { OnOk result (K.faults out.new ≡ K.faults out.old) }
{
    if entry_number_before(log.intervals(), place) == number {
        return Ok(());
    }
    send_numbered(alloc, log.entries(), number, out)
}

/// Sends the line of an interval.
fn send_interval_line<K: Sink>(
    alloc: Global,
    interval: Interval,
    out: &mut K,
) -> Result<(), SendFault>
    ensures later { K.faults out.old ≤ K.faults out.new }
    ensures sent { Sends (sent_since K.written K.faults out.old out.new) (interval_line interval) result }
    ensures kept { OnOk result (K.faults out.new ≡ K.faults out.old) }
{
    match line_of_interval(alloc, interval) {
        Ok(text) => send(out, text.as_bytes()),
        Err(_) => Err(SendFault::NoMemory),
    }
}

/// Sends the interval at a place of a log, and before the first one of an entry that entry.
fn send_interval<K: Sink>(
    alloc: Global,
    log: &Log,
    place: usize,
    interval: Interval,
    out: &mut K,
) -> Result<(), SendFault>
    ensures later { K.faults out.old ≤ K.faults out.new }
    ensures sent { Sends (sent_since K.written K.faults out.old out.new) (interval_text log.now place interval) result }
    ensures kept { OnOk result (K.faults out.new ≡ K.faults out.old) }
{
    match send_if_new(alloc, log, place, interval.entry, out) {
        Ok(()) => send_interval_line(alloc, interval, out),
        Err(fault) => Err(fault),
    }
}

/// Sends each interval of a log, with the entries.
fn send_intervals<K: Sink>(alloc: Global, log: &Log, out: &mut K) -> Result<(), SendFault>
    ensures later { K.faults out.old ≤ K.faults out.new }
    ensures sent { Sends (sent_since K.written K.faults out.old out.new) (texts_from (interval_text log.now) 0 log.now.intervals) result }
    ensures kept { OnOk result (K.faults out.new ≡ K.faults out.old) }
{
    let intervals = log.intervals();
    for (place, interval) in intervals.iter().enumerate() {
        send_interval(alloc, log, place, *interval, out)?;
    }
    Ok(())
}

/// The line of how many intervals there are.
fn line_of_count(alloc: Global, count: usize) -> Result<String, AllocError>
    ensures { IfOk result (λ text. string_bytes text ≡ intervals_line count) }
{
    format!(in alloc; "intervals {count}\n")
}

/// Sends the line of how many intervals there are.
fn send_count<K: Sink>(alloc: Global, count: usize, out: &mut K) -> Result<(), SendFault>
    ensures later { K.faults out.old ≤ K.faults out.new }
    ensures sent { Sends (sent_since K.written K.faults out.old out.new) (intervals_line count) result }
    ensures kept { OnOk result (K.faults out.new ≡ K.faults out.old) }
{
    match line_of_count(alloc, count) {
        Ok(text) => send(out, text.as_bytes()),
        Err(_) => Err(SendFault::NoMemory),
    }
}

/// Sends a log, each line in one put: for each interval in order
/// `from FROM to TO asked VERSION WORKERS ran VERSION WORKERS steps STEPS waits WAITS ticks TICKS end WHY`, without the
/// steps and the waits where they weren't counted; before the first interval of an entry
/// `entry NUMBER region NUMBER low LOW high HIGH`; and at the end `intervals COUNT`.
///
/// `WriteFailed` comes where a put failed, `NoMemory` where memory for a line ran out; a front of the lines went out.
pub fn send_log<K: Sink>(alloc: Global, log: &Log, out: &mut K) -> Result<(), SendFault>
    ensures later { K.faults out.old ≤ K.faults out.new }
    ensures sent { Sends (sent_since K.written K.faults out.old out.new) (log_text log.now) result }
    ensures kept { OnOk result (K.faults out.new ≡ K.faults out.old) }
{
    match send_intervals(alloc, log, out) {
        Ok(()) => send_count(alloc, log.intervals().len(), out),
        Err(fault) => Err(fault),
    }
}
