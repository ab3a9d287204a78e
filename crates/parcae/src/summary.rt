//! The summary of a trial.

ghost use Rattle.std.specs.Prelude.{◌≡◌, ◌≤◌, length, map, string_bytes, IfOk};
ghost use Rattle.std.specs.List.{flat_map};
ghost use Rattle.fate_io.specs.Sending.{sent_since, Sends};
ghost use Rattle.morta_exec.specs.Places.{most};
ghost use Rattle.parcae.specs.Summary.{iterations_of, sum_of, count_line, sum_line, summary_lines, text_of_lines};

use fate_io::{SendFault, Sink, send};
use morta_task::Interval;
use nona_num::{add, gap};
use std::alloc::{AllocError, Global};

/// What the summary of a trial says: its number, how many numbers its input has, how many intervals were run and how many
/// iterations those did, and how many numbers were printed and their sum, wrapped.
#[derive(Clone, Copy)]
pub struct Summary {
    pub number: u16,
    pub input: usize,
    pub intervals: usize,
    pub iterations: u128,
    pub printed: usize,
    pub sum: i64,
}

/// How many iterations intervals did, of which there are no more than a log has.
pub fn iterations_of(intervals: &[Interval]) -> u128
    requires { length intervals.now ≤ most }
    ensures { result ≡ iterations_of intervals.now }
{
    let mut total = 0;
    for interval in intervals {
        total += u128::from(gap(interval.from, interval.done.to));
    }
    total
}

/// The sum of numbers, wrapped to 64 bits.
pub fn sum_of(numbers: &[i64]) -> i64
    ensures { result ≡ sum_of numbers.now }
{
    let mut sum = 0_i64;
    for number in numbers {
        sum = add(sum, *number);
    }
    sum
}

/// A line of a word and a count.
fn count_line(alloc: Global, word: &str, count: u128) -> Result<String, AllocError>
    ensures { IfOk result (λ line. string_bytes line ≡ count_line word.now count) }
{
    format!(in alloc; "{word}{count}\n")
}

/// The line of the sum.
fn sum_line(alloc: Global, sum: i64) -> Result<String, AllocError>
    ensures { IfOk result (λ line. string_bytes line ≡ sum_line sum) }
{
    format!(in alloc; "sum {sum}\n")
}

/// The lines of a summary.
fn lines_of(alloc: Global, summary: Summary) -> Result<Vec<String>, AllocError>
    ensures { IfOk result (λ lines. map string_bytes lines.items ≡ summary_lines summary) }
{
    let number = count_line(alloc, "trial ", u128::from(summary.number))?;
    let input = count_line(alloc, "input ", summary.input as u128)?;
    let outcome = String::from_str(alloc, "outcome done\n")?;
    let intervals = count_line(alloc, "intervals ", summary.intervals as u128)?;
    let iterations = count_line(alloc, "iterations ", summary.iterations)?;
    let printed = count_line(alloc, "printed ", summary.printed as u128)?;
    let sum = sum_line(alloc, summary.sum)?;
    let lines = vec![in alloc; number, input, outcome, intervals, iterations, printed, sum]?;
    Ok(lines)
}

/// Sends lines, each in one put.
fn send_lines<K: Sink>(lines: &[String], out: &mut K) -> Result<(), SendFault>
    ensures later { K.faults out.old ≤ K.faults out.new }
    ensures sent { Sends (sent_since K.written K.faults out.old out.new) (flat_map string_bytes lines.now) result }
{
    for line in lines {
        send(out, line.as_bytes())?;
    }
    Ok(())
}

/// Sends the lines of a summary, each in one put.
pub fn send_summary<K: Sink>(alloc: Global, summary: Summary, out: &mut K) -> Result<(), SendFault>
    ensures later { K.faults out.old ≤ K.faults out.new }
    ensures sent { Sends (sent_since K.written K.faults out.old out.new) (text_of_lines (summary_lines summary)) result }
{
    match lines_of(alloc, summary) {
        Ok(lines) => send_lines(lines.as_slice(), out),
        Err(_) => Err(SendFault::NoMemory),
    }
}
