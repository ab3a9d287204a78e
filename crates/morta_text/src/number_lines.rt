ghost use Rattle.std.specs.Prelude.{◌≡◌, ◌≤◌, IfOk, OnOk, string_bytes};
ghost use Rattle.fate_io.specs.Sending.{sent_since, Sends};
ghost use Rattle.morta_text.specs.Texts.{number_line, number_lines};

use fate_io::{SendFault, Sink, send};
use std::alloc::{AllocError, Global};

/// The line of a number.
fn line(alloc: Global, number: i64) -> Result<String, AllocError>
    ensures { IfOk result (λ text. string_bytes text ≡ number_line number) }
{
    format!(in alloc; "{number}\n")
}

/// Puts a number on a line, as one piece.
fn put_number<K: Sink>(alloc: Global, number: i64, out: &mut K) -> Result<(), SendFault>
    ensures later { K.faults out.old ≤ K.faults out.new }
    ensures sent { Sends (sent_since K.written K.faults out.old out.new) (number_line number) result }
    ensures kept { OnOk result (K.faults out.new ≡ K.faults out.old) }
{
    match line(alloc, number) {
        Ok(text) => send(out, text.as_bytes()),
        Err(_) => Err(SendFault::NoMemory),
    }
}

/// Puts each number on a line of its own, one after another, and each line in one put.
///
/// It stops at the first fault, and a front of the lines was put then: `WriteFailed` comes where the sink failed, and
/// `NoMemory` where memory for a line ran out.
pub fn put_numbers<K: Sink>(alloc: Global, numbers: &[i64], out: &mut K) -> Result<(), SendFault>
    ensures later { K.faults out.old ≤ K.faults out.new }
    ensures sent { Sends (sent_since K.written K.faults out.old out.new) (number_lines numbers.now) result }
    ensures kept { OnOk result (K.faults out.new ≡ K.faults out.old) }
{
    for number in numbers {
        put_number(alloc, *number, out)?;
    }
    Ok(())
}
