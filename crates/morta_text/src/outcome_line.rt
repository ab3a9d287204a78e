ghost use Rattle.std.specs.Prelude.{◌≡◌, ◌≤◌, IfOk, OnOk, string_bytes};
ghost use Rattle.fate_io.specs.Sending.{sent_since, Sends};
ghost use Rattle.morta_text.specs.Texts.{trap_word, outcome_text};

use fate_io::{SendFault, Sink, send};
use nona_tree::{Outcome, TrapKind};
use std::alloc::{AllocError, Global};

/// The word for the kind of a trap.
fn word(kind: TrapKind) -> &'static str
    ensures { result.now ≡ trap_word kind }
{
    match kind {
        TrapKind::Index => "index",
        TrapKind::Empty => "empty",
        TrapKind::Divide => "divide",
    }
}

/// The line of an outcome, and no text where the run is done.
fn line(alloc: Global, outcome: Outcome) -> Result<String, AllocError>
    ensures { IfOk result (λ text. string_bytes text ≡ outcome_text outcome) }
{
    match outcome {
        Outcome::Done => Ok(String::new(alloc)),
        Outcome::Trap(trap) => {
            let kind = word(trap.kind);
            let at = trap.at;
            format!(in alloc; "trap {kind} at {at}\n")
        }
        Outcome::OutOfTurns { at } => format!(in alloc; "out of turns at {at}\n"),
    }
}

/// Sends the line of an outcome in one put: `trap KIND at PLACE` or `out of turns at PLACE`, where the place is that of a
/// byte of the program's text, from 0. Of a run that is done it puts nothing.
///
/// `WriteFailed` comes where the put failed, `NoMemory` where memory for the line ran out; a front of the line went out.
pub fn send_outcome<K: Sink>(alloc: Global, outcome: Outcome, out: &mut K) -> Result<(), SendFault>
    ensures later { K.faults out.old ≤ K.faults out.new }
    ensures sent { Sends (sent_since K.written K.faults out.old out.new) (outcome_text outcome) result }
    ensures kept { OnOk result (K.faults out.new ≡ K.faults out.old) }
{
    match line(alloc, outcome) {
        Ok(text) => send(out, text.as_bytes()),
        Err(_) => Err(SendFault::NoMemory),
    }
}
