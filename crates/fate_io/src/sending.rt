//! A text that goes out to a sink.
ghost use Rattle.std.specs.Prelude.{◌≡◌, ◌≢◌, ◌≤◌, length, IsOk, OnOk, Err};
ghost use Rattle.fate_io.specs.Sending.{Sends, sent_since};

use crate::sinks::{Failed, Sink};

/// Why a text was not sent whole.
#[derive(Clone, Copy, Debug, PartialEq, Eq)]
pub enum SendFault {
    /// A put failed. A front of the text went out.
    WriteFailed,
    /// Memory for the text ran out. A front of the text went out.
    NoMemory,
}

/// Sends a text in one put. It takes no memory, so it never answers `NoMemory`.
pub fn send<K: Sink>(out: &mut K, text: &[u8]) -> Result<(), SendFault>
    ensures later { K.faults out.old ≤ K.faults out.new }
    ensures sent { Sends (sent_since K.written K.faults out.old out.new) text.now result }
    ensures kept { OnOk result (K.faults out.new ≡ K.faults out.old) }
    ensures empty { length text.now ≡ 0 → IsOk result }
    ensures memory { result ≢ Err SendFault.NoMemory }
{
    match out.put(text) {
        Ok(()) => Ok(()),
        Err(Failed) => Err(SendFault::WriteFailed),
    }
}
