//! The numbers that a run has printed, on its sink.
ghost use Rattle.std.specs.Prelude.{◌≤◌, length, take, OnOk};
ghost use Rattle.fate_io.specs.Sending.{sent_since, Sends};
ghost use Rattle.morta_text.specs.Texts.{number_lines};
ghost use Rattle.morta_exec.specs.Puts.{HasPut};

use crate::start::Start;
use fate_io::{SendFault, Sink};
use morta_text::put_numbers;
use nona_store::Store;

/// Puts the numbers that a store has behind the first `shown`, which were put before.
pub fn show<M, K: Sink>(
    start: &Start<'_, M, K>,
    store: &Store,
    shown: usize,
    out: &mut K,
) -> Result<(), SendFault>
    requires shown { shown ≤ length store.now.printed }
    requires put { HasPut (sent_since K.written K.faults start.now.out.value out.old) (take shown store.now.printed) }
    ensures put { OnOk result (HasPut (sent_since K.written K.faults start.now.out.value out.new) store.now.printed) }
    ensures sent { Sends (sent_since K.written K.faults start.now.out.value out.new) (number_lines store.now.printed) result }
    ensures later { K.faults start.now.out.value ≤ K.faults out.new }
{
    let printed = store.printed();
    put_numbers(start.alloc, &printed[shown..], out)
}
