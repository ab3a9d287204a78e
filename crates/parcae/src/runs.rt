ghost use Rattle.std.specs.Prelude.{◌<◌, ◌≤◌, ◌+◌, ◌^◌, ℕ, ℤ, List, length, All};
ghost use Rattle.fate_io.specs.Sending.{Sends, sent_since};
ghost use Rattle.nona_tree.specs.declared.trees.Program.{Program};
ghost use Rattle.nona_tree.specs.Checking.{IsChecked};
ghost use Rattle.nona_tree.specs.Numbers.{IsI64};
ghost use Rattle.nona_tree.specs.Run.{meaning_of};
ghost use Rattle.nona_store.specs.Input.{number_bound};
ghost use Rattle.morta_text.specs.Texts.{memory_text, log_text};
ghost use Rattle.parcae.specs.Told.{told_of, ran_of, finished};
ghost use Rattle.parcae.specs.Ends.{Ends, SendsReport};
ghost use Rattle.parcae.specs.Due.{where_asked, behind_numbers, DueOfSeq};

use crate::report::{Report, bare, broken_status, finished, once_sent};
use crate::status::Status;
use fate_io::{SendFault, Sink};
use morta_exec::{Beginning, run_through};
use morta_task::Log;
use morta_text::{send_log, send_memory, send_outcome};
use nona_gen::compile;
use nona_store::{Ended, Store};
use nona_tree::{Checked, Program, checked_is_scoped, lengths_stay, scalars_stay};
use std::alloc::Global;

/// What is asked of a run: how many turns a loop may take whenever it is entered, and whether the memory and the log are
/// written behind the printed numbers.
#[derive(Clone, Copy)]
pub struct Asked {
    pub turns: u64,
    pub memory: bool,
    pub log: bool,
}

/// Sends the memory where it is asked for.
fn send_asked_memory<K: Sink>(
    alloc: Global,
    asked: bool,
    program: &Program,
    store: &Store,
    out: &mut K,
) -> Result<(), SendFault>
    requires vars { length program.now.vars ≤ length store.now.scalars }
    requires arrays { length program.now.arrays + 1 ≤ length store.now.arrays }
    requires few { length program.now.vars + length program.now.arrays + 1 < 2 ^ 32 }
    ensures later { K.faults out.old ≤ K.faults out.new }
    ensures sent { Sends (sent_since K.written K.faults out.old out.new) (where_asked asked (memory_text program.now store.now)) result }
{
    if asked {
        send_memory(alloc, program, store, out)
    } else {
        Ok(())
    }
}

/// Sends the log where it is asked for.
fn send_asked_log<K: Sink>(
    alloc: Global,
    asked: bool,
    log: &Log,
    out: &mut K,
) -> Result<(), SendFault>
    ensures later { K.faults out.old ≤ K.faults out.new }
    ensures sent { Sends (sent_since K.written K.faults out.old out.new) (where_asked asked (log_text log.now)) result }
{
    if asked {
        send_log(alloc, log, out)
    } else {
        Ok(())
    }
}

/// Sends what stands behind the printed numbers of a run that ended so.
fn send_behind<K: Sink>(
    alloc: Global,
    program: &Program,
    run: &Ended,
    log: &Log,
    asked: Asked,
    out: &mut K,
) -> Result<(), SendFault>
    requires vars { length program.now.vars ≤ length run.now.store.scalars }
    requires arrays { length program.now.arrays + 1 ≤ length run.now.store.arrays }
    requires few { length program.now.vars + length program.now.arrays + 1 < 2 ^ 32 }
    ensures later { K.faults out.old ≤ K.faults out.new }
    ensures sent { Sends (sent_since K.written K.faults out.old out.new)
        (behind_numbers program.now (ran_of run.now) asked.memory (where_asked asked.log (log_text log.now))) result }
{
    match send_outcome(alloc, run.outcome, out) {
        Ok(()) => match send_asked_memory(alloc, asked.memory, program, &run.store, out) {
            Ok(()) => send_asked_log(alloc, asked.log, log, out),
            Err(fault) => Err(fault),
        },
        Err(fault) => Err(fault),
    }
}

/// Sends what stands behind the printed numbers of a run that ended so, and reports it.
pub fn finish<K: Sink>(
    alloc: Global,
    program: &Program,
    run: Ended,
    log: Log,
    asked: Asked,
    out: &mut K,
) -> Report
    requires vars { length program.now.vars ≤ length run.store.scalars }
    requires arrays { length program.now.arrays + 1 ≤ length run.store.arrays }
    requires few { length program.now.vars + length program.now.arrays + 1 < 2 ^ 32 }
    ensures later { K.faults out.old ≤ K.faults out.new }
    ensures sends { SendsReport (sent_since K.written K.faults out.old out.new) (finished (ran_of run) log)
        (behind_numbers program.now (ran_of run) asked.memory (where_asked asked.log (log_text log))) (told_of result) }
{
    let sent = send_behind(alloc, program, &run, &log, asked, out);
    once_sent(sent, finished(run, log))
}

/// Says that a run leaves each declared variable and each array, the input with them, and that a checked program has few. It
/// does nothing when called.
pub fn declared_stays()
    ensures vars { (p : Program) (input : List ℤ) (n : ℕ) → length p.vars ≤ length (meaning_of p input n).store.scalars }
    ensures arrays { (p : Program) (input : List ℤ) (n : ℕ) → length p.arrays + 1 ≤ length (meaning_of p input n).store.arrays }
    ensures few { (p : Program) → IsChecked p → length p.vars + length p.arrays + 1 < 2 ^ 32 }
{
    scalars_stay();
    lengths_stay();
}

/// Runs a program over an input in one thread, and writes its numbers as they come, and then its outcome, and its memory where
/// that is asked for.
pub fn run_in_sequence<K: Sink>(
    alloc: Global,
    program: &Checked,
    input: Vec<i64>,
    turns: u64,
    memory: bool,
    out: &mut K,
) -> Report
    requires few { length input.items ≤ number_bound }
    requires numbers { All IsI64 input.items }
    requires some_turns { 1 ≤ turns }
    requires few_turns { turns ≤ 10 ^ 12 }
    ensures { Ends (DueOfSeq program.now (meaning_of program.now input.items turns) memory)
        (sent_since K.written K.faults out.old out.new) (told_of result) }
{
    checked_is_scoped();
    declared_stays();
    let tree = program.program();
    let Ok(image) = compile(alloc, program) else {
        return bare(alloc, Status::NoMemory);
    };
    let Ok(store) = Store::start(alloc, program, input) else {
        return bare(alloc, Status::NoMemory);
    };
    let from = Beginning { store, turns };
    match run_through(alloc, &image, from, out) {
        Ok(run) => {
            let asked = Asked {
                turns,
                memory,
                log: false,
            };
            finish(alloc, tree, run, Log::new(alloc), asked, out)
        }
        Err(fault) => bare(alloc, broken_status(fault)),
    }
}
