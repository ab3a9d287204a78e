ghost use Rattle.std.specs.Prelude.{◌≡◌, ◌≤◌, ◌^◌, ℕ, length, All, IfOk, IfErr, OnOk, OnErr};
ghost use Rattle.std.specs.Io.KnownBytes.{Appends};
ghost use Rattle.fate_io.specs.Sending.{sent_since};
ghost use Rattle.nona_tree.specs.declared.trees.Program.{Program};
ghost use Rattle.nona_tree.specs.Numbers.{IsI64};
ghost use Rattle.nona_tree.specs.Run.{meaning_of};
ghost use Rattle.nona_store.specs.Input.{number_bound};
ghost use Rattle.nona_gen.specs.OfSeen.{planned_image};
ghost use Rattle.morta_task.specs.declared.limits.TheConstants.{WORKERS};
ghost use Rattle.morta_task.specs.Legal.{IsWholeLog};
ghost use Rattle.morta_task.specs.LogView.{empty_log};
ghost use Rattle.morta_text.specs.Texts.{number_lines};
ghost use Rattle.morta_exec.specs.Log.{LogStands, ServesAll};
ghost use Rattle.morta_exec.specs.Places.{most};
ghost use Rattle.morta_exec.specs.Drive.{StopsShort};
ghost use Rattle.morta_script.specs.Commands.{AreCommands};
ghost use Rattle.weave.specs.declared.limits.TheConstants.{CAPACITY};
ghost use Rattle.parcae.specs.Told.{told_of, ran_of};
ghost use Rattle.parcae.specs.Ends.{Ends, EndsShort};
ghost use Rattle.parcae.specs.Entered.{entries_in};
ghost use Rattle.parcae.specs.Leads.{Lead, script_leads, control_leads, control_promise, IsLedSo};
ghost use Rattle.parcae.specs.Due.{DueOfReplay};

use crate::report::{Report, bare, logged, once_sent};
use crate::runs::{Asked, declared_stays, finish};
use crate::status::Status;
use fate_io::{Sink, send};
use morta_control::{Controller, requests_are_decided};
use morta_exec::{Beginning, DriveFault, drive};
use morta_script::Script;
use morta_task::{Asker, Both, Log, Runner};
use nona_gen::compile;
use nona_plans::plan_is_lawful;
use nona_store::{Ended, Store};
use nona_tree::{Checked, checked_is_scoped};
use std::alloc::{AllocError, Global};
use weave::Weave;

/// How the run of a program in intervals ended, or why it stopped short, and the log of its intervals.
#[derive(Drop)]
pub struct Driven {
    pub run: Result<Ended, DriveFault>,
    pub log: Log,
}

/// Runs a program over an input in the intervals that `morta` asks for and runs, and puts the numbers that it prints on the sink,
/// one put for each line. A loop may take from 1 to 10^12 turns whenever it is entered. The one error is that memory ran out before
/// the run, and the sink is then as it was; a run that stopped short says why in its answer.
pub fn drive_program<M: Runner + Asker + Drop, K: Sink>(
    alloc: Global,
    program: &Checked,
    input: Vec<i64>,
    turns: u64,
    morta: M,
    out: &mut K,
) -> Result<Driven, AllocError>
    requires few { length input.items ≤ number_bound }
    requires numbers { All IsI64 input.items }
    requires some_turns { 1 ≤ turns }
    requires few_turns { turns ≤ 10 ^ 12 }
    requires stands { (M.promise).stands_for morta empty_log }
    requires serves { ServesAll M.promise morta (planned_image program.now) }
    ensures ended { IfOk result (λ d. IfOk d.run (λ e. meaning_of program.now input.items turns ≡ ran_of e)) }
    ensures put { IfOk result (λ d. IfOk d.run (λ e. Appends (K.written out.old) (K.written out.new) (number_lines e.store.printed))) }
    ensures log { IfOk result (λ d. LogStands M.promise (entries_in (planned_image program.now) program.now input.items turns) morta d.log) }
    ensures whole { IfOk result (λ d. OnOk d.run
        (IsWholeLog ((M.promise).may_ask morta) (entries_in (planned_image program.now) program.now input.items turns) d.log)) }
    ensures few { IfOk result (λ d. length d.log.intervals ≤ most) }
    ensures later { K.faults out.old ≤ K.faults out.new }
    ensures stops { IfOk result (λ d. IfErr d.run (StopsShort (entries_in (planned_image program.now) program.now input.items turns)
        (meaning_of program.now input.items turns).store d.log.intervals (sent_since K.written K.faults out.old out.new))) }
    ensures unbegun { OnErr result (out.new ≡ out.old) }
{
    checked_is_scoped();
    // What the program names is there, since it is checked.
    program.program();
    let image = compile(alloc, program)?;
    let store = Store::start(alloc, program, input)?;
    let from = Beginning { store, turns };
    let mut morta = morta;
    let mut log = Log::new(alloc);
    let run = drive(alloc, &image, from, &mut morta, out, &mut log);
    Ok(Driven { run, log })
}

/// Reports why a run stopped short, with the log of its intervals, without outcome and store, and writes the line of a full log;
/// where the sink failed or memory ran out it writes nothing.
pub fn stop_short<K: Sink>(fault: DriveFault, log: Log, out: &mut K) -> Report
    ensures { EndsShort fault log (sent_since K.written K.faults out.old out.new) (told_of result) }
{
    match fault {
        DriveFault::WriteFailed => logged(Status::WriteFailed, log),
        DriveFault::NoMemory => logged(Status::NoMemory, log),
        DriveFault::LogFull => once_sent(send(out, b"log full\n"), logged(Status::LogFull, log)),
    }
}

/// Replays a program over an input as `morta` asks and runs, and writes its numbers, its outcome, and its memory and its log where
/// they are asked for; or that the log is full, behind the numbers that were printed up to there.
fn replay_led<M: Runner + Asker + Drop, K: Sink>(
    alloc: Global,
    program: &Checked,
    input: Vec<i64>,
    asked: Asked,
    morta: M,
    out: &mut K,
) -> Report
    requires few { length input.items ≤ number_bound }
    requires numbers { All IsI64 input.items }
    requires some_turns { 1 ≤ asked.turns }
    requires few_turns { asked.turns ≤ 10 ^ 12 }
    requires stands { (M.promise).stands_for morta empty_log }
    requires serves { ServesAll M.promise morta (planned_image program.now) }
    ensures { (lead : Lead) (links : ℕ) → IsLedSo M.promise morta lead links
        → Ends (DueOfReplay program.now input.items lead asked.turns links asked.memory asked.log)
        (sent_since K.written K.faults out.old out.new) (told_of result) }
{
    declared_stays();
    let tree = program.program();
    let Ok(driven) = drive_program(alloc, program, input, asked.turns, morta, out) else {
        return bare(alloc, Status::NoMemory);
    };
    let Driven { run, log } = driven;
    match run {
        Ok(run) => finish(alloc, tree, run, log, asked, out),
        Err(fault) => stop_short(fault, log, out),
    }
}

/// What is asked of a replay, whoever leads it: what is asked of its run, and how many messages a link between two tasks holds,
/// from 1 to 64.
#[derive(Clone, Copy)]
pub struct AskedReplay {
    pub run: Asked,
    pub links: usize,
}

/// Replays a script over a program and an input: the script asks for the intervals, and its commands say in which order tasks step.
pub fn replay_script<K: Sink>(
    alloc: Global,
    program: &Checked,
    input: Vec<i64>,
    script: Script,
    asked: AskedReplay,
    out: &mut K,
) -> Report
    requires few { length input.items ≤ number_bound }
    requires numbers { All IsI64 input.items }
    requires valid { AreCommands script.commands.items }
    requires some_turns { 1 ≤ asked.run.turns }
    requires few_turns { asked.run.turns ≤ 10 ^ 12 }
    requires some_links { 1 ≤ asked.links }
    requires few_links { asked.links ≤ CAPACITY }
    ensures { Ends (DueOfReplay program.now input.items (script_leads asked.links script.commands.items) asked.run.turns asked.links
        asked.run.memory asked.run.log) (sent_since K.written K.faults out.old out.new) (told_of result) }
{
    plan_is_lawful();
    let weave = Weave::new(script, asked.links);
    replay_led(alloc, program, input, asked.run, weave, out)
}

/// What replays under a controller for at most so many workers, from 1 to 16, where a link between two tasks holds so many
/// messages, from 1 to 64: the controller asks, and the tasks of an interval step round robin.
pub fn controlled(alloc: Global, workers: u8, links: usize) -> Both<Weave, Controller>
    requires some { 1 ≤ workers }
    requires few { workers ≤ WORKERS }
    requires some_links { 1 ≤ links }
    requires few_links { links ≤ CAPACITY }
    ensures stands { control_promise.stands_for result empty_log }
    ensures serves { (p : Program) → ServesAll control_promise result (planned_image p) }
    ensures led { IsLedSo control_promise result (control_leads workers) links }
{
    plan_is_lawful();
    requests_are_decided();
    let script = Script {
        commands: Vec::new(alloc),
    };
    Both {
        runner: Weave::new(script, links),
        asker: Controller::new(workers),
    }
}

/// Replays a program over an input under a controller for at most so many workers, from 1 to 16.
pub fn replay_controlled<K: Sink>(
    alloc: Global,
    program: &Checked,
    input: Vec<i64>,
    workers: u8,
    asked: AskedReplay,
    out: &mut K,
) -> Report
    requires few { length input.items ≤ number_bound }
    requires numbers { All IsI64 input.items }
    requires some_workers { 1 ≤ workers }
    requires few_workers { workers ≤ WORKERS }
    requires some_turns { 1 ≤ asked.run.turns }
    requires few_turns { asked.run.turns ≤ 10 ^ 12 }
    requires some_links { 1 ≤ asked.links }
    requires few_links { asked.links ≤ CAPACITY }
    ensures { Ends (DueOfReplay program.now input.items (control_leads workers) asked.run.turns asked.links
        asked.run.memory asked.run.log) (sent_since K.written K.faults out.old out.new) (told_of result) }
{
    let morta = controlled(alloc, workers, asked.links);
    replay_led(alloc, program, input, asked.run, morta, out)
}
