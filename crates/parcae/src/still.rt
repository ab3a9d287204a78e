ghost use Rattle.std.specs.Prelude.{◌≡◌, ◌≤◌, All, length, map, string_bytes, Some};
ghost use Rattle.parcae.specs.Told.{told_of};
ghost use Rattle.fate_io.specs.Sending.{sent_since};
ghost use Rattle.parcae.specs.Words.{seq, check, replay, trial, meant};
ghost use Rattle.parcae.specs.Meant.{task_of, replay_task_of, HasTurns, HasLinks, HasWorkers};
ghost use Rattle.nona_tree.specs.Numbers.{IsI64};
ghost use Rattle.nona_store.specs.Input.{number_bound};
ghost use Rattle.fate_io.specs.Reading.{looked_since};
ghost use Rattle.parcae.specs.Files.{seen};
ghost use Rattle.parcae.specs.Due.{DueOfLed};
ghost use Rattle.parcae.specs.Answers.{EndsIn, Answers, IsComplete};

use crate::check::report_loops;
use crate::files::{input_in, program_in, script_in};
use crate::refusal::{Refusal, Stop, give_up};
use crate::replays::{AskedReplay, replay_controlled, replay_script};
use crate::report::Report;
use crate::runs::{Asked, run_in_sequence};
use crate::trials::try_number;
use crate::words::{Command, Leader, Replay, Run, command_of};
use fate_io::{Shelf, Sink};
use nona_parse::reads_one_tree;
use nona_tree::Checked;
use std::alloc::Global;

/// The command `seq`: runs a program in one thread.
fn seq<S: Shelf, K: Sink>(alloc: Global, run: &Run, shelf: &mut S, out: &mut K) -> Report
    requires turns { HasTurns run.now }
    ensures same { S.held shelf.new ≡ S.held shelf.old }
    ensures answers { Answers (Some (seq (task_of run.now)))
        (looked_since S.held S.failed shelf.old shelf.new)
        (sent_since K.written K.faults out.old out.new) (told_of result) }
{
    match program_in(alloc, run.file.as_str(), shelf) {
        Ok(program) => match input_in(alloc, run.input.as_deref(), shelf) {
            Ok(input) => run_in_sequence(alloc, &program, input, run.turns, run.memory, out),
            Err(stop) => give_up(alloc, stop, out),
        },
        Err(stop) => give_up(alloc, stop, out),
    }
}

/// The command `check`: says of each loop of a program whether it is a region, and how it may run, or why it is none.
fn check<S: Shelf, K: Sink>(alloc: Global, file: &str, shelf: &mut S, out: &mut K) -> Report
    ensures same { S.held shelf.new ≡ S.held shelf.old }
    ensures answers { Answers (Some (check file.now))
        (looked_since S.held S.failed shelf.old shelf.new)
        (sent_since K.written K.faults out.old out.new) (told_of result) }
{
    match program_in(alloc, file, shelf) {
        Ok(program) => report_loops(alloc, &program, out),
        Err(stop) => give_up(alloc, stop, out),
    }
}

/// What follows in a replay once its program and its input are read: it is led by the script that the shelf holds, or by a
/// controller.
fn replay_over<S: Shelf, K: Sink>(
    alloc: Global,
    task: &Replay,
    program: &Checked,
    input: Vec<i64>,
    shelf: &mut S,
    out: &mut K,
) -> Report
    requires turns { HasTurns task.now.run }
    requires links { HasLinks task.now }
    requires workers { HasWorkers task.now.leader }
    requires few { length input.items ≤ number_bound }
    requires numbers { All IsI64 input.items }
    ensures same { S.held shelf.new ≡ S.held shelf.old }
    ensures answers { EndsIn (DueOfLed (seen S.held shelf.old) (replay_task_of task.now) program.now input.items)
        (looked_since S.held S.failed shelf.old shelf.new)
        (sent_since K.written K.faults out.old out.new) (told_of result) }
{
    let run = Asked {
        turns: task.run.turns,
        memory: task.run.memory,
        log: task.log,
    };
    let asked = AskedReplay {
        run,
        links: task.links,
    };
    match &task.leader {
        Leader::Script { file } => match script_in(alloc, file.as_str(), shelf) {
            Ok(script) => replay_script(alloc, program, input, script, asked, out),
            Err(stop) => give_up(alloc, stop, out),
        },
        Leader::Control { workers } => {
            replay_controlled(alloc, program, input, *workers, asked, out)
        }
    }
}

/// The command `replay`: replays a program, led by a script or by a controller.
fn replay<S: Shelf, K: Sink>(alloc: Global, task: &Replay, shelf: &mut S, out: &mut K) -> Report
    requires turns { HasTurns task.now.run }
    requires links { HasLinks task.now }
    requires workers { HasWorkers task.now.leader }
    ensures same { S.held shelf.new ≡ S.held shelf.old }
    ensures answers { Answers (Some (replay (replay_task_of task.now)))
        (looked_since S.held S.failed shelf.old shelf.new)
        (sent_since K.written K.faults out.old out.new) (told_of result) }
{
    match program_in(alloc, task.run.file.as_str(), shelf) {
        Ok(program) => match input_in(alloc, task.run.input.as_deref(), shelf) {
            Ok(input) => replay_over(alloc, task, &program, input, shelf, out),
            Err(stop) => give_up(alloc, stop, out),
        },
        Err(stop) => give_up(alloc, stop, out),
    }
}

/// The command `trial`: replays the trial of a number under a controller, and writes its summary.
fn trial<S: Shelf, K: Sink>(alloc: Global, number: u16, shelf: &mut S, out: &mut K) -> Report
    ensures same { S.held shelf.new ≡ S.held shelf.old }
    ensures answers { Answers (Some (trial number))
        (looked_since S.held S.failed shelf.old shelf.new)
        (sent_since K.written K.faults out.old out.new) (told_of result) }
{
    try_number(alloc, number, out)
}

fn still<S: Shelf, K: Sink>(alloc: Global, words: &[String], shelf: &mut S, out: &mut K) -> Report
    ensures same { S.held shelf.new ≡ S.held shelf.old }
    ensures answers { Answers (meant (map string_bytes words.now))
        (looked_since S.held S.failed shelf.old shelf.new)
        (sent_since K.written K.faults out.old out.new) (told_of result) }
{
    match command_of(alloc, words) {
        Ok(Some(Command::Seq(run))) => seq(alloc, &run, shelf, out),
        Ok(Some(Command::Check { file })) => check(alloc, file.as_str(), shelf, out),
        Ok(Some(Command::Replay(task))) => replay(alloc, &task, shelf, out),
        Ok(Some(Command::Trial { number })) => trial(alloc, number, shelf, out),
        Ok(None) => give_up(alloc, Stop::Refused(Refusal::Usage), out),
        Err(_) => give_up(alloc, Stop::NoMemory, out),
    }
}

/// Does a command that waits for nobody, and always returns.
///
/// - `seq FILE [INPUT] [--turns N] [--memory]` runs the program that the shelf holds under the first name, over the numbers
///   that it holds under the second, in one thread.
/// - `check FILE` says of the program's loops which are regions, with their versions and stages, and why the others are none.
/// - `replay FILE [INPUT] --script S [--turns N] [--memory] [--log] [--links L]` replays the script that it holds under S over
///   them; with `--control [--workers W]` in place of the script a controller asks for the intervals.
/// - `trial N` replays a program that is made for trials over the numbers of the trial of N, under a controller, and writes a
///   summary alone.
///
/// Behind the first word names and options stand in any order. A name doesn't begin with `-`, but is `-` itself or stands behind
/// `--`. N, how many turns a loop may take whenever it is entered, is from 1 to 10^12, and 10^9 where it isn't said. L, how many
/// messages a link between two tasks of a pipeline holds, is from 1 to 64, and 4 where it isn't said. W, for how many workers a
/// controller asks at most, is from 1 to 16, and 4 where it isn't said; it counts under `--control` alone. The number of a trial is
/// from 0 to 65,535. A run writes each printed
/// number on a line, then the outcome where it is not done, the memory and the log where they are asked for; `check` writes its
/// report. Each line is one put.
///
/// The report's status is `Done`, `Trap` or `OutOfTurns` by the program's sequential meaning, with its outcome and store, and
/// with the log; of `check` it is `Done`, with neither and with an empty log; of `trial` it is `Done`, with the outcome, the store and
/// the log of its replay; `LogFull` where an interval would be the 1,048,577th, after the numbers printed where it would start; `Usage`
/// where the words are no command; `Refused`, `Input` or `Script` where a text is refused, by its first fault; `TooLong` where
/// a file holds more than it may; each of these after exactly its own text was written. It is `ReadFailed` only where this
/// call added the file's name to the shelf's failed names, `WriteFailed` only where the sink's count of faults rose in this
/// call, and `NoMemory` where memory ran out. After the last two what was written is a front of what was due, and the log has
/// the intervals up to there.
pub fn parcae_still<S: Shelf, K: Sink>(
    alloc: Global,
    words: &[String],
    shelf: &mut S,
    out: &mut K,
) -> Report
    // What the shelf holds stays as it was.
    ensures same { S.held shelf.new ≡ S.held shelf.old }
    // Each status has its cause, and what was written belongs to it.
    ensures answers { Answers (meant (map string_bytes words.now))
        (looked_since S.held S.failed shelf.old shelf.new)
        (sent_since K.written K.faults out.old out.new) (told_of result) }
    // A command over held files ends with what is due of its run or its report, whole, where nothing outside fails.
    ensures complete { IsComplete (meant (map string_bytes words.now))
        (looked_since S.held S.failed shelf.old shelf.new)
        (sent_since K.written K.faults out.old out.new) (told_of result) }
{
    reads_one_tree();
    still(alloc, words, shelf, out)
}
