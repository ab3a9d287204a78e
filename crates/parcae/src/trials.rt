//! The trial of a number.

ghost use Rattle.std.specs.Prelude.{◌≡◌, ◌≤◌, All, None, length, IfOk, IfErr, OnOk};
ghost use Rattle.fate_io.specs.Sending.{sent_since};
ghost use Rattle.nona_tree.specs.Numbers.{IsI64};
ghost use Rattle.nona_store.specs.Input.{number_bound};
ghost use Rattle.morta_task.specs.Legal.{EndsAll, last_in};
ghost use Rattle.morta_exec.specs.Places.{most};
ghost use Rattle.trial.specs.Numbers.{trial_numbers};
ghost use Rattle.trial.specs.Tree.{trial_tree};
ghost use Rattle.parcae.specs.Told.{told_of, ran_of};
ghost use Rattle.parcae.specs.Ends.{Ends};
ghost use Rattle.parcae.specs.Summary.{summary_of};
ghost use Rattle.parcae.specs.Trials.{trial_run, trial_entries, IsTrialLog, StopsTrial, DueOfTrial};

use crate::files::accept;
use crate::refusal::Stop;
use crate::replays::{Driven, controlled, drive_program, stop_short};
use crate::report::{Report, bare, finished, once_sent};
use crate::status::Status;
use crate::summary::{Summary, iterations_of, send_summary, sum_of};
use crate::words::{DEFAULT_LINKS, DEFAULT_TURNS};
use fate_io::{Failed, Sink};
use morta_task::Log;
use nona_parse::reads_one_tree;
use nona_store::Ended;
use nona_tree::Checked;
use std::alloc::{AllocError, Global};
use trial::{trial_is_a_program, trial_numbers, trial_text};

/// For how many workers the controller of a trial asks at most.
const TRIAL_WORKERS: u8 = 8;

/// A sink that keeps nothing, and never fails.
#[derive(Drop)]
struct Unkept;

impl Sink for Unkept {
    ghost written = { λ s. None };

    ghost faults = { λ s. 0 };

    fn put(&mut self, _bytes: &[u8]) -> Result<(), Failed> {
        Ok(())
    }
}

/// The program of the trials. The one error is that memory ran out.
fn trial_program(alloc: Global) -> Result<Checked, AllocError>
    ensures { IfOk result (λ program. program ≡ trial_tree) }
{
    reads_one_tree();
    trial_is_a_program();
    let text = trial_text(alloc)?;
    match accept(alloc, &text) {
        Ok(program) => Ok(program),
        Err(Stop::NoMemory) => Err(AllocError),
        Err(Stop::Refused(_)) => unreachable!(),
    }
}

/// Replays the program of the trials over the numbers of the trial of a number, under a controller, and keeps nothing of what it
/// prints. The one error is that memory ran out before the run.
fn drive_trial(alloc: Global, number: u16, numbers: Vec<i64>) -> Result<Driven, AllocError>
    requires numbers { numbers.items ≡ trial_numbers number }
    requires few { length numbers.items ≤ number_bound }
    requires kept { All IsI64 numbers.items }
    ensures ended { IfOk result (λ d. IfOk d.run (λ e. trial_run number ≡ ran_of e)) }
    ensures log { IfOk result (λ d. IsTrialLog number d.log) }
    ensures whole { IfOk result (λ d. OnOk d.run (EndsAll (trial_entries number) (last_in d.log.intervals))) }
    ensures few { IfOk result (λ d. length d.log.intervals ≤ most) }
    ensures stops { IfOk result (λ d. IfErr d.run (StopsTrial number d.log)) }
{
    let program = trial_program(alloc)?;
    let morta = controlled(alloc, TRIAL_WORKERS, DEFAULT_LINKS);
    let mut out = Unkept;
    drive_program(alloc, &program, numbers, DEFAULT_TURNS, morta, &mut out)
}

/// What the summary of a trial says of a run that ended so, with this log, over so many numbers.
fn summary_of(number: u16, input: usize, run: &Ended, log: &Log) -> Summary
    requires numbers { input ≡ length (trial_numbers number) }
    requires few { length log.now.intervals ≤ most }
    ensures { result ≡ summary_of number run.now.store log.now }
{
    let printed = run.store.printed();
    Summary {
        number,
        input,
        intervals: log.intervals().len(),
        iterations: iterations_of(log.intervals()),
        printed: printed.len(),
        sum: sum_of(printed),
    }
}

/// Writes the summary of a trial that was replayed over so many numbers, or that the log is full, and reports it.
fn report_trial<K: Sink>(
    alloc: Global,
    number: u16,
    input: usize,
    driven: Driven,
    out: &mut K,
) -> Report
    requires numbers { input ≡ length (trial_numbers number) }
    requires ended { IfOk driven.run (λ e. trial_run number ≡ ran_of e) }
    requires log { IsTrialLog number driven.log }
    requires whole { OnOk driven.run (EndsAll (trial_entries number) (last_in driven.log.intervals)) }
    requires few { length driven.log.intervals ≤ most }
    requires stops { IfErr driven.run (StopsTrial number driven.log) }
    ensures { Ends (DueOfTrial number) (sent_since K.written K.faults out.old out.new) (told_of result) }
{
    let Driven { run, log } = driven;
    match run {
        Ok(run) => {
            let summary = summary_of(number, input, &run, &log);
            let sent = send_summary(alloc, summary, out);
            once_sent(sent, finished(run, log))
        }
        Err(fault) => stop_short(fault, log, out),
    }
}

/// Replays the program of the trials over the numbers of the trial of a number, under a controller for at most 8 workers, with
/// links of 4 messages and loops of at most 10^9 turns, and writes the summary of that alone, each line in one put.
pub fn try_number<K: Sink>(alloc: Global, number: u16, out: &mut K) -> Report
    ensures { Ends (DueOfTrial number) (sent_since K.written K.faults out.old out.new) (told_of result) }
{
    let Ok(numbers) = trial_numbers(alloc, number) else {
        return bare(alloc, Status::NoMemory);
    };
    let input = numbers.len();
    match drive_trial(alloc, number, numbers) {
        Ok(driven) => report_trial(alloc, number, input, driven, out),
        Err(_) => bare(alloc, Status::NoMemory),
    }
}
