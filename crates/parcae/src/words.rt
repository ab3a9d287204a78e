ghost use Rattle.std.specs.Prelude.{◌≡◌, ◌≤◌, ◌∷◌, ◌++◌, [], true, false, map, codes};
ghost use Rattle.std.specs.Prelude.{string_bytes, option_map, option_and_then, MatchOption, IfSome, IfOk};
ghost use Rattle.std.specs.Option.{option_copied};
ghost use Rattle.clap.specs.Walk.{rule_of, first_of};
ghost use Rattle.clap.specs.Simple.{app_of};
ghost use Rattle.clap.specs.Takes.{is_given};
ghost use Rattle.clap.specs.Faults.{is_simple_and_free};
ghost use Rattle.parcae.specs.Words.{positional_argument, option_argument, flag_argument, with_arguments, run_arguments, log_arguments};
ghost use Rattle.parcae.specs.Words.{seq_arguments, check_arguments, replay_arguments, trial_arguments};
ghost use Rattle.parcae.specs.Words.{found_in, turns_by, links_by, workers_by, leader_by, leader_in, task_by, seq_by, check_by, replay_by, trial_by, meant};
ghost use Rattle.parcae.specs.Meant.{IsMeant, HasTurns, HasWorkers, IsInRange, entries, task_of, leader_of};
ghost use Rattle.parcae.specs.declared.words.TheConstants.{TURN_LIMIT};
ghost use Rattle.morta_task.specs.declared.limits.TheConstants as task_limits;
ghost use Rattle.weave.specs.declared.limits.TheConstants as limits;

use clap::error::ErrorKind;
use clap::parser::ValueSource;
use clap::{Arg, ArgAction, ArgMatches};
use morta_task::WORKERS;
use nona_text::number_within;
use std::alloc::{AllocError, Global};
use weave::CAPACITY;

/// How many turns a loop may take whenever it is entered, where the words don't say.
pub(crate) const DEFAULT_TURNS: u64 = 1_000_000_000;

/// The most turns of a loop.
const TURN_LIMIT: u64 = 1_000_000_000_000;

/// How many messages a link between two tasks holds, where the words don't say.
pub(crate) const DEFAULT_LINKS: usize = 4;

/// For how many workers a controller asks at most, where the words don't say.
const DEFAULT_WORKERS: u8 = 4;

/// The greatest number of a trial.
const TRIAL_LIMIT: u64 = 65_535;

/// What a run takes: the program's file, the input's where there is one, how many turns a loop may take whenever it is
/// entered, from 1 to 10^12, and whether the memory is written.
#[derive(Drop)]
pub struct Run {
    pub file: String,
    pub input: Option<String>,
    pub turns: u64,
    pub memory: bool,
}

/// What asks for the intervals of a replay.
#[derive(Drop)]
pub enum Leader {
    /// The script in a file.
    Script { file: String },
    /// A controller, for at most so many workers, from 1 to 16.
    Control { workers: u8 },
}

/// What a replay takes: what its run takes, what asks for its intervals, how many messages a link between two tasks holds, from
/// 1 to 64, and whether the log is written.
#[derive(Drop)]
pub struct Replay {
    pub run: Run,
    pub leader: Leader,
    pub links: usize,
    pub log: bool,
}

/// A command.
#[derive(Drop)]
pub enum Command {
    /// A run in one thread.
    Seq(Run),
    /// What is seen of the loops of the program in a file.
    Check { file: String },
    /// A replay, led by a script or by a controller.
    Replay(Replay),
    /// The trial of a number, from 0 to 65,535.
    Trial { number: u16 },
}

/// A positional argument: the first word that is no option's is for the first such argument.
fn positional_argument<'a>(alloc: Global, id: &'a str, required: bool) -> Arg<'a>
    ensures rule { rule_of result ≡ positional_argument id.entry.now required }
    ensures own { result.global ≡ false }
{
    Arg::new(alloc, id).required(required)
}

/// An option with a value.
fn option_argument<'a>(alloc: Global, id: &'a str) -> Arg<'a>
    ensures rule { rule_of result ≡ option_argument id.entry.now }
    ensures own { result.global ≡ false }
{
    Arg::new(alloc, id).long(id)
}

/// A flag.
fn flag_argument<'a>(alloc: Global, id: &'a str) -> Arg<'a>
    ensures rule { rule_of result ≡ flag_argument id.entry.now }
    ensures own { result.global ≡ false }
{
    Arg::new(alloc, id).long(id).action(ArgAction::SetTrue)
}

/// A command with no arguments, not even `--help`, whose words begin behind its name.
fn without_arguments<'a>(alloc: Global, name: &'a str) -> clap::Command<'a>
    ensures { app_of result ≡ with_arguments name.entry.now [] }
{
    clap::Command::new(alloc, name)
        .no_binary_name(true)
        .disable_help_flag(true)
}

/// What the command of this name takes that runs a program: `FILE [INPUT] [--turns N] [--memory]`.
fn run_arguments<'a>(alloc: Global, name: &'a str) -> Result<clap::Command<'a>, AllocError>
    ensures { IfOk result (λ arguments. app_of arguments ≡ with_arguments name.entry.now run_arguments) }
{
    without_arguments(alloc, name)
        .arg(positional_argument(alloc, "file", true))?
        .arg(positional_argument(alloc, "input", false))?
        .arg(option_argument(alloc, "turns"))?
        .arg(flag_argument(alloc, "memory"))
}

/// What `check` takes: `FILE`.
fn check_arguments<'a>(alloc: Global) -> Result<clap::Command<'a>, AllocError>
    ensures { IfOk result (λ arguments. app_of arguments ≡ check_arguments) }
{
    without_arguments(alloc, "check").arg(positional_argument(alloc, "file", true))
}

/// What `replay` takes but for what asks: besides what runs a program `[--log] [--links L]`.
fn logged_arguments<'a>(alloc: Global) -> Result<clap::Command<'a>, AllocError>
    ensures { IfOk result (λ arguments. app_of arguments ≡ with_arguments (codes "replay") (run_arguments ++ log_arguments)) }
{
    run_arguments(alloc, "replay")?
        .arg(flag_argument(alloc, "log"))?
        .arg(option_argument(alloc, "links"))
}

/// What `replay` takes: besides `--script S` or `--control [--workers W]`.
fn replay_arguments<'a>(alloc: Global) -> Result<clap::Command<'a>, AllocError>
    ensures { IfOk result (λ arguments. app_of arguments ≡ replay_arguments) }
{
    logged_arguments(alloc)?
        .arg(option_argument(alloc, "script"))?
        .arg(flag_argument(alloc, "control"))?
        .arg(option_argument(alloc, "workers"))
}

/// What `trial` takes: `N`.
fn trial_arguments<'a>(alloc: Global) -> Result<clap::Command<'a>, AllocError>
    ensures { IfOk result (λ arguments. app_of arguments ≡ trial_arguments) }
{
    without_arguments(alloc, "trial").arg(positional_argument(alloc, "number", true))
}

/// What is found in the words behind a command's name, or none where they are refused. The one error is that memory ran out.
fn found_in<'a>(
    arguments: clap::Command<'a>,
    words: &'a [String],
) -> Result<Option<ArgMatches<'a>>, AllocError>
    requires { is_simple_and_free (app_of arguments) ≡ true }
    ensures { IfOk result (λ found. option_map entries found ≡ found_in (app_of arguments.entry) (map string_bytes words.now)) }
{
    match arguments.try_get_matches_from(words) {
        Ok(found) => Ok(Some(found)),
        Err(fault) => match fault.kind() {
            ErrorKind::OutOfMemory => Err(AllocError),
            _ => Ok(None),
        },
    }
}

/// The text of an argument, where it has one.
fn text_of<'a>(found: &ArgMatches<'a>, id: &str) -> Option<&'a str>
    ensures { option_copied result ≡ first_of id.now (entries found.now) }
{
    found.get_str(id)
}

/// Whether the words have an argument: its entry isn't made by default.
fn is_given(found: &ArgMatches<'_>, id: &str) -> bool
    ensures { result ≡ is_given id.now (entries found.now) }
{
    match found.value_source(id) {
        Some(ValueSource::DefaultValue) => false,
        Some(ValueSource::CommandLine) => true,
        None => found.contains_id(id),
    }
}

/// A copy of a text, where there is one.
fn copy_of(alloc: Global, text: Option<&str>) -> Result<Option<String>, AllocError>
    ensures { IfOk result (λ copy. option_map string_bytes copy ≡ option_copied text.entry) }
{
    match text {
        Some(text) => match String::from_str(alloc, text) {
            Ok(copy) => Ok(Some(copy)),
            Err(fault) => Err(fault),
        },
        None => Ok(None),
    }
}

/// How many turns a loop may take whenever it is entered, by the text behind `--turns`: a number from 1 to 10^12, or none.
fn turns_by(text: Option<&str>) -> Option<u64>
    ensures value { result ≡ turns_by (option_copied text.entry) }
    ensures within { IfSome result (λ turns. (1 ≤ turns) × (turns ≤ TURN_LIMIT)) }
{
    match text {
        Some(text) => number_within(1, TURN_LIMIT, text.as_bytes()),
        None => Some(DEFAULT_TURNS),
    }
}

/// How many messages a link holds, by the text behind `--links`: a number from 1 to 64, or none.
fn links_by(text: Option<&str>) -> Option<usize>
    ensures value { result ≡ links_by (option_copied text.entry) }
    ensures within { IfSome result (λ links. (1 ≤ links) × (links ≤ limits.CAPACITY)) }
{
    match text {
        Some(text) => match number_within(1, CAPACITY as u64, text.as_bytes()) {
            Some(links) => Some(links as usize),
            None => None,
        },
        None => Some(DEFAULT_LINKS),
    }
}

/// For how many workers a controller asks at most, by the text behind `--workers`: a number from 1 to 16, or none.
fn workers_by(text: Option<&str>) -> Option<u8>
    ensures value { result ≡ workers_by (option_copied text.entry) }
    ensures within { IfSome result (λ workers. (1 ≤ workers) × (workers ≤ task_limits.WORKERS)) }
{
    match text {
        Some(text) => match number_within(1, u64::from(WORKERS), text.as_bytes()) {
            Some(workers) => Some(workers as u8),
            None => None,
        },
        None => Some(DEFAULT_WORKERS),
    }
}

/// What asks, by the text behind `--script`, by whether `--control` is there, and by the workers, from 1 to 16: one of the two,
/// and not both.
fn leader_by(
    alloc: Global,
    script: Option<&str>,
    control: bool,
    workers: u8,
) -> Result<Option<Leader>, AllocError>
    requires some { 1 ≤ workers }
    requires few { workers ≤ task_limits.WORKERS }
    ensures leader { IfOk result (λ leader. option_map leader_of leader ≡ leader_by (option_copied script.entry) control workers) }
    ensures workers { IfOk result (λ leader. IfSome leader HasWorkers) }
{
    match script {
        Some(file) => {
            if control {
                return Ok(None);
            }
            let file = String::from_str(alloc, file)?;
            Ok(Some(Leader::Script { file }))
        }
        None => {
            if control {
                return Ok(Some(Leader::Control { workers }));
            }
            Ok(None)
        }
    }
}

/// What asks, by what was found.
fn leader_in(alloc: Global, found: &ArgMatches<'_>) -> Result<Option<Leader>, AllocError>
    ensures leader { IfOk result (λ leader. option_map leader_of leader ≡ leader_in (entries found.now)) }
    ensures workers { IfOk result (λ leader. IfSome leader HasWorkers) }
{
    let Some(workers) = workers_by(text_of(found, "workers")) else {
        return Ok(None);
    };
    let control = is_given(found, "control");
    leader_by(alloc, text_of(found, "script"), control, workers)
}

/// What a run takes, by what was found.
fn run_by(alloc: Global, found: &ArgMatches<'_>) -> Result<Option<Run>, AllocError>
    ensures task { IfOk result (λ run. option_map task_of run ≡ task_by (entries found.now)) }
    ensures turns { IfOk result (λ run. IfSome run HasTurns) }
{
    let Some(file) = text_of(found, "file") else {
        return Ok(None);
    };
    let Some(turns) = turns_by(text_of(found, "turns")) else {
        return Ok(None);
    };
    let file = String::from_str(alloc, file)?;
    let input = copy_of(alloc, text_of(found, "input"))?;
    let memory = is_given(found, "memory");
    Ok(Some(Run {
        file,
        input,
        turns,
        memory,
    }))
}

/// The command `seq` with these words behind its name, where they are its.
fn seq_by(alloc: Global, words: &[String]) -> Result<Option<Command>, AllocError>
    ensures meant { IfOk result (λ c. IsMeant c (option_and_then seq_by (found_in seq_arguments (map string_bytes words.now)))) }
    ensures ranges { IfOk result (λ c. IfSome c IsInRange) }
{
    let Some(found) = found_in(run_arguments(alloc, "seq")?, words)? else {
        return Ok(None);
    };
    let Some(run) = run_by(alloc, &found)? else {
        return Ok(None);
    };
    Ok(Some(Command::Seq(run)))
}

/// The command `check` with these words behind its name, where they are its.
fn check_by(alloc: Global, words: &[String]) -> Result<Option<Command>, AllocError>
    ensures meant { IfOk result (λ c. IsMeant c (option_and_then check_by (found_in check_arguments (map string_bytes words.now)))) }
    ensures ranges { IfOk result (λ c. IfSome c IsInRange) }
{
    let Some(found) = found_in(check_arguments(alloc)?, words)? else {
        return Ok(None);
    };
    let Some(file) = text_of(&found, "file") else {
        return Ok(None);
    };
    let file = String::from_str(alloc, file)?;
    Ok(Some(Command::Check { file }))
}

/// The command `replay` with these words behind its name, where they are its.
fn replay_by(alloc: Global, words: &[String]) -> Result<Option<Command>, AllocError>
    ensures meant { IfOk result (λ c. IsMeant c (option_and_then replay_by (found_in replay_arguments (map string_bytes words.now)))) }
    ensures ranges { IfOk result (λ c. IfSome c IsInRange) }
{
    let Some(found) = found_in(replay_arguments(alloc)?, words)? else {
        return Ok(None);
    };
    let Some(leader) = leader_in(alloc, &found)? else {
        return Ok(None);
    };
    let Some(links) = links_by(text_of(&found, "links")) else {
        return Ok(None);
    };
    let Some(run) = run_by(alloc, &found)? else {
        return Ok(None);
    };
    let log = is_given(&found, "log");
    Ok(Some(Command::Replay(Replay {
        run,
        leader,
        links,
        log,
    })))
}

/// The command `trial` with these words behind its name, where they are its.
fn trial_by(alloc: Global, words: &[String]) -> Result<Option<Command>, AllocError>
    ensures meant { IfOk result (λ c. IsMeant c (option_and_then trial_by (found_in trial_arguments (map string_bytes words.now)))) }
    ensures ranges { IfOk result (λ c. IfSome c IsInRange) }
{
    let Some(found) = found_in(trial_arguments(alloc)?, words)? else {
        return Ok(None);
    };
    let Some(text) = text_of(&found, "number") else {
        return Ok(None);
    };
    let Some(number) = number_within(0, TRIAL_LIMIT, text.as_bytes()) else {
        return Ok(None);
    };
    Ok(Some(Command::Trial {
        number: number as u16,
    }))
}

/// The first word and those behind it.
fn split_first(words: &[String]) -> Option<(&str, &[String])>
    ensures { MatchOption result (map string_bytes words.now ≡ []) (λ x. map string_bytes words.now ≡ x.0.now ∷ map string_bytes x.1.now) }
{
    match words {
        [] => None,
        [first, rest @ ..] => Some((first.as_str(), rest)),
    }
}

/// The command that words are, where they are one. The one error is that memory ran out.
pub fn command_of(alloc: Global, words: &[String]) -> Result<Option<Command>, AllocError>
    ensures meant { IfOk result (λ c. IsMeant c (meant (map string_bytes words.now))) }
    ensures ranges { IfOk result (λ c. IfSome c IsInRange) }
{
    match split_first(words) {
        Some((name, rest)) => {
            if name == "seq" {
                seq_by(alloc, rest)
            } else if name == "check" {
                check_by(alloc, rest)
            } else if name == "replay" {
                replay_by(alloc, rest)
            } else if name == "trial" {
                trial_by(alloc, rest)
            } else {
                Ok(None)
            }
        }
        None => Ok(None),
    }
}
