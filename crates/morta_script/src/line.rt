// What a line of a script is.

ghost use Rattle.std.specs.Prelude.{◌≡◌, ℕ, [], ◌∷◌};
ghost use Rattle.nona_text.specs.Digits.{number_within};
ghost use Rattle.morta_script.specs.Lines.{is_comment, config_with, config_of, until_line, after_config, with_config};
ghost use Rattle.morta_script.specs.Lines.{after_use, step_line, after_step, after_pause, line_named, line_by, words_of};
ghost use Rattle.morta_script.specs.Turns.{words_from, said, meant};

use crate::limits::{LAST_TASK, MOVES};
use crate::script::Command;
use morta_task::{Config, Scheme, TURNS, WORKERS};
use nona_text::{first_word, number_within, without_cr};

/// What a line of a script is.
#[derive(Clone, Copy, Debug)]
pub enum Kind {
    /// Blank, or a comment.
    Nothing,
    Says(Command),
    /// A line that may not stand there.
    Wrong,
}

fn is_comment(word: &[u8]) -> bool
    ensures { result ≡ is_comment word.now }
{
    match word {
        [first, ..] => *first == b'#',
        [] => false,
    }
}

/// A version with the number of workers that a word is, from 1 to the most.
fn config_with(scheme: Scheme, most: u8, workers: &[u8]) -> Option<Config>
    ensures { result ≡ config_with scheme (number_within 1 most workers.now) }
{
    match number_within(1, u64::from(most), workers) {
        Some(workers) => Some(Config {
            scheme,
            workers: workers as u8,
        }),
        None => None,
    }
}

/// The configuration that two words are.
fn config_of(scheme: &[u8], workers: &[u8]) -> Option<Config>
    ensures { result ≡ config_of scheme.now workers.now }
{
    if scheme == b"seq".as_slice() {
        config_with(Scheme::Seq, 1, workers)
    } else if scheme == b"any".as_slice() {
        config_with(Scheme::Any, WORKERS, workers)
    } else if scheme == b"pipe".as_slice() {
        config_with(Scheme::Pipe, WORKERS, workers)
    } else {
        None
    }
}

/// A configuration until as many iterations as a word says.
fn until_line(config: Config, until: &[u8]) -> Option<Command>
    ensures { said result ≡ until_line config (number_within 1 TURNS until.now) }
{
    match number_within(1, TURNS, until) {
        Some(until) => Some(Command::Use {
            config,
            until: Some(until),
        }),
        None => None,
    }
}

/// The command that ends with these two words behind a configuration.
fn with_until(config: Config, word: &[u8], until: &[u8]) -> Option<Command>
    ensures { said result ≡ after_config config (word.now ∷ until.now ∷ []) }
{
    if word == b"until".as_slice() {
        until_line(config, until)
    } else {
        None
    }
}

/// The command whose words behind a configuration are this one and those of the rest.
fn behind_word(config: Config, word: &[u8], rest: &[u8]) -> Option<Command>
    ensures { (at : ℕ) → said result ≡ after_config config (word.now ∷ words_from at rest.now) }
{
    let until = first_word(rest)?;
    match first_word(until.behind) {
        None => with_until(config, word, until.bytes),
        Some(_) => None,
    }
}

/// The command whose words behind a configuration are these.
fn after_config(config: Config, rest: &[u8]) -> Option<Command>
    ensures { (at : ℕ) → said result ≡ after_config config (words_from at rest.now) }
{
    match first_word(rest) {
        None => Some(Command::Use {
            config,
            until: None,
        }),
        Some(word) => behind_word(config, word.bytes, word.behind),
    }
}

/// The command of a configuration, where there is one, and the words behind it.
fn with_config(config: Option<Config>, rest: &[u8]) -> Option<Command>
    ensures { (at : ℕ) → said result ≡ with_config config (words_from at rest.now) }
{
    match config {
        Some(config) => after_config(config, rest),
        None => None,
    }
}

/// The command whose words behind `use` are these.
fn after_use(rest: &[u8]) -> Option<Command>
    ensures { (at : ℕ) → said result ≡ after_use (words_from at rest.now) }
{
    let scheme = first_word(rest)?;
    let workers = first_word(scheme.behind)?;
    with_config(config_of(scheme.bytes, workers.bytes), workers.behind)
}

/// The step of the task that a word is, with as many moves as another one says.
fn step_line(task: &[u8], moves: &[u8]) -> Option<Command>
    ensures { said result ≡ step_line (number_within 0 LAST_TASK task.now) (number_within 1 MOVES moves.now) }
{
    let task = number_within(0, u64::from(LAST_TASK), task)?;
    let moves = number_within(1, MOVES, moves)?;
    Some(Command::Step {
        task: task as u32,
        moves,
    })
}

/// The command whose words behind `step` are these two and those of the rest.
fn behind_moves(task: &[u8], moves: &[u8], rest: &[u8]) -> Option<Command>
    ensures { (at : ℕ) → said result ≡ after_step (task.now ∷ moves.now ∷ words_from at rest.now) }
{
    match first_word(rest) {
        None => step_line(task, moves),
        Some(_) => None,
    }
}

/// The command whose words behind `step` are these.
fn after_step(rest: &[u8]) -> Option<Command>
    ensures { (at : ℕ) → said result ≡ after_step (words_from at rest.now) }
{
    let task = first_word(rest)?;
    let moves = first_word(task.behind)?;
    behind_moves(task.bytes, moves.bytes, moves.behind)
}

/// The command whose words behind `pause` are these.
fn after_pause(rest: &[u8]) -> Option<Command>
    ensures { (at : ℕ) → said result ≡ after_pause (words_from at rest.now) }
{
    match first_word(rest) {
        None => Some(Command::Pause),
        Some(_) => None,
    }
}

/// The command whose first word is this one, with those of the rest behind it.
fn line_named(word: &[u8], rest: &[u8]) -> Option<Command>
    ensures { (at : ℕ) → said result ≡ line_named word.now (words_from at rest.now) }
{
    if word == b"use".as_slice() {
        after_use(rest)
    } else if word == b"step".as_slice() {
        after_step(rest)
    } else if word == b"pause".as_slice() {
        after_pause(rest)
    } else {
        None
    }
}

/// What a line is whose words are this one and those of the rest.
fn kind_by(word: &[u8], rest: &[u8]) -> Kind
    ensures { (at : ℕ) → meant result ≡ line_by (word.now ∷ words_from at rest.now) }
{
    if is_comment(word) {
        return Kind::Nothing;
    }
    match line_named(word, rest) {
        Some(command) => Kind::Says(command),
        None => Kind::Wrong,
    }
}

/// What a line is, without the LF that ends it. Takes time in proportion to the line at most.
pub fn kind_of(line: &[u8]) -> Kind
    ensures { meant result ≡ line_by (words_of line.now) }
{
    match first_word(without_cr(line)) {
        None => Kind::Nothing,
        Some(word) => kind_by(word.bytes, word.behind),
    }
}
