//! Runs programs of a small language whose parallel loops change shape while they run.
#![tactic(auto)]

mod check;
mod files;
mod laws;
mod refusal;
mod replays;
mod report;
mod runs;
mod status;
mod still;
mod summary;
#[cfg(test)]
mod tests;
mod trials;
mod words;

use fate_io::{FileShelf, OutSink};
use status::Status;
use std::alloc::AllocError;
use std::process::ExitCode;
use std::{env, io};
use still::parcae_still;

/// Reads the words after the program's name.
fn read_words(rt: &HostRuntime) -> io::Result<Vec<String>> {
    let mut words = Vec::new(rt.alloc());
    for word in env::args(rt)?.skip(1) {
        words.push(word)?;
    }
    Ok(words)
}

/// The words after the program's name. There are none where they can't be read, as where one is no UTF-8: that is no command.
/// The one error is that memory ran out.
fn words_of(rt: &HostRuntime) -> Result<Vec<String>, AllocError> {
    match read_words(rt) {
        Ok(words) => Ok(words),
        Err(fault) => match fault.kind() {
            io::ErrorKind::OutOfMemory => Err(AllocError),
            _ => Ok(Vec::new(rt.alloc())),
        },
    }
}

fn main(rt: HostRuntime) -> ExitCode {
    let Ok(words) = words_of(&rt) else {
        return ExitCode::from(Status::NoMemory.code());
    };
    let mut shelf = FileShelf::new(&rt, rt.alloc());
    let mut out = OutSink::new(io::writer(&rt));
    let report = parcae_still(rt.alloc(), &words, &mut shelf, &mut out);
    ExitCode::from(report.status.code())
}
