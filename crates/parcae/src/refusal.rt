ghost use Rattle.std.specs.Prelude.{◌≡◌, IfOk, string_bytes};
ghost use Rattle.fate_io.specs.Sending.{Sends, sent_since};
ghost use Rattle.parcae.specs.Told.{told_of};
ghost use Rattle.parcae.specs.Texts.{source_word, kind_word, refusal_line, refusal_status};
ghost use Rattle.parcae.specs.Ends.{GivesUp};

use crate::report::{Report, bare, once_sent};
use crate::status::Status;
use fate_io::{SendFault, Sink, send};
use std::alloc::{AllocError, Global};

/// A file that a command names.
#[derive(Clone, Copy, Debug, PartialEq, Eq)]
pub enum Source {
    Program,
    Input,
    Script,
}

/// A kind of fault of a program's text. The first five are of the text, and the others of its names and limits.
#[derive(Clone, Copy, Debug, PartialEq, Eq)]
pub enum Kind {
    Byte,
    Number,
    NameLong,
    Syntax,
    Deep,
    Unknown,
    Twice,
    KindWrong,
    IndexAssigned,
    InputWritten,
    Cells,
    Units,
}

/// Why a call runs nothing. A place counts bytes from 0, and a line of a script counts from 1.
#[derive(Clone, Copy, Debug, PartialEq, Eq)]
pub enum Refusal {
    /// The words are no command.
    Usage,
    /// A file couldn't be read.
    Failed(Source),
    /// A file holds more than it may.
    Long(Source),
    /// The program's text has a fault.
    Text { kind: Kind, at: u32 },
    /// A token of the input is no number.
    Token { at: u32 },
    /// The input has too many numbers.
    Count,
    /// A line of the script is refused.
    Line { line: u32 },
}

/// Why the files of a call give nothing.
#[derive(Clone, Copy, Debug, PartialEq, Eq)]
pub enum Stop {
    /// Something is refused.
    Refused(Refusal),
    /// Memory ran out.
    NoMemory,
}

/// What a file is called in a line.
fn source_word(source: Source) -> &'static str
    ensures { result.now ≡ source_word source }
{
    match source {
        Source::Program => "program",
        Source::Input => "input",
        Source::Script => "script",
    }
}

/// What a fault of a program's text is called.
fn kind_word(kind: Kind) -> &'static str
    ensures { result.now ≡ kind_word kind }
{
    match kind {
        Kind::Byte => "byte",
        Kind::Number => "number",
        Kind::NameLong => "name",
        Kind::Syntax => "syntax",
        Kind::Deep => "deep",
        Kind::Unknown => "unknown",
        Kind::Twice => "twice",
        Kind::KindWrong => "kind",
        Kind::IndexAssigned => "index",
        Kind::InputWritten => "input",
        Kind::Cells => "cells",
        Kind::Units => "units",
    }
}

/// The line of a refusal.
fn line_of(alloc: Global, refusal: Refusal) -> Result<String, AllocError>
    ensures { IfOk result (λ text. string_bytes text ≡ refusal_line refusal) }
{
    match refusal {
        Refusal::Usage => format!(in alloc; "usage\n"),
        Refusal::Failed(source) => {
            let word = source_word(source);
            format!(in alloc; "read failed {word}\n")
        }
        Refusal::Long(source) => {
            let word = source_word(source);
            format!(in alloc; "too long {word}\n")
        }
        Refusal::Text { kind, at } => {
            let word = kind_word(kind);
            format!(in alloc; "refused {word} at {at}\n")
        }
        Refusal::Token { at } => format!(in alloc; "refused input at {at}\n"),
        Refusal::Count => format!(in alloc; "refused input count\n"),
        Refusal::Line { line } => format!(in alloc; "refused script line {line}\n"),
    }
}

/// The status of a refusal.
fn refusal_status(refusal: Refusal) -> Status
    ensures { result ≡ refusal_status refusal }
{
    match refusal {
        Refusal::Usage => Status::Usage,
        Refusal::Failed(_) => Status::ReadFailed,
        Refusal::Long(_) => Status::TooLong,
        Refusal::Text { .. } => Status::Refused,
        Refusal::Token { .. } => Status::Input,
        Refusal::Count => Status::Input,
        Refusal::Line { .. } => Status::Script,
    }
}

/// Sends the line of a refusal.
fn send_refusal<K: Sink>(alloc: Global, refusal: Refusal, out: &mut K) -> Result<(), SendFault>
    ensures { Sends (sent_since K.written K.faults out.old out.new) (refusal_line refusal) result }
{
    match line_of(alloc, refusal) {
        Ok(text) => send(out, text.as_bytes()),
        Err(_) => Err(SendFault::NoMemory),
    }
}

/// Writes the line of a refusal and reports its status, or that of the fault that broke the line off. Where memory ran out
/// before, it writes nothing, and reports that.
pub fn give_up<K: Sink>(alloc: Global, stop: Stop, out: &mut K) -> Report
    ensures { GivesUp stop (sent_since K.written K.faults out.old out.new) (told_of result) }
{
    match stop {
        Stop::Refused(refusal) => {
            let sent = send_refusal(alloc, refusal, out);
            once_sent(sent, bare(alloc, refusal_status(refusal)))
        }
        Stop::NoMemory => bare(alloc, Status::NoMemory),
    }
}
