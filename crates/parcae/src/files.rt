ghost use Rattle.std.specs.Prelude.{◌≡◌, ◌≤◌, ◌^◌, length, All, Ok, IfOk, IfErr, OnOk};
ghost use Rattle.std.specs.Option.{option_copied};
ghost use Rattle.nona_tree.specs.Numbers.{IsI64};
ghost use Rattle.nona_store.specs.Input.{number_bound, numbers_of};
ghost use Rattle.morta_script.specs.Lines.{commands_of};
ghost use Rattle.morta_script.specs.Commands.{AreCommands};
ghost use Rattle.parcae.specs.Accepted.{IsAccepted};
ghost use Rattle.parcae.specs.Refusing.{unread, faulty};
ghost use Rattle.parcae.specs.declared.refusal.Source.TheVariants as source;
ghost use Rattle.parcae.specs.declared.refusal.Refusal.TheVariants as refusal;
ghost use Rattle.parcae.specs.declared.refusal.Stop.TheVariants as stop;
ghost use Rattle.fate_io.specs.Reading.{looked_since};
ghost use Rattle.parcae.specs.Files.{seen, limit_of, IsContent, IsBad, RefusesProgram, RefusesInput, RefusesScript};
ghost use Rattle.parcae.specs.Files.{GivesProgram, GivesInput, NoInput, GivesScript, Stopped, StopsText};

use crate::refusal::{Kind, Refusal, Source, Stop};
use fate_io::{Shelf, ShelfFault};
use morta_script::{Script, ScriptFault, read_script};
use nona_check::{CheckFault, check};
use nona_parse::{ParseFault, parse};
use nona_store::{InputFault, read_numbers};
use nona_tree::{Checked, ProgramFault};
use std::alloc::Global;

/// The most bytes of a program's text, and of a script's.
const TEXT_BYTES: usize = 1_048_576;

/// The most bytes of an input's text.
const INPUT_BYTES: usize = 33_554_432;

/// The most bytes of a file.
fn limit_of(source: Source) -> usize
    ensures { result ≡ limit_of source }
{
    match source {
        Source::Program => TEXT_BYTES,
        Source::Input => INPUT_BYTES,
        Source::Script => TEXT_BYTES,
    }
}

/// The content of a file that a command names.
fn read_file<S: Shelf>(
    alloc: Global,
    source: Source,
    name: &str,
    shelf: &mut S,
) -> Result<Vec<u8>, Stop>
    ensures same { S.held shelf.new ≡ S.held shelf.old }
    ensures read { OnOk result (S.failed shelf.new ≡ S.failed shelf.old) }
    ensures content { IfOk result (λ bytes. IsContent source (S.held shelf.old name.now) bytes.items) }
    ensures none { IfErr result (Stopped (IsBad source (seen S.held shelf.old) name.now) (looked_since S.held S.failed shelf.old shelf.new)) }
{
    let mut bytes = Vec::new(alloc);
    match shelf.read(name, limit_of(source), &mut bytes) {
        Ok(()) => Ok(bytes),
        Err(ShelfFault::Failed) => Err(Stop::Refused(Refusal::Failed(source))),
        Err(ShelfFault::Long) => Err(Stop::Refused(Refusal::Long(source))),
        Err(ShelfFault::NoMemory) => Err(Stop::NoMemory),
    }
}

/// The refusal of a program's text for a fault of this kind at this place.
fn refused(kind: Kind, at: u32) -> Stop
    ensures { result ≡ stop.Refused (refusal.Text kind at) }
{
    Stop::Refused(Refusal::Text { kind, at })
}

/// Why a text was not read.
fn unread(fault: ParseFault) -> Stop
    ensures { result ≡ unread fault }
{
    match fault {
        ParseFault::Byte { at } => refused(Kind::Byte, at),
        ParseFault::Number { at } => refused(Kind::Number, at),
        ParseFault::NameLong { at } => refused(Kind::NameLong, at),
        ParseFault::Syntax { at } => refused(Kind::Syntax, at),
        ParseFault::Deep { at } => refused(Kind::Deep, at),
        ParseFault::NoMemory => Stop::NoMemory,
    }
}

/// The refusal of a program with a fault.
fn faulty(fault: ProgramFault) -> Refusal
    ensures { result ≡ faulty fault }
{
    match fault {
        ProgramFault::Unknown { at } => Refusal::Text {
            kind: Kind::Unknown,
            at,
        },
        ProgramFault::Twice { at } => Refusal::Text {
            kind: Kind::Twice,
            at,
        },
        ProgramFault::KindWrong { at } => Refusal::Text {
            kind: Kind::KindWrong,
            at,
        },
        ProgramFault::IndexAssigned { at } => Refusal::Text {
            kind: Kind::IndexAssigned,
            at,
        },
        ProgramFault::InputWritten { at } => Refusal::Text {
            kind: Kind::InputWritten,
            at,
        },
        ProgramFault::Cells { at } => Refusal::Text {
            kind: Kind::Cells,
            at,
        },
        ProgramFault::Units { at } => Refusal::Text {
            kind: Kind::Units,
            at,
        },
    }
}

/// The program of a text.
pub fn accept(alloc: Global, text: &[u8]) -> Result<Checked, Stop>
    requires { length text.now ≤ 2 ^ 20 }
    ensures accepted { IfOk result (λ checked. IsAccepted text.now checked) }
    ensures refused { IfErr result (StopsText (RefusesProgram text.now)) }
{
    match parse(alloc, text) {
        Ok(read) => match check(alloc, read) {
            Ok(checked) => Ok(checked),
            Err(CheckFault::Refused(fault)) => Err(Stop::Refused(faulty(fault))),
            Err(CheckFault::NoMemory) => Err(Stop::NoMemory),
        },
        Err(fault) => Err(unread(fault)),
    }
}

/// The program in a file.
pub fn program_in<S: Shelf>(alloc: Global, file: &str, shelf: &mut S) -> Result<Checked, Stop>
    ensures same { S.held shelf.new ≡ S.held shelf.old }
    ensures read { OnOk result (S.failed shelf.new ≡ S.failed shelf.old) }
    ensures gives { IfOk result (λ checked. GivesProgram (seen S.held shelf.old) file.now checked) }
    ensures none { IfErr result (Stopped (IsBad source.Program (seen S.held shelf.old) file.now) (looked_since S.held S.failed shelf.old shelf.new)) }
{
    match read_file(alloc, Source::Program, file, shelf) {
        Ok(bytes) => accept(alloc, &bytes),
        Err(stop) => Err(stop),
    }
}

/// The numbers of an input's text.
fn numbers_in(alloc: Global, text: &[u8]) -> Result<Vec<i64>, Stop>
    requires { length text.now ≤ 2 ^ 25 }
    ensures numbers { IfOk result (λ numbers. numbers_of text.now ≡ Ok numbers.items) }
    ensures few { IfOk result (λ numbers. length numbers.items ≤ number_bound) }
    ensures kept { IfOk result (λ numbers. All IsI64 numbers.items) }
    ensures refused { IfErr result (StopsText (RefusesInput text.now)) }
{
    match read_numbers(alloc, text) {
        Ok(numbers) => Ok(numbers),
        Err(InputFault::Token { at }) => Err(Stop::Refused(Refusal::Token { at })),
        Err(InputFault::Count) => Err(Stop::Refused(Refusal::Count)),
        Err(InputFault::NoMemory) => Err(Stop::NoMemory),
    }
}

/// The numbers in an input's file; without a file there are none.
pub fn input_in<S: Shelf>(
    alloc: Global,
    file: Option<&str>,
    shelf: &mut S,
) -> Result<Vec<i64>, Stop>
    ensures same { S.held shelf.new ≡ S.held shelf.old }
    ensures read { OnOk result (S.failed shelf.new ≡ S.failed shelf.old) }
    ensures gives { IfOk result (λ numbers. GivesInput (seen S.held shelf.old) (option_copied file.entry) numbers.items) }
    ensures few { IfOk result (λ numbers. length numbers.items ≤ number_bound) }
    ensures kept { IfOk result (λ numbers. All IsI64 numbers.items) }
    ensures none { IfErr result (Stopped (NoInput (seen S.held shelf.old) (option_copied file.entry))
        (looked_since S.held S.failed shelf.old shelf.new)) }
{
    match file {
        Some(name) => match read_file(alloc, Source::Input, name, shelf) {
            Ok(bytes) => numbers_in(alloc, &bytes),
            Err(stop) => Err(stop),
        },
        None => Ok(Vec::new(alloc)),
    }
}

/// The script of a text.
fn script_of(alloc: Global, text: &[u8]) -> Result<Script, Stop>
    requires { length text.now ≤ 2 ^ 20 }
    ensures script { IfOk result (λ script. commands_of text.now ≡ Ok script.commands.items) }
    ensures valid { IfOk result (λ script. AreCommands script.commands.items) }
    ensures refused { IfErr result (StopsText (RefusesScript text.now)) }
{
    match read_script(alloc, text) {
        Ok(script) => Ok(script),
        Err(ScriptFault::Line { line }) => Err(Stop::Refused(Refusal::Line { line })),
        Err(ScriptFault::NoMemory) => Err(Stop::NoMemory),
    }
}

/// The script in a file.
pub fn script_in<S: Shelf>(alloc: Global, file: &str, shelf: &mut S) -> Result<Script, Stop>
    ensures same { S.held shelf.new ≡ S.held shelf.old }
    ensures read { OnOk result (S.failed shelf.new ≡ S.failed shelf.old) }
    ensures gives { IfOk result (λ script. GivesScript (seen S.held shelf.old) file.now script.commands.items) }
    ensures valid { IfOk result (λ script. AreCommands script.commands.items) }
    ensures none { IfErr result (Stopped (IsBad source.Script (seen S.held shelf.old) file.now) (looked_since S.held S.failed shelf.old shelf.new)) }
{
    match read_file(alloc, Source::Script, file, shelf) {
        Ok(bytes) => script_of(alloc, &bytes),
        Err(stop) => Err(stop),
    }
}
