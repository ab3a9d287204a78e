ghost use Rattle.std.specs.Prelude.{◌≡◌, ◌≤◌, ◌^◌, ℕ, length, Ok, Err, IfOk, MatchResult};
ghost use Rattle.morta_script.specs.Commands.{AreCommands};
ghost use Rattle.morta_script.specs.Lines.{commands_of, line_by, words_of};
ghost use Rattle.morta_script.specs.Turns.{with_kind};

use crate::limits::COMMANDS;
use crate::line::{Kind, kind_of};
use crate::script::{Command, Script};
use nona_text::first_line;
use std::alloc::{AllocFailed, Global};

/// Why the text of a script is refused.
#[derive(Clone, Copy, Debug, PartialEq, Eq)]
pub enum ScriptFault {
    /// The line with this number, counted from 1 with blank lines and comments, is none that a script may have, or has the
    /// 65,537th command.
    Line { line: u32 },
    /// Memory ran out, which says nothing of the text.
    NoMemory,
}

impl From<AllocFailed<Command>> for ScriptFault {
    ghost use Rattle.std.specs.Prelude.{◌≡◌};
    ghost use Rattle.morta_script.specs.declared.reading.ScriptFault.TheVariants.{NoMemory};

    ghost from_gives = { λ _ fault. fault ≡ NoMemory };

    fn from(_error: AllocFailed<Command>) -> ScriptFault {
        ScriptFault::NoMemory
    }
}

/// Puts the command of the line with a number behind the others, where it has one and may stand there.
fn add_line(commands: &mut Vec<Command>, number: u32, line: &[u8]) -> Result<(), ScriptFault>
    ensures { MatchResult result
        (λ _. with_kind commands.old.items (line_by (words_of line.now)) number ≡ Ok commands.new.items)
        (λ fault. (n : ℕ) → fault ≡ ScriptFault.Line n → with_kind commands.old.items (line_by (words_of line.now)) number ≡ Err n) }
{
    match kind_of(line) {
        Kind::Nothing => Ok(()),
        Kind::Says(command) if commands.len() < COMMANDS => {
            commands.push(command)?;
            Ok(())
        }
        _ => Err(ScriptFault::Line { line: number }),
    }
}

/// The script of a text of at most 1,048,576 bytes.
///
/// A line ends with LF, the last one possibly with the text; a CR before that end is dropped. Its words stand between
/// spaces and tabs. A line is blank, a comment, whose first word begins with `#`, or one of `use seq 1`, `use any W` and
/// `use pipe W`, each possibly with `until K` behind it, `step T N` and `pause`, where W is from 1 to 16, K from 1 to
/// 1,000,000,000,000, T from 0 to 255 and N from 1 to 1,000,000. A number has 1 to 13 digits, also leading zeros. The first
/// line that is none of these is refused, and that of the 65,537th command. Takes time and memory in proportion to the text.
pub fn read_script(alloc: Global, text: &[u8]) -> Result<Script, ScriptFault>
    requires { length text.now ≤ 2 ^ 20 }
    ensures script { IfOk result (λ script. commands_of text.now ≡ Ok script.commands.items) }
    ensures valid { IfOk result (λ script. AreCommands script.commands.items) }
    ensures refused { (line : ℕ) → result ≡ Err (ScriptFault.Line line) → commands_of text.now ≡ Err line }
{
    let mut commands = Vec::new(alloc);
    let mut number = 1;
    let mut rest = text;
    while !rest.is_empty() {
        let line = first_line(rest);
        add_line(&mut commands, number, line.bytes)?;
        number += 1;
        rest = line.behind;
    }
    Ok(Script { commands })
}
