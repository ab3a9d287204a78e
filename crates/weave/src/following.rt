//! The commands of a script, done to the machine of an interval.

ghost use Rattle.std.specs.Prelude.{◌≡◌, List, drop, false, IfOk, OnOk};
ghost use Rattle.net_flow.specs.Machines.{is_over};
ghost use Rattle.morta_script.specs.declared.script.Command.{Command};
ghost use Rattle.weave.specs.Following.{follow as followed};
ghost use Rattle.weave.specs.NetView.{machine};
ghost use Rattle.weave.specs.Nets.{IsNet, view_of};
ghost use Rattle.weave.specs.Obeys.{Obeys};

use crate::net::Net;
use morta_script::Command;
use std::alloc::AllocError;

/// Does a command to a machine that has not finished, and answers whether the next one is done too: a `use` pauses the
/// machine and stays.
fn obey(command: Command, net: &mut Net<'_>) -> Result<bool, AllocError>
    requires net { IsNet net.old }
    requires goes_on { is_over machine (view_of net.old) ≡ false }
    ensures obeys { IfOk result (λ on. (rest : List Command) → Obeys command rest (view_of net.old) (view_of net.new) on) }
    ensures sound { OnOk result (IsNet net.new) }
{
    match command {
        Command::Use {
            config: _,
            until: _,
        } => {
            net.pause();
            Ok(false)
        }
        Command::Step { task, moves } => {
            let number = task as usize;
            if number >= net.tasks() {
                return Ok(true);
            }
            net.step_times(number, moves)?;
            Ok(true)
        }
        Command::Pause => {
            net.pause();
            Ok(true)
        }
    }
}

/// Does the next commands, from the one with this number on, while tasks are unfinished, up to a `use`, which pauses the
/// machine and stays. The answer is the number of the first command that is left. An error comes where memory runs out,
/// and the machine is then spent.
pub fn follow(commands: &[Command], first: usize, net: &mut Net<'_>) -> Result<usize, AllocError>
    requires { IsNet net.old }
    ensures follows { IfOk result (λ at. followed machine (drop first commands.now) (view_of net.old)
        ≡ record { net = view_of net.new; left = drop at commands.now }) }
    ensures sound { OnOk result (IsNet net.new) }
{
    'commands: for at in first..commands.len() {
        if net.is_over() {
            return Ok(at);
        }
        if !obey(commands[at], net)? {
            return Ok(at);
        }
    }
    Ok(commands.len())
}
