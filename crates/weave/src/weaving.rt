//! The replay of a script.

ghost use Rattle.std.specs.Prelude.{◌≡◌, ◌≤◌, IsTrue, drop, IfOk, OnOk, MatchOption};
ghost use Rattle.std.specs.Int.{int_gap};
ghost use Rattle.morta_task.specs.Entries.{IsEntered, last, offers};
ghost use Rattle.morta_task.specs.Running.{IsConfig, IsHandoff, IsDone, HandsOn, seq_one};
ghost use Rattle.weave.specs.declared.limits.TheConstants as limits;
ghost use Rattle.morta_script.specs.Commands.{AreCommands};
ghost use Rattle.weave.specs.Replay.{commands_left, IsReplayed};
ghost use Rattle.weave.specs.Asking.{IsNoUse, IsUseAt};
ghost use Rattle.weave.specs.Serving.{RunsIn};
ghost use Rattle.weave.specs.WeavePromise.{weave_promise, by_anyone};

use crate::following::follow;
use crate::net::Net;
use crate::setting::Setting;
use morta_script::{Command, Script};
use morta_task::{
    Ask, Asker, Config, Entry, Handoff, Image, Interval, Morta, Ran, RegionCode, Runner,
};
use std::alloc::AllocError;
use std::marker::Model;

/// What a `use` asks for that has this number, where the command with this number is one.
fn use_at(commands: &[Command], at: usize) -> Option<Ask>
    ensures { MatchOption result (IsNoUse (drop at commands.now)) (λ ask. IsUseAt commands.now at ask) }
{
    if at >= commands.len() {
        return None;
    }
    match commands[at] {
        Command::Use { config, until } => Some(Ask { config, until }),
        Command::Step { task: _, moves: _ } => None,
        Command::Pause => None,
    }
}

/// The replay of a script: it asks for the intervals that the script names, and runs each as the script says. The tasks of an
/// interval do their steps in the order of the commands, while tasks are unfinished; a `use` that comes next pauses the
/// interval and waits for the next request. Where commands run out, the tasks step round robin, from task 0 on, until all have
/// finished. What an interval did tells the work: its steps are the moves of its tasks, and its ticks those of the task that
/// moved most.
#[derive(Drop)]
pub struct Weave {
    script: Script,
    /// The number of the next command, from 0.
    at: usize,
    current: Config,
    capacity: usize,
}

impl Model for Weave {
    ghost use Rattle.weave.specs.WeaveView.{WeaveView};
    ghost use Rattle.weave.specs.WeaveInside.{view_of, IsWeave};

    ghost Value = { WeaveView };

    ghost view = { view_of };

    ghost invariant = { IsWeave };
}

impl Weave {
    /// The replay of a script from its first command on, in one thread until a `use` says otherwise. Each number in the script
    /// is in its range. A link between two tasks holds `capacity` messages, 1 to `CAPACITY`; under `seq` there is none.
    pub fn new(script: Script, capacity: usize) -> Weave
        requires commands { AreCommands script.commands.items }
        requires some { 1 ≤ capacity }
        requires few { capacity ≤ limits.CAPACITY }
        ensures { result ≡ record { script = script.commands.items; left = script.commands.items; current = seq_one; capacity = capacity } }
    {
        Weave {
            script,
            at: 0,
            current: Config::SEQ,
            capacity,
        }
    }

    /// How many messages a link holds: 1 to `CAPACITY`.
    pub fn capacity(&self) -> usize
        ensures value { result ≡ self.now.capacity }
        ensures some { 1 ≤ result }
        ensures few { result ≤ limits.CAPACITY }
    {
        self.capacity
    }

    /// Runs an interval of an entry to the loop of this region, in a configuration that the entry offers: the commands are followed,
    /// and then the tasks step until all have finished. An error comes where memory runs out: the handoff is then spent.
    pub(crate) fn run(
        &mut self,
        entry: &Entry,
        code: &RegionCode,
        handoff: Handoff,
        config: Config,
        limit: u64,
    ) -> Result<(Handoff, Ran), AllocError>
        requires entered { IsEntered entry.now }
        requires served { RunsIn entry.now.looped entry.now.plan config.scheme }
        requires offered { IsTrue (offers entry.now config.scheme) }
        requires workers { IsConfig config }
        requires looped { code.now.looped ≡ entry.now.looped }
        requires plan { code.now.plan ≡ entry.now.plan }
        requires state { IsHandoff entry.now handoff }
        requires room { limit ≤ int_gap handoff.next (last entry.now) }
        ensures done { IfOk result (λ r. IsDone entry.now config handoff.next limit r.1) }
        ensures hands_on { IfOk result (λ r. HandsOn entry.now r.1 r.0) }
        ensures replayed { IfOk result (λ r. IsReplayed self.old.capacity config entry.now handoff.next limit self.old.left r.1) }
        ensures left { OnOk result (self.new
            ≡ record self.old { left = commands_left self.old.capacity config entry.now handoff.next limit self.old.left }) }
    {
        let alloc = *self.script.commands.allocator();
        let setting = Setting {
            config,
            capacity: self.capacity,
        };
        let mut net = Net::begin(alloc, entry, code, handoff, setting, limit)?;
        self.at = follow(&self.script.commands, self.at, &mut net)?;
        net.run_out()?;
        let done = net.settle()?;
        Ok(done)
    }
}

impl Morta for Weave {
    ghost promise = { weave_promise };
}

impl Runner for Weave {
    ghost runs_only = { λ w log h. h.replay };

    ghost led = { record { by_any = λ w log e from ask led hand h. by_anyone hand led h; untold = λ w log e i led h. h } };

    fn interval(
        &mut self,
        image: &Image,
        entry: &Entry,
        handoff: Handoff,
        config: Config,
        limit: u64,
    ) -> Result<(Handoff, Ran), AllocError> {
        let code = image.region(entry.region());
        let done = self.run(entry, code, handoff, config, limit)?;
        Ok(done)
    }
}

impl Asker for Weave {
    ghost stands_only = { λ w log h. h.replay };

    ghost asks_alone = { λ w log e from ask i alone h is. absurd alone };

    fn ask(&mut self, _entry: &Entry, _next: i64) -> Ask {
        match use_at(&self.script.commands, self.at) {
            Some(ask) => {
                self.at += 1;
                self.current = ask.config;
                ask
            }
            None => Ask {
                config: self.current,
                until: None,
            },
        }
    }

    fn told(&mut self, _entry: &Entry, _interval: &Interval) {}
}
