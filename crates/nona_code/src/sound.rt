ghost use Rattle.std.specs.Prelude.{◌≡◌, ◌≤◌};
ghost use Rattle.nona_code.specs.Machine.{places};
ghost use Rattle.nona_code.specs.SoundView.{IsSoundView, sound_view};

use crate::instr::Instr;
use crate::marks::Mark;
use crate::uses::Uses;
use std::marker::Model;

/// Code that keeps the stack rule, of less than 2^31 instructions.
#[derive(Drop)]
pub struct Sound {
    instrs: Vec<Instr>,
    most: Mark,
    uses: Uses,
}

impl Model for Sound {
    ghost use Rattle.std.specs.Prelude.{length, ◌<◌, ◌^◌};
    ghost use Rattle.nona_code.specs.SoundView.{SoundView, IsSoundView, sound_view};

    ghost Value = { SoundView };

    ghost view = { λ s. sound_view s.instrs.items s.most s.uses };

    ghost invariant = { λ s. IsSoundView (sound_view s.instrs.items s.most s.uses) };
}

impl Sound {
    /// Code that keeps the rule, with its greatest depth and count, and what it uses.
    pub(crate) fn of(instrs: Vec<Instr>, most: Mark, uses: Uses) -> Sound
        requires { IsSoundView (sound_view instrs.items most uses) }
        ensures { result ≡ sound_view instrs.items most uses }
    {
        Sound { instrs, most, uses }
    }

    /// Its instructions.
    pub fn instrs(&self) -> &[Instr]
        ensures value { result.now ≡ self.now.instrs }
        ensures sound { IsSoundView self.now }
    {
        self.instrs.as_slice()
    }

    /// The greatest depth of its stack on any way through it: how many numbers are there at most.
    pub fn deepest(&self) -> u32
        ensures { result ≡ self.now.deepest }
    {
        self.most.depth
    }

    /// The greatest count of scalars that it has declared at once on any way through it.
    pub fn scalars(&self) -> u32
        ensures { result ≡ self.now.scalars }
    {
        self.most.declared
    }

    /// So many hidden scalars, at most 256, hold all that it uses.
    pub(crate) fn hidden(&self) -> u32
        ensures value { result ≡ self.now.hidden }
        ensures few { result ≤ places }
    {
        self.uses.hidden
    }

    /// So many counters, at most 256, hold all that it uses.
    pub(crate) fn counters(&self) -> u32
        ensures value { result ≡ self.now.counters }
        ensures few { result ≤ places }
    {
        self.uses.counters
    }
}
