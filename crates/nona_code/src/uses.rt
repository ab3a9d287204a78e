//! Which hidden scalars and counters code uses.

ghost use Rattle.std.specs.Prelude.{◌≡◌, ◌<◌, ◌≤◌, ◌+◌, ℕ, slice_get, Some};
ghost use Rattle.nona_code.specs.declared.instr.Instr.{Instr};
ghost use Rattle.nona_code.specs.Machine.{first_hidden, places};
ghost use Rattle.nona_code.specs.Rule.{IsNumbered, UsesBelow};

use crate::instr::Instr;
use crate::limits::FIRST_HIDDEN;

/// So many of the hidden scalars and of the counters.
#[derive(Clone, Copy, Debug, PartialEq, Eq)]
pub struct Uses {
    pub hidden: u32,
    pub counters: u32,
}

/// How many hidden scalars it takes to have the one that this id names.
fn count_hidden(id: u32) -> u32
    requires { id < first_hidden + places }
    ensures names { id < first_hidden + result }
    ensures few { result ≤ places }
{
    if id < FIRST_HIDDEN {
        0
    } else {
        id - FIRST_HIDDEN + 1
    }
}

/// What one instruction uses.
fn uses_of(instr: Instr) -> Uses
    requires { IsNumbered places places instr }
    ensures uses { IsNumbered result.hidden result.counters instr }
    ensures hidden { result.hidden ≤ places }
    ensures counters { result.counters ≤ places }
{
    let mut uses = Uses {
        hidden: 0,
        counters: 0,
    };
    match instr {
        Instr::Load(id) => uses.hidden = count_hidden(id),
        Instr::Save(id) => uses.hidden = count_hidden(id),
        Instr::Enter(counter) => uses.counters = counter + 1,
        Instr::Turn(counter, _) => uses.counters = counter + 1,
        _ => {}
    }
    uses
}

/// What all instructions use.
pub fn uses_of_all(code: &[Instr]) -> Uses
    requires { UsesBelow places places code.now }
    ensures uses { UsesBelow result.hidden result.counters code.now }
    ensures hidden { result.hidden ≤ places }
    ensures counters { result.counters ≤ places }
{
    let mut most = Uses {
        hidden: 0,
        counters: 0,
    };
    for instr in code {
        let uses = uses_of(*instr);
        most = Uses {
            hidden: most.hidden.max(uses.hidden),
            counters: most.counters.max(uses.counters),
        };
    }
    most
}
