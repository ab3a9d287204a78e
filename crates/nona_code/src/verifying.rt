//! Whether code keeps the stack rule.

ghost use Rattle.std.specs.Prelude.{◌≡◌, ◌<◌, ◌≤◌, ◌^◌, ℕ, [], true, false, length, slice_get, Some, IfOk};
ghost use Rattle.nona_code.specs.declared.instr.Instr.{Instr};
ghost use Rattle.nona_code.specs.declared.marks.Mark.{Mark};
ghost use Rattle.nona_code.specs.Machine.{places};
ghost use Rattle.nona_code.specs.Marked.{HasMark, IsHighest, IsSearch};
ghost use Rattle.nona_code.specs.Rule.{HasTarget, IsNumbered, IsSound, UsesBelow, start};
ghost use Rattle.nona_code.specs.SoundView.{IsVerdict};

use crate::instr::Instr;
use crate::limits::{FIRST_HIDDEN, INSTRUCTIONS, PLACES};
use crate::marks::Mark;
use crate::search::find_marks;
use crate::sound::Sound;
use crate::uses::uses_of_all;
use std::alloc::{AllocError, Global};

/// Whether an instruction's hidden scalar or counter is one of those that a frame has.
fn is_numbered(instr: Instr) -> bool
    ensures yes_so { result ≡ true → IsNumbered places places instr }
    ensures no_so { result ≡ false → IsNumbered places places instr → ⊥ }
{
    match instr {
        Instr::Load(id) | Instr::Save(id) => id < FIRST_HIDDEN + PLACES,
        Instr::Enter(counter) => counter < PLACES,
        Instr::Turn(counter, _) => counter < PLACES,
        _ => true,
    }
}

/// Whether an instruction's target is one of so many instructions.
fn has_target(instr: Instr, count: usize) -> bool
    ensures yes_so { result ≡ true → HasTarget count instr }
    ensures no_so { result ≡ false → HasTarget count instr → ⊥ }
{
    match instr {
        Instr::Jump(target) => (target as usize) < count,
        Instr::Zero(target) => (target as usize) < count,
        _ => true,
    }
}

/// Both of all instructions, reached or not.
fn are_placed(code: &[Instr]) -> bool
    ensures numbered { result ≡ true → UsesBelow places places code.now }
    ensures targets { result ≡ true → (pc : ℕ) (i : Instr) → slice_get code.now pc ≡ Some i → HasTarget (length code.now) i }
    ensures no_so { result ≡ false → IsSound code.now → ⊥ }
{
    for instr in code {
        if !is_numbered(*instr) || !has_target(*instr, code.len()) {
            return false;
        }
    }
    true
}

/// The greater depth and the greater count of declared scalars of all marks.
fn greatest(marks: &[Option<Mark>]) -> Mark
    requires { HasMark marks.now 0 start }
    ensures { IsHighest marks.now result }
{
    let mut most = Mark {
        depth: 0,
        declared: 0,
    };
    for known in marks {
        if let Some(mark) = known {
            most = Mark {
                depth: most.depth.max(mark.depth),
                declared: most.declared.max(mark.declared),
            };
        }
    }
    most
}

/// The code, where it keeps the stack rule; None comes exactly where it breaks the rule.
///
/// Time and memory grow linearly with the code. Code of 2^31 instructions or more is refused as want of memory.
pub fn verify(alloc: Global, code: Vec<Instr>) -> Result<Option<Sound>, AllocError>
    ensures { IfOk result (IsVerdict code.items) }
{
    if code.len() >= INSTRUCTIONS {
        return Err(AllocError);
    }
    if !are_placed(code.as_slice()) {
        return Ok(None);
    }
    match find_marks(alloc, code.as_slice())? {
        None => Ok(None),
        Some(marks) => {
            let most = greatest(marks.as_slice());
            let uses = uses_of_all(code.as_slice());
            Ok(Some(Sound::of(code, most, uses)))
        }
    }
}
