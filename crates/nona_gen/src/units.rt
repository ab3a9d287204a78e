//! Units: the code of one statement that stands alone.

ghost use Rattle.std.specs.Prelude.{◌≡◌, Bool, All, IfOk};
ghost use Rattle.nona_tree.specs.declared.trees.Loop.{Loop};
ghost use Rattle.nona_tree.specs.declared.trees.Stmt.{Stmt};
ghost use Rattle.nona_tree.specs.declared.trees.Program.{Program};
ghost use Rattle.nona_tree.specs.Checking.{IsChecked};
ghost use Rattle.nona_tree.specs.Entries.{regions_all};
ghost use Rattle.nona_code.specs.Rule.{IsSound};
ghost use Rattle.nona_code.specs.Stands.{StandsFor};
ghost use Rattle.nona_gen.specs.Code.{unit_code};
ghost use Rattle.nona_gen.specs.Units.{HasCode, BodyHasCode};

use crate::emit::put;
use crate::statements::emit_stmt;
use nona_code::{Instr, Sound, verify};
use nona_tree::{Stmt, checked_is_scoped};
use std::alloc::{AllocError, Global};

/// Says that the code of a unit stands for its statement, and that it keeps the stack rule. It does nothing when called.
pub fn code_stands()
    ensures stands { (s : Stmt) → HasCode s → StandsFor (unit_code s) s }
    ensures sound { (s : Stmt) → HasCode s → IsSound (unit_code s) }
{}

/// Says that each statement at the top of a checked program has code. It does nothing when called.
pub fn checked_has_code()
    ensures { (p : Program) → IsChecked p → All HasCode p.body }
{
    checked_is_scoped();
}

/// Says that so does each statement at the top of a region's body, whichever loops are chosen. It does nothing when called.
pub fn regions_have_code()
    ensures { (p : Program) (chosen : Loop → Bool) → IsChecked p → All BodyHasCode (regions_all chosen p.body) }
{
    checked_is_scoped();
}

/// The code of a unit, of which nothing is verified yet.
fn emit_unit(alloc: Global, statement: &Stmt) -> Result<Vec<Instr>, AllocError>
    ensures { IfOk result (λ code. code.items ≡ unit_code statement.now) }
{
    let mut code = Vec::new(alloc);
    emit_stmt(statement, 0, &mut code)?;
    put(&mut code, Instr::Stop)?;
    Ok(code)
}

/// The code that stands for a statement, which is that of the definition. It is refused for want of memory alone, and so is
/// code of 2^31 instructions or more.
pub fn generate_unit(alloc: Global, statement: &Stmt) -> Result<Sound, AllocError>
    requires { HasCode statement.now }
    ensures code { IfOk result (λ code. code.instrs ≡ unit_code statement.now) }
    ensures stands { IfOk result (λ code. StandsFor code.instrs statement.now) }
{
    let code = emit_unit(alloc, statement)?;
    match verify(alloc, code)? {
        Some(sound) => Ok(sound),
        None => unreachable!(),
    }
}
