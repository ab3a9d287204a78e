//! The rules on names and limits.
//!
//! `check` gives each name of a program's tree the id of what it names, and refuses a program that breaks a rule.
#![tactic(auto)]

ghost use Rattle.std.specs.Prelude.{◌≡◌, [], None, Err, IfOk, OnOk};
ghost use Rattle.nona_tree.specs.declared.faults.ProgramFault.{ProgramFault};
ghost use Rattle.nona_tree.specs.Faults.{faults_of, IsFirstFault};
ghost use Rattle.nona_tree.specs.Ids.{ids_of};
ghost use Rattle.nona_tree.specs.Numbers.{IsI64Program};
ghost use Rattle.nona_tree.specs.Places.{HasOwnPlaces};
ghost use Rattle.nona_tree.specs.Smallness.{IsSmall};
ghost use Rattle.nona_check.specs.First.{first_from};

mod declarations;
mod exprs;
mod fault;
mod names;
mod scope;
mod stmts;

use crate::declarations::{declare_all, number_arrays, number_vars};
use crate::scope::Scope;
use crate::stmts::resolve_all;
pub use fault::CheckFault;
use nona_tree::{Checked, Program, ProgramFault, ids_settle};
use std::alloc::{AllocError, Global};

/// A program with its ids, and its first fault, where it has one.
fn resolve(alloc: Global, program: &Program) -> Result<(Program, Option<ProgramFault>), AllocError>
    requires { IsSmall program.now }
    ensures ids { IfOk result (λ r. r.0 ≡ ids_of program.now) }
    ensures faults { IfOk result (λ r. r.1 ≡ first_from None (faults_of program.now)) }
{
    let arrays = program.arrays.as_slice();
    let vars = program.vars.as_slice();
    let mut scope = Scope::new(alloc)?;
    let mut first = None;
    declare_all(alloc, arrays, vars, &mut scope, &mut first)?;
    let body = resolve_all(alloc, program.body.as_slice(), &mut scope, &mut first)?;
    let resolved = Program {
        arrays: number_arrays(alloc, arrays)?,
        vars: number_vars(alloc, vars)?,
        body,
    };
    Ok((resolved, first))
}

/// The program with the ids of its names, where it has no fault.
///
/// The id of a scalar is the number of scalars that are visible where it is declared. The id of an array is 0 for
/// `input`, and the declared arrays follow from 1. Arrays and variables are visible from their declaration to the end of
/// the program, what a `let` declares to the end of its block, and the index of a `for` in the loop's body. The rules:
///
/// - A name that is declared isn't visible there, and `input` always is.
/// - A name that is used is visible, as a scalar where a scalar stands, and as an array where an array stands.
/// - A name that is assigned, also by a fold, isn't the index of a `for`, and no cell of `input` is written.
/// - Each array has at least one cell, and all together have no more than 4,194,304.
/// - The body of a `for` that isn't `seq for` has at most 64 statements at its top.
///
/// `Refused` says that the program breaks one of them: it has the fault at the least place, and of several there the
/// first one as `ProgramFault` lists them. `NoMemory` says nothing of the program. Either way the program that was passed
/// is spent. That the program is small, that its numbers are of 64 bits and that its loops have places of their own is what
/// `parse` ensures; a checked program keeps it.
///
/// A name is found in a time logarithmic in the number of visible names. The memory is linear in the size of the
/// program, and the depth of the stack in the depth of its blocks and expressions: a level of an expression takes some
/// 200 bytes of it at the most.
pub fn check(alloc: Global, program: Program) -> Result<Checked, CheckFault>
    requires small { IsSmall program }
    requires numbers { IsI64Program program }
    requires places { HasOwnPlaces program }
    ensures ids { IfOk result (λ checked. checked ≡ ids_of program) }
    ensures faultless { OnOk result (faults_of program ≡ []) }
    ensures refused { (fault : ProgramFault) → result ≡ Err (CheckFault.Refused fault) → IsFirstFault fault program }
{
    let (resolved, first) = resolve(alloc, &program)?;
    ids_settle();
    match first {
        Some(fault) => Err(CheckFault::Refused(fault)),
        None => Ok(Checked::of(resolved)),
    }
}
