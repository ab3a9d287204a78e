// The declarations at the head of a program.

ghost use Rattle.std.specs.Prelude.{◌≡◌, ◌+◌, ◌<◌, ◌≤◌, ◌^◌, false, length, drop, IfOk, OnOk};
ghost use Rattle.nona_tree.specs.Faults.{cells_faults, new_faults, declarations_faults};
ghost use Rattle.nona_tree.specs.Ids.{arrays_ids, vars_ids};
ghost use Rattle.nona_tree.specs.Run.{count_of};
ghost use Rattle.nona_tree.specs.Seen.{array_decl, declarations, seen_behind_all, with_scalar, with_array};
ghost use Rattle.nona_check.specs.First.{first_from};
ghost use Rattle.nona_check.specs.Merged.{array_decl_faults, array_is_next};

use crate::exprs::note_new;
use crate::fault::note_where;
use crate::scope::Scope;
use nona_tree::{ArrayDecl, CELLS, ProgramFault, VarDecl};
use sqlite_items::Items;
use std::alloc::{AllocError, Global};

/// How many cells an array is declared with: none where its number is negative.
fn count_cells(array: &ArrayDecl) -> u128
    ensures value { result ≡ count_of array.now.cells }
    ensures most { result < 2 ^ 63 }
{
    if array.cells < 0 {
        0
    } else {
        array.cells as u128
    }
}

/// Takes the cells of an array into account, where there are so many with its own.
fn note_cells(first: &mut Option<ProgramFault>, array: &ArrayDecl, total: u128)
    ensures { first.new ≡ first_from first.old (cells_faults (array_decl array.now) total) }
{
    let wrong = array.cells <= 0 || total > CELLS as u128;
    note_where(first, wrong, ProgramFault::Cells { at: array.cells_at });
}

/// Declares an array, before which so many cells are declared. Answers how many are with its own.
fn declare_array(
    alloc: Global,
    array: &ArrayDecl,
    cells: u128,
    scope: &mut Scope,
    first: &mut Option<ProgramFault>,
) -> Result<u128, AllocError>
    requires cells { cells + 2 ^ 63 < 2 ^ 128 }
    requires room { length scope.old.arrays + 1 < 2 ^ 32 }
    ensures cells { IfOk result (λ total. total ≡ cells + count_of array.now.cells) }
    ensures most { IfOk result (λ total. total ≤ cells + 2 ^ 63) }
    ensures faults { OnOk result (first.new ≡ first_from first.old (array_decl_faults array.now scope.old cells)) }
    ensures seen { OnOk result (scope.new ≡ with_array array.now.name.text scope.old) }
{
    note_new(first, &array.name, scope);
    let total = cells + count_cells(array);
    note_cells(first, array, total);
    scope.declare_array(alloc, &array.name.text)?;
    Ok(total)
}

/// Declares a variable.
fn declare_var(
    alloc: Global,
    var: &VarDecl,
    scope: &mut Scope,
    first: &mut Option<ProgramFault>,
) -> Result<(), AllocError>
    requires { length scope.old.scalars + 1 < 2 ^ 32 }
    ensures faults { OnOk result (first.new ≡ first_from first.old (new_faults var.now.name scope.old)) }
    ensures seen { OnOk result (scope.new ≡ with_scalar var.now.name.text false scope.old) }
{
    note_new(first, &var.name, scope);
    scope.declare_scalar(alloc, &var.name.text, false)
}

/// Whether an array is the next declaration, where these many arrays and variables are declared.
fn array_is_next(arrays: &[ArrayDecl], array: usize, vars: &[VarDecl], var: usize) -> bool
    ensures { result ≡ array_is_next (drop array arrays.now) (drop var vars.now) }
{
    match (arrays.get(array), vars.get(var)) {
        (Some(a), Some(v)) => v.name.at >= a.name.at,
        (Some(_), None) => true,
        (None, _) => false,
    }
}

/// Declares arrays and variables, those first whose names come first in the text.
pub fn declare_all(
    alloc: Global,
    arrays: &[ArrayDecl],
    vars: &[VarDecl],
    scope: &mut Scope,
    first: &mut Option<ProgramFault>,
) -> Result<(), AllocError>
    requires arrays { length scope.old.arrays + length arrays.now < 2 ^ 32 }
    requires vars { length scope.old.scalars + length vars.now < 2 ^ 32 }
    ensures faults { OnOk result (first.new ≡ first_from first.old (declarations_faults (declarations arrays.now vars.now) scope.old 0)) }
    ensures seen { OnOk result (scope.new ≡ seen_behind_all (declarations arrays.now vars.now) scope.old) }
    ensures most { OnOk result (length scope.new.scalars ≤ length scope.old.scalars + length vars.now) }
{
    let mut array = 0;
    let mut var = 0;
    let mut cells = 0;
    while array < arrays.len() || var < vars.len() {
        if array_is_next(arrays, array, vars, var) {
            cells = declare_array(alloc, &arrays[array], cells, scope, first)?;
            array += 1;
        } else {
            declare_var(alloc, &vars[var], scope, first)?;
            var += 1;
        }
    }
    Ok(())
}

/// Arrays with their ids, from 1.
pub fn number_arrays(alloc: Global, arrays: &[ArrayDecl]) -> Result<Items<ArrayDecl>, AllocError>
    requires { length arrays.now + 1 < 2 ^ 32 }
    ensures { IfOk result (λ numbered. numbered ≡ arrays_ids arrays.now 1) }
{
    let mut numbered = Items::new(alloc);
    for (index, array) in arrays.iter().enumerate() {
        numbered.push(ArrayDecl {
            name: array.name.with_id(index as u32 + 1),
            cells: array.cells,
            cells_at: array.cells_at,
        })?;
    }
    Ok(numbered)
}

/// Variables with their ids, from 0.
pub fn number_vars(alloc: Global, vars: &[VarDecl]) -> Result<Items<VarDecl>, AllocError>
    requires { length vars.now < 2 ^ 32 }
    ensures { IfOk result (λ numbered. numbered ≡ vars_ids vars.now 0) }
{
    let mut numbered = Items::new(alloc);
    for (index, var) in vars.iter().enumerate() {
        numbered.push(VarDecl {
            name: var.name.with_id(index as u32),
            value: var.value,
        })?;
    }
    Ok(numbered)
}
