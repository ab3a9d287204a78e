//! What is known of the units of a loop.

ghost use Rattle.std.specs.Prelude.{◌≡◌, ◌++◌, [], map, length, ◌<◌, ◌^◌, IfOk, OnOk};
ghost use Rattle.nona_forms.specs.Affine.{among};
ghost use Rattle.nona_forms.specs.References.{assigned_all, names_of, references_all};
ghost use Rattle.nona_forms.specs.Verdicts.{shape_of, spot_of};
ghost use Rattle.nona_plans.specs.Units.{named_in, arrays_in, carried_arrays, carried_scalars, local_of, locals_from, written_arrays};
ghost use Rattle.nona_graph.specs.Facts.{facts_of, HaveSame, IsOf};

use crate::grouping::is_among;
use crate::lists::IdList;
use crate::meeting::{carried_arrays, written_arrays};
use crate::mentioning::{has_print, push_mentions};
use crate::reducing::carried_scalars;
use crate::touching::push_arrays;
use nona_affine::{Ids, push_all_assigned, shape, spots};
use nona_forms::{LoopShape, Spot};
use nona_plans::{Local, Mention};
use nona_tree::{Loop, Stmt};
use std::alloc::{AllocError, Global};

/// What a unit names.
#[derive(Debug, Drop)]
pub struct UnitNames {
    /// The scalars that it names.
    pub scalars: IdList,
    /// The arrays of which it has a cell.
    pub arrays: IdList,
    /// Whether it prints.
    pub prints: bool,
}

/// What is known of a loop's units.
#[derive(Debug, Drop)]
pub struct Parts {
    pub units: Vec<UnitNames>,
    /// The scalars declared before the loop that it assigns, without the reductions.
    pub scalars: Ids,
    /// The arrays that the loop writes.
    pub written: Ids,
    /// Those of them of which accesses of different iterations may meet.
    pub carried: Ids,
    /// The locals of the body's top.
    pub locals: Vec<Local>,
}

/// The ids of mentions.
fn ids_of(alloc: Global, mentions: &[Mention]) -> Result<Vec<u32>, AllocError>
    ensures { IfOk result (λ ids. ids.items ≡ map (λ m. m.id) mentions.now) }
{
    let mut ids = Vec::new(alloc);
    for mention in mentions {
        ids.push(mention.id)?;
    }
    Ok(ids)
}

/// The scalars that a statement names.
fn scalars(alloc: Global, s: &Stmt) -> Result<IdList, AllocError>
    ensures { IfOk result (λ ids. ids ≡ named_in s.now) }
{
    let mut mentions = Vec::new(alloc);
    push_mentions(s, &mut mentions)?;
    IdList::of(alloc, ids_of(alloc, &mentions)?)
}

/// The arrays of which a statement has a cell.
fn arrays(alloc: Global, s: &Stmt) -> Result<IdList, AllocError>
    ensures { IfOk result (λ ids. ids ≡ arrays_in s.now) }
{
    let mut arrays = Vec::new(alloc);
    push_arrays(s, &mut arrays)?;
    IdList::of(alloc, arrays)
}

/// What a unit names.
fn names(alloc: Global, s: &Stmt) -> Result<UnitNames, AllocError>
    ensures { IfOk result (λ names. names ≡ facts_of s.now) }
{
    Ok(UnitNames {
        scalars: scalars(alloc, s)?,
        arrays: arrays(alloc, s)?,
        prints: has_print(s),
    })
}

/// What each unit names.
fn all_names(alloc: Global, body: &[Stmt]) -> Result<Vec<UnitNames>, AllocError>
    ensures { IfOk result (λ units. units.items ≡ map facts_of body.now) }
{
    let mut units = Vec::new(alloc);
    for s in body {
        units.push(names(alloc, s)?)?;
    }
    Ok(units)
}

/// Whether some statements assign a scalar.
fn is_assigned(alloc: Global, id: u32, stmts: &[Stmt]) -> Result<bool, AllocError>
    ensures { IfOk result (λ is. is ≡ among id (assigned_all stmts.now)) }
{
    let mut assigned = Vec::new(alloc);
    push_all_assigned(stmts, &mut assigned)?;
    Ok(is_among(id, &assigned))
}

/// Appends the local that a unit declares, if it does; the statements behind it tell whether it is assigned.
fn push_local(
    alloc: Global,
    unit: u32,
    s: &Stmt,
    rest: &[Stmt],
    locals: &mut Vec<Local>,
) -> Result<(), AllocError>
    ensures { OnOk result (locals.new.items ≡ locals.old.items ++ local_of unit s.now rest.now) }
{
    match s {
        Stmt::Let { name, .. } => {
            let assigned = is_assigned(alloc, name.id, rest)?;
            locals.push(Local {
                unit,
                id: name.id,
                assigned,
            })?;
            Ok(())
        }
        _ => Ok(()),
    }
}

/// The locals of the top of a body.
#[tactic(auto, using(crate::proofs::TieSteps::locals_next))]
fn locals(alloc: Global, body: &[Stmt]) -> Result<Vec<Local>, AllocError>
    requires { length body.now < 2 ^ 32 }
    ensures { IfOk result (λ locals. locals.items ≡ locals_from 1 body.now) }
{
    let mut locals = Vec::new(alloc);
    for at in 0..body.len() {
        push_local(
            alloc,
            at as u32 + 1,
            &body[at],
            &body[at + 1..],
            &mut locals,
        )?;
    }
    Ok(locals)
}

/// The scalars by which iterations of a loop depend on one another.
fn carried_ids(alloc: Global, looped: &Loop) -> Result<Ids, AllocError>
    ensures { IfOk result (λ ids. HaveSame ids (carried_scalars looped.now)) }
{
    let scalars = carried_scalars(alloc, looped)?;
    Ok(Ids::of(scalars))
}

/// The arrays that a loop with these accesses writes.
#[tactic(auto, using(crate::proofs::Pairs::written_same))]
fn written(alloc: Global, looped: &Loop, spots: &[Spot]) -> Result<Ids, AllocError>
    requires { spots.now ≡ map (spot_of (names_of looped.now)) (references_all looped.now.body) }
    ensures { IfOk result (λ ids. HaveSame ids (written_arrays [] looped.now)) }
{
    let arrays = written_arrays(alloc, spots)?;
    Ok(Ids::of(arrays))
}

/// Those of which two accesses may meet in different iterations.
fn carried(
    alloc: Global,
    looped: &Loop,
    spots: &[Spot],
    shape: &LoopShape,
) -> Result<Ids, AllocError>
    requires spots { spots.now ≡ map (spot_of (names_of looped.now)) (references_all looped.now.body) }
    requires shape { shape.now ≡ shape_of looped.now }
    ensures { IfOk result (λ ids. HaveSame ids (carried_arrays [] looped.now)) }
{
    let arrays = carried_arrays(alloc, spots, shape)?;
    Ok(Ids::of(arrays))
}

/// What is known of a loop's units. The one error is that memory ran out.
pub fn parts_of(alloc: Global, looped: &Loop) -> Result<Parts, AllocError>
    requires { length looped.now.body < 2 ^ 32 }
    ensures { IfOk result (λ parts. IsOf looped.now parts) }
{
    let spots = spots(alloc, looped)?;
    let shape = shape(alloc, looped)?;
    let units = all_names(alloc, looped.body.as_slice())?;
    let scalars = carried_ids(alloc, looped)?;
    let written = written(alloc, looped, &spots)?;
    let carried = carried(alloc, looped, &spots, &shape)?;
    let locals = locals(alloc, looped.body.as_slice())?;
    Ok(Parts {
        units,
        scalars,
        written,
        carried,
        locals,
    })
}
