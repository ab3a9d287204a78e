//! The ties between the units of a loop.

ghost use Rattle.std.specs.Prelude.{◌≡◌, ◌<◌, ◌≤◌, ◌^◌, ◌++◌, ◌&&◌, ◌||◌, ◌==◌, nat_le, if◌then◌else◌};
ghost use Rattle.std.specs.Prelude.{ℕ, List, [], length, IfOk, OnOk};
ghost use Rattle.std.specs.List.{list_any};
ghost use Rattle.nona_forms.specs.Affine.{among};
ghost use Rattle.nona_plans.specs.Units.{carried_arrays, carried_scalars, is_carried, is_tied, tie_of, ties_of};
ghost use Rattle.nona_plans.specs.Units.{both_have, named_in, arrays_in, share_local, unit_has, unit_prints, uses, written_arrays};
ghost use Rattle.nona_plans.specs.Walks.{IsUnit};
ghost use Rattle.nona_graph.specs.Facts.{HaveSame, IsOf, joins, names_at, ties_from};

use crate::lists::{IdList, share};
use crate::parts::{Parts, UnitNames, parts_of};
use nona_affine::Ids;
use nona_plans::{Local, Tie};
use nona_tree::Loop;
use std::alloc::{AllocError, Global};

/// Whether one of some units names a scalar.
fn scalars_have(units: &[UnitNames], at: usize, id: u32) -> bool
    requires { at < length units.now }
    ensures { result ≡ among id (names_at units.now at).scalars }
{
    units[at].scalars.has(id)
}

/// Whether one of some units prints.
fn prints_there(units: &[UnitNames], at: usize) -> bool
    requires { at < length units.now }
    ensures { result ≡ (names_at units.now at).prints }
{
    units[at].prints
}

/// The scalars that one of some units names.
fn scalars_of(units: &[UnitNames], at: usize) -> &IdList
    requires { at < length units.now }
    ensures { result.now ≡ (names_at units.now at).scalars }
{
    &units[at].scalars
}

/// The arrays of which one of some units has a cell.
fn arrays_of(units: &[UnitNames], at: usize) -> &IdList
    requires { at < length units.now }
    ensures { result.now ≡ (names_at units.now at).arrays }
{
    &units[at].arrays
}

/// Whether two of some units name one of these scalars.
fn scalars_meet(kept: &Ids, units: &[UnitNames], one: usize, other: usize) -> bool
    requires one { one < length units.now }
    requires other { other < length units.now }
    ensures { (ids : List ℕ) → HaveSame kept.now ids
        → result ≡ list_any (λ id. among id (names_at units.now one).scalars && among id (names_at units.now other).scalars) ids }
{
    share(kept, scalars_of(units, one), scalars_of(units, other))
}

/// Whether two of some units have cells of one of these arrays.
fn arrays_meet(kept: &Ids, units: &[UnitNames], one: usize, other: usize) -> bool
    requires one { one < length units.now }
    requires other { other < length units.now }
    ensures { (ids : List ℕ) → HaveSame kept.now ids
        → result ≡ list_any (λ id. among id (names_at units.now one).arrays && among id (names_at units.now other).arrays) ids }
{
    share(kept, arrays_of(units, one), arrays_of(units, other))
}

/// Whether a unit names a scalar.
fn does_name(looped: &Loop, parts: &Parts, unit: u32, id: u32) -> bool
    requires parts { IsOf looped.now parts.now }
    requires unit { 1 ≤ unit }
    ensures { result ≡ unit_has named_in looped.now unit id }
{
    let at = (unit - 1) as usize;
    if at < parts.units.len() {
        scalars_have(&parts.units, at, id)
    } else {
        false
    }
}

/// Whether a unit behind a local's `let` names it.
pub fn does_use(looped: &Loop, parts: &Parts, local: Local, unit: u32) -> bool
    requires { IsOf looped.now parts.now }
    ensures { result ≡ uses looped.now local unit }
{
    local.unit < unit && does_name(looped, parts, unit, local.id)
}

/// Whether a unit declares a local or uses it.
fn has_local(looped: &Loop, parts: &Parts, local: Local, unit: u32) -> bool
    requires { IsOf looped.now parts.now }
    ensures { result ≡ ((unit == local.unit) || uses looped.now local unit) }
{
    unit == local.unit || does_use(looped, parts, local, unit)
}

/// Whether a local is assigned and two units have it.
fn is_shared(looped: &Loop, parts: &Parts, local: Local, u: u32, v: u32) -> bool
    requires { IsOf looped.now parts.now }
    ensures { result ≡ joins looped.now u v local }
{
    local.assigned && (has_local(looped, parts, local, u) && has_local(looped, parts, local, v))
}

/// Whether two units share one of some locals that is assigned.
#[tactic(auto, using(crate::proofs::TieSteps::joins_next))]
fn share_some(looped: &Loop, parts: &Parts, locals: &[Local], u: u32, v: u32) -> bool
    requires { IsOf looped.now parts.now }
    ensures { result ≡ list_any (joins looped.now u v) locals.now }
{
    let mut found = false;
    for local in locals {
        let next = is_shared(looped, parts, *local, u, v);
        found = found || next;
    }
    found
}

/// Whether two units share a local of the top that is assigned.
fn share_local(looped: &Loop, parts: &Parts, u: u32, v: u32) -> bool
    requires { IsOf looped.now parts.now }
    ensures { result ≡ share_local looped.now u v }
{
    share_some(looped, parts, &parts.locals, u, v)
}

/// Whether two units name one of the scalars by which iterations depend on one another.
fn share_scalars(looped: &Loop, parts: &Parts, u: u32, v: u32) -> bool
    requires parts { IsOf looped.now parts.now }
    requires u { IsUnit (length looped.now.body) u }
    requires v { IsUnit (length looped.now.body) v }
    ensures { result ≡ both_have named_in looped.now u v (carried_scalars looped.now) }
{
    scalars_meet(
        &parts.scalars,
        &parts.units,
        (u - 1) as usize,
        (v - 1) as usize,
    )
}

/// Whether two units have cells of one of the arrays by which iterations depend on one another.
fn share_carried(looped: &Loop, parts: &Parts, u: u32, v: u32) -> bool
    requires parts { IsOf looped.now parts.now }
    requires u { IsUnit (length looped.now.body) u }
    requires v { IsUnit (length looped.now.body) v }
    ensures { result ≡ both_have arrays_in looped.now u v (carried_arrays [] looped.now) }
{
    arrays_meet(
        &parts.carried,
        &parts.units,
        (u - 1) as usize,
        (v - 1) as usize,
    )
}

/// Whether two units have cells of one of the arrays that the loop writes.
fn share_written(looped: &Loop, parts: &Parts, u: u32, v: u32) -> bool
    requires parts { IsOf looped.now parts.now }
    requires u { IsUnit (length looped.now.body) u }
    requires v { IsUnit (length looped.now.body) v }
    ensures { result ≡ both_have arrays_in looped.now u v (written_arrays [] looped.now) }
{
    arrays_meet(
        &parts.written,
        &parts.units,
        (u - 1) as usize,
        (v - 1) as usize,
    )
}

/// Whether a unit prints.
fn does_print(looped: &Loop, parts: &Parts, unit: u32) -> bool
    requires parts { IsOf looped.now parts.now }
    requires unit { IsUnit (length looped.now.body) unit }
    ensures { result ≡ unit_prints looped.now unit }
{
    prints_there(&parts.units, (unit - 1) as usize)
}

/// Whether a dependence between two units may be loop-carried.
fn is_carried(looped: &Loop, parts: &Parts, u: u32, v: u32) -> bool
    requires parts { IsOf looped.now parts.now }
    requires u { IsUnit (length looped.now.body) u }
    requires v { IsUnit (length looped.now.body) v }
    ensures { result ≡ is_carried [] looped.now u v }
{
    share_scalars(looped, parts, u, v)
        || (share_carried(looped, parts, u, v)
            || (does_print(looped, parts, u) && does_print(looped, parts, v)))
}

/// Whether two units of which it is known whether a dependence between them may be loop-carried are tied.
fn is_tied(looped: &Loop, parts: &Parts, u: u32, v: u32, carried: bool) -> bool
    requires parts { IsOf looped.now parts.now }
    requires u { IsUnit (length looped.now.body) u }
    requires v { IsUnit (length looped.now.body) v }
    requires carried { carried ≡ is_carried [] looped.now u v }
    ensures { result ≡ is_tied [] looped.now u v }
{
    carried || (share_written(looped, parts, u, v) || share_local(looped, parts, u, v))
}

/// Appends the tie of two units, if they are tied.
fn push_if_tied(
    looped: &Loop,
    parts: &Parts,
    u: u32,
    v: u32,
    ties: &mut Vec<Tie>,
) -> Result<(), AllocError>
    requires parts { IsOf looped.now parts.now }
    requires u { IsUnit (length looped.now.body) u }
    requires v { IsUnit (length looped.now.body) v }
    ensures { OnOk result (ties.new.items ≡ ties.old.items ++ tie_of [] looped.now u v) }
{
    let carried = is_carried(looped, parts, u, v);
    if is_tied(looped, parts, u, v, carried) {
        ties.push(Tie {
            first: u,
            second: v,
            carried,
        })?;
        Ok(())
    } else {
        Ok(())
    }
}

/// Appends the tie of two units, if they are tied and the first one doesn't stand behind the second.
#[tactic(auto, using(crate::proofs::TieSteps::tie_here, crate::proofs::TieSteps::tie_none))]
fn push_tie(
    looped: &Loop,
    parts: &Parts,
    u: u32,
    v: u32,
    ties: &mut Vec<Tie>,
) -> Result<(), AllocError>
    requires parts { IsOf looped.now parts.now }
    requires u { IsUnit (length looped.now.body) u }
    requires v { IsUnit (length looped.now.body) v }
    ensures { OnOk result (ties.new.items ≡ ties.old.items ++ (if nat_le u v then tie_of [] looped.now u v else [])) }
{
    if u <= v {
        push_if_tied(looped, parts, u, v, ties)
    } else {
        Ok(())
    }
}

/// Appends the ties of a unit with itself and with those behind it.
fn push_ties(looped: &Loop, parts: &Parts, u: u32, ties: &mut Vec<Tie>) -> Result<(), AllocError>
    requires parts { IsOf looped.now parts.now }
    requires few { length looped.now.body < 2 ^ 32 }
    requires u { IsUnit (length looped.now.body) u }
    ensures { OnOk result (ties.new.items ≡ ties.old.items ++ ties_from looped.now u) }
{
    let count = looped.body.len() as u32;
    for v in 0..count {
        push_tie(looped, parts, u, v + 1, ties)?;
    }
    Ok(())
}

/// The ties of a loop of whose units this is known. The one error is that memory ran out.
#[tactic(auto, using(crate::proofs::TieSteps::all_ties_next))]
pub fn ties_by(alloc: Global, looped: &Loop, parts: &Parts) -> Result<Vec<Tie>, AllocError>
    requires parts { IsOf looped.now parts.now }
    requires few { length looped.now.body < 2 ^ 32 }
    ensures { IfOk result (λ ties. ties.items ≡ ties_of looped.now) }
{
    let count = looped.body.len() as u32;
    let mut ties = Vec::new(alloc);
    for u in 0..count {
        push_ties(looped, parts, u + 1, &mut ties)?;
    }
    Ok(ties)
}

/// The ties between the units of a loop, which are the statements at the top of its body: by the lesser unit and then by the
/// greater, each pair once. Takes a time quadratic in the units and in the loop's accesses. The one error is that memory ran out.
pub fn ties(alloc: Global, looped: &Loop) -> Result<Vec<Tie>, AllocError>
    requires { length looped.now.body < 2 ^ 32 }
    ensures { IfOk result (λ ties. ties.items ≡ ties_of looped.now) }
{
    let parts = parts_of(alloc, looped)?;
    ties_by(alloc, looped, &parts)
}
