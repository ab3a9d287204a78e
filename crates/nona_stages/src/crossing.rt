//! The locals that cross from one stage to the next.

ghost use Rattle.std.specs.Prelude.{◌≡◌, ◌++◌, ◌∷◌, [], ◌&&◌, not, map, filter, IfOk, OnOk};
ghost use Rattle.std.specs.List.{list_any};
ghost use Rattle.nona_forms.specs.Affine.{among};
ghost use Rattle.nona_plans.specs.Plans.{crossing, links_of, units_of};
ghost use Rattle.nona_plans.specs.Units.{uses};
ghost use Rattle.nona_graph.specs.Facts.{IsOf};
ghost use Rattle.nona_stages.specs.Links.{does_cross};

use crate::waiting::is_among;
use nona_graph::{Parts, does_use};
use nona_plans::Local;
use nona_tree::{Loop, Stage};
use sqlite_items::Items;
use std::alloc::{AllocError, Global};

/// Whether one of some units uses a local.
#[tactic(auto, using(crate::proofs::Linking::uses_next))]
fn is_used_in(looped: &Loop, parts: &Parts, local: Local, units: &[u32]) -> bool
    requires { IsOf looped.now parts.now }
    ensures { result ≡ list_any (uses looped.now local) units.now }
{
    let mut found = false;
    for unit in units {
        let next = does_use(looped, parts, local, *unit);
        found = found || next;
    }
    found
}

/// Whether a local is never assigned, is declared in one list of units and is used in the other.
fn crosses(looped: &Loop, parts: &Parts, local: Local, earlier: &[u32], later: &[u32]) -> bool
    requires { IsOf looped.now parts.now }
    ensures { result ≡ does_cross looped.now earlier.now later.now local }
{
    !local.assigned && (is_among(local.unit, earlier) && is_used_in(looped, parts, local, later))
}

/// The ids of those of some locals that cross.
fn crossing_among(
    alloc: Global,
    looped: &Loop,
    parts: &Parts,
    locals: &[Local],
    earlier: &[u32],
    later: &[u32],
) -> Result<Items<u32>, AllocError>
    requires { IsOf looped.now parts.now }
    ensures { IfOk result (λ ids. ids ≡ map (λ v. v.id) (filter (does_cross looped.now earlier.now later.now) locals.now)) }
{
    let mut ids = Items::new(alloc);
    for local in locals {
        if crosses(looped, parts, *local, earlier, later) {
            ids.push(local.id)?;
        }
    }
    Ok(ids)
}

/// The ids of the never assigned locals that are declared in the one list of units and used in the other.
fn crossing(
    alloc: Global,
    looped: &Loop,
    parts: &Parts,
    earlier: &[u32],
    later: &[u32],
) -> Result<Items<u32>, AllocError>
    requires { IsOf looped.now parts.now }
    ensures { IfOk result (λ ids. ids ≡ crossing looped.now earlier.now later.now) }
{
    crossing_among(alloc, looped, parts, &parts.locals, earlier, later)
}

/// All units of these stages.
#[tactic(auto, using(crate::proofs::Linking::units_next))]
fn all_units(alloc: Global, stages: &[Stage]) -> Result<Items<u32>, AllocError>
    ensures { IfOk result (λ units. units ≡ units_of stages.now) }
{
    let mut units = Items::new(alloc);
    for stage in stages {
        add_units(alloc, stage, &mut units)?;
    }
    Ok(units)
}

/// Appends the locals that cross the link between earlier units and these stages.
fn push_link(
    alloc: Global,
    looped: &Loop,
    parts: &Parts,
    earlier: &[u32],
    stages: &[Stage],
    links: &mut Items<Items<u32>>,
) -> Result<(), AllocError>
    requires { IsOf looped.now parts.now }
    ensures { OnOk result (links.new ≡ links.old ++ crossing looped.now earlier.now (units_of stages.now) ∷ []) }
{
    let later = all_units(alloc, stages)?;
    let ids = crossing(alloc, looped, parts, earlier, later.as_slice())?;
    links.push(ids)?;
    Ok(())
}

/// Appends the units of a stage.
fn add_units(alloc: Global, stage: &Stage, units: &mut Items<u32>) -> Result<(), AllocError>
    ensures { OnOk result (units.new ≡ units.old ++ stage.now.units) }
{
    units.append(Items::from_slice(alloc, stage.units.as_slice())?)?;
    Ok(())
}

/// The locals that cross the link after each of these stages but the last. The one error is that memory ran out.
pub fn links(
    alloc: Global,
    looped: &Loop,
    parts: &Parts,
    stages: &[Stage],
) -> Result<Items<Items<u32>>, AllocError>
    requires { IsOf looped.now parts.now }
    ensures { IfOk result (λ links. links ≡ links_of looped.now stages.now) }
{
    let mut links = Items::new(alloc);
    let mut earlier = Items::new(alloc);
    for at in 1..stages.len() {
        add_units(alloc, &stages[at - 1], &mut earlier)?;
        push_link(
            alloc,
            looped,
            parts,
            earlier.as_slice(),
            &stages[at..],
            &mut links,
        )?;
    }
    Ok(links)
}
