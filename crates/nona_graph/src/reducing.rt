//! The reductions of a loop, and the scalars by which its iterations depend on one another.

ghost use Rattle.std.specs.Prelude.{◌≡◌, ◌<◌, ◌==◌, ◌++◌, ℕ, [], if◌then◌else◌, nat_lt, not, ◌&&◌, is_some, length, IfOk, OnOk};
ghost use Rattle.nona_forms.specs.References.{assigned_all};
ghost use Rattle.nona_plans.specs.Mentions.{is_fold, same_fold, mentions_all, reduction_of};
ghost use Rattle.nona_plans.specs.Units.{carried_scalars, reductions_of, with_fold};
ghost use Rattle.nona_graph.specs.Uses.{joined_by, use_after, use_at, use_of, ShowUses};

use crate::mentioning::push_all_mentions;
use nona_affine::push_all_assigned;
use nona_num::Fold;
use nona_plans::Mention;
use nona_tree::Loop;
use std::alloc::{AllocError, Global};

/// How a scalar is named.
#[derive(Clone, Copy, Debug)]
pub struct Usage {
    /// Whether it is named at all.
    named: bool,
    /// The fold, where each place that names it is the left side of an assignment by it.
    by: Option<Fold>,
}

/// Whether two folds are the same.
fn is_same(one: Fold, other: Fold) -> bool
    ensures { result ≡ same_fold one other }
{
    match one {
        Fold::Add => matches!(other, Fold::Add),
        Fold::Mul => matches!(other, Fold::Mul),
        Fold::And => matches!(other, Fold::And),
        Fold::Or => matches!(other, Fold::Or),
        Fold::Xor => matches!(other, Fold::Xor),
        Fold::Min => matches!(other, Fold::Min),
        Fold::Max => matches!(other, Fold::Max),
    }
}

/// Whether a place is the left side of an assignment by a fold.
fn is_by(fold: Fold, by: Option<Fold>) -> bool
    ensures { result ≡ is_fold fold by }
{
    match by {
        None => false,
        Some(other) => is_same(fold, other),
    }
}

/// The fold of places by one, if there is one, and of one place more.
fn joined(fold: Option<Fold>, by: Option<Fold>) -> Option<Fold>
    ensures { result ≡ joined_by fold by }
{
    match fold {
        None => None,
        Some(fold) => { if is_by(fold, by) { Some(fold) } else { None } }
    }
}

/// How a scalar is named, with one place more.
fn after(usage: Usage, by: Option<Fold>) -> Usage
    ensures { result ≡ use_after usage by }
{
    if usage.named {
        Usage {
            named: true,
            by: joined(usage.by, by),
        }
    } else {
        Usage { named: true, by }
    }
}

/// Notes a place that names a scalar, where the scalar is one of these.
fn note(uses: &mut [Usage], mention: Mention)
    ensures size { length uses.new ≡ length uses.old }
    ensures uses { (id : ℕ) → id < length uses.old
        → use_at uses.new id ≡ (if mention.id == id then use_after (use_at uses.old id) mention.by else use_at uses.old id) }
{
    let at = mention.id as usize;
    if at < uses.len() {
        uses[at] = after(uses[at], mention.by);
    }
}

/// Notes places that name scalars, of which none was noted before.
fn note_all(uses: &mut [Usage], mentions: &[Mention])
    ensures size { length uses.new ≡ length uses.old }
    ensures uses { ShowUses [] uses.old → ShowUses mentions.now uses.new }
{
    for mention in mentions {
        note(uses, *mention);
    }
}

/// So many scalars of which none is named.
fn unused(alloc: Global, count: u32) -> Result<Vec<Usage>, AllocError>
    ensures size { IfOk result (λ uses. length uses.items ≡ count) }
    ensures uses { IfOk result (λ uses. ShowUses [] uses.items) }
{
    let mut uses = Vec::new(alloc);
    for _at in 0..count {
        uses.push(Usage {
            named: false,
            by: None,
        })?;
    }
    Ok(uses)
}

/// How the body of a loop names each scalar that is declared before the loop. The one error is that memory ran out.
pub fn uses(alloc: Global, looped: &Loop) -> Result<Vec<Usage>, AllocError>
    ensures size { IfOk result (λ uses. length uses.items ≡ looped.now.index.id) }
    ensures uses { IfOk result (λ uses. ShowUses (mentions_all looped.now.body) uses.items) }
{
    let mut mentions = Vec::new(alloc);
    push_all_mentions(looped.body.as_slice(), &mut mentions)?;
    let mut uses = unused(alloc, looped.index.id)?;
    note_all(&mut uses, &mentions);
    Ok(uses)
}

/// Appends a scalar with its fold, if it has one.
fn push_reduction(id: u32, by: Option<Fold>, found: &mut Vec<(u32, Fold)>) -> Result<(), AllocError>
    ensures { OnOk result (found.new.items ≡ found.old.items ++ with_fold id by) }
{
    match by {
        None => Ok(()),
        Some(fold) => {
            found.push((id, fold))?;
            Ok(())
        }
    }
}

/// The reductions of a loop where it is known how its body names scalars.
fn reductions_by(
    alloc: Global,
    looped: &Loop,
    uses: &[Usage],
) -> Result<Vec<(u32, Fold)>, AllocError>
    requires size { length uses.now ≡ looped.now.index.id }
    requires uses { ShowUses (mentions_all looped.now.body) uses.now }
    ensures { IfOk result (λ found. found.items ≡ reductions_of looped.now) }
{
    let mut found = Vec::new(alloc);
    for id in 0..looped.index.id {
        push_reduction(id, uses[id as usize].by, &mut found)?;
    }
    Ok(found)
}

/// The reductions of a loop in order of id, each with its fold: the scalars declared before the loop that its body names as the
/// left side of an assignment by that fold alone. Takes a time linear in the body and in the scalars that are declared before
/// the loop. The one error is that memory ran out.
pub fn reductions(alloc: Global, looped: &Loop) -> Result<Vec<(u32, Fold)>, AllocError>
    ensures { IfOk result (λ found. found.items ≡ reductions_of looped.now) }
{
    let uses = uses(alloc, looped)?;
    reductions_by(alloc, looped, &uses)
}

/// Whether a scalar is declared before a loop and is no reduction of it.
fn is_carried(looped: &Loop, uses: &[Usage], id: u32) -> bool
    requires size { length uses.now ≡ looped.now.index.id }
    requires uses { ShowUses (mentions_all looped.now.body) uses.now }
    ensures { result ≡ (nat_lt id looped.now.index.id && not (is_some (reduction_of looped.now id))) }
{
    id < looped.index.id && uses[id as usize].by.is_none()
}

/// Those of some scalars that are declared before a loop and are no reductions of it.
fn carried_among(
    alloc: Global,
    looped: &Loop,
    uses: &[Usage],
    assigned: &[u32],
) -> Result<Vec<u32>, AllocError>
    requires size { length uses.now ≡ looped.now.index.id }
    requires uses { ShowUses (mentions_all looped.now.body) uses.now }
    requires assigned { assigned.now ≡ assigned_all looped.now.body }
    ensures { IfOk result (λ ids. ids.items ≡ carried_scalars looped.now) }
{
    let mut ids = Vec::new(alloc);
    for id in assigned {
        if is_carried(looped, uses, *id) {
            ids.push(*id)?;
        }
    }
    Ok(ids)
}

/// The scalars that are declared before a loop and that its body assigns, without the reductions. The one error is that memory
/// ran out.
pub fn carried_scalars(alloc: Global, looped: &Loop) -> Result<Vec<u32>, AllocError>
    ensures { IfOk result (λ ids. ids.items ≡ carried_scalars looped.now) }
{
    let uses = uses(alloc, looped)?;
    let mut assigned = Vec::new(alloc);
    push_all_assigned(looped.body.as_slice(), &mut assigned)?;
    carried_among(alloc, looped, &uses, &assigned)
}
