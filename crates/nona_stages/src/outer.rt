//! The regions of a program by the plans of its loops.

ghost use Rattle.std.specs.Prelude.{◌≡◌, ◌+◌, ◌<◌, ◌≤◌, ◌^◌, ◌++◌, ◌∷◌, [], map, length, IfOk, OnOk, IsTrue};
ghost use Rattle.nona_tree.specs.Entries.{may_reshape};
ghost use Rattle.nona_stages.specs.Seen.{has_version, is_parallel, outer_in, outer_all, plain_of, seen_of, regions_of};
ghost use Rattle.nona_stages.specs.Walking.{AreFew, IsFew, found_of, mark_of, number_after, seen_at, seen_marked};

use crate::planning::plan;
use crate::seen::{Plain, Region, Seen};
use nona_graph::calm;
use nona_tree::{Checked, Loop, Plan, Stmt, regions_keep};
use std::alloc::{AllocError, Global};

/// What is found of a loop outside regions.
#[derive(Debug, Drop)]
pub enum Found {
    /// It is a region with this plan.
    Parallel(Plan),
    /// It is none.
    Plain(Plain),
}

/// What is kept of a loop outside regions.
#[derive(Debug, Drop)]
pub struct Mark {
    /// The place of its word `for`.
    pub at: u32,
    pub found: Found,
}

/// Whether a plan has a version beside `seq`.
fn has_version(plan: &Plan) -> bool
    ensures { result ≡ has_version plan.now }
{
    plan.any || !plan.pipe.is_empty()
}

/// Why a loop is no region that isn't written `seq for`.
fn why_plain(alloc: Global, looped: &Loop) -> Result<Plain, AllocError>
    requires { IsTrue (may_reshape looped.now) }
    ensures { IfOk result (λ why. why ≡ plain_of looped.now) }
{
    if calm(alloc, looped)? {
        Ok(Plain::Tied)
    } else {
        Ok(Plain::Wild)
    }
}

/// What is found of a loop that isn't written `seq for`, by its plan.
fn find_planned(alloc: Global, looped: &Loop) -> Result<Found, AllocError>
    requires few { length looped.now.body ≤ 64 }
    requires reshaped { IsTrue (may_reshape looped.now) }
    ensures { IfOk result (λ found. found ≡ found_of looped.now) }
{
    let plan = plan(alloc, looped)?;
    if has_version(&plan) {
        Ok(Found::Parallel(plan))
    } else {
        Ok(Found::Plain(why_plain(alloc, looped)?))
    }
}

/// What is found of a loop: its plan is made where it isn't written `seq for`.
fn find(alloc: Global, looped: &Loop) -> Result<Found, AllocError>
    requires { IsFew looped.now }
    ensures { IfOk result (λ found. found ≡ found_of looped.now) }
{
    if looped.may_reshape() {
        find_planned(alloc, looped)
    } else {
        Ok(Found::Plain(Plain::Seq))
    }
}

/// Adds the mark of a loop behind those that are there, and tells whether it is a region.
fn mark_loop(alloc: Global, looped: &Loop, marks: &mut Vec<Mark>) -> Result<bool, AllocError>
    requires { IsFew looped.now }
    ensures region { IfOk result (λ region. region ≡ is_parallel looped.now) }
    ensures marks { OnOk result (marks.new.items ≡ marks.old.items ++ mark_of looped.now ∷ []) }
{
    let found = find(alloc, looped)?;
    let region = matches!(found, Found::Parallel(_));
    marks.push(Mark {
        at: looped.at,
        found,
    })?;
    Ok(region)
}

/// Adds the marks of the loops in statements that stand outside regions behind those that are there, in text order.
#[cycle(outer)]
fn add_all(body: &[Stmt], alloc: Global, marks: &mut Vec<Mark>) -> Result<(), AllocError>
    requires { AreFew (outer_all is_parallel body.now) }
    ensures { OnOk result (marks.new.items ≡ marks.old.items ++ map mark_of (outer_all is_parallel body.now)) }
{
    for stmt in body {
        add(stmt, alloc, marks)?;
    }
    Ok(())
}

/// Adds the marks of the loops in a statement: of none inside a region, and of those in all blocks of another statement.
#[cycle(outer)]
fn add(stmt: &Stmt, alloc: Global, marks: &mut Vec<Mark>) -> Result<(), AllocError>
    requires { AreFew (outer_in is_parallel stmt.now) }
    ensures { OnOk result (marks.new.items ≡ marks.old.items ++ map mark_of (outer_in is_parallel stmt.now)) }
{
    match stmt {
        Stmt::If { test: _, yes, no } => {
            add_all(yes.as_slice(), alloc, marks)?;
            add_all(no.as_slice(), alloc, marks)
        }
        Stmt::While {
            test: _,
            body,
            at: _,
        } => add_all(body.as_slice(), alloc, marks),
        Stmt::For(looped) => {
            let region = mark_loop(alloc, looped, marks)?;
            if region {
                return Ok(());
            }
            add_all(looped.body.as_slice(), alloc, marks)
        }
        _ => Ok(()),
    }
}

/// What is seen of a marked loop, which has this number if it is a region, and the number of the next region.
fn numbered(mark: Mark, number: u32) -> (Seen, u32)
    requires { number_after number mark.found < 2 ^ 32 }
    ensures seen { result.0 ≡ seen_at number mark.at mark.found }
    ensures next { result.1 ≡ number_after number mark.found }
{
    let Mark { at, found } = mark;
    match found {
        Found::Parallel(plan) => (Seen::Region(Region { number, at, plan }), number + 1),
        Found::Plain(why) => (Seen::Plain { at, why }, number),
    }
}

/// What is seen of marked loops: the regions among them are numbered from 1 on.
fn seen_by(alloc: Global, marks: Vec<Mark>) -> Result<Vec<Seen>, AllocError>
    requires { length (regions_of (seen_marked 1 marks.items)) + 1 < 2 ^ 32 }
    ensures { IfOk result (λ seen. seen.items ≡ seen_marked 1 marks.items) }
{
    let mut all = Vec::new(alloc);
    let mut number = 1;
    for mark in marks {
        let (one, next) = numbered(mark, number);
        all.push(one)?;
        number = next;
    }
    Ok(all)
}

/// What is seen of the loops of a program, in text order: from outside in, each loop that isn't written `seq for` and whose plan
/// has a version beside `seq` is a region, and one looks for further loops inside each that is none. The plan of each loop outside
/// regions that isn't written `seq for` is made once, and where it has no such version, `calm` is asked once more; no loop inside a
/// region is looked at. All else takes time and memory in proportion to the program. It is refused for want of memory alone.
pub fn regions(alloc: Global, program: &Checked) -> Result<Vec<Seen>, AllocError>
    ensures { IfOk result (λ seen. seen.items ≡ seen_of program.now) }
{
    regions_keep();
    let mut marks = Vec::new(alloc);
    add_all(program.program().body.as_slice(), alloc, &mut marks)?;
    seen_by(alloc, marks)
}
