//! The plans of loops, and which loops are regions by them.

use crate::programs::{checked_of, last_loop};
use nona_stages::{Plain, Seen, plan, regions};
use nona_tree::{Plan, Stage};
use std::alloc::{AllocError, Global};
use std::process::Abort;
use std::test::Fail;

/// Appends a stage: its kind, and its units.
fn push_stage(alloc: Global, stage: &Stage, line: &mut String) -> Result<(), AllocError> {
    let kind = if stage.sequential { "S" } else { "P" };
    let units = stage.units.as_slice();
    let text = format!(in alloc; " {kind} {units:?}")?;
    line.push_str(&text)
}

/// A plan in a line: whether a task may take any turn whole, the stages, and after `by` the locals that cross each link.
fn plan_line(alloc: Global, plan: &Plan) -> Result<String, AllocError> {
    let mut line = String::from_str(alloc, if plan.any { "any yes" } else { "any no" })?;
    for stage in plan.pipe.as_slice() {
        push_stage(alloc, stage, &mut line)?;
    }
    for ids in plan.crossing.as_slice() {
        let ids = ids.as_slice();
        line.push_str(&format!(in alloc; " by {ids:?}")?)?;
    }
    Ok(line)
}

/// Why a loop is no region, in a word.
fn plain_word(why: Plain) -> &'static str {
    match why {
        Plain::Seq => "seq",
        Plain::Wild => "wild",
        Plain::Tied => "tied",
    }
}

/// What is seen of a loop, in a line: the place of its word `for`, and its number and plan, or why it is no region.
fn seen_line(alloc: Global, seen: &Seen) -> Result<String, AllocError> {
    match seen {
        Seen::Plain { at, why } => format!(in alloc; "{at} {}; ", plain_word(*why)),
        Seen::Region(region) => {
            let plan = plan_line(alloc, &region.plan)?;
            format!(in alloc; "{} is {}: {plan}; ", region.at, region.number)
        }
    }
}

/// What is seen of loops, one after another.
fn all_seen(alloc: Global, seen: &[Seen]) -> Result<String, AllocError> {
    let mut line = String::new(alloc);
    for one in seen {
        line.push_str(&seen_line(alloc, one)?)?;
    }
    Ok(line)
}

/// Compares what is seen of the loops of a text outside regions.
fn compare(rt: &impl Abort, alloc: Global, text: &str, want: &str) -> Result<(), Fail> {
    let checked = checked_of(rt, alloc, text.as_bytes())?;
    let got = all_seen(alloc, &regions(alloc, &checked)?)?;
    assert_eq!(rt; got.as_str(), want);
    Ok(())
}

/// Compares the plan of the loop that comes last in a text.
fn compare_plan(rt: &impl Abort, alloc: Global, text: &str, want: &str) -> Result<(), Fail> {
    let checked = checked_of(rt, alloc, text.as_bytes())?;
    let got = match last_loop(&checked) {
        None => String::new(alloc),
        Some(l) => {
            let units = l.body.len();
            assert!(rt; units <= 64);
            plan_line(alloc, &plan(alloc, l)?)?
        }
    };
    assert_eq!(rt; got.as_str(), want);
    Ok(())
}

#[test]
fn of_loops_outside_regions(rt: HostRuntime) -> Result<(), Fail> {
    for (text, want) in [
        (
            "array a[4]; for i in 0..2 { a[i*4294967296] = 1; }",
            "12 wild; ",
        ),
        (
            "array a[101]; for i in 0..10 { for j in 0..10 { a[10*i + j] = i; } }",
            "14 is 1: any yes S [] P [1] by []; ",
        ),
        (
            "array a[101]; for i in 0..10 { for j in 0..11 { a[10*i + j] = i; } }",
            "14 tied; 31 is 1: any yes S [] P [1] by []; ",
        ),
        (
            "array a[20]; for i in 0..9 { a[2*i] = a[2*i + 1]; }",
            "13 is 1: any yes S [] P [1] by []; ",
        ),
        (
            "array a[20]; for i in 0..9 { a[i + 1] = a[i]; }",
            "13 tied; ",
        ),
        (
            "array a[20]; seq for i in 0..9 { for j in 0..9 { a[j] = i; } for j in 0..9 { a[j] += i; } }",
            "17 seq; 33 is 1: any yes S [] P [1] by []; 61 is 2: any yes S [] P [1] by []; ",
        ),
        (
            "array h[8]; var s; for i in 0..len(input) { let x = input[i]; let y = x*x + 1; h[wrap y] += 1; print y; s += y; }",
            "19 is 1: any no S [] P [1, 2, 5] S [3, 4] by [] by [3]; ",
        ),
    ] {
        compare(&rt, rt.alloc(), text, want)?;
    }
    Ok(())
}

#[test]
fn of_loops(rt: HostRuntime) -> Result<(), Fail> {
    for (text, want) in [
        (
            "array a[20]; seq for i in 0..9 { a[2*i] = a[2*i + 1]; }",
            "any yes S [] P [1] by []",
        ),
        ("array a[20]; for i in 0..9 { a[i + 1] = a[i]; }", "any no"),
    ] {
        compare_plan(&rt, rt.alloc(), text, want)?;
    }
    Ok(())
}
