//! The dependence graphs of loops.

use crate::programs::{checked_of, last_loop};
use nona_graph::{graph, ties};
use nona_plans::{Graph, Tie};
use nona_tree::Loop;
use std::alloc::{AllocError, Global};
use std::process::Abort;
use std::test::Fail;

/// Ties in a line: the two units of each, and whether it may be loop-carried.
fn ties_line(alloc: Global, ties: &[Tie]) -> Result<String, AllocError> {
    let mut shown = Vec::new(alloc);
    for tie in ties {
        shown.push((tie.first, tie.second, tie.carried))?;
    }
    format!(in alloc; "{shown:?}")
}

/// A graph in a line: how many units it has, its edges and its ties.
fn graph_line(alloc: Global, graph: &Graph) -> Result<String, AllocError> {
    let edges = graph.edges.as_slice();
    let ties = ties_line(alloc, graph.ties.as_slice())?;
    format!(in alloc; "{} {edges:?} {ties}", graph.units)
}

/// The graph of a loop, and its ties by themselves.
fn seen_of(rt: &impl Abort, alloc: Global, l: &Loop) -> Result<String, Fail> {
    let units = l.body.len();
    assert!(rt; units <= 64);
    let graph = graph_line(alloc, &graph(alloc, l)?)?;
    let ties = ties_line(alloc, &ties(alloc, l)?)?;
    Ok(format!(in alloc; "{graph}; {ties}")?)
}

/// Compares what is seen of the loop that comes last in a text.
fn compare(rt: &impl Abort, alloc: Global, text: &str, want: &str) -> Result<(), Fail> {
    let checked = checked_of(rt, alloc, text.as_bytes())?;
    let got = match last_loop(&checked) {
        None => String::new(alloc),
        Some(l) => seen_of(rt, alloc, l)?,
    };
    assert_eq!(rt; got.as_str(), want);
    Ok(())
}

#[test]
fn of_loops(rt: HostRuntime) -> Result<(), Fail> {
    for (text, want) in [
        (
            "array a[101]; for i in 0..10 { for j in 0..10 { a[10*i + j] = i; } }",
            "1 [] [(1, 1, false)]; [(1, 1, false)]",
        ),
        (
            "array a[101]; for i in 0..10 { for j in 0..11 { a[10*i + j] = i; } }",
            "1 [] [(1, 1, true)]; [(1, 1, true)]",
        ),
        (
            "array a[20]; for i in 0..9 { a[2*i] = a[2*i + 1]; }",
            "1 [] [(1, 1, false)]; [(1, 1, false)]",
        ),
        (
            "array a[20]; for i in 0..9 { a[i + 1] = a[i]; }",
            "1 [] [(1, 1, true)]; [(1, 1, true)]",
        ),
        (
            "array h[8]; var s; for i in 0..len(input) { let x = input[i]; let y = x*x + 1; h[wrap y] += 1; print y; s += y; }",
            "5 [(1, 2), (2, 3), (2, 4), (2, 5)] [(3, 3, true), (4, 4, true)]; [(3, 3, true), (4, 4, true)]",
        ),
    ] {
        compare(&rt, rt.alloc(), text, want)?;
    }
    Ok(())
}
