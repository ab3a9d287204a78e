//! The accesses of loops in text order.

use crate::programs::{checked_of, last_loop, shown};
use nona_affine::spots;
use nona_forms::Spot;
use std::alloc::{AllocError, Global};
use std::process::Abort;
use std::test::Fail;

/// What is seen of an access, in a line.
fn line_of(alloc: Global, spot: &Spot) -> Result<String, AllocError> {
    let kind = if spot.write { "writes" } else { "reads" };
    let wrap = if spot.wrap { " wrapped" } else { "" };
    let form = shown(alloc, spot.form.as_ref())?;
    let mut inner = Vec::new(alloc);
    for l in spot.inner.as_slice() {
        inner.push(l.id)?;
    }
    format!(in alloc;
        "{kind} {} at {}{wrap}: {form} in {inner:?}",
        spot.array, spot.at
    )
}

/// The accesses of the loop that comes last in a text.
fn spots_of(rt: &impl Abort, alloc: Global, text: &[u8]) -> Result<Vec<Spot>, Fail> {
    let checked = checked_of(rt, alloc, text)?;
    match last_loop(&checked) {
        None => Ok(Vec::new(alloc)),
        Some(l) => Ok(spots(alloc, l)?),
    }
}

fn compare(rt: &impl Abort, alloc: Global, text: &str, want: &[&str]) -> Result<(), Fail> {
    let spots = spots_of(rt, alloc, text.as_bytes())?;
    assert_eq!(rt; spots.len(), want.len());
    for (spot, line) in spots.iter().zip(want) {
        let got = line_of(alloc, spot)?;
        assert_eq!(rt; got.as_str(), *line);
    }
    Ok(())
}

#[test]
fn of_two_programs(rt: HostRuntime) -> Result<(), Fail> {
    let alloc = rt.alloc();
    compare(
        &rt,
        alloc,
        "array a[20]; for i in 0..9 { a[2*i] = a[2*i + 1]; }",
        &[
            "writes 1 at 29: 0 [(0, 2)] in []",
            "reads 1 at 38: 1 [(0, 2)] in []",
        ],
    )?;
    compare(
        &rt,
        alloc,
        "array a[20]; for i in 0..9 { a[i + 1] = a[i]; }",
        &[
            "writes 1 at 29: 1 [(0, 1)] in []",
            "reads 1 at 40: 0 [(0, 1)] in []",
        ],
    )
}

#[test]
fn of_every_statement(rt: HostRuntime) -> Result<(), Fail> {
    let text = "var x; var y; array a[9]; array b[9]; \
        for i in 0..9 { let t = a[0]; x = a[1]; x += a[2]; a[b[i]] += a[3]; \
        if a[4] { print a[5]; } else { b[wrap x] = 1; } \
        for j in 0..a[6] { for k in j..3 { b[k - i] = len(a); } } while a[7] { a[y] = !a[8]; } }";
    compare(
        &rt,
        rt.alloc(),
        text,
        &[
            "reads 1 at 62: 0 [] in []",
            "reads 1 at 72: 1 [] in []",
            "reads 1 at 83: 2 [] in []",
            "writes 1 at 89: none in []",
            "reads 2 at 91: 0 [(2, 1)] in []",
            "reads 1 at 100: 3 [] in []",
            "reads 1 at 109: 4 [] in []",
            "reads 1 at 122: 5 [] in []",
            "writes 2 at 137 wrapped: none in []",
            "reads 1 at 166: 6 [] in []",
            "writes 2 at 189: 0 [(2, -1), (5, 1)] in [4, 5]",
            "reads 1 at 218: 7 [] in []",
            "writes 1 at 225: 0 [(1, 1)] in []",
            "reads 1 at 233: 8 [] in []",
        ],
    )
}
