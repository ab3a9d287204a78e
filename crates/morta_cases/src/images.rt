//! The regions of programs.

use crate::programs::checked_of;
use nona_gen::compile;
use std::test::Fail;

/// Loops in every kind of block: the places of their words `for` are 4, 20, 36, 64, 100 and 121.
const NEST: &[u8] =
    b"seq for i in 0..1 { for j in 0..1 { for k in 0..1 {} } } if 1 { for i in 0..1 {} } else { while 0 { for i in 0..1 {} } } for i in 0..1 {}";

/// Loops whose plans have no version around loops whose plans have one, and the other way round: the places of their words `for`
/// are 12, 37, 67, 93, 125 and 161. The first loop prints, and writes the same cells in each iteration; the second has a `while`;
/// the third prints what another stage has computed.
const PLANS: &[u8] =
    b"array a[4]; for i in 0..2 { print i; for j in 0..2 { a[j] = j; } } for i in 0..2 { while 0 { for k in 0..2 { a[k] = k; } } } for i in 0..2 { let x = i; print x; for j in 0..2 { a[j] = j; } }";

#[test]
fn regions_stand_outside_of_regions(rt: HostRuntime) -> Result<(), Fail> {
    let checked = checked_of(&rt, rt.alloc(), NEST)?;
    let image = compile(rt.alloc(), &checked)?;
    assert_eq!(rt; image.places(), [20u32, 64, 100, 121].as_slice());
    Ok(())
}

#[test]
fn regions_are_loops_whose_plans_have_a_version(rt: HostRuntime) -> Result<(), Fail> {
    let checked = checked_of(&rt, rt.alloc(), PLANS)?;
    let image = compile(rt.alloc(), &checked)?;
    assert_eq!(rt; image.places(), [37u32, 93, 125].as_slice());
    Ok(())
}
