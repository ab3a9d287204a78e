//! Reports on loops as they are seen of programs that are written out here.

use crate::report::send_report;
use fate_io::{MemorySink, SendFault};
use nona_stages::{Plain, Region, Seen};
use nona_tree::{Plan, Stage};
use sqlite_items::Items;
use std::alloc::{AllocError, Global};
use std::test::Fail;

/// A region whose pipeline has these stages, each of them sequential or not, and its units.
fn region(
    alloc: Global,
    number: u32,
    at: u32,
    any: bool,
    stages: &[(bool, &[u32])],
) -> Result<Seen, AllocError> {
    let mut pipe = Items::new(alloc);
    for (sequential, units) in stages {
        pipe.push(Stage {
            sequential: *sequential,
            units: Items::from_slice(alloc, units)?,
        })?;
    }
    let crossing = Items::new(alloc);
    let plan = Plan {
        any,
        pipe,
        crossing,
    };
    Ok(Seen::Region(Region { number, at, plan }))
}

/// The stages of a loop of one statement without a tie.
const ALONE: [(bool, &[u32]); 2] = [(true, &[]), (false, &[1])];

/// What a report writes on a sink that fails at the put of this number, and at 0 at none, and how it ends.
fn report(
    alloc: Global,
    seen: &[Seen],
    put: u64,
) -> Result<(MemorySink, Result<(), SendFault>), AllocError> {
    let mut out = MemorySink::new(alloc, 1024, Vec::from_slice(alloc, &[put])?)?;
    let sent = send_report(alloc, seen, &mut out);
    Ok((out, sent))
}

#[test]
fn of_a_program_without_loops(rt: HostRuntime) -> Result<(), Fail> {
    let (out, sent) = report(rt.alloc(), &[], 0)?;
    assert_eq!(rt; sent, Ok(()));
    assert_eq!(rt; out.text(), "ok\n".as_bytes());
    Ok(())
}

#[test]
fn of_each_kind_of_loop(rt: HostRuntime) -> Result<(), Fail> {
    let alloc = rt.alloc();
    let mut seen = Vec::new(alloc);
    // array h[8]; var s; for i in 0..len(input) { let x = input[i]; let y = x*x + 1; h[wrap y] += 1; print y; s += y; }
    seen.push(region(
        alloc,
        1,
        19,
        false,
        &[(true, &[]), (false, &[1, 2, 5]), (true, &[3, 4])],
    )?)?;
    // array a[101]; for i in 0..10 { for j in 0..11 { a[10*i + j] = i; } }
    seen.push(Seen::Plain {
        at: 14,
        why: Plain::Tied,
    })?;
    seen.push(region(alloc, 2, 31, true, &ALONE)?)?;
    // array a[4]; for i in 0..2 { a[i*4294967296] = 1; }
    seen.push(Seen::Plain {
        at: 12,
        why: Plain::Wild,
    })?;
    seen.push(Seen::Plain {
        at: 11,
        why: Plain::Seq,
    })?;
    seen.push(region(alloc, 3, 4294967295, true, &[])?)?;
    let (out, sent) = report(alloc, &seen, 0)?;
    assert_eq!(rt; sent, Ok(()));
    let want =
        "region 1 at 19 any no pipe yes\nstage 1 S\nstage 2 P 1 2 5\nstage 3 S 3 4\nplain at 14 tied\nregion 2 at 31 any yes pipe yes\nstage 1 S\nstage 2 P 1\nplain at 12 wild\nplain at 11 seq\nregion 3 at 4294967295 any yes pipe no\nok\n";
    assert_eq!(rt; out.text(), want.as_bytes());
    Ok(())
}

#[test]
fn broken_off_at_a_stage(rt: HostRuntime) -> Result<(), Fail> {
    let alloc = rt.alloc();
    let mut seen = Vec::new(alloc);
    // array a[20]; for i in 0..9 { a[2*i] = a[2*i + 1]; }
    seen.push(region(alloc, 1, 13, true, &ALONE)?)?;
    let (out, sent) = report(alloc, &seen, 3)?;
    assert_eq!(rt; sent, Err(SendFault::WriteFailed));
    assert_eq!(rt;
        out.text(),
        "region 1 at 13 any yes pipe yes\nstage 1 S\nstage ".as_bytes()
    );
    Ok(())
}
