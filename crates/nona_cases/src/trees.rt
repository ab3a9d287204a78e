//! A copy of a loop.

use crate::programs::checked_of;
use nona_tree::Stmt;
use std::test::Fail;

/// A loop with each kind of statement and of expression in it.
const TEXT: &[u8] =
    b"array a[4]; var x = 1; for i in 0..2 { let t = x; x = t << 2; x min= -3 - !4; \
    a[wrap 1 + len(a)] = a[0]; a[1] += 3; if x { print 1; } else { print 2; } \
    while x > 0 { x = 0; } seq for j in i..i + 1 {} }";

#[test]
fn a_loop_and_its_copy_look_alike(rt: HostRuntime) -> Result<(), Fail> {
    let alloc = rt.alloc();
    let checked = checked_of(&rt, alloc, TEXT)?;
    match checked.program().body.as_slice().last() {
        Some(Stmt::For(l)) => {
            let want = format!(in alloc; "{l:?}")?;
            let copy = l.copy(alloc)?;
            let got = format!(in alloc; "{copy:?}")?;
            assert_eq!(rt; got.as_str(), want.as_str());
        }
        _ => assert!(rt; false, "a loop"),
    }
    Ok(())
}
