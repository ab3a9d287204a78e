//! The ids that `check` gives.

use crate::programs::checked_of;
use nona_tree::{Expr, Stmt};
use std::test::Fail;

/// The id of the scalar that is printed last in the text, where a program ends in that.
fn last_id(body: &[Stmt]) -> Option<u32> {
    match body.last()? {
        Stmt::Print { value, .. } => match value {
            Expr::Scalar(name) => Some(name.id),
            Expr::Len(name) => Some(name.id),
            _ => None,
        },
        Stmt::If { no, .. } => last_id(no.as_slice()),
        Stmt::While { body, .. } => last_id(body.as_slice()),
        Stmt::For(each) => last_id(each.body.as_slice()),
        _ => None,
    }
}

#[test]
fn ids_count_what_is_visible(rt: HostRuntime) -> Result<(), Fail> {
    let table: [(&[u8], u32); 8] = [
        (b"var x; var y; print x;", 0),
        (b"var x; var y; print y;", 1),
        (b"var x; var y; let t = 1; print t;", 2),
        (b"array a[1]; array b[1]; print len(input);", 0),
        (b"array a[1]; array b[1]; print len(b);", 2),
        (
            b"var x; if x { let t = 1; } else { let u = 2; print u; }",
            1,
        ),
        (b"var x; for i in 0..1 { for j in 0..1 { print j; } }", 2),
        (b"var x; while x { let t = 1; let u = 2; print t; }", 1),
    ];
    for (text, want) in table {
        let checked = checked_of(&rt, rt.alloc(), text)?;
        let got = last_id(checked.program().body.as_slice());
        assert_eq!(rt; got, Some(want));
    }
    Ok(())
}
