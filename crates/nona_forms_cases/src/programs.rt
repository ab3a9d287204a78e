//! The programs of the cases, whose last statement is a loop.

use nona_affine::{apart, shape, spots};
use nona_check::check;
use nona_forms::{Form, LoopShape, Spot, Verdict};
use nona_parse::parse;
use nona_tree::{Checked, Loop, Stmt};
use std::alloc::{AllocError, Global};
use std::process::Abort;
use std::test::Fail;

/// The program that a text is, with its ids.
pub fn checked_of(rt: &impl Abort, alloc: Global, text: &[u8]) -> Result<Checked, Fail> {
    assert!(rt; text.len() <= 1_048_576);
    let program = parse(alloc, text)?;
    Ok(check(alloc, program)?)
}

/// The loop that comes last.
pub fn last_loop(checked: &Checked) -> Option<&Loop> {
    match checked.program().body.as_slice().last()? {
        Stmt::For(l) => Some(l),
        _ => None,
    }
}

/// A form's constant, and its terms as pairs of an id and a coefficient.
pub fn shown(alloc: Global, form: Option<&Form>) -> Result<String, AllocError> {
    match form {
        None => String::from_str(alloc, "none"),
        Some(form) => {
            let mut pairs = Vec::new(alloc);
            for t in form.terms() {
                pairs.push((t.id, t.coefficient))?;
            }
            format!(in alloc; "{} {pairs:?}", form.constant())
        }
    }
}

/// What the test says of the first and the last of these accesses.
fn told(spots: &[Spot], shape: &LoopShape) -> Option<Verdict> {
    let first = spots.first()?;
    let last = spots.last()?;
    Some(apart(first, last, shape))
}

/// What it says of the first and the last access of the loop that comes last in a text.
fn verdict(rt: &impl Abort, alloc: Global, text: &[u8]) -> Result<Option<Verdict>, Fail> {
    let checked = checked_of(rt, alloc, text)?;
    match last_loop(&checked) {
        None => Ok(None),
        Some(l) => {
            let spots = spots(alloc, l)?;
            Ok(told(&spots, &shape(alloc, l)?))
        }
    }
}

/// Compares what the test says of the first and the last access of loops, each in a line from its bounds on.
pub fn compare(rt: &impl Abort, alloc: Global, loops: &str, want: Verdict) -> Result<(), Fail> {
    for line in loops.split('\n') {
        let mut text = String::from_str(alloc, "var n; var x; array a[9]; for i in ")?;
        text.push_str(line)?;
        let got = verdict(rt, alloc, text.as_bytes())?;
        assert!(rt; got == Some(want), "{line}");
    }
    Ok(())
}
