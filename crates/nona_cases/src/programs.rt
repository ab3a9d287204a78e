//! The programs of the cases.

use nona_check::check;
use nona_parse::parse;
use nona_tree::Checked;
use std::alloc::Global;
use std::process::Abort;
use std::test::Fail;

/// The program that a text is, with its ids.
pub fn checked_of(rt: &impl Abort, alloc: Global, text: &[u8]) -> Result<Checked, Fail> {
    assert!(rt; text.len() <= 1_048_576);
    let program = parse(alloc, text)?;
    Ok(check(alloc, program)?)
}
