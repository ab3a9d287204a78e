//! Forms of expressions.

use crate::programs::{checked_of, last_loop, shown};
use nona_affine::{form, loop_names};
use nona_forms::Form;
use nona_tree::{Checked, Expr, Loop, Stmt};
use std::alloc::{AllocError, Global};
use std::process::Abort;
use std::test::Fail;

/// The index of the cell that the last statement of a loop writes.
fn index_of(l: &Loop) -> Option<&Expr> {
    match l.body.as_slice().last()? {
        Stmt::Put { place, .. } => Some(&place.index),
        _ => None,
    }
}

/// The form of that index in the last loop of a program.
fn form_in(alloc: Global, checked: &Checked) -> Result<Option<Form>, AllocError> {
    match last_loop(checked) {
        None => Ok(None),
        Some(l) => match index_of(l) {
            None => Ok(None),
            Some(index) => form(alloc, index, &loop_names(alloc, l)?),
        },
    }
}

/// The form of an index in a loop whose own index has the id 2.
fn form_of(rt: &impl Abort, alloc: Global, index: &str) -> Result<Option<Form>, Fail> {
    let head = "var x; var s; array a[9]; for i in 0..9 { let y = i; s += y; a[";
    let mut text = String::from_str(alloc, head)?;
    text.push_str(index)?;
    text.push_str("] = 1; }")?;
    let checked = checked_of(rt, alloc, text.as_bytes())?;
    Ok(form_in(alloc, &checked)?)
}

#[test]
fn of_expressions(rt: HostRuntime) -> Result<(), Fail> {
    let alloc = rt.alloc();
    let table = [
        ("2*(i + 3) - i", "6 [(2, 1)]"),
        ("i*x", "none"),
        ("i*4294967296", "none"),
        ("i*2147483648", "0 [(2, 2147483648)]"),
        ("i*2147483649", "none"),
        ("-i - 2147483647*i", "0 [(2, -2147483648)]"),
        ("9223372036854775807 + x", "9223372036854775807 [(0, 1)]"),
        ("1 + (9223372036854775807 - 1)", "9223372036854775807 []"),
        ("9223372036854775807 + 1 - 1", "none"),
        ("3*x - 2*i + x - 7", "-7 [(0, 4), (2, -2)]"),
        ("x - x", "0 []"),
        ("x - (i - (x - 2*i))", "0 [(0, 2), (2, -3)]"),
        ("-(-(x + i) - 3*(x - i))", "0 [(0, 4), (2, -2)]"),
        ("i - (x + i + 5)", "-5 [(0, -1)]"),
        ("(x - i)*(0 - 3)", "0 [(0, -3), (2, 3)]"),
        ("-1*(x - 4)", "4 [(0, -1)]"),
        ("0*(x - i + 7)", "0 []"),
        ("1*(x + i) + 0*i", "0 [(0, 1), (2, 1)]"),
        ("2*(i*1073741824) - i*2147483648 + x", "0 [(0, 1)]"),
        ("2*(i*1073741825)", "none"),
        ("(2147483648*i + i) - i", "none"),
        ("i*2147483648 - i + i*1", "0 [(2, 2147483648)]"),
        ("-9223372036854775807 - (x + 1)", "none"),
        ("s", "none"),
        ("y", "none"),
        ("len(a)", "none"),
        ("!i", "none"),
        ("i / 1", "none"),
        ("0*(i*i)", "none"),
    ];
    for (index, want) in table {
        let form = form_of(&rt, alloc, index)?;
        let got = shown(alloc, form.as_ref())?;
        assert!(rt; got.as_str() == want, "{index}");
    }
    Ok(())
}
