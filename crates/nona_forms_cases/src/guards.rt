//! The guard of an entry.

ghost use Rattle.std.specs.Prelude.{◌≡◌, [], length, IfSome};
ghost use Rattle.nona_tree.specs.declared.trees.Stmt.{For};
ghost use Rattle.nona_tree.specs.Run.{start_of};
ghost use Rattle.nona_tree.specs.Scope.{IsScoped};
ghost use Rattle.nona_tree.specs.Smallness.{IsSmallLoop};

use crate::programs::checked_of;
use nona_graph::calm;
use nona_guard::Guard;
use nona_store::Store;
use nona_tree::{Checked, Loop, Stmt, checked_is_scoped};
use std::alloc::{AllocError, Global};
use std::process::Abort;
use std::test::Fail;

/// The loop that comes first, before which nothing but declarations stands: it may be entered from their store.
fn first_loop<'a>(program: &'a Checked, store: &Store) -> Option<&'a Loop>
    requires { store.now ≡ start_of program.now [] }
    ensures small { IfSome result (λ l. IsSmallLoop l.now) }
    ensures scoped { IfSome result (λ l. IsScoped (For l.now) (length store.now.scalars) (length store.now.arrays)) }
{
    checked_is_scoped();
    let _depth = store.depth();
    match program.program().body.as_slice().first()? {
        Stmt::For(l) => Some(l),
        _ => None,
    }
}

/// What the guard of a loop answers for iterations from this store, where the loop is calm.
fn answered(
    alloc: Global,
    l: &Loop,
    store: &Store,
    low: i64,
    last: i64,
    turns: u64,
) -> Result<Option<bool>, AllocError>
    requires small { IsSmallLoop l.now }
    requires scoped { IsScoped (For l.now) (length store.now.scalars) (length store.now.arrays) }
{
    if calm(alloc, l)? {
        let guard = Guard::of(alloc, l)?;
        Ok(Some(guard.fits(store, low, last, turns)))
    } else {
        Ok(None)
    }
}

/// The same of the loop that comes first in a text, from the store of its declarations and an empty input.
fn answer(
    rt: &impl Abort,
    alloc: Global,
    text: &str,
    low: i64,
    last: i64,
    turns: u64,
) -> Result<Option<bool>, Fail> {
    let checked = checked_of(rt, alloc, text.as_bytes())?;
    let store = Store::start(alloc, &checked, Vec::new(alloc))?;
    match first_loop(&checked, &store) {
        None => Ok(None),
        Some(l) => Ok(answered(alloc, l, &store, low, last, turns)?),
    }
}

/// A body behind declarations, the iterations from low to last - 1, the bound on turns, and what the guard answers.
type Case = (&'static str, i64, i64, u64, Option<bool>);

fn compare(rt: &impl Abort, alloc: Global, cases: &[Case]) -> Result<(), Fail> {
    for (body, low, last, turns, want) in cases {
        let text = format!(in alloc; "array a[7]; var x = 3; for i in 0..9 {{ {body} }}")?;
        let got = answer(rt, alloc, text.as_str(), *low, *last, *turns)?;
        assert!(rt; got == *want, "{body}");
    }
    Ok(())
}

#[test]
fn of_accesses(rt: HostRuntime) -> Result<(), Fail> {
    let cases = [
        ("a[i] = 1;", 0, 7, 1, Some(true)),
        ("a[i] = 1;", 0, 8, 1, Some(false)),
        ("a[i] = 1;", 8, 8, 1, Some(true)),
        ("a[i + x] = 1;", 0, 4, 1, Some(true)),
        ("a[i + x] = 1;", 0, 5, 1, Some(false)),
        ("a[6 - 2*i] = 1;", 0, 4, 1, Some(true)),
        ("a[6 - 2*i] = 1;", 0, 5, 1, Some(false)),
        ("if 0 { a[i + 6] = 1; }", 0, 2, 1, Some(false)),
        ("a[wrap a[i]] = 1;", 0, 7, 1, Some(true)),
        ("a[wrap a[i]] = 1;", 0, 8, 1, Some(false)),
        ("a[i*i] = 1;", 0, 1, 1, None),
        ("a[0] = 1 / x;", 0, 1, 1, None),
    ];
    compare(&rt, rt.alloc(), cases.as_slice())
}

#[test]
fn of_wrapped_accesses_and_ends(rt: HostRuntime) -> Result<(), Fail> {
    let low = i64::MIN;
    let high = i64::MAX;
    let cases = [
        ("let y = input[wrap 0];", 0, 1, 1, Some(false)),
        ("a[wrap i] = 1;", low, high, 1, Some(true)),
        ("a[i] = 1;", low, high, 1, Some(false)),
        (
            "a[i + 9223372036854775807] = 1;",
            -high,
            6 - high,
            1,
            Some(true),
        ),
        (
            "a[i + 9223372036854775807] = 1;",
            low,
            6 - high,
            1,
            Some(false),
        ),
        (
            "a[i - 9223372036854775800] = 1;",
            high - 7,
            high,
            1,
            Some(true),
        ),
        (
            "a[i - 9223372036854775801] = 1;",
            high - 7,
            high,
            1,
            Some(false),
        ),
    ];
    compare(&rt, rt.alloc(), cases.as_slice())
}

#[test]
fn of_inner_loops(rt: HostRuntime) -> Result<(), Fail> {
    let many = u64::MAX;
    let cases = [
        ("for j in 0..3 { a[i + j] = 1; }", 0, 5, 3, Some(true)),
        ("for j in 0..3 { a[i + j] = 1; }", 0, 6, 3, Some(false)),
        ("for j in 0..i { print j; }", 0, 6, 5, Some(true)),
        ("for j in 0..i { print j; }", 0, 7, 5, Some(false)),
        ("for j in 5..5 { a[9] = 1; }", 0, 9, 0, Some(true)),
        ("for j in 5..6 { a[9] = 1; }", 0, 9, 1, Some(false)),
        (
            "for j in i..i + 9223372036854775807 { }",
            0,
            1,
            many,
            Some(true),
        ),
        (
            "for j in i..i + 9223372036854775807 { }",
            0,
            2,
            many,
            Some(false),
        ),
        ("for j in len(a)..9 { }", 0, 1, 9, None),
    ];
    compare(&rt, rt.alloc(), cases.as_slice())
}
