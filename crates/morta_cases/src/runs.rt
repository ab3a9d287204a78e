//! Runs in one thread: statement by statement, and interval by interval.

ghost use Rattle.morta_task.specs.LogView.{empty_log};
ghost use Rattle.morta_exec.specs.Log.{ServesAll};
ghost use Rattle.nona_gen.specs.OfSeen.{planned_image};

use crate::programs::checked_of;
use fate_io::MemorySink;
use morta_exec::{Beginning, drive, run_through};
use morta_plain::{OneThread, PlainAsker};
use morta_task::{Asker, Both, Log, Runner};
use nona_gen::compile;
use nona_store::{Ended, Store};
use nona_tree::{Checked, Outcome, Trap, TrapKind, checked_is_scoped};
use std::alloc::Global;
use std::process::Abort;
use std::test::Fail;

/// How a run ended, what it put, and its log.
#[derive(Drop)]
pub struct Run {
    pub ended: Ended,
    pub put: MemorySink,
    pub log: Log,
}

/// Drives a program over no input, where a loop may take 100 turns.
pub fn driven<M: Runner + Asker>(
    alloc: Global,
    checked: &Checked,
    morta: &mut M,
) -> Result<Run, Fail>
    requires stands { (M.promise).stands_for morta.old empty_log }
    requires serves { ServesAll M.promise morta.old (planned_image checked.now) }
{
    checked_is_scoped();
    checked.program();
    let image = compile(alloc, checked)?;
    let store = Store::start(alloc, checked, Vec::new(alloc))?;
    let mut put = MemorySink::new(alloc, 1000, Vec::new(alloc))?;
    let mut log = Log::new(alloc);
    let from = Beginning { store, turns: 100 };
    let ended = drive(alloc, &image, from, morta, &mut put, &mut log)?;
    Ok(Run { ended, put, log })
}

/// Runs a program over no input without a log, where a loop may take 100 turns.
fn passed(alloc: Global, checked: &Checked) -> Result<Ended, Fail> {
    checked_is_scoped();
    checked.program();
    let image = compile(alloc, checked)?;
    let store = Store::start(alloc, checked, Vec::new(alloc))?;
    let mut put = MemorySink::new(alloc, 1000, Vec::new(alloc))?;
    let from = Beginning { store, turns: 100 };
    Ok(run_through(alloc, &image, from, &mut put)?)
}

/// Drives it in one thread, in intervals of two iterations at the most.
fn in_intervals(alloc: Global, checked: &Checked) -> Result<Run, Fail> {
    let mut both = Both {
        runner: OneThread,
        asker: PlainAsker { until: Some(2) },
    };
    driven(alloc, checked, &mut both)
}

/// Compares a run in intervals: how it ended, what it put and how many intervals it took.
fn assert_driven(
    rt: &impl Abort,
    alloc: Global,
    checked: &Checked,
    want: (Outcome, usize),
    put: &[u8],
) -> Result<(), Fail> {
    let run = in_intervals(alloc, checked)?;
    let got = (run.ended.outcome, run.log.intervals().len());
    assert_eq!(rt; got, want);
    assert_eq!(rt; run.put.text(), put);
    Ok(())
}

/// The trap of this kind at this place.
fn trap(kind: TrapKind, at: u32) -> Outcome {
    Outcome::Trap(Trap { kind, at })
}

/// Compares a program's run in intervals and its run without a log.
fn assert_runs(
    rt: &impl Abort,
    alloc: Global,
    text: &[u8],
    want: (Outcome, usize),
    put: &[u8],
) -> Result<(), Fail> {
    let checked = checked_of(rt, alloc, text)?;
    assert_driven(rt, alloc, &checked, want, put)?;
    assert_eq!(rt; passed(alloc, &checked)?.outcome, want.0);
    Ok(())
}

#[test]
fn runs_of_regions(rt: HostRuntime) -> Result<(), Fail> {
    let table: [(&[u8], &[u8], Outcome, usize); 4] = [
        (
            b"for i in 0..5 { let x = i * i; print x; } print 9;",
            b"0\n1\n4\n9\n16\n9\n",
            Outcome::Done,
            3,
        ),
        (
            b"array a[3]; for i in 0..5 { let x = a[i]; print x; }",
            b"0\n0\n0\n",
            trap(TrapKind::Index, 36),
            2,
        ),
        (
            b"for i in 0..2 { for j in 0..200 {} }",
            b"",
            Outcome::OutOfTurns { at: 16 },
            1,
        ),
        (
            b"for i in 0..200 {}",
            b"",
            Outcome::OutOfTurns { at: 0 },
            50,
        ),
    ];
    for (text, put, outcome, intervals) in table {
        assert_runs(&rt, rt.alloc(), text, (outcome, intervals), put)?;
    }
    Ok(())
}

#[test]
fn runs_of_other_loops(rt: HostRuntime) -> Result<(), Fail> {
    let table: [(&[u8], &[u8], Outcome); 3] = [
        (
            b"for i in 0..5 { print i; } print 9;",
            b"0\n1\n2\n3\n4\n9\n",
            Outcome::Done,
        ),
        (
            b"for i in 0..5 { print 7 / (3 - i); }",
            b"2\n3\n7\n",
            trap(TrapKind::Divide, 24),
        ),
        (b"while 1 {}", b"", Outcome::OutOfTurns { at: 0 }),
    ];
    for (text, put, outcome) in table {
        assert_runs(&rt, rt.alloc(), text, (outcome, 0), put)?;
    }
    Ok(())
}
