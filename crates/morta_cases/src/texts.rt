//! Lines that no program writes yet, or none in one case, with texts by hand.

use fate_io::MemorySink;
use morta_task::{Ask, Config, Cut, Interval, Log, Ran, Scheme, Work};
use morta_text::{send_log, send_outcome};
use nona_tree::{Outcome, Trap, TrapKind};
use std::alloc::{AllocError, Global};
use std::test::Fail;

/// A sink with room for the lines of a case.
fn sink(alloc: Global) -> Result<MemorySink, AllocError> {
    MemorySink::new(alloc, 1024, Vec::new(alloc))
}

#[test]
fn outcomes_at_the_first_and_the_last_place(rt: HostRuntime) -> Result<(), Fail> {
    let alloc = rt.alloc();
    let mut out = sink(alloc)?;
    let first = Outcome::Trap(Trap {
        kind: TrapKind::Empty,
        at: 0,
    });
    for outcome in [Outcome::Done, first, Outcome::OutOfTurns { at: u32::MAX }] {
        assert!(rt; send_outcome(alloc, outcome, &mut out).is_ok());
    }
    assert_eq!(rt;
        out.text(),
        "trap empty at 0\nout of turns at 4294967295\n".as_bytes()
    );
    Ok(())
}

/// An interval that was asked for under `any`, of an entry that isn't in the log.
fn interval(ran: Config, to: i64, work: Option<Work>, cut: Cut) -> Interval {
    let config = Config {
        scheme: Scheme::Any,
        workers: 4,
    };
    let asked = Ask {
        config,
        until: None,
    };
    Interval {
        entry: 1,
        asked,
        ran,
        from: -3,
        done: Ran {
            to,
            work,
            ticks: 12,
            cut,
        },
    }
}

#[test]
fn intervals_under_each_version(rt: HostRuntime) -> Result<(), Fail> {
    let alloc = rt.alloc();
    let mut out = sink(alloc)?;
    let pipe = Config {
        scheme: Scheme::Pipe,
        workers: 16,
    };
    let work = Some(Work { steps: 9, waits: 2 });
    let mut log = Log::new(alloc);
    log.add(interval(pipe, 4, work, Cut::Paused))?;
    log.add(interval(Config::SEQ, 5, None, Cut::Turns { at: 7 }))?;
    assert_eq!(rt; send_log(alloc, &log, &mut out), Ok(()));
    let want =
        "from -3 to 4 asked any 4 ran pipe 16 steps 9 waits 2 ticks 12 end paused\nfrom -3 to 5 asked any 4 ran seq 1 ticks 12 end turns\nintervals 2\n";
    assert_eq!(rt; out.text(), want.as_bytes());
    Ok(())
}
