//! Whole calls over a shelf and a sink in memory: what no files and no words can say.

use crate::report::Report;
use crate::status::Status;
use crate::still::parcae_still;
use crate::summary::{Summary, send_summary};
use fate_io::{MemoryShelf, MemorySink, SendFault};
use std::alloc::{AllocError, Global};
use std::test::Fail;

const ROOM: usize = 4096;

/// The words of a command line, between single spaces.
fn words_of(alloc: Global, line: &str) -> Result<Vec<String>, AllocError> {
    let mut words = Vec::new(alloc);
    for word in line.split(' ') {
        words.push(String::from_str(alloc, word)?)?;
    }
    Ok(words)
}

/// Prints before and in a region, and writes to an array.
const MIXED: &str = "var s; array a[2]; print 12; for i in 0..2 { a[i] = i; print 345; }";

/// What each name holds.
const HELD: [(&str, &str); 3] = [
    ("mixed", MIXED),
    ("input", "7"),
    ("script", "use seq 1 until 1"),
];

/// A call with these words over the files above, a shelf that fails at the read of this number, and a sink that has so much room
/// and fails at the put of this number, each from 1 and at 0 none; and what it wrote.
fn call(
    alloc: Global,
    line: &str,
    read: u64,
    put: u64,
    room: usize,
) -> Result<(Report, MemorySink), AllocError> {
    let mut held = Vec::new(alloc);
    for (name, text) in HELD {
        let bytes = Vec::from_slice(alloc, text.as_bytes())?;
        held.push((String::from_str(alloc, name)?, bytes))?;
    }
    let mut shelf = MemoryShelf::new(alloc, held, Vec::from_slice(alloc, &[read])?);
    let mut sink = MemorySink::new(alloc, room, Vec::from_slice(alloc, &[put])?)?;
    let report = parcae_still(alloc, &words_of(alloc, line)?, &mut shelf, &mut sink);
    Ok((report, sink))
}

/// Words of a replay that asks for all there is.
const LINE: &str = "replay mixed input --script script --memory --log";

/// What they write.
const WHOLE: &str = "12\n345\n345\nvar s = 0\narray a 2\na[1] = 1\nentry 1 region 1 low 0 high 2
from 0 to 1 asked seq 1 ran seq 1 steps 4 waits 0 ticks 4 end limit
from 1 to 2 asked seq 1 ran seq 1 steps 4 waits 0 ticks 4 end limit
intervals 2
";

/// The report on the loops of the program above.
const LOOPS: &str = "region 1 at 29 any no pipe yes\nstage 1 S 2\nstage 2 P 1\nok\n";

#[test]
fn what_is_written_and_the_status(rt: HostRuntime) -> Result<(), Fail> {
    use Status::{Done, ReadFailed, WriteFailed};
    let cases = [
        (LINE, 0, 0, ROOM, Done, WHOLE),
        ("seq mixed", 0, 0, ROOM, Done, "12\n345\n345\n"),
        (LINE, 1, 0, ROOM, ReadFailed, "read failed program\n"),
        (LINE, 2, 0, ROOM, ReadFailed, "read failed input\n"),
        (LINE, 3, 0, ROOM, ReadFailed, "read failed script\n"),
        (
            "seq mixed input",
            2,
            0,
            ROOM,
            ReadFailed,
            "read failed input\n",
        ),
        ("seq mixed", 0, 2, ROOM, WriteFailed, "12\n34"),
        ("check mixed", 0, 0, ROOM, Done, LOOPS),
        (
            "check mixed",
            0,
            2,
            ROOM,
            WriteFailed,
            "region 1 at 29 any no pipe yes\nstage ",
        ),
        ("seq absent", 0, 1, ROOM, WriteFailed, "read faile"),
        ("seq", 0, 1, ROOM, WriteFailed, "usa"),
        ("seq mixed", 0, 9, 5, WriteFailed, "12\n34"),
        (
            "replay mixed --script script",
            0,
            9,
            4,
            WriteFailed,
            "12\n3",
        ),
    ];
    for (line, read, put, room, status, written) in cases {
        let (report, sink) = call(rt.alloc(), line, read, put, room)?;
        assert_eq!(rt; report.status, status, "{line}");
        assert_eq!(rt; sink.text(), written.as_bytes(), "{line}");
    }
    Ok(())
}

/// The intervals of a report's log, and whether it has an outcome and a store.
fn parts(report: &Report) -> (usize, bool, bool) {
    (
        report.log.intervals().len(),
        report.outcome.is_some(),
        report.store.is_some(),
    )
}

#[test]
fn what_is_told_beside_a_front(rt: HostRuntime) -> Result<(), Fail> {
    let cases = [
        (0, 2, true),
        (1, 0, false),
        (2, 1, false),
        (3, 2, false),
        (4, 2, true),
        (7, 2, true),
        (10, 2, true),
    ];
    for (put, intervals, ended) in cases {
        let (report, sink) = call(rt.alloc(), LINE, 0, put, ROOM)?;
        assert_eq!(rt; parts(&report), (intervals, ended, ended), "put {put}");
        assert!(rt; WHOLE.as_bytes().starts_with(sink.text()), "put {put}");
    }
    Ok(())
}

#[test]
fn what_is_told_beside_a_report_on_loops(rt: HostRuntime) -> Result<(), Fail> {
    for put in [0, 2] {
        let (report, _) = call(rt.alloc(), "check mixed", 0, put, ROOM)?;
        assert_eq!(rt; parts(&report), (0, false, false), "put {put}");
    }
    Ok(())
}

/// What the summary of the trial of 7 says.
const SUMMARY: Summary = Summary {
    number: 7,
    input: 20_070,
    intervals: 432,
    iterations: 321_120,
    printed: 17,
    sum: 69_984_912_865_396,
};

/// Its text.
const TEXT: &str =
    "trial 7\ninput 20070\noutcome done\nintervals 432\niterations 321120\nprinted 17\nsum 69984912865396\n";

#[test]
fn fronts_of_a_summary(rt: HostRuntime) -> Result<(), Fail> {
    use SendFault::WriteFailed;
    let cases = [
        (0, Ok(()), 95),
        (1, Err(WriteFailed), 4),
        (2, Err(WriteFailed), 14),
        (3, Err(WriteFailed), 26),
        (4, Err(WriteFailed), 40),
        (5, Err(WriteFailed), 56),
        (6, Err(WriteFailed), 70),
        (7, Err(WriteFailed), 85),
    ];
    for (put, sent, length) in cases {
        let failing = Vec::from_slice(rt.alloc(), &[put])?;
        let mut sink = MemorySink::new(rt.alloc(), ROOM, failing)?;
        assert_eq!(rt;
            send_summary(rt.alloc(), SUMMARY, &mut sink),
            sent,
            "put {put}"
        );
        assert_eq!(rt; sink.text().len(), length, "put {put}");
        assert!(rt; TEXT.as_bytes().starts_with(sink.text()), "put {put}");
    }
    Ok(())
}
