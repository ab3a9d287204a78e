//! A reader that is interrupted and fails, and a writer that is interrupted, takes little at a time, and is full.
ghost use Rattle.std.specs.Prelude.{Some};

use fate_io::{CountedReader, Failed, OutSink, ShelfFault, Sink, read_opened};
use std::io;
use std::io::{ErrorKind, Read, Write};
use std::test::Fail;

/// Bytes in memory, read with an interruption before each read. The read of a number from 1 fails.
#[derive(Drop)]
struct Pieces<'a> {
    left: &'a [u8],
    failing: u64,
    reads: u64,
    is_interrupted: bool,
}

impl Read for Pieces<'_> {
    ghost remaining = { λ s. Some s.left.now };

    fn read(&mut self, buf: &mut [u8]) -> io::Result<usize> {
        self.is_interrupted = !self.is_interrupted;
        if self.is_interrupted {
            return Err(io::Error::from(ErrorKind::Interrupted));
        }
        self.reads = self.reads.saturating_add(1);
        if self.reads == self.failing {
            return Err(io::Error::from(ErrorKind::BrokenPipe));
        }
        self.left.read(buf)
    }
}

#[test]
fn what_was_opened_is_read_to_its_end(rt: HostRuntime) -> Result<(), Fail> {
    let alloc = rt.alloc();
    let bytes = vec![in alloc; 7u8; 5000]?;
    let cases = [
        (5000, 9, Ok(()), 5000),
        (5000, 2, Err(ShelfFault::Failed), 0),
        (5000, 3, Err(ShelfFault::Failed), 0),
        (4999, 3, Err(ShelfFault::Long), 0),
    ];
    for (most, failing, want, count) in cases {
        let mut opened = Some(CountedReader::new(Pieces {
            left: &bytes,
            failing,
            reads: 0,
            is_interrupted: false,
        }));
        let mut into = Vec::new(alloc);
        let got = read_opened(&mut opened, most, &mut into);
        assert_eq!(rt; (got, into.len()), (want, count), "at {most}, {failing}");
    }
    Ok(())
}

/// A writer that is interrupted before each write, takes two bytes at most at a time, and takes
/// no more than its room: it fails then, or takes nothing.
#[derive(Drop)]
struct Trickle {
    taken: Vec<u8>,
    room: usize,
    is_broken: bool,
    is_interrupted: bool,
}

impl Write for Trickle {
    fn write(&mut self, buf: &[u8]) -> io::Result<usize> {
        self.is_interrupted = !self.is_interrupted;
        if self.is_interrupted {
            return Err(io::Error::from(ErrorKind::Interrupted));
        }
        let left = self.room.saturating_sub(self.taken.len());
        let count = buf.len().min(left).min(2);
        if count == 0 && self.is_broken {
            return Err(io::Error::from(ErrorKind::BrokenPipe));
        }
        self.taken.extend_from_slice(&buf[..count])?;
        Ok(count)
    }

    fn flush(&mut self) -> io::Result<()> {
        Ok(())
    }
}

#[test]
fn out_sink_writes_on_until_nothing_is_taken(rt: HostRuntime) {
    for is_broken in [false, true] {
        let mut writer = Trickle {
            taken: Vec::new(rt.alloc()),
            room: 8,
            is_broken,
            is_interrupted: false,
        };
        let mut sink = OutSink::new(&mut writer);
        for (piece, want) in [("12345", Ok(())), ("6789\n", Err(Failed)), ("", Ok(()))] {
            assert_eq!(rt; sink.put(piece.as_bytes()), want, "at {piece}");
        }
        drop(sink);
        assert_eq!(rt; writer.taken.as_slice(), b"12345678".as_slice());
    }
}
