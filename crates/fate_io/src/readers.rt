//! A reader whose failures are counted, and the whole of what it gives.
ghost use Rattle.std.specs.Prelude.{◌≡◌, [], None, Err};
ghost use Rattle.std.specs.Io.{ReadsAtMost};
ghost use Rattle.std.specs.Io.KnownBytes.{ReadConsumes};
ghost use Rattle.fate_io.specs.Causes.{HasCause};
ghost use Rattle.fate_io.specs.Reading.{ReaderView, opened_holds, HasFailed, GivesRest, ReadGives};

use crate::shelves::ShelfFault;
use crate::sinks::Failed;
use std::io::{ErrorKind, Read};
use std::marker::Model;

/// A reader whose failures are counted. A read that was interrupted is tried again, and is none.
#[derive(Drop)]
pub struct CountedReader<F: Read + Drop> {
    reader: F,
    faults: u64,
}

impl<F: Read + Drop> Model for CountedReader<F> {
    ghost Value = { ReaderView };

    ghost view = { λ s. record { rest = F.remaining s.reader; faults = s.faults } };
}

impl<F: Read + Drop> CountedReader<F> {
    /// Over a reader, of which no read has failed.
    pub fn new(reader: F) -> CountedReader<F>
        ensures { result ≡ record { rest = F.remaining reader; faults = 0 } }
    {
        CountedReader { reader, faults: 0 }
    }

    /// Reads what comes next to the front of `piece`, and answers how many bytes those are: none
    /// only at the end, or where `piece` has no room. `Failed` comes only where the count of faults
    /// rose in this call or stands at its last value, and nothing was read then.
    pub fn read(&mut self, piece: &mut [u8]) -> Result<usize, Failed>
        ensures cause { HasCause self.old.faults self.new.faults result }
        ensures bound { ReadsAtMost result piece.new }
        ensures bytes { ReadConsumes self.old.rest self.new.rest result piece.new }
    {
        match read_some(&mut self.reader, piece) {
            Ok(count) => Ok(count),
            Err(failed) => {
                self.faults = self.faults.saturating_add(1);
                Err(failed)
            }
        }
    }
}

/// One read, which is tried again where it was interrupted.
fn read_some<F: Read>(reader: &mut F, piece: &mut [u8]) -> Result<usize, Failed>
    ensures bound { ReadsAtMost result piece.new }
    ensures bytes { ReadConsumes (F.remaining reader.old) (F.remaining reader.new) result piece.new }
{
    for _ in 0..u64::MAX {
        match reader.read(piece) {
            Ok(count) => return Ok(count),
            Err(error) => {
                if error.kind() != ErrorKind::Interrupted {
                    return Err(Failed);
                }
            }
        }
    }
    Err(Failed)
}

/// The size of the pieces in which a file is read.
const PIECE: usize = 4096;

/// Reads what a reader has left into an empty vector, where that is at most `most` bytes, and at
/// most one byte more than that. After a fault the vector has what was read before it.
fn read_rest<F: Read + Drop>(
    reader: &mut CountedReader<F>,
    most: usize,
    into: &mut Vec<u8>,
) -> Result<(), ShelfFault>
    requires { into.old.items ≡ [] }
    ensures { GivesRest reader.old reader.new most into.new.items result }
{
    let mut piece = [0u8; PIECE];
    loop {
        let wanted = (most - into.len()).min(PIECE - 1) + 1;
        let front = &mut piece[..wanted];
        match reader.read(front) {
            Ok(0) => return Ok(()),
            Ok(count) => {
                if into.extend_from_slice(&front[..count]).is_err() {
                    return Err(ShelfFault::NoMemory);
                }
                if into.len() > most {
                    return Err(ShelfFault::Long);
                }
            }
            Err(Failed) => return Err(ShelfFault::Failed),
        }
    }
}

/// Reads the whole of what was opened into an empty vector, where that is at most `most` bytes;
/// `None` is an opening that failed.
///
/// `Failed` comes only where the opening failed, or a read of what was opened: its count of faults
/// rose in this call or stands at its last value. `Long` comes only where it held more than `most`
/// bytes. `NoMemory` may come at any read. After a fault `into` is empty.
pub fn read_opened<F: Read + Drop>(
    opened: &mut Option<CountedReader<F>>,
    most: usize,
    into: &mut Vec<u8>,
) -> Result<(), ShelfFault>
    requires { into.old.items ≡ [] }
    ensures content { ReadGives (opened_holds opened.old) most into.new.items result }
    ensures cause { result ≡ Err ShelfFault.Failed → HasFailed opened.old opened.new }
    ensures absent { opened.old ≡ None → result ≡ Err ShelfFault.Failed }
{
    let Some(reader) = opened else {
        return Err(ShelfFault::Failed);
    };
    match read_rest(reader, most, into) {
        Ok(()) => Ok(()),
        Err(fault) => {
            into.clear();
            Err(fault)
        }
    }
}
