//! A shelf whose files lie in memory.
ghost use Rattle.std.specs.Prelude.{◌≡◌, ◌≢◌, [], Contains, map, string_bytes, MatchOption, None, Some, Ok, Err};
ghost use Rattle.fate_io.specs.Causes.{next_number};
ghost use Rattle.fate_io.specs.Reading.{FailedAfter, ReadGives};
ghost use Rattle.fate_io.specs.Memory.{ShelfView, named_content, file_of, shelf_holds, FailsWhereListed};

use crate::shelves::{Shelf, ShelfFault};
use std::alloc::Global;
use std::marker::Model;

/// Files in memory, and a list of the reads that fail.
#[derive(Drop)]
pub struct MemoryShelf {
    alloc: Global,
    files: Vec<(String, Vec<u8>)>,
    failing: Vec<u64>,
    reads: u64,
    failed: Vec<String>,
}

impl Model for MemoryShelf {
    ghost Value = { ShelfView };

    ghost view = { λ s. record {
      files = map named_content s.files.items;
      failing = s.failing.items;
      reads = s.reads;
      failed = map string_bytes s.failed.items;
    } };
}

impl MemoryShelf {
    /// A shelf of these files. Of several files of one name the first is held. The reads whose
    /// numbers, from 1, are listed in `failing` fail.
    pub fn new(alloc: Global, files: Vec<(String, Vec<u8>)>, failing: Vec<u64>) -> MemoryShelf
        ensures { result ≡ record { files = map named_content files.items; failing = failing.items; reads = 0; failed = [] } }
    {
        MemoryShelf {
            alloc,
            files,
            failing,
            reads: 0,
            failed: Vec::new(alloc),
        }
    }
}

/// The content of the first file of a name.
fn find_file<'a>(files: &'a [(String, Vec<u8>)], name: &str) -> Option<&'a Vec<u8>>
    ensures { MatchOption result
        (file_of (map named_content files.now) name.now ≡ None)
        (λ bytes. file_of (map named_content files.now) name.now ≡ Some bytes.now.items) }
{
    for file in files {
        if file.0.as_str() == name {
            return Some(&file.1);
        }
    }
    None
}

/// Answers the read of this number into an empty vector.
fn answer(
    files: &[(String, Vec<u8>)],
    failing: &[u64],
    number: u64,
    name: &str,
    most: usize,
    into: &mut Vec<u8>,
) -> Result<(), ShelfFault>
    requires { into.old.items ≡ [] }
    ensures content { ReadGives (Some (file_of (map named_content files.now) name.now)) most into.new.items result }
    ensures listed { FailsWhereListed (Contains failing.now number) (file_of (map named_content files.now) name.now) result }
{
    if failing.contains(&number) {
        return Err(ShelfFault::Failed);
    }
    let Some(bytes) = find_file(files, name) else {
        return Err(ShelfFault::Failed);
    };
    if bytes.len() > most {
        return Err(ShelfFault::Long);
    }
    match into.extend_from_slice(bytes) {
        Ok(()) => Ok(()),
        Err(_) => Err(ShelfFault::NoMemory),
    }
}

impl Shelf for MemoryShelf {
    ghost held = { λ s. shelf_holds s.files };

    ghost failed = { λ s. s.failed };

    /// Fails exactly where the number of this read is listed or nothing has the name. The number
    /// goes up by one for each read that is not answered `NoMemory`, and stays at `u64::MAX`.
    fn read(&mut self, name: &str, most: usize, into: &mut Vec<u8>) -> Result<(), ShelfFault>
        ensures same { shelf_holds self.new.files ≡ shelf_holds self.old.files }
        ensures failed { FailedAfter self.old.failed self.new.failed name.now result }
        ensures content { ReadGives (Some (file_of self.old.files name.now)) most into.new.items result }
        ensures listed { FailsWhereListed (Contains self.old.failing (next_number self.old.reads)) (file_of self.old.files name.now) result }
        ensures number { result ≢ Err ShelfFault.NoMemory → self.new.reads ≡ next_number self.old.reads }
        ensures unnumbered { result ≡ Err ShelfFault.NoMemory → self.new.reads ≡ self.old.reads }
        ensures files { self.new.files ≡ self.old.files }
        ensures failing { self.new.failing ≡ self.old.failing }
    {
        into.clear();
        let Ok(kept) = String::from_str(self.alloc, name) else {
            return Err(ShelfFault::NoMemory);
        };
        if self.failed.reserve(1).is_err() {
            return Err(ShelfFault::NoMemory);
        }
        let number = self.reads.saturating_add(1);
        match answer(&self.files, &self.failing, number, name, most, into) {
            Ok(()) => {
                self.reads = number;
                Ok(())
            }
            Err(ShelfFault::Failed) => {
                self.reads = number;
                self.failed.push(kept).unwrap();
                Err(ShelfFault::Failed)
            }
            Err(ShelfFault::Long) => {
                self.reads = number;
                Err(ShelfFault::Long)
            }
            Err(ShelfFault::NoMemory) => Err(ShelfFault::NoMemory),
        }
    }
}
