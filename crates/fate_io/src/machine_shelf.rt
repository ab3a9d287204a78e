//! The files of the machine, as a shelf.
ghost use Rattle.std.specs.Prelude.{◌≡◌, ℕ, List, [], None, map, string_bytes};

use crate::readers::{CountedReader, read_opened};
use crate::shelves::{Shelf, ShelfFault};
use std::alloc::Global;
use std::fs;
use std::marker::Model;
use std::rt::Files;

/// The files of the machine, by their paths. It tells nothing of their content, and gives of each
/// file what `read_opened` gives of what was opened.
#[derive(Drop)]
pub struct FileShelf<'a, R: Files> {
    alloc: Global,
    files: &'a R,
    failed: Vec<String>,
}

/// A contract sees the names whose reads failed.
impl<'a, R: Files> Model for FileShelf<'a, R> {
    ghost Value = { List (List ℕ) };

    ghost view = { λ s. map string_bytes s.failed.items };
}

impl<'a, R: Files> FileShelf<'a, R> {
    /// A shelf over the files of a runtime, of which no read has failed.
    pub fn new(files: &'a R, alloc: Global) -> FileShelf<'a, R>
        ensures { result ≡ [] }
    {
        FileShelf {
            alloc,
            files,
            failed: Vec::new(alloc),
        }
    }
}

/// Opens a file; `None` is an opening that failed. No contract can say what the machine holds, so
/// this call has none, and what follows it has one over any reader.
fn open_file<R: Files>(files: &R, name: &str) -> Option<CountedReader<R::File>> {
    match fs::open(files, name) {
        Ok(file) => Some(CountedReader::new(file)),
        Err(_) => None,
    }
}

impl<R: Files> Shelf for FileShelf<'_, R> {
    ghost held = { λ _ _. None };

    ghost failed = { λ s. s };

    /// The room for a name that fails is taken before the file is opened.
    fn read(&mut self, name: &str, most: usize, into: &mut Vec<u8>) -> Result<(), ShelfFault> {
        into.clear();
        let Ok(kept) = String::from_str(self.alloc, name) else {
            return Err(ShelfFault::NoMemory);
        };
        if self.failed.reserve(1).is_err() {
            return Err(ShelfFault::NoMemory);
        }
        let mut opened = open_file(self.files, name);
        let result = read_opened(&mut opened, most, into);
        if let Err(ShelfFault::Failed) = result {
            self.failed.push(kept).unwrap();
        }
        result
    }
}
