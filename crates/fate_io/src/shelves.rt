//! A shelf: files that are read by name.
ghost use Rattle.std.specs.Prelude.{◌≡◌, ℕ, List};
ghost use Rattle.fate_io.specs.Reading.{Held, FailedAfter, ReadGives};

/// Why a read gave no content.
#[derive(Clone, Copy, Debug, PartialEq, Eq)]
pub enum ShelfFault {
    /// The read failed, or nothing has the name. The shelf keeps the name among those that failed.
    Failed,
    /// More bytes are held than were asked for at most.
    Long,
    /// Memory ran out.
    NoMemory,
}

/// Files that are read by name.
pub trait Shelf {
    /// What is told of a name: nothing, or that it is absent, or the bytes that it holds.
    ghost held: { Self → List ℕ → Held };

    /// The names whose reads failed, the oldest first.
    ghost failed: { Self → List (List ℕ) };

    /// Reads the whole content of a name into `into`, whose old content goes, where that is at
    /// most `most` bytes.
    ///
    /// `Failed` comes only where this call added the name to those that failed, and `Long` only
    /// where more than `most` bytes are held. `NoMemory` may come at any read. After a fault
    /// `into` is empty.
    fn read(&mut self, name: &str, most: usize, into: &mut Vec<u8>) -> Result<(), ShelfFault>
        ensures same { held self.new ≡ held self.old }
        ensures failed { FailedAfter (failed self.old) (failed self.new) name.now result }
        ensures content { ReadGives (held self.old name.now) most into.new.items result };
}
