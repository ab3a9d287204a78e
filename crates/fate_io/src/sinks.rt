//! A sink: where bytes go, in order.
ghost use Rattle.std.specs.Prelude.{◌≡◌, ℕ, List, length, IsOk};
ghost use Rattle.std.specs.declared.option.Option.{Option};
ghost use Rattle.fate_io.specs.Causes.{HasCause};
ghost use Rattle.fate_io.specs.Putting.{Puts};

/// A put that didn't take its whole piece.
#[derive(Clone, Copy, Debug, PartialEq, Eq)]
pub struct Failed;

/// Where bytes go, in order.
pub trait Sink {
    /// The bytes that it has taken, where that is told.
    ghost written: { Self → Option (List ℕ) };

    /// How many puts have failed. The count stays at `u64::MAX` once it is there.
    ghost faults: { Self → ℕ };

    /// Adds a piece at the end. It takes no memory of its own.
    ///
    /// `Failed` comes only where the count of faults rose in this call or stands at its last
    /// value. A front of the piece was added then, possibly none or all of it. An empty piece is
    /// no put: it is answered `Ok`, and nothing changes.
    fn put(&mut self, bytes: &[u8]) -> Result<(), Failed>
        ensures cause { HasCause (faults self.old) (faults self.new) result }
        ensures bytes { Puts (written self.old) (written self.new) bytes.now result }
        ensures empty { length bytes.now ≡ 0 → IsOk result };
}
