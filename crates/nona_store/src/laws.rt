//! A law of overlays. It does nothing when it is called: its contract is the law.

ghost use Rattle.std.specs.Prelude.{◌≡◌, ◌<◌, ℕ, ℤ, length};
ghost use Rattle.std.specs.declared.option.Option.{Option};
ghost use Rattle.std.specs.Option.{unwrap_or};
ghost use Rattle.nona_tree.specs.Memory.{Memory, cell_at, cells_of};
ghost use Rattle.nona_store.specs.Overlays.{under};

/// Says that a cell under an overlay has the value that is written over it, and its own where none is; and that arrays stay as
/// long as they are.
pub fn overlays_cover()
    ensures cell { (m : Memory) (over : ℕ → ℕ → Option ℤ) (a p : ℕ) → p < length (cells_of m a)
        → cell_at (under over m) a p ≡ unwrap_or (over a p) (cell_at m a p) }
    ensures length { (m : Memory) (over : ℕ → ℕ → Option ℤ) (a : ℕ) → length (cells_of (under over m) a) ≡ length (cells_of m a) }
{}
