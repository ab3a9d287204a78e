// Laws of numbers in plain text.

ghost use Rattle.std.specs.Prelude.{◌≡◌, ◌≤◌, ℕ, List, Some};
ghost use Rattle.nona_text.specs.Digits.{number_within};

/// A number that bytes are in a range is in the range.
pub fn numbers_are_within()
    ensures { (low high : ℕ) (bytes : List ℕ) (n : ℕ) → number_within low high bytes ≡ Some n → (low ≤ n) × (n ≤ high) }
{}
