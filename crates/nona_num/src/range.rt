//! Ranges of whole numbers, wide enough for sums and products of numbers of 64 bits.

ghost use Rattle.std.specs.Prelude.{◌≡◌, ◌+ℤ◌, ◌*ℤ◌, ℤ, FitsSigned};
ghost use Rattle.std.specs.Int.{w128, int_min, int_max};

/// The whole numbers from `low` to `high`, both of them included: none where `high` is below `low`.
#[derive(Clone, Copy, Debug, PartialEq, Eq)]
pub struct Range {
    /// The least number.
    pub low: i128,
    /// The greatest number.
    pub high: i128,
}

impl Range {
    ghost use Rattle.nona_num.specs.Ranges.{Holds};

    /// The range of all sums of a number of this range and one of the other. Both ends of the
    /// result have to be `i128`.
    pub fn sum(self, other: Range) -> Range
        requires low { FitsSigned w128 (self.low +ℤ other.low) }
        requires high { FitsSigned w128 (self.high +ℤ other.high) }
        ensures low { result.low ≡ self.low +ℤ other.low }
        ensures high { result.high ≡ self.high +ℤ other.high }
        ensures sums { (x y : ℤ) → Holds self x → Holds other y → Holds result (x +ℤ y) }
    {
        Range {
            low: self.low + other.low,
            high: self.high + other.high,
        }
    }

    /// The least range that holds all products of a number of this range and `c`. It reaches from
    /// the lesser to the greater product of an end, since a negative `c` exchanges the ends. Both of
    /// these products have to be `i128`.
    pub fn times(self, c: i128) -> Range
        requires low { FitsSigned w128 (self.low *ℤ c) }
        requires high { FitsSigned w128 (self.high *ℤ c) }
        ensures least { result.low ≡ int_min (self.low *ℤ c) (self.high *ℤ c) }
        ensures greatest { result.high ≡ int_max (self.low *ℤ c) (self.high *ℤ c) }
        ensures products { (x : ℤ) → Holds self x → Holds result (x *ℤ c) }
    {
        let from_low = self.low * c;
        let from_high = self.high * c;
        Range {
            low: from_low.min(from_high),
            high: from_low.max(from_high),
        }
    }
}
