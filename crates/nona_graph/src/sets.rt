//! Sets of units.

ghost use Rattle.std.specs.Prelude.{◌≡◌, ◌==◌, ◌||◌, ℕ};
ghost use Rattle.nona_plans.specs.Walks.{IsUnit};
ghost use Rattle.nona_graph.specs.Sets.{has_unit, union_of, passed_row};

/// A set of units of a loop that has at most 64.
#[derive(Clone, Copy, Debug, PartialEq, Eq)]
pub struct UnitSet {
    /// The unit with number u is bit u - 1.
    bits: u64,
}

/// The set of one unit.
pub fn only(unit: u32) -> UnitSet
    requires { IsUnit 64 unit }
    ensures { (u : ℕ) → IsUnit 64 u → has_unit result u ≡ (unit == u) }
{
    UnitSet {
        bits: 1u64 << (unit - 1),
    }
}

/// Whether a unit is in a set.
pub fn has(set: UnitSet, unit: u32) -> bool
    requires { IsUnit 64 unit }
    ensures { result ≡ has_unit set unit }
{
    (set.bits >> (unit - 1)) & 1 == 1
}

/// The units that are in one set or in the other.
pub fn union(set: UnitSet, other: UnitSet) -> UnitSet
    ensures value { result ≡ union_of set other }
    ensures units { (u : ℕ) → has_unit result u ≡ (has_unit set u || has_unit other u) }
{
    UnitSet {
        bits: set.bits | other.bits,
    }
}

/// A set, with another one where it has a unit.
pub fn passed(set: UnitSet, unit: u32, via: UnitSet) -> UnitSet
    requires { IsUnit 64 unit }
    ensures { result ≡ passed_row unit via set }
{
    if has(set, unit) { union(set, via) } else { set }
}
