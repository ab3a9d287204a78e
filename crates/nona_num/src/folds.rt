//! The folds: operators that join many numbers into one, in any order and any grouping.

ghost use Rattle.std.specs.Prelude.{◌≡◌, ℤ, FitsSigned};
ghost use Rattle.std.specs.Int.{w64};
ghost use Rattle.nona_num.specs.declared.folds.Fold.{Fold};
ghost use Rattle.nona_num.specs.Folds.{unit_of, join_of};

use crate::arithmetic::{add, and, mul, or, xor};

/// How a fold joins two numbers.
#[derive(Clone, Copy, Debug, PartialEq, Eq)]
pub enum Fold {
    /// The sum, wrapped.
    Add,
    /// The product, wrapped.
    Mul,
    /// The bits that both numbers have.
    And,
    /// The bits that at least one of the numbers has.
    Or,
    /// The bits that exactly one of the numbers has.
    Xor,
    /// The lesser number.
    Min,
    /// The greater number.
    Max,
}

impl Fold {
    /// The number that changes nothing when it is joined: the join of no numbers.
    pub fn unit(self) -> i64
        ensures { result ≡ unit_of self }
    {
        match self {
            Fold::Add | Fold::Or | Fold::Xor => 0,
            Fold::Mul => 1,
            Fold::And => -1,
            Fold::Min => i64::MAX,
            Fold::Max => i64::MIN,
        }
    }

    /// Joins two numbers into one.
    pub fn join(self, a: i64, b: i64) -> i64
        ensures { result ≡ join_of self a b }
    {
        match self {
            Fold::Add => add(a, b),
            Fold::Mul => mul(a, b),
            Fold::And => and(a, b),
            Fold::Or => or(a, b),
            Fold::Xor => xor(a, b),
            Fold::Min => a.min(b),
            Fold::Max => a.max(b),
        }
    }
}

/// Says what lets a fold be computed in parts: joins may be grouped and ordered in any way, the
/// unit changes nothing, and units and joins are numbers of 64 bits. It does nothing when called.
pub fn fold_laws()
    ensures associative { (f : Fold) (a b c : ℤ) → FitsSigned w64 a → FitsSigned w64 b → FitsSigned w64 c
        → join_of f (join_of f a b) c ≡ join_of f a (join_of f b c) }
    ensures commutative { (f : Fold) (a b : ℤ) → join_of f a b ≡ join_of f b a }
    ensures unit { (f : Fold) (a : ℤ) → FitsSigned w64 a → join_of f (unit_of f) a ≡ a }
    ensures unit_fits { (f : Fold) → FitsSigned w64 (unit_of f) }
    ensures join_fits { (f : Fold) (a b : ℤ) → FitsSigned w64 a → FitsSigned w64 b → FitsSigned w64 (join_of f a b) }
{}
