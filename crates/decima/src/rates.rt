//! Rates of readings: their iterations by their ticks.

ghost use Rattle.std.specs.Prelude.{◌≡◌, ℕ, ◌*◌, nat_lt};
ghost use Rattle.decima.specs.Rates.{has_fallen, rate_of_reading, rate_order};

use crate::readings::Reading;
use std::cmp::Ordering;

/// The product of two numbers, which 128 bits hold.
fn product(a: u64, b: u64) -> u128
    ensures { result ≡ a * b }
{
    u128::from(a) * u128::from(b)
}

/// Seven eighths of a product, rounded up: what is below it is below seven eighths. It is had from the quotient and the
/// remainder by 8, since seven times a product may have more than 128 bits.
fn seven_eighths(product: u128) -> u128
    ensures { (p : ℕ) → nat_lt p result ≡ nat_lt (8 * p) (7 * product) }
{
    7 * (product / 8) + (7 * (product % 8) + 7) / 8
}

/// How the rate of one reading compares with that of another: as the cross products of their iterations and ticks do.
/// No rate is rounded.
pub fn rate_cmp(a: &Reading, b: &Reading) -> Ordering
    ensures { result ≡ rate_order (rate_of_reading a.now) (rate_of_reading b.now) }
{
    product(a.iterations, b.ticks).cmp(&product(b.iterations, a.ticks))
}

/// Whether the rate of a reading has fallen below seven eighths of the rate of another one. A rate of exactly seven
/// eighths hasn't.
pub fn has_fallen(now: &Reading, kept: &Reading) -> bool
    ensures { result ≡ has_fallen (rate_of_reading now.now) (rate_of_reading kept.now) }
{
    product(now.iterations, kept.ticks) < seven_eighths(product(kept.iterations, now.ticks))
}
