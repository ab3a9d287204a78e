//! The operators on numbers of 64 bits, and distances between such numbers.

ghost use Rattle.std.specs.Prelude.{◌≡◌, ◌<◌, ◌≤◌, ◌^◌, ◌↔◌, ◌+ℤ◌, ℤ, pos, FitsSigned, IsNone, IfSome};
ghost use Rattle.std.specs.Int.{int_rem_euclid, int_gap, w64};
ghost use Rattle.nona_num.specs.Numbers.{wrapped, add_of, sub_of, mul_of, neg_of, shift_of, shl_of, shr_of, and_of, or_of, xor_of, div_of, rem_of};

/// The sum, wrapped.
#[tactic(auto, using(std::proofs::lemmas::Int::wraps))]
pub fn add(a: i64, b: i64) -> i64
    ensures { result ≡ add_of a b }
{
    a.wrapping_add(b)
}

/// The first number less the second, wrapped.
#[tactic(auto, using(std::proofs::lemmas::Int::wraps))]
pub fn sub(a: i64, b: i64) -> i64
    ensures { result ≡ sub_of a b }
{
    a.wrapping_sub(b)
}

/// The product, wrapped.
pub fn mul(a: i64, b: i64) -> i64
    ensures { result ≡ mul_of a b }
{
    a.wrapping_mul(b)
}

/// The number with its sign turned, wrapped: `i64::MIN` stays as it is.
#[tactic(auto, using(std::proofs::lemmas::Int::wraps))]
pub fn neg(a: i64) -> i64
    ensures { result ≡ neg_of a }
{
    a.wrapping_neg()
}

/// The number of places that a shift by `b` moves: `b` modulo 64, from 0 to 63.
fn shift_count(b: i64) -> u32
    ensures count { result ≡ shift_of b }
    ensures below { result < 64 }
{
    b.rem_euclid(64) as u32
}

/// `a` shifted to the left, which multiplies by a power of two and wraps. The count is `b` modulo
/// 64, so that -1 stands for 63 and 64 for 0.
pub fn shl(a: i64, b: i64) -> i64
    ensures { result ≡ shl_of a b }
{
    a.wrapping_shl(shift_count(b))
}

/// `a` shifted to the right, which divides by a power of two and rounds down, so that the sign
/// stays. The count is `b` modulo 64.
pub fn shr(a: i64, b: i64) -> i64
    ensures { result ≡ shr_of a b }
{
    a.wrapping_shr(shift_count(b))
}

/// The bits that both numbers have.
pub fn and(a: i64, b: i64) -> i64
    ensures { result ≡ and_of a b }
{
    a & b
}

/// The bits that at least one of the numbers has.
pub fn or(a: i64, b: i64) -> i64
    ensures { result ≡ or_of a b }
{
    a | b
}

/// The bits that exactly one of the numbers has.
pub fn xor(a: i64, b: i64) -> i64
    ensures { result ≡ xor_of a b }
{
    a ^ b
}

/// The quotient, rounded toward zero and wrapped: `i64::MIN` by -1 gives `i64::MIN`. `None` comes
/// exactly where `b` is 0.
pub fn div(a: i64, b: i64) -> Option<i64>
    ensures by_zero { IsNone result ↔ (b ≡ pos 0) }
    ensures quotient { IfSome result (λ q. q ≡ div_of a b) }
{
    if b == 0 {
        None
    } else {
        Some(a.wrapping_div(b))
    }
}

/// What the quotient of `div` leaves over, with the sign of `a`: `i64::MIN` by -1 gives 0. `None`
/// comes exactly where `b` is 0.
pub fn rem(a: i64, b: i64) -> Option<i64>
    ensures by_zero { IsNone result ↔ (b ≡ pos 0) }
    ensures remainder { IfSome result (λ r. r ≡ rem_of a b) }
{
    if b == 0 {
        None
    } else {
        Some(a.wrapping_rem(b))
    }
}

/// The place in an array of `length` cells, from 1 to 2^22, that the index `e` wraps to: `e` modulo
/// the length, from 0, so that -1 is the last cell.
pub fn wrap_index(e: i64, length: usize) -> usize
    requires at_least_one { 0 < length }
    requires at_most { length ≤ 2 ^ 22 }
    ensures place { pos result ≡ int_rem_euclid e (pos length) }
    ensures within { result < length }
{
    e.rem_euclid(length as i64) as usize
}

/// How far `high` lies above `low`, and 0 where it does not.
pub fn gap(low: i64, high: i64) -> u64
    ensures { result ≡ int_gap low high }
{
    if low < high { high.abs_diff(low) } else { 0 }
}

/// The number that lies `k` above `low`, where that is an `i64`.
pub fn offset(low: i64, k: u64) -> i64
    requires { FitsSigned w64 (low +ℤ pos k) }
    ensures { result ≡ low +ℤ pos k }
{
    low.checked_add_unsigned(k).unwrap()
}

/// Says that the definitions of the operators mean numbers of 64 bits: `wrapped` gives the one such
/// number that is congruent modulo 2^64, and no operator leaves them. It does nothing when called.
pub fn number_laws()
    ensures congruent { (z : ℤ) → int_rem_euclid (wrapped z) (pos (2 ^ 64)) ≡ int_rem_euclid z (pos (2 ^ 64)) }
    ensures wrapped_fits { (z : ℤ) → FitsSigned w64 (wrapped z) }
    ensures and_fits { (a b : ℤ) → FitsSigned w64 (and_of a b) }
    ensures or_fits { (a b : ℤ) → FitsSigned w64 (or_of a b) }
    ensures xor_fits { (a b : ℤ) → FitsSigned w64 (xor_of a b) }
    ensures shr_fits { (a b : ℤ) → FitsSigned w64 a → FitsSigned w64 (shr_of a b) }
    ensures rem_fits { (a b : ℤ) → FitsSigned w64 a → FitsSigned w64 (rem_of a b) }
{}
