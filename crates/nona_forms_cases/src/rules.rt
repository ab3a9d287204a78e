//! Each rule of the dependence test, by loops on both sides of its limit.

use crate::programs::compare;
use nona_forms::Verdict;
use std::test::Fail;

/// Loops whose first and last access are told apart.
const APART: &str = "0..9 { a[i + x] = a[i + x]; }
5..5 { a[0] = a[0]; }
0..9 { for j in 3..3 { a[0] = a[0]; } }
0..9 { a[3] = a[4]; }
0..n { a[2*i] = a[2*i + 1]; }
0..n { a[4*i] = a[6*i + 3]; }
0..2 { a[2147483648*i] = a[2147483648*i + 1]; }
0..2 { a[9223372036854775807] = a[9223372036854775806]; }
0..n { a[i] = a[i]; }
0..10 { a[i + 10] = a[i]; }
0..9 { for j in 0..4 { a[4*i + j] = 1; } }
-1..4611686018427387904 { a[41 - 4*i] = 1; }
0..10 { a[i] = a[2*i + 10]; }
-5..5 { a[i] = a[9 - i]; }
0..9 { for j in 0..2 { a[8*i + j] = 1; } for k in 0..8 { a[8*i + k] = 1; } }
0..9 { for j in 0..4 { for k in 0..j { a[2*k] = a[2*k + 1]; } } }";

/// Loops of whose first and last access nothing is known.
const MAYBE: &str = "0..9 { a[wrap 3] = a[4]; }
0..9 { a[i * i] = a[4]; }
0..9 { a[len(a)] = a[4]; }
0..9 { x = i; a[x] = a[x + 1]; }
0..9 { a[i + x] = a[i]; }
0..9 { for j in 3..4 { a[0] = a[0]; } }
0..9 { a[3] = a[3]; }
0..n { a[4*i] = a[6*i + 2]; }
0..2 { a[2147483649*i] = a[2147483649*i + 1]; }
0..2 { a[9223372036854775807 + 1] = a[0]; }
0..n { a[i + 1] = a[i]; }
0..10 { a[i + 9] = a[i]; }
0..9 { for j in 0..5 { a[4*i + j] = 1; } }
0..10 { a[i] = a[2*i + 9]; }
0..n { a[i] = a[2*i + 10]; }
-5..5 { a[i] = a[8 - i]; }
0..9 { for j in 0..2 { a[8*i + j] = 1; } for k in 0..9 { a[8*i + k] = 1; } }
0..9 { for j in 0..4 { for k in 0..j { a[4*i + k] = 1; } } }";

#[test]
fn on_both_sides_of_each_limit(rt: HostRuntime) -> Result<(), Fail> {
    compare(&rt, rt.alloc(), APART, Verdict::Apart)?;
    compare(&rt, rt.alloc(), MAYBE, Verdict::Maybe)
}
