// The numbers of a trial.

ghost use Rattle.std.specs.Prelude.{◌≡◌, ◌≤◌, length, All, IfOk};
ghost use Rattle.nona_tree.specs.Numbers.{IsI64};
ghost use Rattle.nona_store.specs.Input.{number_bound};
ghost use Rattle.trial.specs.Numbers.{trial_count, next_state, number_of_state, trial_numbers};

use std::alloc::{AllocError, Global};

/// How many numbers the trial of a number has.
fn trial_count(n: u16) -> usize
    ensures { result ≡ trial_count n }
{
    20_000 + 10 * (n as usize % 1_000)
}

/// The state behind a state.
fn next_state(state: u64) -> u64
    ensures { result ≡ next_state state }
{
    state
        .wrapping_mul(6_364_136_223_846_793_005)
        .wrapping_add(1_442_695_040_888_963_407)
}

/// The number of a state.
fn number_of_state(state: u64) -> i64
    ensures number { result ≡ number_of_state state }
    ensures fits { IsI64 result }
{
    (state >> 33) as i64 - 1_073_741_824
}

/// The numbers of the trial of a number: 20,000, and ten more for each that the number leaves modulo 1,000, so
/// 29,990 at most. They are from -1,073,741,824 to 1,073,741,823. They may be the input of a program, and are no
/// more than the cells of the array that the program of the text writes one by one. The one error is that memory
/// ran out. Takes time and memory in proportion to their count.
pub fn trial_numbers(alloc: Global, n: u16) -> Result<Vec<i64>, AllocError>
    ensures numbers { IfOk result (λ numbers. numbers.items ≡ trial_numbers n) }
    ensures few { IfOk result (λ numbers. length numbers.items ≤ number_bound) }
    ensures within { IfOk result (λ numbers. length numbers.items ≤ 32768) }
    ensures kept { IfOk result (λ numbers. All IsI64 numbers.items) }
{
    let count = trial_count(n);
    let mut numbers = Vec::new(alloc);
    let mut state = n as u64;
    for done in 0..count {
        state = next_state(state);
        numbers.push(number_of_state(state))?;
    }
    Ok(numbers)
}
