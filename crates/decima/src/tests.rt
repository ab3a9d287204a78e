//! What counters read after a few moves, and how rates compare.

ghost use Rattle.std.specs.Prelude.{◌≤◌};

use crate::counters::Counters;
use crate::rates::{has_fallen, rate_cmp};
use crate::readings::Reading;
use std::cmp::Ordering;
use std::test::Fail;

/// The readings before the first step, after a move of each of two tasks, after one more of one of them, and after two
/// iterations and a move of a third task.
fn readings() -> [Reading; 4] {
    let mut counters = Counters::new();
    let first = counters.reading();
    counters.moved(3);
    counters.moved(51);
    let one_each = counters.reading();
    counters.moved(51);
    let two_of_one = counters.reading();
    counters.iteration();
    counters.iteration();
    counters.moved(0);
    [first, one_each, two_of_one, counters.reading()]
}

#[test]
fn ticks_are_those_of_the_task_that_moved_most(rt: HostRuntime) -> Result<(), Fail> {
    let expected = [(0, 1), (0, 1), (0, 2), (2, 2)];
    for (reading, row) in readings().iter().zip(expected.iter()) {
        assert_eq!(rt; (reading.iterations, reading.ticks), *row);
    }
    Ok(())
}

/// A rate of so many iterations in so many ticks, of which there is at least one.
fn rate(iterations: u64, ticks: u64) -> Reading
    requires { 1 ≤ ticks }
{
    Reading { iterations, ticks }
}

#[test]
fn rates_compare_by_their_cross_products(rt: HostRuntime) -> Result<(), Fail> {
    let most = u64::MAX;
    let rows = [
        (rate_cmp(&rate(64, 17), &rate(128, 34)), Ordering::Equal),
        (rate_cmp(&rate(64, 129), &rate(64, 17)), Ordering::Less),
        (rate_cmp(&rate(64, 21), &rate(64, 23)), Ordering::Greater),
        (rate_cmp(&rate(0, 1), &rate(0, most)), Ordering::Equal),
        (
            rate_cmp(&rate(most, most), &rate(most, most)),
            Ordering::Equal,
        ),
        (
            rate_cmp(&rate(most - 1, most), &rate(most, most)),
            Ordering::Less,
        ),
        (rate_cmp(&rate(most, 1), &rate(1, most)), Ordering::Greater),
    ];
    for (order, expected) in rows.iter() {
        assert_eq!(rt; *order, *expected);
    }
    Ok(())
}

#[test]
fn a_rate_has_fallen_below_seven_eighths(rt: HostRuntime) -> Result<(), Fail> {
    let most = u64::MAX;
    let rows = [
        (has_fallen(&rate(7, 1), &rate(8, 1)), false),
        (has_fallen(&rate(56, 3), &rate(64, 3)), false),
        (has_fallen(&rate(55, 3), &rate(64, 3)), true),
        (has_fallen(&rate(544, 137), &rate(64, 17)), false),
        (has_fallen(&rate(most, most), &rate(most, most)), false),
        (has_fallen(&rate(1, most), &rate(most, 1)), true),
        (has_fallen(&rate(most, 1), &rate(1, most)), false),
        (has_fallen(&rate(0, 1), &rate(0, 1)), false),
    ];
    for (fallen, expected) in rows.iter() {
        assert_eq!(rt; *fallen, *expected);
    }
    Ok(())
}
