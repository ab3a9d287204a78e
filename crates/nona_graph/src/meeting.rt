//! The arrays that a loop writes, and those of which accesses of different iterations may meet.

ghost use Rattle.std.specs.Prelude.{◌≡◌, ◌+◌, ◌<◌, ◌||◌, ℕ, not, drop, length, map, filter, IfOk, OnOk};
ghost use Rattle.std.specs.List.{list_any};
ghost use Rattle.nona_forms.specs.Affine.{among};
ghost use Rattle.nona_forms.specs.Verdicts.{is_apart};
ghost use Rattle.nona_plans.specs.Units.{has_pair};
ghost use Rattle.nona_graph.specs.Meeting.{do_meet, meet_in};

use nona_affine::apart;
use nona_forms::{LoopShape, Spot, Verdict};
use std::alloc::{AllocError, Global};

/// Whether the dependence test doesn't tell two accesses apart.
fn may_be_one(x: &Spot, y: &Spot, shape: &LoopShape) -> bool
    ensures { result ≡ not (is_apart shape.now x.now y.now) }
{
    match apart(x, y, shape) {
        Verdict::Apart => false,
        Verdict::Maybe => true,
    }
}

/// Whether two accesses are of one array, one of them writes, and they aren't told apart.
fn meet(x: &Spot, y: &Spot, shape: &LoopShape) -> bool
    ensures { result ≡ do_meet shape.now x.now y.now }
{
    if x.array == y.array && (x.write || y.write) {
        may_be_one(x, y, shape)
    } else {
        false
    }
}

/// Whether an access may meet one of others in a different iteration.
fn meets_some(x: &Spot, others: &[Spot], shape: &LoopShape) -> bool
    ensures { result ≡ list_any (do_meet shape.now x.now) others.now }
{
    others.iter().any(|y| meet(x, y, shape))
}

/// Appends the array of an access, if the access may meet itself or a later one in a different iteration.
fn push_meeting(
    spots: &[Spot],
    at: usize,
    shape: &LoopShape,
    arrays: &mut Vec<u32>,
) -> Result<(), AllocError>
    requires { at < length spots.now }
    ensures { OnOk result ((a : ℕ) → (among a arrays.old.items || has_pair (meet_in shape.now a) (drop at spots.now))
        ≡ (among a arrays.new.items || has_pair (meet_in shape.now a) (drop (at + 1) spots.now))) }
{
    let array = spots[at].array;
    if meets_some(&spots[at], &spots[at..], shape) {
        arrays.push(array)?;
        Ok(())
    } else {
        Ok(())
    }
}

/// The arrays of which two accesses, or one with itself, may meet in different iterations. Takes a time quadratic in the
/// accesses. The one error is that memory ran out.
pub fn carried_arrays(
    alloc: Global,
    spots: &[Spot],
    shape: &LoopShape,
) -> Result<Vec<u32>, AllocError>
    ensures { IfOk result (λ arrays. (a : ℕ) → among a arrays.items ≡ has_pair (meet_in shape.now a) spots.now) }
{
    let mut arrays = Vec::new(alloc);
    for at in 0..spots.len() {
        push_meeting(spots, at, shape, &mut arrays)?;
    }
    Ok(arrays)
}

/// The arrays of the accesses that write. The one error is that memory ran out.
pub fn written_arrays(alloc: Global, spots: &[Spot]) -> Result<Vec<u32>, AllocError>
    ensures { IfOk result (λ arrays. arrays.items ≡ map (λ x. x.array) (filter (λ x. x.write) spots.now)) }
{
    let mut arrays = Vec::new(alloc);
    for spot in spots {
        if spot.write {
            arrays.push(spot.array)?;
        }
    }
    Ok(arrays)
}
