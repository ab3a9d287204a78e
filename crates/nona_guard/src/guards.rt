//! The guard of a loop.

ghost use Rattle.std.specs.Prelude.{◌≡◌, ◌^◌, pos, ◌-ℤ◌, int_le, IfOk, IsTrue};
ghost use Rattle.nona_tree.specs.declared.trees.Loop.{Loop};
ghost use Rattle.nona_forms.specs.Calm.{is_calm};
ghost use Rattle.nona_affine.specs.Small.{IsSmallRange};
ghost use Rattle.nona_forms.specs.Guards.{guard_of};
ghost use Rattle.nona_guard.specs.Guards.{IsGuardOf, MayBeAsked, IsReady, holds_guard};

use crate::asking::push_all;
use crate::bounds::Bound;
use crate::checks::Check;
use crate::walking::fits_all;
use arrayvec::ArrayVec;
use nona_affine::{Ids, loop_names};
use nona_num::Range;
use nona_store::Store;
use nona_tree::Loop;
use sqlite_items::Items;
use std::alloc::{AllocError, Global};

/// The guard of a calm loop: what has to hold at an entry so that its iterations all end well.
#[derive(Debug, Drop)]
pub struct Guard {
    /// The id of the loop's index.
    index: u32,
    checks: Items<Check>,
}

/// Says that a guard that may be asked is ready for the walk over its checks. It does nothing when called.
fn is_ready(guard: &Guard, store: &Store)
    requires { MayBeAsked guard.now store.now }
    ensures { IsReady guard.now store.now }
{
    let _index = guard.index;
    let _depth = store.depth();
}

/// The values of the index in the iterations from `low` to `last - 1`.
fn index_range(low: i64, last: i64) -> Range
    ensures range { result ≡ record { low = low; high = last -ℤ pos 1 } }
    ensures small { IsSmallRange (2 ^ 64) result }
{
    Range {
        low: low as i128,
        high: last as i128 - 1,
    }
}

/// Whether there is no iteration from `low` to `last - 1`.
fn has_none(low: i64, last: i64) -> bool
    ensures { result ≡ int_le last low }
{
    last <= low
}

impl Guard {
    /// The guard of a loop, which has to be calm. The one error is that memory ran out.
    pub fn of(alloc: Global, looped: &Loop) -> Result<Guard, AllocError>
        requires { IsTrue (is_calm looped.now) }
        ensures { IfOk result (IsGuardOf looped.now) }
    {
        let names = loop_names(alloc, looped)?;
        let mut inner = Ids::new(alloc);
        let mut checks = Items::new(alloc);
        push_all(
            alloc,
            looped.body.as_slice(),
            &mut inner,
            &names,
            &mut checks,
        )?;
        Ok(Guard {
            index: looped.index.id,
            checks,
        })
    }

    /// Whether all that is asked holds, where the index has the values from `low` to `last - 1`.
    fn holds(&self, store: &Store, low: i64, last: i64, turns: u64) -> bool
        requires { MayBeAsked self.now store.now }
        ensures { result ≡ holds_guard self.now store.now low last turns }
    {
        is_ready(self, store);
        let mut bounds: ArrayVec<Bound, 64> = ArrayVec::new();
        bounds.push(Bound {
            id: self.index,
            range: index_range(low, last),
        });
        fits_all(
            self.checks.as_slice(),
            &mut bounds,
            store,
            self.index,
            turns,
        )
    }

    /// Whether the iterations from `low` to `last - 1` of the loop all end well from this store, as the ranges of the loop's
    /// forms tell: each access without `wrap` lies in its array, no array of a wrapped one is empty, and no inner loop has more
    /// than `turns` turns. The store has to be one from which the loop, a small one, may be entered: with as many scalars as are
    /// declared around the loop, and with its arrays. It takes no memory, and a time that is linear in the accesses and the
    /// terms of their forms, times how many inner loops lie around each other.
    pub fn fits(&self, store: &Store, low: i64, last: i64, turns: u64) -> bool
        requires { MayBeAsked self.now store.now }
        ensures { (l : Loop) → IsGuardOf l self.now → result ≡ guard_of l store.now low last turns }
    {
        if has_none(low, last) {
            true
        } else {
            self.holds(store, low, last, turns)
        }
    }
}
