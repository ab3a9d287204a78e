//! Regions by the places of their words `for`.

ghost use Rattle.std.specs.Prelude.{◌≡◌, IfOk, OnOk};
ghost use Rattle.nona_tree.specs.Entries.{is_among};
ghost use Rattle.nona_stages.specs.Seen.{regions_of, seen_places, plan_at};
ghost use Rattle.nona_stages.specs.PlansInside.{HasAdded};

use crate::planning::without_stages;
use crate::seen::Seen;
use nona_tree::{Loop, Plan};
use std::alloc::{AllocError, Global};
use std::collections::BTreeMap;
use std::marker::Model;

/// The regions that are seen of a program, by the places of their words `for`. Contracts see all that is seen. Where two regions
/// have one place, the first one counts.
#[derive(Drop)]
pub struct Plans<'a> {
    seen: &'a [Seen],
    /// For each place of a region, the index of the first one.
    by_place: BTreeMap<u32, usize>,
}

impl<'a> Model for Plans<'a> {
    ghost use Rattle.std.specs.Prelude.{List};
    ghost use Rattle.nona_stages.specs.declared.seen.Seen.{Seen};
    ghost use Rattle.nona_stages.specs.PlansInside.{IsPlans};

    ghost Value = { List Seen };

    ghost view = { λ a. a.seen.now };

    ghost invariant = { IsPlans };
}

/// Adds what is seen with this index in front of what was added.
fn add(one: &Seen, index: usize, by_place: &mut BTreeMap<u32, usize>) -> Result<(), AllocError>
    ensures { OnOk result (HasAdded by_place.old by_place.new one.now index) }
{
    match one {
        Seen::Region(region) => {
            by_place.insert(region.at, index)?;
            Ok(())
        }
        Seen::Plain { at: _, why: _ } => Ok(()),
    }
}

impl<'a> Plans<'a> {
    /// The regions that are seen. Takes time in proportion to their number and its logarithm. It is refused for want of memory
    /// alone.
    pub fn of(alloc: Global, seen: &'a [Seen]) -> Result<Plans<'a>, AllocError>
        ensures { IfOk result (λ plans. plans ≡ seen.now) }
    {
        let mut by_place = BTreeMap::new(alloc);
        'regions: for passed in 0..seen.len() {
            let at = seen.len() - 1 - passed;
            add(&seen[at], at, &mut by_place)?;
        }
        Ok(Plans { seen, by_place })
    }

    /// Whether a loop is a region: whether its word `for` stands at the place of one. Takes time logarithmic in their number.
    pub fn has(&self, looped: &Loop) -> bool
        ensures { result ≡ is_among (seen_places self.now) looped.now }
    {
        self.by_place.contains_key(&looped.at)
    }

    /// The plan of a loop: that of the region at its place, and one with no version beside `seq` where there is none. It is
    /// refused for want of memory alone.
    pub fn plan(&self, alloc: Global, looped: &Loop) -> Result<Plan, AllocError>
        ensures { IfOk result (λ plan. plan ≡ plan_at (regions_of self.now) looped.now.at) }
    {
        match self.by_place.get(&looped.at) {
            Some(at) => match &self.seen[*at] {
                Seen::Region(region) => region.plan.copy(alloc),
                Seen::Plain { at: _, why: _ } => Ok(without_stages(alloc, false)),
            },
            None => Ok(without_stages(alloc, false)),
        }
    }
}
