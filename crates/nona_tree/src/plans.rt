ghost use Rattle.std.specs.Prelude.{◌≡◌, IfOk};

use sqlite_items::Items;
use std::alloc::{AllocError, Global};

/// A group of units that one or more tasks run together in each turn of a loop.
#[derive(Debug, Drop)]
pub struct Stage {
    /// Whether one task alone may run it, which takes the turns in order.
    pub sequential: bool,
    /// Its units by their numbers in the loop, from 1, in rising order.
    pub units: Items<u32>,
}

impl Stage {
    /// An equal stage. The one error is that memory ran out.
    pub fn copy(&self, alloc: Global) -> Result<Stage, AllocError>
        ensures { IfOk result (λ s. s ≡ self.now) }
    {
        Ok(Stage {
            sequential: self.sequential,
            units: Items::from_slice(alloc, self.units.as_slice())?,
        })
    }
}

/// The ways in which the turns of a loop may be shared out besides one after another.
#[derive(Debug, Drop)]
pub struct Plan {
    /// Whether each task may take any turn whole.
    pub any: bool,
    /// The stages that a turn goes through, first to last. It is empty where there is no such way.
    pub pipe: Items<Stage>,
    /// For each stage but the last, the ids of the locals that go on from it to the next one, in rising order. It is
    /// empty where there are no stages.
    pub crossing: Items<Items<u32>>,
}

impl Plan {
    /// An equal plan. The one error is that memory ran out.
    pub fn copy(&self, alloc: Global) -> Result<Plan, AllocError>
        ensures { IfOk result (λ p. p ≡ self.now) }
    {
        Ok(Plan {
            any: self.any,
            pipe: copy_stages(self.pipe.as_slice(), alloc)?,
            crossing: copy_lists(self.crossing.as_slice(), alloc)?,
        })
    }
}

/// Equal stages, in the same order.
fn copy_stages(stages: &[Stage], alloc: Global) -> Result<Items<Stage>, AllocError>
    ensures { IfOk result (λ copies. copies ≡ stages.now) }
{
    let mut copies = Items::new(alloc);
    for stage in stages {
        copies.push(stage.copy(alloc)?)?;
    }
    Ok(copies)
}

/// Equal lists, in the same order.
fn copy_lists(lists: &[Items<u32>], alloc: Global) -> Result<Items<Items<u32>>, AllocError>
    ensures { IfOk result (λ copies. copies ≡ lists.now) }
{
    let mut copies = Items::new(alloc);
    for list in lists {
        copies.push(Items::from_slice(alloc, list.as_slice())?)?;
    }
    Ok(copies)
}
