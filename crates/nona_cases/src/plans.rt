//! A plan and its copy.

use nona_tree::{Plan, Stage};
use sqlite_items::Items;
use std::alloc::{AllocError, Global};
use std::test::Fail;

/// A stage of these units, which one task runs alone.
fn stage(alloc: Global, units: &[u32]) -> Result<Stage, AllocError> {
    Ok(Stage {
        sequential: true,
        units: Items::from_slice(alloc, units)?,
    })
}

/// Two stages, of which the first one hands two locals on.
fn two_stages(alloc: Global) -> Result<Plan, AllocError> {
    let mut pipe = Items::new(alloc);
    pipe.push(stage(alloc, &[1, 3])?)?;
    pipe.push(stage(alloc, &[2])?)?;
    let mut crossing = Items::new(alloc);
    crossing.push(Items::from_slice(alloc, &[4, 7])?)?;
    Ok(Plan {
        any: false,
        pipe,
        crossing,
    })
}

#[test]
fn a_plan_and_its_copy_look_alike(rt: HostRuntime) -> Result<(), Fail> {
    let alloc = rt.alloc();
    let plan = two_stages(alloc)?;
    let text = format!(in alloc; "{plan:?}")?;
    let copy = plan.copy(alloc)?;
    let copy_text = format!(in alloc; "{copy:?}")?;
    assert_eq!(rt; copy_text.as_str(), text.as_str());
    Ok(())
}
