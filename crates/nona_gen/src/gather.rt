//! The loops of a program that are regions, in text order.

ghost use Rattle.std.specs.Prelude.{◌≡◌, ◌++◌, OnOk};
ghost use Rattle.nona_tree.specs.Entries.{regions_in, regions_all};
ghost use Rattle.nona_gen.specs.Gathered.{is_seen, loops_of};

use nona_stages::Plans;
use nona_tree::{Loop, Stmt};
use std::alloc::AllocError;

/// Adds the loops in statements that are regions, from outside in and none inside another one, behind those that are there.
#[cycle(gather)]
pub(crate) fn gather_all<'a>(
    body: &'a [Stmt],
    plans: &Plans<'_>,
    loops: &mut Vec<&'a Loop>,
) -> Result<(), AllocError>
    ensures { OnOk result (loops_of loops.new.items ≡ loops_of loops.old.items ++ regions_all (is_seen plans.now) body.now) }
{
    for s in body {
        gather(s, plans, loops)?;
    }
    Ok(())
}

/// Adds those in a statement: none inside a region, and those of all blocks of another one.
#[cycle(gather)]
fn gather<'a>(s: &'a Stmt, plans: &Plans<'_>, loops: &mut Vec<&'a Loop>) -> Result<(), AllocError>
    ensures { OnOk result (loops_of loops.new.items ≡ loops_of loops.old.items ++ regions_in (is_seen plans.now) s.now) }
{
    match s {
        Stmt::If { test: _, yes, no } => {
            gather_all(yes.as_slice(), plans, loops)?;
            gather_all(no.as_slice(), plans, loops)
        }
        Stmt::While {
            test: _,
            body,
            at: _,
        } => gather_all(body.as_slice(), plans, loops),
        Stmt::For(l) => {
            if !plans.has(l) {
                return gather_all(l.body.as_slice(), plans, loops);
            }
            loops.push(l)?;
            Ok(())
        }
        _ => Ok(()),
    }
}
