ghost use Rattle.std.specs.Prelude.{◌≡◌};
ghost use Rattle.nona_plans.specs.Units.{reductions_of};
ghost use Rattle.nona_guard.specs.Guards.{IsGuardOf};

use nona_guard::Guard;
use nona_num::Fold;
use nona_tree::{Loop, Plan};
use nona_units::Units;
use std::marker::Model;
use std::snapshot::Snapshot;

/// A region of a program: the code of the statements at the top of its loop's body, the plan of the versions that it has
/// beside `seq`, the guard that tells of an entry whether they may run, and the reductions of the loop. Contracts see the loop
/// and the plan; nothing of the loop's tree is kept when the program runs.
#[derive(Drop)]
pub struct RegionCode {
    looped: Snapshot<Loop>,
    place: u32,
    plan: Plan,
    guard: Guard,
    reductions: Vec<(u32, Fold)>,
    units: Units,
}

impl Model for RegionCode {
    ghost use Rattle.std.specs.Coded.{codes};
    ghost use Rattle.nona_tree.specs.contracts.trees.Expr as expr;
    ghost use Rattle.nona_tree.specs.contracts.trees.Stmt as stmt;
    ghost use Rattle.morta_task.specs.RegionView.{RegionView};
    ghost use Rattle.morta_task.specs.RegionInside.{region_of, IsRegion};

    ghost Value = { RegionView };

    ghost coded = { Prim.hlevel (codes, expr.the_row.coded, stmt.the_row.coded) };

    ghost view = { region_of };

    ghost invariant = { IsRegion };
}

impl RegionCode {
    /// The region of this loop, with a plan, the loop's guard and its reductions, and the code of the statements of its body.
    /// Nothing of the loop is copied.
    pub fn of(
        looped: &Loop,
        plan: Plan,
        guard: Guard,
        reductions: Vec<(u32, Fold)>,
        units: Units,
    ) -> RegionCode
        requires units { units.body ≡ looped.now.body }
        requires guard { IsGuardOf looped.now guard }
        requires reductions { reductions.items ≡ reductions_of looped.now }
        ensures { result ≡ record { looped = looped.now; plan = plan } }
    {
        RegionCode {
            looped: Snapshot::of(looped),
            place: looped.at,
            plan,
            guard,
            reductions,
            units,
        }
    }

    /// The place of its loop's word `for`.
    pub fn place(&self) -> u32
        ensures { result ≡ self.now.looped.at }
    {
        self.place
    }

    /// Its plan.
    pub fn plan(&self) -> &Plan
        ensures { result.now ≡ self.now.plan }
    {
        &self.plan
    }

    /// The guard of its loop.
    pub fn guard(&self) -> &Guard
        ensures { IsGuardOf self.now.looped result.now }
    {
        &self.guard
    }

    /// The reductions of its loop in order of id: the scalars declared before the loop that its body names as the left side of
    /// an assignment by one fold alone, each with this fold.
    pub fn reductions(&self) -> &[(u32, Fold)]
        ensures { result.now ≡ reductions_of self.now.looped }
    {
        &self.reductions
    }

    /// The code of the statements at the top of its loop's body, in text order.
    pub fn units(&self) -> &Units
        ensures { result.now.body ≡ self.now.looped.body }
    {
        &self.units
    }
}
