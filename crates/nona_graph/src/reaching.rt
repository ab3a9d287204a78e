//! To which units walks lead, by sets of units that grow in place.

ghost use Rattle.std.specs.Prelude.{◌≡◌, ◌==◌, ◌&&◌, ◌||◌, ◌≤◌, ℕ, suc, List, length, map};
ghost use Rattle.nona_plans.specs.Walks.{IsUnit};
ghost use Rattle.nona_graph.specs.Sets.{has_at, passed_row, ShowWalks};

use crate::sets::{UnitSet, only, passed, union};

/// Lets each row that has a unit have all that `via` has.
fn pass(rows: &mut [UnitSet], unit: u32, via: UnitSet)
    requires { IsUnit 64 unit }
    ensures { rows.new ≡ map (passed_row unit via) rows.old }
{
    for i in 0..rows.len() {
        rows[i] = passed(rows[i], unit, via);
    }
}

/// Where the rows show the walks whose units between are before `unit`, they show those through `unit` too then.
fn pass_unit(rows: &mut [UnitSet], unit: u32)
    requires unit { IsUnit 64 unit }
    requires there { unit ≤ length rows.now }
    ensures size { length rows.new ≡ length rows.old }
    ensures walks { (edges : List (ℕ × ℕ)) (k : ℕ) → unit ≡ suc k → ShowWalks edges k rows.old → ShowWalks edges unit rows.new }
{
    let via = rows[(unit - 1) as usize];
    pass(rows, unit, via);
}

/// Where the rows show the edges, they show all walks then.
pub fn pass_all(rows: &mut [UnitSet])
    requires { length rows.now ≤ 64 }
    ensures size { length rows.new ≡ length rows.old }
    ensures walks { (edges : List (ℕ × ℕ)) → ShowWalks edges 0 rows.old → ShowWalks edges (length rows.old) rows.new }
{
    let count = rows.len() as u32;
    for k in 0..count {
        pass_unit(rows, k + 1);
    }
}

/// Lets the row of an edge's first unit have its second.
pub fn add_edge(rows: &mut [UnitSet], edge: (u32, u32))
    requires few { length rows.now ≤ 64 }
    requires units { IsUnit (length rows.now) edge.0 × IsUnit (length rows.now) edge.1 }
    ensures size { length rows.new ≡ length rows.old }
    ensures edges { (i j : ℕ) → IsUnit (length rows.old) i → IsUnit (length rows.old) j
        → has_at rows.new i j ≡ (has_at rows.old i j || ((edge.0 == i) && (edge.1 == j))) }
{
    let at = (edge.0 - 1) as usize;
    rows[at] = union(rows[at], only(edge.1));
}
