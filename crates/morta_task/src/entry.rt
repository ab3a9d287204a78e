ghost use Rattle.std.specs.Prelude.{◌≡◌, ◌≤◌, ◌&&◌, length};
ghost use Rattle.morta_task.specs.declared.limits.TheConstants as limits;
ghost use Rattle.nona_tree.specs.declared.trees.Stmt.{For};
ghost use Rattle.nona_tree.specs.Entries.{last_of};
ghost use Rattle.nona_tree.specs.Scope.{IsScoped};
ghost use Rattle.nona_tree.specs.Smallness.{IsSmallLoop};
ghost use Rattle.nona_forms.specs.Guards.{guard_of};
ghost use Rattle.morta_task.specs.Entries.{entered, offers, last, has_stages};

use crate::opening::Opening;
use crate::regions::RegionCode;
use crate::schemes::Scheme;
use nona_num::{gap, offset};
use nona_store::Store;
use std::marker::Model;
use std::snapshot::Snapshot;

/// A coming of the run to a region, with the versions that it offers. For contracts alone it names the loop and the plan of the
/// region and the store of that moment.
#[derive(Drop)]
pub struct Entry {
    number: u32,
    region: u32,
    low: i64,
    high: i64,
    last: i64,
    turns: u64,
    any: bool,
    pipe: bool,
    code: Snapshot<RegionCode>,
    store: Snapshot<Store>,
}

impl Model for Entry {
    ghost use Rattle.std.specs.Coded.{codes};
    ghost use Rattle.nona_tree.specs.contracts.trees.Expr as expr;
    ghost use Rattle.nona_tree.specs.contracts.trees.Stmt as stmt;
    ghost use Rattle.morta_task.specs.Entries.{EntryView};
    ghost use Rattle.morta_task.specs.EntryInside.{view_of, IsEntry};

    ghost Value = { EntryView };

    ghost coded = { Prim.hlevel (codes, expr.the_row.coded, stmt.the_row.coded) };

    ghost view = { view_of };

    ghost invariant = { IsEntry };
}

/// The number behind the last index of a loop from `low` to `high` that may take `turns` turns.
fn last_index(low: i64, high: i64, turns: u64) -> i64
    ensures { result ≡ last_of low high turns }
{
    offset(low, gap(low, high).min(turns))
}

/// Which versions an entry offers beside `Seq`.
#[derive(Clone, Copy)]
struct Offer {
    any: bool,
    pipe: bool,
}

/// The versions of a region's plan, where the guard of its loop holds for the iterations from `low` to `last - 1`. The guard is
/// asked once, and only where the plan has a version.
fn offer_of(code: &RegionCode, low: i64, last: i64, turns: u64, store: &Store) -> Offer
    requires scoped { IsScoped (For code.now.looped) (length store.now.scalars) (length store.now.arrays) }
    requires small { IsSmallLoop code.now.looped }
    ensures any { result.any ≡ (code.now.plan.any && guard_of code.now.looped store.now low last turns) }
    ensures pipe { result.pipe ≡ (has_stages code.now.plan && guard_of code.now.looped store.now low last turns) }
{
    let any = code.plan().any;
    let pipe = !code.plan().pipe.is_empty();
    if any || pipe {
        let holds = code.guard().fits(store, low, last, turns);
        Offer {
            any: any && holds,
            pipe: pipe && holds,
        }
    } else {
        Offer { any, pipe }
    }
}

impl Entry {
    /// The entry that opens so, to the region of this code, in this store. A loop may take `turns` turns, from 1 to `TURNS`,
    /// whenever it is entered. Where the region's plan has a version, its guard is asked; beside that it takes constant time:
    /// nothing of the loop, the plan or the store is copied.
    pub fn begin(opening: Opening, code: &RegionCode, turns: u64, store: &Store) -> Entry
        requires some_turns { 1 ≤ turns }
        requires few_turns { turns ≤ limits.TURNS }
        requires scoped { IsScoped (For code.now.looped) (length store.now.scalars) (length store.now.arrays) }
        requires small { IsSmallLoop code.now.looped }
        ensures { result ≡ entered opening code.now.looped code.now.plan turns store.now }
    {
        let Opening {
            number,
            region,
            low,
            high,
        } = opening;
        let last = last_index(low, high, turns);
        let offer = offer_of(code, low, last, turns, store);
        Entry {
            number,
            region,
            low,
            high,
            last,
            turns,
            any: offer.any,
            pipe: offer.pipe,
            code: Snapshot::of(code),
            store: Snapshot::of(store),
        }
    }

    /// The same entry once more, whose code and store these are. Takes constant time: the guard isn't asked again.
    pub fn again(&self, code: &RegionCode, store: &Store) -> Entry
        requires looped { code.now.looped ≡ self.now.looped }
        requires plan { code.now.plan ≡ self.now.plan }
        requires store { store.now ≡ self.now.store }
        ensures { result ≡ self.now }
    {
        Entry {
            number: self.number,
            region: self.region,
            low: self.low,
            high: self.high,
            last: self.last,
            turns: self.turns,
            any: self.any,
            pipe: self.pipe,
            code: Snapshot::of(code),
            store: Snapshot::of(store),
        }
    }

    /// Its number in the run, from 1.
    pub fn number(&self) -> u32
        ensures { result ≡ self.now.number }
    {
        self.number
    }

    /// The number of its region, from 1.
    pub fn region(&self) -> u32
        ensures { result ≡ self.now.region }
    {
        self.region
    }

    /// The value of the loop's low bound: the first index.
    pub fn low(&self) -> i64
        ensures { result ≡ self.now.low }
    {
        self.low
    }

    /// The value of the loop's high bound.
    pub fn high(&self) -> i64
        ensures { result ≡ self.now.high }
    {
        self.high
    }

    /// The number behind the last index: `low` where the loop has no turn, and else `low` and as many as it has turns, of
    /// which it takes no more than it may.
    pub fn last(&self) -> i64
        ensures { result ≡ last self.now }
    {
        self.last
    }

    /// How many turns a loop may take whenever it is entered: from 1 to `TURNS`.
    pub fn turns(&self) -> u64
        ensures turns { result ≡ self.now.turns }
        ensures some { 1 ≤ result }
        ensures few { result ≤ limits.TURNS }
    {
        self.turns
    }

    /// Whether it offers a version of the loop. Each entry offers `Seq`.
    pub fn offers(&self, scheme: Scheme) -> bool
        ensures { result ≡ offers self.now scheme }
    {
        match scheme {
            Scheme::Seq => true,
            Scheme::Any => self.any,
            Scheme::Pipe => self.pipe,
        }
    }
}
