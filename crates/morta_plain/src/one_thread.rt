ghost use Rattle.std.specs.Prelude.{◌≡◌, ◌≤◌, ◌+ℤ◌, pos, None};
ghost use Rattle.std.specs.Int.{int_gap};
ghost use Rattle.morta_task.specs.Entries.{IsWithin, last};
ghost use Rattle.morta_task.specs.Running.{IsIn};
ghost use Rattle.morta_plain.specs.OneThread.{one_thread};

use morta_task::{Config, Cut, Entry, Handoff, Image, Morta, Ran, Runner};
use nona_num::offset;
use nona_store::Store;
use nona_tree::Outcome;
use nona_units::{Units, turn_units};
use std::alloc::AllocError;

/// A runner that takes the iterations one after another, whatever is asked for. It runs the version `seq` alone, and an
/// interval goes on to its limit, or to an iteration that stops by a trap or runs out of turns: it never pauses. It takes one
/// tick.
#[derive(Debug, Drop)]
pub struct OneThread;

/// What an interval hands on and tells that ended in front of this index, with this store.
fn ended(to: i64, store: Store, cut: Cut) -> (Handoff, Ran)
    ensures handoff { result.0 ≡ record { next = to; store = store } }
    ensures ran { result.1 ≡ record { to = to; work = None; ticks = 1; cut = cut } }
{
    let ran = Ran {
        to,
        work: None,
        ticks: 1,
        cut,
    };
    (Handoff { next: to, store }, ran)
}

/// The code of the statements of the loop that an entry names.
fn units_of<'a>(image: &'a Image, entry: &Entry) -> &'a Units
    requires { IsIn entry.now image.now }
    ensures { result.now.body ≡ entry.now.looped.body }
{
    image.region(entry.region()).units()
}

/// The index that lies so many iterations behind this one, where the entry has as many.
fn index_on(entry: &Entry, from: i64, count: u64) -> i64
    requires within { IsWithin entry.now from }
    requires room { count ≤ int_gap from (last entry.now) }
    ensures { result ≡ from +ℤ pos count }
{
    let _last = entry.last();
    offset(from, count)
}

impl Morta for OneThread {
    ghost promise = { one_thread };
}

impl Runner for OneThread {
    ghost runs_only = { λ m log h. tt };

    ghost led = { record { by_any = λ m log e from ask led hand h. tt; untold = λ m log e i led h. tt } };

    fn interval(
        &mut self,
        image: &Image,
        entry: &Entry,
        handoff: Handoff,
        _config: Config,
        limit: u64,
    ) -> Result<(Handoff, Ran), AllocError> {
        let turns = entry.turns();
        let units = units_of(image, entry);
        let mut frame = units.frame()?;
        let Handoff { next, mut store } = handoff;
        'iterations: for k in 0..limit {
            let index = index_on(entry, next, k);
            match turn_units(units, index, &mut frame, turns, &mut store)? {
                Outcome::Done => {}
                end => {
                    let cut = Cut::of(end, k + 1, limit);
                    return Ok(ended(index_on(entry, next, k + 1), store, cut));
                }
            }
        }
        Ok(ended(index_on(entry, next, limit), store, Cut::Limit))
    }
}
