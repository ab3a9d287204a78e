//! Laws of the iterations of an entry that tasks share. Each function does nothing when it is called: its contract is the law.

ghost use Rattle.std.specs.Prelude.{◌≡◌, ℕ, ◌<◌, ◌≤◌, ◌+◌, ℤ, List, length, map, true, false};
ghost use Rattle.nona_tree.specs.declared.trees.Loop.{Loop};
ghost use Rattle.nona_tree.specs.Entries.{Entry, after};
ghost use Rattle.nona_tree.specs.Memory.{Memory};
ghost use Rattle.nona_tree.specs.Run.{done};
ghost use Rattle.nona_plans.specs.Units.{reductions_of};
ghost use Rattle.net_flow.specs.Machines.{RunsOut, is_over};
ghost use Rattle.net_flow.specs.MoveCounts.{sharing_moves};
ghost use Rattle.net_flow.specs.Net.{Net, Task, is_finished, moves_of, net_machine, paused_net, step, task_at};
ghost use Rattle.net_share.specs.Begins.{AreApart, AreThere};
ghost use Rattle.net_share.specs.Entries.{IsEntryNet, MayShare, doing_in, entry_net, work_in};
ghost use Rattle.net_share.specs.May.{MayStep};
ghost use Rattle.net_share.specs.Settled.{IsSettledFrom};

/// Says that the net of an interval whose tasks share an entry's iterations stands before its first step.
pub fn sharing_begins()
    ensures { (e : Entry) (first limit W : ℕ) → MayShare e first limit → IsEntryNet e first limit W (entry_net e first limit W) }
{}

/// Says that each step of a task that hasn't finished and each pause keep such a net; so it stands after any steps and pauses. And
/// the next step of a task can't fail.
pub fn sharing_goes_on()
    ensures steps { (e : Entry) (first limit W t : ℕ) (net : Net Memory (Unit {0})) → MayShare e first limit → IsEntryNet e first limit W net
        → t < W → is_finished (task_at (work_in e first W) net t).position ≡ false → IsEntryNet e first limit W (step (work_in e first W) net t) }
    ensures pauses { (e : Entry) (first limit W : ℕ) (net : Net Memory (Unit {0})) → MayShare e first limit → IsEntryNet e first limit W net
        → IsEntryNet e first limit W (paused_net net) }
    ensures may { (e : Entry) (first limit W t : ℕ) (net : Net Memory (Unit {0})) → MayShare e first limit → IsEntryNet e first limit W net
        → t < W → MayStep (doing_in e first) (task_at (work_in e first W) net t) }
{}

/// Says that the scalars of a loop's reductions are there where the loop is, and that none has two.
pub fn reductions_stand()
    ensures there { (l : Loop) (scalars : List ℤ) → l.index.id ≤ length scalars → AreThere (reductions_of l) scalars }
    ensures apart { (l : Loop) → AreApart (reductions_of l) }
{}

/// Says that once all tasks have finished, a store that is settled from what they saw is the one that one thread leaves behind the
/// granted iterations; how often they have moved, and that no more was granted than the limit; and that they come to their end.
pub fn sharing_settles()
    ensures settled { (e : Entry) (first limit W : ℕ) (net : Net Memory (Unit {0})) (m : Memory) → MayShare e first limit
        → IsEntryNet e first limit W net → is_over (net_machine (work_in e first W)) net ≡ true
        → IsSettledFrom (after e first).store (reductions_of e.looped) (map (λ (x : Task Memory). x.values) net.tasks) m
        → after e (first + net.granted) ≡ done m }
    ensures moves { (e : Entry) (first limit W : ℕ) (net : Net Memory (Unit {0})) → IsEntryNet e first limit W net
        → is_over (net_machine (work_in e first W)) net ≡ true → moves_of net ≡ sharing_moves W (length e.looped.body) net.granted }
    ensures granted { (e : Entry) (first limit W : ℕ) (net : Net Memory (Unit {0})) → IsEntryNet e first limit W net → net.granted ≤ limit }
    ensures ends { (e : Entry) (first limit W : ℕ) (net : Net Memory (Unit {0})) → MayShare e first limit → IsEntryNet e first limit W net
        → (end : Net Memory (Unit {0})) × RunsOut (net_machine (work_in e first W)) net end × IsEntryNet e first limit W end
        × (is_over (net_machine (work_in e first W)) end ≡ true) }
{}
