//! Laws of machines and of replays. Each function does nothing when it is called: its contract is the law.

ghost use Rattle.std.specs.Prelude.{◌≡◌, ℕ, ℤ, ◌≤◌, List, length, sum_by, take};
ghost use Rattle.nona_tree.specs.declared.outcomes.Outcome.TheVariants as outcome;
ghost use Rattle.nona_tree.specs.Memory.{Memory};
ghost use Rattle.morta_task.specs.declared.schemes.Ask.{Ask};
ghost use Rattle.morta_task.specs.Entries.{EntryView, loop_of};
ghost use Rattle.morta_task.specs.Legal.{EndsAll, last_in};
ghost use Rattle.morta_task.specs.LogView.{LogView};
ghost use Rattle.morta_script.specs.declared.script.Command.{Command};
ghost use Rattle.weave.specs.Following.{follow};
ghost use Rattle.net_flow.specs.Machines.{RunsOut};
ghost use Rattle.net_flow.specs.MoveCounts.{pipeline_moves, sharing_moves};
ghost use Rattle.net_flow.specs.Net.{Net, Task, moves_of};
ghost use Rattle.net_pipe.specs.Kept.{most_moves as most_in_stages};
ghost use Rattle.net_share.specs.Kept.{most_moves};
ghost use Rattle.net_pipe.specs.Entries.{MayPipe, staging_in};
ghost use Rattle.net_pipe.specs.Works.{Values, shape_of};
ghost use Rattle.weave.specs.Replay.{IsReplay};
ghost use Rattle.weave.specs.SeqNet.{SeqNet, seq_machine, begun_net};
ghost use Rattle.weave.specs.Shared.{begun_shared, shared_machine};
ghost use Rattle.weave.specs.Staged.{begun_staged, staged_machine};
ghost use Rattle.weave.specs.SeqState.{HasMoved, HasEndedAfter};

/// Says how often the task of an interval under `seq` moves, wherever commands fall: at each moment once for each claim that was
/// granted and once for each unit that is done, and at the end once more for the claim that was refused, or up to the unit that
/// stopped it. Where no command falls and no unit stops it, all claims up to the limit were granted.
pub fn seq_moves()
    ensures each { (e : EntryView) (before limit : ℕ) (m : Memory) (commands : List Command)
        → HasMoved (follow seq_machine commands (begun_net e before limit m)).net }
    ensures end { (e : EntryView) (before limit : ℕ) (m : Memory) (commands : List Command) (end : SeqNet)
        → RunsOut seq_machine (follow seq_machine commands (begun_net e before limit m)).net end
        → HasEndedAfter end.end end.moves end.granted (length e.looped.body) }
    ensures granted { (e : EntryView) (before limit : ℕ) (m : Memory) (end : SeqNet)
        → RunsOut seq_machine (begun_net e before limit m) end → end.end ≡ outcome.Done → end.granted ≡ limit }
{}

/// Says how often the tasks of an interval under `any` move, wherever commands fall: in all, once for each claim that was granted,
/// once for each unit of each iteration, and once for each task, whose last claim is refused; and none of them moved more often than
/// all together. No more claims were granted than the limit.
pub fn shared_moves()
    ensures end { (e : EntryView) (before limit workers : ℕ) (commands : List Command) (end : Net Memory (Unit {0}))
        → RunsOut (shared_machine e before workers) (follow (shared_machine e before workers) commands (begun_shared e before limit workers)).net end
        → moves_of end ≡ sharing_moves workers (length e.looped.body) end.granted }
    ensures most { (tasks : List (Task Memory)) → most_moves tasks ≤ sum_by (λ (x : Task Memory). x.moves) tasks }
    ensures granted { (e : EntryView) (before limit workers : ℕ) (commands : List Command) (end : Net Memory (Unit {0}))
        → RunsOut (shared_machine e before workers) (follow (shared_machine e before workers) commands (begun_shared e before limit workers)).net end
        → end.granted ≤ limit }
{}

/// Says how often the tasks of an interval under `pipe` move, wherever commands fall, where its iterations may go through the stages: in
/// all, for each claim that was granted, the claim, each unit, and a send and a receive between two stages; and once more for the
/// refused claim and for each End that is sent and received. None of them moved more often than all together. No more claims were
/// granted than the limit.
pub fn staged_moves()
    ensures end { (e : EntryView) (before limit workers capacity : ℕ) (commands : List Command) (end : Net Values (List ℤ))
        → MayPipe (loop_of e) e.plan workers capacity before limit
        → RunsOut (staged_machine e before workers capacity)
        (follow (staged_machine e before workers capacity) commands (begun_staged e before limit workers capacity)).net end
        → moves_of end ≡ pipeline_moves (shape_of (staging_in (loop_of e) e.plan workers capacity before)) end.granted }
    ensures most { (tasks : List (Task Values)) → most_in_stages tasks ≤ sum_by (λ (x : Task Values). x.moves) tasks }
    ensures granted { (e : EntryView) (before limit workers capacity : ℕ) (commands : List Command) (end : Net Values (List ℤ))
        → MayPipe (loop_of e) e.plan workers capacity before limit
        → RunsOut (staged_machine e before workers capacity)
        (follow (staged_machine e before workers capacity) commands (begun_staged e before limit workers capacity)).net end
        → end.granted ≤ limit }
{}

/// Says that a machine runs out to one end.
pub fn runs_out_to_one()
    ensures one_task { (net one other : SeqNet) → RunsOut seq_machine net one → RunsOut seq_machine net other → one ≡ other }
    ensures shared_tasks { (e : EntryView) (before workers : ℕ) (net one other : Net Memory (Unit {0}))
        → RunsOut (shared_machine e before workers) net one → RunsOut (shared_machine e before workers) net other → one ≡ other }
    ensures staged_tasks { (e : EntryView) (before workers capacity : ℕ) (net one other : Net Values (List ℤ))
        → RunsOut (staged_machine e before workers capacity) net one → RunsOut (staged_machine e before workers capacity) net other → one ≡ other }
{}

/// Says that the replay is one: two logs of the replay of the same commands by the same requests, over the same entries, agree as
/// far as the shorter one goes, and two that have come to the end of the run are equal. So what ran of a replay is its first part.
pub fn replays_agree()
    ensures first_part { (asks : EntryView → LogView → Ask) (capacity : ℕ) (commands : List Command) (es : List EntryView) (l k : LogView)
        → IsReplay asks capacity commands es l → IsReplay asks capacity commands es k
        → length l.intervals ≤ length k.intervals → l.intervals ≡ take (length l.intervals) k.intervals }
    ensures whole { (asks : EntryView → LogView → Ask) (capacity : ℕ) (commands : List Command) (es : List EntryView) (l k : LogView)
        → IsReplay asks capacity commands es l → IsReplay asks capacity commands es k
        → EndsAll es (last_in l.intervals) → EndsAll es (last_in k.intervals) → l ≡ k }
{}
