//! Laws of the iterations of an entry that go through the stages of a plan. Each function does nothing when it is called: its contract
//! is the law.

ghost use Rattle.std.specs.Prelude.{◌≡◌, ℤ, ℕ, ◌<◌, ◌≤◌, ◌+◌, List, length, map, true, false};
ghost use Rattle.nona_tree.specs.declared.plans.Plan.{Plan};
ghost use Rattle.nona_tree.specs.Entries.{Entry, after};
ghost use Rattle.nona_tree.specs.Memory.{Memory};
ghost use Rattle.nona_tree.specs.Run.{done};
ghost use Rattle.nona_plans.specs.Units.{reductions_of};
ghost use Rattle.net_flow.specs.Machines.{RunsOut, HasMover, is_over};
ghost use Rattle.net_flow.specs.MoveCounts.{pipeline_moves};
ghost use Rattle.net_flow.specs.Net.{Net, Task, is_finished, moves_of, net_machine, paused_net, step, task_at};
ghost use Rattle.net_flow.specs.Shapes.{IsPipeline};
ghost use Rattle.net_pipe.specs.Works.{Values, shape_of};
ghost use Rattle.net_pipe.specs.Entries.{IsPipeNet, MayPipe, MayStep, pipe_net, pipe_work, staging_in};
ghost use Rattle.net_pipe.specs.Settled.{IsSettledFromStages};
ghost use Rattle.net_pipe.specs.Steps.{AreFew, CanStep};

/// Says that the net of an interval whose iterations go through the stages of a plan stands before its first step, and that it is a
/// pipeline.
pub fn stages_begin()
    ensures net { (e : Entry) (p : Plan) (W c first limit : ℕ) → MayPipe e p W c first limit
        → IsPipeNet e p W c first limit (pipe_net e p W c first limit) }
    ensures shape { (e : Entry) (p : Plan) (W c first limit : ℕ) → MayPipe e p W c first limit → IsPipeline (shape_of (staging_in e p W c first)) }
{}

/// Says that each step of a task that hasn't finished and each pause keep such a net; so it stands after any steps and pauses. The next
/// step of a task can't fail, and can be done where the counts of moves have 64 bits; and where not all have finished, one of them
/// moves.
pub fn stages_go_on()
    ensures steps { (e : Entry) (p : Plan) (W c first limit t : ℕ) (net : Net Values (List ℤ)) → MayPipe e p W c first limit
        → IsPipeNet e p W c first limit net → t < length net.tasks → is_finished (task_at (pipe_work e p W c first) net t).position ≡ false
        → IsPipeNet e p W c first limit (step (pipe_work e p W c first) net t) }
    ensures pauses { (e : Entry) (p : Plan) (W c first limit : ℕ) (net : Net Values (List ℤ)) → IsPipeNet e p W c first limit net
        → IsPipeNet e p W c first limit (paused_net net) }
    ensures may { (e : Entry) (p : Plan) (W c first limit t : ℕ) (net : Net Values (List ℤ)) → MayPipe e p W c first limit
        → IsPipeNet e p W c first limit net → t < length net.tasks → MayStep (staging_in e p W c first) (task_at (pipe_work e p W c first) net t) }
    ensures can { (e : Entry) (p : Plan) (W c first limit t : ℕ) (net : Net Values (List ℤ)) → MayPipe e p W c first limit
        → AreFew (staging_in e p W c first) limit → IsPipeNet e p W c first limit net → t < length net.tasks
        → CanStep (staging_in e p W c first) net t }
    ensures never_stuck { (e : Entry) (p : Plan) (W c first limit : ℕ) (net : Net Values (List ℤ)) → MayPipe e p W c first limit
        → IsPipeNet e p W c first limit net → is_over (net_machine (pipe_work e p W c first)) net ≡ false
        → HasMover (net_machine (pipe_work e p W c first)) net }
{}

/// Says that once all tasks have finished, a store that is settled from what they saw is the one that one thread leaves behind the
/// granted iterations, wherever pauses fell; how often they have moved, and that no more was granted than the limit; and that they
/// come to their end.
pub fn stages_settle()
    ensures settled { (e : Entry) (p : Plan) (W c first limit : ℕ) (net : Net Values (List ℤ)) (m : Memory) → MayPipe e p W c first limit
        → IsPipeNet e p W c first limit net → is_over (net_machine (pipe_work e p W c first)) net ≡ true
        → IsSettledFromStages (after e first).store (reductions_of e.looped) (map (λ (x : Task Values). x.values.store) net.tasks) m
        → after e (first + net.granted) ≡ done m }
    ensures moves { (e : Entry) (p : Plan) (W c first limit : ℕ) (net : Net Values (List ℤ)) → MayPipe e p W c first limit
        → IsPipeNet e p W c first limit net → is_over (net_machine (pipe_work e p W c first)) net ≡ true
        → moves_of net ≡ pipeline_moves (shape_of (staging_in e p W c first)) net.granted }
    ensures granted { (e : Entry) (p : Plan) (W c first limit : ℕ) (net : Net Values (List ℤ)) → IsPipeNet e p W c first limit net
        → net.granted ≤ limit }
    ensures ends { (e : Entry) (p : Plan) (W c first limit : ℕ) (net : Net Values (List ℤ)) → MayPipe e p W c first limit
        → IsPipeNet e p W c first limit net → (end : Net Values (List ℤ)) × RunsOut (net_machine (pipe_work e p W c first)) net end
        × IsPipeNet e p W c first limit end × (is_over (net_machine (pipe_work e p W c first)) end ≡ true) }
{}
