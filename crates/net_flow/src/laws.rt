//! Laws of the nets of intervals. Each function does nothing when it is called: its contract is the law. The tasks of these nets
//! note the numbers of their iterations, so that the laws can say who did what.

ghost use Rattle.std.specs.Prelude.{◌≡◌, ℕ, ◌<◌, ◌≤◌, true, false, List, length};
ghost use Rattle.net_flow.specs.Machines.{is_over, HasMover, RunsOut};
ghost use Rattle.net_flow.specs.Located.{IsLocated};
ghost use Rattle.net_flow.specs.MoveCounts.{pipeline_moves, sharing_moves};
ghost use Rattle.net_flow.specs.Net.{Net, step, paused_net, is_finished, task_at, moves_of};
ghost use Rattle.net_flow.specs.Shapes.{Shape, IsPipeline, IsTask};
ghost use Rattle.net_flow.specs.Sharing.{sharing_shape};
ghost use Rattle.net_flow.specs.Tracing.{tracing, traced_net, traced_machine, IsTraced, IsTracedSharing, HasNoted, AreClaimants, IsClaimedOnce};

/// Says that the invariant of a pipeline stands before its first step, and that each step of a task that hasn't finished and each
/// pause keep it. So it stands after any steps and pauses.
pub fn pipeline_keeps()
    ensures begins { (shape : Shape) (limit : ℕ) → IsPipeline shape → IsTraced shape limit (traced_net shape limit) }
    ensures steps { (shape : Shape) (limit t : ℕ) (net : Net (List ℕ) ℕ) → IsPipeline shape → IsTraced shape limit net → t < length net.tasks
        → is_finished (task_at (tracing shape) net t).position ≡ false → IsTraced shape limit (step (tracing shape) net t) }
    ensures pauses { (shape : Shape) (limit : ℕ) (net : Net (List ℕ) ℕ) → IsPipeline shape → IsTraced shape limit net
        → IsTraced shape limit (paused_net net) }
{}

/// Says which iterations the tasks of a pipeline do. No claim is granted after a pause. At each moment a task has begun the first of
/// its iterations, in order: all in a sequential stage, and in a parallel one those of its worker; and each number that was granted
/// is at one task, in one packet, or done. Once all tasks have finished, no more was granted than the limit, and without a pause just
/// the limit.
pub fn pipeline_claims()
    ensures pause { (shape : Shape) (net : Net (List ℕ) ℕ) (t : ℕ) → net.paused ≡ true
        → ((step (tracing shape) net t).paused ≡ true) × ((step (tracing shape) net t).granted ≡ net.granted) }
    ensures noted { (shape : Shape) (limit s w : ℕ) (net : Net (List ℕ) ℕ) → IsPipeline shape → IsTraced shape limit net
        → IsTask shape s w → HasNoted shape net s w }
    ensures located { (shape : Shape) (limit k : ℕ) (net : Net (List ℕ) ℕ) → IsPipeline shape → IsTraced shape limit net
        → k < net.granted → IsLocated (tracing shape) net k }
    ensures granted { (shape : Shape) (limit : ℕ) (net : Net (List ℕ) ℕ) → IsPipeline shape → IsTraced shape limit net
        → is_over (traced_machine shape) net ≡ true → (net.granted ≤ limit) × (net.paused ≡ false → net.granted ≡ limit) }
{}

/// Says that a pipeline comes to its end: it is never stuck, since where not all tasks have finished one of them moves; so it runs
/// out, to a net for which the invariant stands; and then its tasks have moved so often.
pub fn pipeline_runs_out()
    ensures never_stuck { (shape : Shape) (limit : ℕ) (net : Net (List ℕ) ℕ) → IsPipeline shape → IsTraced shape limit net
        → is_over (traced_machine shape) net ≡ false → HasMover (traced_machine shape) net }
    ensures runs_out { (shape : Shape) (limit : ℕ) (net : Net (List ℕ) ℕ) → IsPipeline shape → IsTraced shape limit net
        → (end : Net (List ℕ) ℕ) × RunsOut (traced_machine shape) net end }
    ensures ends { (shape : Shape) (limit : ℕ) (net end : Net (List ℕ) ℕ) → IsPipeline shape → IsTraced shape limit net
        → RunsOut (traced_machine shape) net end → IsTraced shape limit end × (is_over (traced_machine shape) end ≡ true) }
    ensures moves { (shape : Shape) (limit : ℕ) (net : Net (List ℕ) ℕ) → IsPipeline shape → IsTraced shape limit net
        → is_over (traced_machine shape) net ≡ true → moves_of net ≡ pipeline_moves shape net.granted }
{}

/// Says that the invariant of tasks that share the claims stands before their first step, and that each step of a task that hasn't
/// finished and each pause keep it. So it stands after any steps and pauses.
pub fn sharing_keeps()
    ensures begins { (W units limit : ℕ) → IsTracedSharing W units limit (traced_net (sharing_shape W units) limit) }
    ensures steps { (W units limit t : ℕ) (net : Net (List ℕ) ℕ) → IsTracedSharing W units limit net → t < length net.tasks
        → is_finished (task_at (tracing (sharing_shape W units)) net t).position ≡ false
        → IsTracedSharing W units limit (step (tracing (sharing_shape W units)) net t) }
    ensures pauses { (W units limit : ℕ) (net : Net (List ℕ) ℕ) → IsTracedSharing W units limit net → IsTracedSharing W units limit (paused_net net) }
{}

/// Says who claims the iterations where tasks share the claims: each number that was granted was granted to one task, and each task
/// has claimed its own in rising order. No claim is granted after a pause. Once all tasks have finished, no more was granted than the
/// limit, and without a pause just the limit, where there is a task.
pub fn sharing_claims()
    ensures claims { (W units limit : ℕ) (net : Net (List ℕ) ℕ) → IsTracedSharing W units limit net
        → (claimants : List ℕ) × AreClaimants W units net claimants }
    ensures once { (W units limit k : ℕ) (net : Net (List ℕ) ℕ) → IsTracedSharing W units limit net → k < net.granted
        → IsClaimedOnce W units net k }
    ensures pause { (W units t : ℕ) (net : Net (List ℕ) ℕ) → net.paused ≡ true
        → ((step (tracing (sharing_shape W units)) net t).paused ≡ true) × ((step (tracing (sharing_shape W units)) net t).granted ≡ net.granted) }
    ensures granted { (W units limit : ℕ) (net : Net (List ℕ) ℕ) → 1 ≤ W → IsTracedSharing W units limit net
        → is_over (traced_machine (sharing_shape W units)) net ≡ true → (net.granted ≤ limit) × (net.paused ≡ false → net.granted ≡ limit) }
{}

/// Says that tasks that share the claims come to their end: they are never stuck, since each of them that hasn't finished moves; so
/// the net runs out, to one for which the invariant stands; and then its tasks have moved so often.
pub fn sharing_runs_out()
    ensures never_stuck { (W units limit : ℕ) (net : Net (List ℕ) ℕ) → IsTracedSharing W units limit net
        → is_over (traced_machine (sharing_shape W units)) net ≡ false → HasMover (traced_machine (sharing_shape W units)) net }
    ensures runs_out { (W units limit : ℕ) (net : Net (List ℕ) ℕ) → IsTracedSharing W units limit net
        → (end : Net (List ℕ) ℕ) × RunsOut (traced_machine (sharing_shape W units)) net end }
    ensures ends { (W units limit : ℕ) (net end : Net (List ℕ) ℕ) → IsTracedSharing W units limit net
        → RunsOut (traced_machine (sharing_shape W units)) net end
        → IsTracedSharing W units limit end × (is_over (traced_machine (sharing_shape W units)) end ≡ true) }
    ensures moves { (W units limit : ℕ) (net : Net (List ℕ) ℕ) → IsTracedSharing W units limit net
        → is_over (traced_machine (sharing_shape W units)) net ≡ true → moves_of net ≡ sharing_moves W units net.granted }
{}
