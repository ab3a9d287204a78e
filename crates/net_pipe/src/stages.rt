//! The stages that iterations go through.

ghost use Rattle.std.specs.Prelude.{◌≡◌, ◌<◌, length};
ghost use Rattle.net_pipe.specs.Works.{received_in, sent_from, shape_of, stage_at, unit_number};
ghost use Rattle.net_pipe.specs.Staged.{IsStaged, staging_of};

use nona_tree::{Plan, Stage};
use nona_units::Units;

/// The iterations of an interval that go through the stages of a plan: the units of the loop's body; the plan; the index of the first
/// iteration, how many there are at most, and how many turns a loop in a unit may take; how many scalars are around the loop; and
/// how many workers a parallel stage has, and how many messages a link holds.
#[derive(Drop)]
pub struct Stages<'a> {
    pub units: &'a Units,
    pub plan: &'a Plan,
    pub from: i64,
    pub limit: u64,
    pub turns: u64,
    pub depth: usize,
    pub workers: usize,
    pub capacity: usize,
}

impl<'a> Stages<'a> {
    /// How many stages there are.
    pub(crate) fn count(&self) -> usize
        ensures { result ≡ (shape_of (staging_of self.now)).stages }
    {
        self.plan.pipe.len()
    }

    /// The stage with this number.
    fn stage(&self, stage: usize) -> &Stage
        requires { stage < length self.now.plan.now.pipe }
        ensures { result.now ≡ stage_at (staging_of self.now) stage }
    {
        &self.plan.pipe.as_slice()[stage]
    }

    /// Whether a stage is parallel.
    pub(crate) fn is_parallel(&self, stage: usize) -> bool
        requires { stage < length self.now.plan.now.pipe }
        ensures { result ≡ (shape_of (staging_of self.now)).parallel stage }
    {
        !self.stage(stage).sequential
    }

    /// How many units a stage has.
    pub(crate) fn own_count(&self, stage: usize) -> usize
        requires { stage < length self.now.plan.now.pipe }
        ensures { result ≡ (shape_of (staging_of self.now)).units stage }
    {
        self.stage(stage).units.len()
    }

    /// The number from 1 of a stage's own unit; behind the last one, the number behind the body's last unit.
    pub(crate) fn unit_number(&self, stage: usize, unit: usize) -> usize
        requires staged { IsStaged (staging_of self.now) }
        requires stage { stage < length self.now.plan.now.pipe }
        ensures { result ≡ unit_number (staging_of self.now) stage unit }
    {
        match self.stage(stage).units.as_slice().get(unit) {
            Some(number) => *number as usize,
            None => self.units.count() + 1,
        }
    }

    /// The ids of the locals that a packet from this stage to the next one has.
    pub(crate) fn sent(&self, stage: usize) -> &[u32]
        ensures { result.now ≡ sent_from (staging_of self.now) stage }
    {
        match self.plan.crossing.as_slice().get(stage) {
            Some(ids) => ids.as_slice(),
            None => &[],
        }
    }

    /// The ids of those with which an iteration begins in a stage.
    pub(crate) fn received(&self, stage: usize) -> &[u32]
        ensures { result.now ≡ received_in (staging_of self.now) stage }
    {
        if stage == 0 {
            &[]
        } else {
            self.sent(stage - 1)
        }
    }
}
