//! Counters in a fixed table.

ghost use Rattle.std.specs.Prelude.{◌≡◌, ◌+◌, ◌<◌, ◌≤◌};
ghost use Rattle.decima.specs.declared.limits.TheConstants.{TASKS, MOST};
ghost use Rattle.decima.specs.Counts.{Counts, greatest, ticks_of, count_of, no_counts, with_move, with_iteration};

use crate::readings::Reading;
use std::marker::Model;

/// How often each task of an interval has moved, and how many iterations were done. It takes no memory but its own.
#[derive(Drop)]
pub struct Counters {
    moves: [u64; 52],
    most: u64,
    iterations: u64,
}

impl Model for Counters {
    ghost Value = { Counts };

    ghost view = { λ c. record { moves = c.moves; iterations = c.iterations } };

    ghost invariant = { λ c. c.most ≡ greatest c.moves };
}

impl Counters {
    /// The counters of an interval before its first step: all are 0.
    pub fn new() -> Counters
        ensures { result ≡ no_counts }
    {
        Counters {
            moves: [0; 52],
            most: 0,
            iterations: 0,
        }
    }

    /// Counts one move of a task, in constant time. The task has a number below `TASKS`, and fewer than `MOST` moves of
    /// it were counted.
    #[tactic(auto, using(crate::proofs::Greatest::greatest_set))]
    pub fn moved(&mut self, task: u32)
        requires task { task < TASKS }
        requires room { count_of self.old task < MOST }
        ensures { self.new ≡ with_move self.old task }
    {
        let moves = self.moves[task as usize] + 1;
        self.moves[task as usize] = moves;
        self.most = self.most.max(moves);
    }

    /// Counts one iteration that was done. Fewer than `MOST` were counted before.
    pub fn iteration(&mut self)
        requires { self.old.iterations < MOST }
        ensures { self.new ≡ with_iteration self.old }
    {
        self.iterations += 1;
    }

    /// What was counted so far, in constant time: the iterations, and as ticks the greatest count of moves of one task,
    /// at least 1.
    pub fn reading(&self) -> Reading
        ensures iterations { result.iterations ≡ self.now.iterations }
        ensures ticks { result.ticks ≡ ticks_of self.now.moves }
    {
        Reading {
            iterations: self.iterations,
            ticks: self.most.max(1),
        }
    }
}
