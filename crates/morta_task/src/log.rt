ghost use Rattle.std.specs.Prelude.{◌≡◌, [], ◌∷◌, ◌++◌, length, OnOk, OnErr};
ghost use Rattle.morta_task.specs.LogView.{LogView, empty_log};

use crate::entry::Entry;
use crate::intervals::Interval;
use std::alloc::{AllocError, Global};
use std::marker::Model;

/// What was run: the entries that have an interval, and all intervals, both in order.
#[derive(Drop)]
pub struct Log {
    entries: Vec<Entry>,
    intervals: Vec<Interval>,
}

impl Model for Log {
    ghost use Rattle.std.specs.Coded.{codes};
    ghost use Rattle.nona_tree.specs.contracts.trees.Expr as expr;
    ghost use Rattle.nona_tree.specs.contracts.trees.Stmt as stmt;
    ghost use Rattle.morta_task.specs.LogView.{LogView};

    ghost Value = { LogView };

    ghost coded = { Prim.hlevel (codes, expr.the_row.coded, stmt.the_row.coded) };

    ghost view = { λ a. record { entries = a.entries.items; intervals = a.intervals.items } };
}

impl Log {
    /// A log of nothing.
    pub fn new(alloc: Global) -> Log
        ensures { result ≡ empty_log }
    {
        Log {
            entries: Vec::new(alloc),
            intervals: Vec::new(alloc),
        }
    }

    /// The entries that have an interval, in order.
    pub fn entries(&self) -> &[Entry]
        ensures { result.now ≡ self.now.entries }
    {
        &self.entries
    }

    /// The intervals, in order.
    pub fn intervals(&self) -> &[Interval]
        ensures { result.now ≡ self.now.intervals }
    {
        &self.intervals
    }

    /// Adds an interval of the last entry. Where memory runs out the log is unchanged.
    pub fn add(&mut self, interval: Interval) -> Result<(), AllocError>
        ensures ok { OnOk result (self.new ≡ record self.old { intervals = self.old.intervals ++ interval ∷ [] }) }
        ensures err { OnErr result (self.new ≡ self.old) }
    {
        self.intervals.push(interval)?;
        Ok(())
    }

    /// Adds an entry with its first interval. Where memory runs out the log is unchanged.
    pub fn enter(&mut self, entry: Entry, interval: Interval) -> Result<(), AllocError>
        ensures ok { OnOk result (self.new ≡ record { entries = self.old.entries ++ entry ∷ []; intervals = self.old.intervals ++ interval ∷ [] }) }
        ensures err { OnErr result (self.new ≡ self.old) }
    {
        self.entries.push(entry)?;
        match self.intervals.push(interval) {
            Ok(()) => Ok(()),
            Err(e) => {
                self.entries.pop();
                Err(e.into())
            }
        }
    }
}
