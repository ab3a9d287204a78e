//! The inner loops around a place.

ghost use Rattle.std.specs.Prelude.{◌≡◌, ◌++◌, ◌∷◌, [], List, ℕ, IfOk, OnOk};
ghost use Rattle.nona_forms.specs.declared.shapes.InnerLoop.{InnerLoop};
ghost use Rattle.nona_affine.specs.Lists.{inner_of, loop_in};

use crate::names::{Ids, Names};
use crate::of_expr::form_inside;
use nona_forms::InnerLoop;
use nona_tree::Loop;
use sqlite_items::Items;
use std::alloc::{AllocError, Global};

/// The inner loops around a place: their indices, the innermost first, and the loops from outside in.
#[derive(Debug, Drop)]
pub struct Around {
    pub indices: Ids,
    pub loops: Items<InnerLoop>,
}

impl Around {
    /// No loops.
    pub fn new(alloc: Global) -> Around
        ensures indices { result.indices ≡ [] }
        ensures loops { result.loops ≡ [] }
    {
        Around {
            indices: Ids::new(alloc),
            loops: Items::new(alloc),
        }
    }

    /// An inner loop with the forms of its bounds, where these other scalars may occur.
    fn inner_loop(&self, alloc: Global, l: &Loop, names: &Names) -> Result<InnerLoop, AllocError>
        ensures { IfOk result (λ inner. inner ≡ loop_in (self.now.indices ++ names.now) (inner_of l.now)) }
    {
        Ok(InnerLoop {
            id: l.index.id,
            low: form_inside(alloc, &l.low, &self.indices, names)?,
            high: form_inside(alloc, &l.high, &self.indices, names)?,
        })
    }

    /// Adds a loop inside these.
    pub fn enter(&mut self, alloc: Global, l: &Loop, names: &Names) -> Result<(), AllocError>
        ensures indices { OnOk result (self.new.indices ≡ l.now.index.id ∷ self.old.indices) }
        ensures loops { OnOk result (self.new.loops ≡ self.old.loops ++ loop_in (self.old.indices ++ names.now) (inner_of l.now) ∷ []) }
    {
        let inner = self.inner_loop(alloc, l, names)?;
        self.loops.push(inner)?;
        self.indices.push(l.index.id)?;
        Ok(())
    }

    /// Drops the innermost loop, where there is one.
    pub fn leave(&mut self)
        ensures indices { (id : ℕ) (rest : List ℕ) → self.old.indices ≡ id ∷ rest → self.new.indices ≡ rest }
        ensures loops { (outer : List InnerLoop) (l : InnerLoop) → self.old.loops ≡ outer ++ l ∷ [] → self.new.loops ≡ outer }
    {
        self.indices.pop();
        self.loops.pop();
    }
}
