ghost use Rattle.std.specs.Prelude.{◌≡◌, ◌<◌, ◌≤◌, ◌+◌, ◌-◌, true, false, length, OnOk, OnErr};
ghost use Rattle.nona_tree.specs.Faults.{cell_bound};
ghost use Rattle.nona_tree.specs.Memory.{Memory, scalar_at, cells_of, cell_at, declare, assign, put_cell, print, cut_to};
ghost use Rattle.nona_store.specs.Banks.{Limits, HasRoom};

use crate::store::Store;
use std::alloc::AllocError;

/// What compiled code computes on: a whole store, or a part of one that allows some of its cells alone.
///
/// `state` is the store that it stands for. `limits` says which cells may be loaded and saved, how many scalars may stand,
/// whether numbers may be printed, whether it is firm: then memory never runs out, and for how many scalars room was reserved. No
/// call changes the limits. Each call takes constant time. Where memory runs out the bank is spent.
pub trait Bank {
    ghost state: { Self → Memory };

    ghost limits: { Self → Limits };

    /// The scalar with this id, which is there.
    fn scalar(&mut self, id: u32) -> i64
        requires { id < length (Self.state self.old).scalars }
        ensures value { result ≡ scalar_at (Self.state self.old) id }
        ensures state { Self.state self.new ≡ Self.state self.old }
        ensures limits { Self.limits self.new ≡ Self.limits self.old };

    /// Gives the scalar with this id, which is there, a value. Nothing else changes.
    fn set_scalar(&mut self, id: u32, value: i64)
        requires { id < length (Self.state self.old).scalars }
        ensures state { Self.state self.new ≡ assign id value (Self.state self.old) }
        ensures limits { Self.limits self.new ≡ Self.limits self.old };

    /// Declares a scalar behind the others. One more scalar may stand.
    fn push_scalar(&mut self, value: i64) -> Result<(), AllocError>
        requires { HasRoom (Self.limits self.old).room (length (Self.state self.old).scalars + 1) }
        ensures state { OnOk result (Self.state self.new ≡ declare value (Self.state self.old)) }
        ensures firm { OnErr result ((Self.limits self.old).firm ≡ false) }
        ensures limits { Self.limits self.new ≡ Self.limits self.old };

    /// Drops the last scalars, of which there are at least `count`.
    fn cut_scalars(&mut self, count: usize)
        requires { count ≤ length (Self.state self.old).scalars }
        ensures state { Self.state self.new ≡ cut_to (length (Self.state self.old).scalars - count) (Self.state self.old) }
        ensures limits { Self.limits self.new ≡ Self.limits self.old };

    /// How many cells the array with this id, which is there, has: at most 4,194,304.
    fn length(&self, array: u32) -> usize
        requires { array < length (Self.state self.now).arrays }
        ensures value { result ≡ length (cells_of (Self.state self.now) array) }
        ensures few { result ≤ cell_bound };

    /// The value of an array's cell, which is there and may be loaded.
    fn load(&mut self, array: u32, index: usize) -> i64
        requires cell { index < length (cells_of (Self.state self.old) array) }
        requires allowed { (Self.limits self.old).loads array index ≡ true }
        ensures value { result ≡ cell_at (Self.state self.old) array index }
        ensures state { Self.state self.new ≡ Self.state self.old }
        ensures limits { Self.limits self.new ≡ Self.limits self.old };

    /// Gives an array's cell, which is there and may be saved, a value. Nothing else changes.
    fn save(&mut self, array: u32, index: usize, value: i64) -> Result<(), AllocError>
        requires cell { index < length (cells_of (Self.state self.old) array) }
        requires allowed { (Self.limits self.old).saves array index ≡ true }
        ensures state { OnOk result (Self.state self.new ≡ put_cell array index value (Self.state self.old)) }
        ensures firm { OnErr result ((Self.limits self.old).firm ≡ false) }
        ensures limits { Self.limits self.new ≡ Self.limits self.old };

    /// Prints a number behind the others. Prints are allowed.
    fn print(&mut self, value: i64) -> Result<(), AllocError>
        requires { (Self.limits self.old).prints ≡ true }
        ensures state { OnOk result (Self.state self.new ≡ print value (Self.state self.old)) }
        ensures firm { OnErr result ((Self.limits self.old).firm ≡ false) }
        ensures limits { Self.limits self.new ≡ Self.limits self.old };
}

impl Bank for Store {
    ghost use Rattle.nona_store.specs.Banks.{all_allowed};

    ghost state = { λ s. s };

    ghost limits = { λ s. all_allowed };

    fn scalar(&mut self, id: u32) -> i64 {
        Store::scalar(self, id)
    }

    fn set_scalar(&mut self, id: u32, value: i64) {
        Store::set_scalar(self, id, value);
    }

    fn push_scalar(&mut self, value: i64) -> Result<(), AllocError> {
        Store::push_scalar(self, value)
    }

    fn cut_scalars(&mut self, count: usize) {
        Store::cut_scalars(self, count);
    }

    fn length(&self, array: u32) -> usize {
        Store::length(self, array)
    }

    fn load(&mut self, array: u32, index: usize) -> i64 {
        Store::cell(self, array, index)
    }

    fn save(&mut self, array: u32, index: usize, value: i64) -> Result<(), AllocError> {
        Store::put_cell(self, array, index, value);
        Ok(())
    }

    fn print(&mut self, value: i64) -> Result<(), AllocError> {
        Store::print(self, value)
    }
}
