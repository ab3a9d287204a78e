ghost use Rattle.std.specs.Prelude.{◌≡◌, ◌+◌, ◌<◌, ◌^◌, length, IfOk, OnOk};
ghost use Rattle.std.specs.Str.{bytes_eq};
ghost use Rattle.nona_tree.specs.Names.{is_index};
ghost use Rattle.nona_tree.specs.Seen.{input_name, seen_first, scalar_id, array_id, is_seen, with_scalar, with_array};
ghost use Rattle.nona_check.specs.After.{narrowed_to};

use crate::names::Names;
use nona_tree::Name;
use std::alloc::{AllocError, Global};
use std::marker::Model;

/// The word that always names an array.
fn input() -> &'static [u8]
    ensures { result.now ≡ input_name }
{
    b"input".as_slice()
}

/// Whether a name is that of the input.
pub fn is_input(name: &Name) -> bool
    ensures { result ≡ bytes_eq name.now input_name }
{
    name.as_slice() == input()
}

/// What is visible at a place of a program: scalars and arrays, each in order of declaration. A name is found in a time
/// logarithmic in their number.
#[derive(Drop)]
pub struct Scope {
    scalars: Names,
    // None of these is an index.
    arrays: Names,
}

impl Model for Scope {
    ghost use Rattle.nona_tree.specs.Seen.{Seen};
    ghost use Rattle.nona_check.specs.Known.{names_of};

    ghost Value = { Seen };

    ghost view = { λ s. record { scalars = s.scalars; arrays = names_of s.arrays } };
}

impl Scope {
    /// What is visible before the first declaration: the input.
    pub fn new(alloc: Global) -> Result<Scope, AllocError>
        ensures { IfOk result (λ scope. scope ≡ seen_first) }
    {
        let mut arrays = Names::new(alloc);
        arrays.declare(alloc, &Name::of(input()), false)?;
        Ok(Scope {
            scalars: Names::new(alloc),
            arrays,
        })
    }

    /// How many scalars are visible: the id of the next one.
    pub fn count(&self) -> u32
        ensures { result ≡ length self.now.scalars }
    {
        self.scalars.count()
    }

    /// The id of a name among the scalars, where it is one.
    pub fn scalar(&self, name: &Name) -> Option<u32>
        ensures { result ≡ scalar_id name.now self.now }
    {
        self.scalars.find(name)
    }

    /// The id of a name among the arrays, where it is one.
    pub fn array(&self, name: &Name) -> Option<u32>
        ensures { result ≡ array_id name.now self.now }
    {
        self.arrays.find(name)
    }

    /// Whether a name is that of a visible index.
    pub fn is_index(&self, name: &Name) -> bool
        ensures { result ≡ is_index name.now self.now.scalars }
    {
        self.scalars.is_index(name)
    }

    /// Whether a name is visible.
    pub fn is_seen(&self, name: &Name) -> bool
        ensures { result ≡ is_seen name.now self.now }
    {
        self.scalar(name).is_some() || self.array(name).is_some()
    }

    /// Makes one more scalar visible, unless its name is visible already.
    pub fn declare_scalar(
        &mut self,
        alloc: Global,
        name: &Name,
        index: bool,
    ) -> Result<(), AllocError>
        requires { length self.old.scalars + 1 < 2 ^ 32 }
        ensures { OnOk result (self.new ≡ with_scalar name.now index self.old) }
    {
        if self.is_seen(name) {
            return Ok(());
        }
        self.scalars.declare(alloc, name, index)?;
        Ok(())
    }

    /// Makes one more array visible, unless its name is visible already.
    pub fn declare_array(&mut self, alloc: Global, name: &Name) -> Result<(), AllocError>
        requires { length self.old.arrays + 1 < 2 ^ 32 }
        ensures { OnOk result (self.new ≡ with_array name.now self.old) }
    {
        if self.is_seen(name) {
            return Ok(());
        }
        self.arrays.declare(alloc, name, false)?;
        Ok(())
    }

    /// Only the first scalars stay visible, so many.
    pub fn cut(&mut self, count: u32)
        ensures { self.new ≡ narrowed_to count self.old }
    {
        self.scalars.cut(count);
    }
}
