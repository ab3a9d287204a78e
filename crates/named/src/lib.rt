//! A value that contracts alone see: a number or a list by which they speak of what a program doesn't keep.
#![tactic(auto)]

ghost use Rattle.std.specs.Prelude.{◌≡◌};
ghost use base.Fml.{ftrue};

use std::marker::{Model, PhantomData};

/// A `T` that contracts alone see, and that its maker picks. It has no bytes and owns nothing.
pub struct Named<T> {
    marker: PhantomData<T>,
    pub ghost value: { T },
}

impl<T> Model for Named<T> {
    ghost also_owns = { λ _. ftrue };
}

impl<T> Named<T> {
    /// This value.
    pub fn of() -> Named<T>
        ghost x: { T }
        ensures { result.value ≡ x }
    {
        Named {
            marker: PhantomData,
        }
    }

    /// A value that the caller picks by what `sample` shows to contracts. Nothing of it is read.
    pub fn by<U>(sample: &U) -> Named<T>
        ghost x: { T }
        ensures { result.value ≡ x }
    {
        let _ = sample;
        Named::of()
    }
}

impl<T> Drop for Named<T> {
    fn drop(self) {
        let Self { marker: _ } = self;
    }
}
