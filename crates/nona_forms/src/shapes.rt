//! Accesses of a loop, as the dependence test sees them.

ghost use Rattle.std.specs.Prelude.{◌≡◌, IfOk};

use crate::forms::Form;
use sqlite_items::Items;
use std::alloc::AllocError;

/// An inner loop around an access, with the forms of its bounds where they have one.
#[derive(Debug, Drop)]
pub struct InnerLoop {
    /// The id of its index.
    pub id: u32,
    pub low: Option<Form>,
    pub high: Option<Form>,
}

/// An access in a loop.
#[derive(Debug, Drop)]
pub struct Spot {
    /// The array's id.
    pub array: u32,
    /// The place of the array's name.
    pub at: u32,
    /// Whether its index is taken modulo the array's length.
    pub wrap: bool,
    pub write: bool,
    /// The form of its index, where it has one.
    pub form: Option<Form>,
    /// The inner loops around it, from outside in.
    pub inner: Items<InnerLoop>,
}

/// A loop as the dependence test sees it.
#[derive(Debug, Drop)]
pub struct LoopShape {
    /// The id of its index.
    pub index: u32,
    /// Its bounds, low and high, where they are constant.
    pub fixed: Option<(i64, i64)>,
}

/// What the dependence test answers.
#[derive(Clone, Copy, Debug, PartialEq, Eq)]
pub enum Verdict {
    /// No cell is touched by one access in an iteration and by the other in another one, where the guard of the entry holds.
    Apart,
    /// Nothing is known.
    Maybe,
}

/// An equal form, where there is one, in constant time.
fn copy_form(form: &Option<Form>) -> Result<Option<Form>, AllocError>
    ensures { IfOk result (λ f. f ≡ form.now) }
{
    match form {
        None => Ok(None),
        Some(form) => Ok(Some(form.copy()?)),
    }
}

impl InnerLoop {
    /// An equal inner loop, which shares its forms with this one: it takes constant time. The one error is that it has too many
    /// copies.
    pub fn copy(&self) -> Result<InnerLoop, AllocError>
        ensures { IfOk result (λ l. l ≡ self.now) }
    {
        Ok(InnerLoop {
            id: self.id,
            low: copy_form(&self.low)?,
            high: copy_form(&self.high)?,
        })
    }
}
