//! The scalars that may occur in a form.

ghost use Rattle.std.specs.Prelude.{◌≡◌, ℕ, List, [], ◌∷◌, ◌++◌, ◌==◌, OnOk, IfOk, true};
ghost use Rattle.std.specs.List.{list_any};
ghost use Rattle.std.specs.List.Sorted.{IsNonDecreasingBy};
ghost use Rattle.nona_forms.specs.Affine.{among};
ghost use Rattle.nona_forms.specs.References.{missing_below};
ghost use Rattle.nona_affine.specs.Lists.{ids_in};

use std::alloc::{AllocError, Global};
use std::marker::Model;

/// Whether an id is among some that don't fall, in a time logarithmic in their number.
fn is_found(ids: &[u32], id: u32) -> bool
    requires { IsNonDecreasingBy (λ (x : ℕ). x) ids.now }
    ensures { result ≡ among id ids.now }
{
    ids.binary_search(&id).is_ok()
}

/// Whether an id is among some, in a time linear in their number.
fn is_listed(ids: &[u32], id: u32) -> bool
    ensures { result ≡ list_any (λ x. id == x) ids.now }
{
    ids.iter().any(|x| id == *x)
}

/// Whether an id is at least the last one of some.
fn is_last(ids: &[u32], id: u32) -> bool
    ensures { result ≡ true → IsNonDecreasingBy (λ (x : ℕ). x) ids.now → IsNonDecreasingBy (λ (x : ℕ). x) (ids.now ++ id ∷ []) }
{
    match ids.last() {
        None => true,
        Some(last) => *last <= id,
    }
}

/// Ids, the newest first. While the newer ones are no lower, one is found in a time logarithmic in their number.
#[derive(Debug, Drop)]
pub struct Ids {
    oldest_first: Vec<u32>,
    rising: bool,
}

impl Model for Ids {
    ghost use Rattle.std.specs.Prelude.{◌≡◌, ℕ, List, true, reverse};
    ghost use Rattle.std.specs.List.Sorted.{IsNonDecreasingBy};

    ghost Value = { List ℕ };

    ghost view = { λ s. reverse s.oldest_first.items };

    ghost invariant = { λ s. s.rising ≡ true → IsNonDecreasingBy (λ (x : ℕ). x) s.oldest_first.items };
}

impl Ids {
    /// No ids.
    pub fn new(alloc: Global) -> Ids
        ensures { result ≡ [] }
    {
        Ids {
            oldest_first: Vec::new(alloc),
            rising: true,
        }
    }

    /// These ids, in another order.
    pub fn of(ids: Vec<u32>) -> Ids
        ensures { (id : ℕ) → among id result ≡ among id ids.items }
    {
        let mut oldest_first = ids;
        oldest_first.sort_unstable();
        Ids {
            oldest_first,
            rising: true,
        }
    }

    /// One id.
    pub fn alone(alloc: Global, id: u32) -> Result<Ids, AllocError>
        ensures { IfOk result (λ ids. ids ≡ id ∷ []) }
    {
        let mut oldest_first = Vec::new(alloc);
        oldest_first.push(id)?;
        Ok(Ids {
            oldest_first,
            rising: true,
        })
    }

    /// Whether an id is one of these.
    pub fn has(&self, id: u32) -> bool
        ensures { result ≡ among id self.now }
    {
        if self.rising {
            is_found(&self.oldest_first, id)
        } else {
            is_listed(&self.oldest_first, id)
        }
    }

    /// Adds an id, as the first one.
    pub fn push(&mut self, id: u32) -> Result<(), AllocError>
        ensures { OnOk result (self.new ≡ id ∷ self.old) }
    {
        let rising = self.rising && is_last(&self.oldest_first, id);
        self.oldest_first.push(id)?;
        self.rising = rising;
        Ok(())
    }

    /// Drops the first one, where there is one.
    pub fn pop(&mut self)
        ensures { (id : ℕ) (rest : List ℕ) → self.old ≡ id ∷ rest → self.new ≡ rest }
    {
        self.oldest_first.pop();
    }
}

/// The scalars that are declared before one and not among some, as the invariants of a loop are.
#[derive(Debug, Drop)]
struct Invariants {
    below: u32,
    assigned: Vec<u32>,
}

impl Model for Invariants {
    ghost use Rattle.std.specs.Prelude.{ℕ, List};
    ghost use Rattle.std.specs.List.Sorted.{IsNonDecreasingBy};
    ghost use Rattle.nona_forms.specs.References.{missing_below};

    ghost Value = { List ℕ };

    ghost view = { λ s. missing_below s.below s.assigned.items };

    ghost invariant = { λ s. IsNonDecreasingBy (λ (x : ℕ). x) s.assigned.items };
}

impl Invariants {
    /// The ids below one that aren't among others.
    pub fn of(below: u32, assigned: Vec<u32>) -> Invariants
        ensures { result ≡ missing_below below assigned.items }
    {
        let mut sorted = assigned;
        sorted.sort_unstable();
        Invariants {
            below,
            assigned: sorted,
        }
    }

    /// Whether an id is one of these, in a time logarithmic in the number of those that are left out.
    pub fn has(&self, id: u32) -> bool
        ensures { result ≡ among id self.now }
    {
        id < self.below && !is_found(&self.assigned, id)
    }
}

/// The ids of the scalars that may occur in a form. One is found in a time logarithmic in their number.
#[derive(Debug, Drop)]
pub struct Names {
    ids: Ids,
    invariants: Option<Invariants>,
}

impl Model for Names {
    ghost use Rattle.std.specs.Prelude.{ℕ, List, ◌++◌};
    ghost use Rattle.nona_affine.specs.Lists.{ids_in};

    ghost Value = { List ℕ };

    ghost view = { λ s. s.ids ++ ids_in s.invariants };
}

/// Whether an id is one of some invariants, if there are any.
fn is_invariant(invariants: &Option<Invariants>, id: u32) -> bool
    ensures { result ≡ among id (ids_in invariants.now) }
{
    match invariants {
        None => false,
        Some(invariants) => invariants.has(id),
    }
}

impl Names {
    /// The ids of this list.
    pub fn of(list: Vec<u32>) -> Names
        ensures { (id : ℕ) → among id result ≡ among id list.items }
    {
        Names {
            ids: Ids::of(list),
            invariants: None,
        }
    }

    /// The index of a loop, and the scalars that are declared before it and not among those that its body assigns.
    pub fn of_loop(alloc: Global, index: u32, assigned: Vec<u32>) -> Result<Names, AllocError>
        ensures { IfOk result (λ names. names ≡ index ∷ missing_below index assigned.items) }
    {
        let ids = Ids::alone(alloc, index)?;
        Ok(Names {
            ids,
            invariants: Some(Invariants::of(index, assigned)),
        })
    }

    /// Whether a scalar may occur.
    pub fn has(&self, id: u32) -> bool
        ensures { result ≡ among id self.now }
    {
        self.ids.has(id) || is_invariant(&self.invariants, id)
    }
}
