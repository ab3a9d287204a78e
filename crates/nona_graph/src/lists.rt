//! Lists of ids that are also found by id.

ghost use Rattle.std.specs.Prelude.{◌≡◌, ◌&&◌, ℕ, List, IfOk};
ghost use Rattle.std.specs.List.{list_any};
ghost use Rattle.nona_forms.specs.Affine.{among};

use nona_affine::Ids;
use std::alloc::{AllocError, Global};
use std::marker::Model;

/// Ids in a list, of which each is found in a time logarithmic in their number.
#[derive(Debug, Drop)]
pub struct IdList {
    listed: Vec<u32>,
    found: Ids,
}

impl Model for IdList {
    ghost use Rattle.std.specs.Prelude.{◌≡◌, ℕ, List};
    ghost use Rattle.nona_forms.specs.Affine.{among};

    ghost Value = { List ℕ };

    ghost view = { λ s. s.listed.items };

    ghost invariant = { λ s. (id : ℕ) → among id s.found ≡ among id s.listed.items };
}

impl IdList {
    /// These ids. The one error is that memory ran out.
    pub fn of(alloc: Global, ids: Vec<u32>) -> Result<IdList, AllocError>
        ensures { IfOk result (λ list. list ≡ ids.items) }
    {
        let found = Ids::of(Vec::from_slice(alloc, &ids)?);
        Ok(IdList { listed: ids, found })
    }

    /// Whether an id is one of these.
    pub fn has(&self, id: u32) -> bool
        ensures { result ≡ among id self.now }
    {
        self.found.has(id)
    }

    /// The ids.
    pub fn as_slice(&self) -> &[u32]
        ensures { result.now ≡ self.now }
    {
        &self.listed
    }
}

/// Whether an id is one of some, and one of others.
fn is_in_both(id: u32, one: &Ids, other: &IdList) -> bool
    ensures { result ≡ (among id one.now && among id other.now) }
{
    one.has(id) && other.has(id)
}

/// Whether one of a list is among some ids and in another list.
fn has_one(kept: &Ids, one: &[u32], other: &IdList) -> bool
    ensures { result ≡ list_any (λ id. among id kept.now && among id other.now) one.now }
{
    one.iter().any(|id| is_in_both(*id, kept, other))
}

/// Whether two lists have one of some ids in common: each of the first list is looked for in the others.
pub fn share(kept: &Ids, one: &IdList, other: &IdList) -> bool
    ensures { (ids : List ℕ) → ((id : ℕ) → among id kept.now ≡ among id ids) → result ≡ list_any (λ id. among id one.now && among id other.now) ids }
{
    has_one(kept, one.as_slice(), other)
}
