ghost use Rattle.std.specs.Prelude.{◌≡◌, ◌+◌, ◌<◌, ◌^◌, List, [], ◌∷◌, ◌++◌, length, take, None, OnOk};
ghost use Rattle.nona_tree.specs.Names.{Visible, id_of, is_index};
ghost use Rattle.nona_check.specs.Known.{known_of};

use nona_tree::Name;
use std::alloc::{AllocError, Global};
use std::collections::BTreeMap;
use std::marker::Model;

/// What is known of a name.
#[derive(Clone, Copy, Debug)]
struct Known {
    id: u32,
    index: bool,
}

/// A declared name.
#[derive(Debug, Drop)]
struct Declared {
    name: Name,
    index: bool,
}

/// Different names in order of declaration, each with its id, which is how many come before it, and whether it is the
/// index of a loop. A name is found, declared or dropped in a time logarithmic in their number.
#[derive(Drop)]
pub struct Names {
    known: BTreeMap<Vec<u8>, Known>,
    declared: Vec<Declared>,
}

impl Model for Names {
    ghost use Rattle.std.specs.Prelude.{List, length, ◌<◌, ◌^◌};
    ghost use Rattle.nona_tree.specs.Names.{Visible};
    ghost use Rattle.nona_check.specs.Known.{visible_of, Agrees, AreDistinct};

    ghost Value = { List Visible };

    ghost view = { λ s. visible_of s.declared.items };

    ghost invariant = { λ s. (length s.declared.items < 2 ^ 32)
        × AreDistinct (visible_of s.declared.items)
        × Agrees s.known (visible_of s.declared.items) };
}

impl Names {
    /// No names.
    pub fn new(alloc: Global) -> Names
        ensures { result ≡ [] }
    {
        Names {
            known: BTreeMap::new(alloc),
            declared: Vec::new(alloc),
        }
    }

    /// How many names there are: the id of the next one.
    pub fn count(&self) -> u32
        ensures { result ≡ length self.now }
    {
        self.declared.len() as u32
    }

    /// What is known of a name, where it is one of these.
    fn look_up(&self, name: &Name) -> Option<Known>
        ensures { result ≡ known_of name.now self.now }
    {
        self.known.get(name.as_slice()).copied()
    }

    /// The id of a name, where it is one of these.
    pub fn find(&self, name: &Name) -> Option<u32>
        ensures { result ≡ id_of name.now self.now }
    {
        match self.look_up(name) {
            Some(known) => Some(known.id),
            None => None,
        }
    }

    /// Whether a name is one of these that is an index.
    pub fn is_index(&self, name: &Name) -> bool
        ensures { result ≡ is_index name.now self.now }
    {
        match self.look_up(name) {
            Some(known) => known.index,
            None => false,
        }
    }

    /// Declares a name that isn't one of these. There is room for it where its id is below 2^32 - 1.
    pub fn declare(&mut self, alloc: Global, name: &Name, index: bool) -> Result<(), AllocError>
        requires new { id_of name.now self.old ≡ None }
        requires room { length self.old + 1 < 2 ^ 32 }
        ensures { OnOk result (self.new ≡ self.old ++ record { name = name.now; index = index } ∷ []) }
    {
        let id = self.declared.len() as u32;
        let key = Vec::from_slice(alloc, name.as_slice())?;
        self.declared.push(Declared {
            name: name.copy(),
            index,
        })?;
        match self.known.insert(key, Known { id, index }) {
            Ok(_) => Ok(()),
            Err(_) => {
                self.declared.pop();
                Err(AllocError)
            }
        }
    }

    /// Drops the newest name, where there is one.
    fn drop_newest(&mut self)
        ensures { (older : List Visible) (v : Visible) → self.old ≡ older ++ v ∷ [] → self.new ≡ older }
    {
        if let Some(last) = self.declared.pop() {
            self.known.remove(last.name.as_slice());
        }
    }

    /// Drops all names but the first ones, so many.
    pub fn cut(&mut self, count: u32)
        ensures { self.new ≡ take count self.old }
    {
        for _newest in count..self.count() {
            self.drop_newest();
        }
    }
}
