ghost use Rattle.std.specs.Prelude.{◌≡◌, ◌≤◌, ◌↔◌, IsTrue, length};

use crate::limits::NAME_BYTES;
use arrayvec::ArrayVec;
use std::marker::Model;

/// A word of the program's text: at most 32 bytes, which contracts see as a list.
#[derive(Debug, Drop)]
pub struct Name {
    bytes: ArrayVec<u8, NAME_BYTES>,
}

impl Model for Name {
    ghost use Rattle.std.specs.Prelude.{List, ℕ, length, ◌≤◌};
    ghost use Rattle.nona_tree.specs.declared.limits.TheConstants.{NAME_BYTES};

    ghost Value = { List ℕ };

    ghost view = { λ n. n.bytes.items };

    ghost invariant = { λ n. length n.bytes.items ≤ NAME_BYTES };
}

impl Name {
    /// The name with these bytes, of which there are at most 32.
    pub fn of(bytes: &[u8]) -> Name
        requires { length bytes.now ≤ NAME_BYTES }
        ensures { result ≡ bytes.now }
    {
        let mut kept = ArrayVec::new();
        for byte in bytes {
            kept.push(*byte);
        }
        Name { bytes: kept }
    }

    /// The bytes, at most 32.
    pub fn as_slice(&self) -> &[u8]
        ensures bytes { result.now ≡ self.now }
        ensures most { length result.now ≤ NAME_BYTES }
    {
        self.bytes.as_slice()
    }

    /// An equal name. Takes no memory.
    pub fn copy(&self) -> Name
        ensures { result ≡ self.now }
    {
        Name::of(self.as_slice())
    }

    /// Whether the two are the same word.
    pub fn is(&self, other: &Name) -> bool
        ensures { IsTrue result ↔ (self.now ≡ other.now) }
    {
        self.as_slice() == other.as_slice()
    }
}

/// A name where it stands in the text.
#[derive(Debug, Drop)]
pub struct Use {
    pub text: Name,
    /// The place of its first byte, from 0.
    pub at: u32,
    /// What it names: 0 until names are resolved. Then it is for a scalar the number of the scalars that are visible
    /// where that one is declared. For an array it is 0 for the input, and the declared arrays follow from 1 in text
    /// order.
    pub id: u32,
}

impl Use {
    /// A name whose id isn't known yet: it is 0.
    pub fn new(text: Name, at: u32) -> Use
        ensures text { result.text ≡ text }
        ensures at { result.at ≡ at }
        ensures id { result.id ≡ 0 }
    {
        Use { text, at, id: 0 }
    }

    /// The same name in the same place, with this id. Takes no memory.
    pub fn with_id(&self, id: u32) -> Use
        ensures { result ≡ record self.now { id = id } }
    {
        Use {
            text: self.text.copy(),
            at: self.at,
            id,
        }
    }

    /// An equal name in the same place, with the same id. Takes no memory.
    pub fn copy(&self) -> Use
        ensures { result ≡ self.now }
    {
        self.with_id(self.id)
    }
}
