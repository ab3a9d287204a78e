ghost use Rattle.std.specs.Prelude.{◌≡◌, ◌<◌, ◌≤◌, [], true, false, length, drop, slice_set, OnOk, OnErr};
ghost use Rattle.std.specs.List.{insert, remove};

use std::alloc::{AllocError, Global};
use std::marker::Model;

/// How many numbers room is made for at least.
const FIRST_ROOM: usize = 16;

/// Numbers in a row, with room before them and behind them, so that at both ends one is added in constant time.
#[derive(Drop)]
pub struct Values {
    slots: Vec<i64>,
    start: usize,
}

impl Model for Values {
    ghost use Rattle.std.specs.Prelude.{ℤ, List, length, drop, ◌≤◌};

    ghost Value = { List ℤ };

    ghost view = { λ v. drop v.start v.slots.items };

    ghost invariant = { λ v. v.start ≤ length v.slots.items };
}

// Makes room behind the numbers of a list for as many again, and for some at least. The numbers stay.
#[cold]
#[inline(never)]
fn make_room(slots: &mut Vec<i64>) -> Result<(), AllocError>
    ensures same { slots.new.items ≡ slots.old.items }
{
    slots.reserve_exact(slots.len().max(FIRST_ROOM))
}

// Puts a number at this place of a list, before those from there on. Where memory runs out they stay alone.
fn insert_value(slots: &mut Vec<i64>, at: usize, value: i64) -> Result<(), AllocError>
    requires { at ≤ length slots.old.items }
    ensures ok { OnOk result (slots.new.items ≡ insert slots.old.items at value) }
    ensures err { OnErr result (slots.new.items ≡ slots.old.items) }
{
    if slots.len() == slots.capacity() {
        make_room(slots)?;
    }
    slots.insert(at, value)?;
    Ok(())
}

// Makes room before the numbers of a list, which has none there, for as many as they are and for some at least. The numbers stay.
#[cold]
#[inline(never)]
fn make_front(alloc: Global, slots: &mut Vec<i64>, start: &mut usize) -> Result<(), AllocError>
    requires { start.old ≡ 0 }
    ensures same { drop start.new slots.new.items ≡ slots.old.items }
    ensures within { start.new ≤ length slots.new.items }
    ensures room { OnOk result (0 < start.new) }
{
    let room = slots.len().max(FIRST_ROOM);
    let mut moved = Vec::with_capacity(alloc, room + slots.len())?;
    moved.resize(room, 0)?;
    moved.extend_from_slice(slots.as_slice())?;
    *slots = moved;
    *start = room;
    Ok(())
}

// Puts a number before the others of a list. Where memory runs out they stay alone.
fn put_first(
    alloc: Global,
    slots: &mut Vec<i64>,
    start: &mut usize,
    value: i64,
) -> Result<(), AllocError>
    requires within { start.old ≤ length slots.old.items }
    ensures within { start.new ≤ length slots.new.items }
    ensures ok { OnOk result (drop start.new slots.new.items ≡ insert (drop start.old slots.old.items) 0 value) }
    ensures err { OnErr result (drop start.new slots.new.items ≡ drop start.old slots.old.items) }
{
    if *start == 0 {
        make_front(alloc, slots, start)?;
    }
    *start -= 1;
    slots[*start] = value;
    Ok(())
}

impl Values {
    /// None. Takes no memory.
    pub fn begin(alloc: Global) -> Values
        ensures { result ≡ [] }
    {
        Values {
            slots: Vec::new(alloc),
            start: 0,
        }
    }

    /// How many they are.
    pub fn len(&self) -> usize
        ensures { result ≡ length self.now }
    {
        self.slots.len() - self.start
    }

    /// All of them, in order.
    pub fn as_slice(&self) -> &[i64]
        ensures { result.now ≡ self.now }
    {
        &self.slots[self.start..]
    }

    /// Makes room for so many more behind them. Want of memory is its one refusal.
    pub fn reserve(&mut self, count: usize) -> Result<(), AllocError>
        ensures { self.new ≡ self.old }
    {
        self.slots.reserve_exact(count)
    }

    /// Puts a number behind them where there is room for it, and tells whether there was. Where there is none nothing changes.
    #[inline]
    pub fn push_in_room(&mut self, value: i64) -> bool
        ensures put { result ≡ true → self.new ≡ insert self.old (length self.old) value }
        ensures full { result ≡ false → self.new ≡ self.old }
    {
        if self.slots.len() == self.slots.capacity() {
            return false;
        }
        self.slots.push_reserved(value);
        true
    }

    /// Puts a number at this place, before those from there on. Where memory runs out nothing changes.
    pub fn insert(&mut self, at: usize, value: i64) -> Result<(), AllocError>
        requires { at ≤ length self.old }
        ensures ok { OnOk result (self.new ≡ insert self.old at value) }
        ensures err { OnErr result (self.new ≡ self.old) }
    {
        if at == 0 && self.slots.len() > self.start {
            let alloc = *self.slots.allocator();
            return put_first(alloc, &mut self.slots, &mut self.start, value);
        }
        insert_value(&mut self.slots, self.start + at, value)
    }

    /// Takes all away. Their memory stays.
    pub fn clear(&mut self)
        ensures { self.new ≡ [] }
    {
        self.slots.clear();
        self.start = 0;
    }

    /// Puts a number in place of the one at this place.
    #[tactic(auto, using(crate::proofs::Shifting::set_behind))]
    pub fn set(&mut self, at: usize, value: i64)
        requires { at < length self.old }
        ensures { self.new ≡ slice_set self.old at value }
    {
        self.slots[self.start + at] = value;
    }

    /// Takes the number at this place away.
    pub fn remove(&mut self, at: usize)
        requires { at < length self.old }
        ensures { self.new ≡ remove self.old at }
    {
        self.slots.remove(self.start + at);
    }
}
