ghost use Rattle.std.specs.Prelude.{◌≡◌, ◌<◌, ℕ, length, map, IfOk, Some, slice_get};
ghost use Rattle.nona_code.specs.SoundView.{SoundView};
ghost use Rattle.nona_tree.specs.Scope.{is_let};
ghost use Rattle.nona_units.specs.Units.{AreUnits, HaveRoom, IsUnitAt, is_let_at};

use nona_code::{Frame, Sound};
use nona_tree::Stmt;
use sqlite_items::Items;
use std::alloc::{AllocError, Global};
use std::marker::Model;
use std::snapshot::Snapshot;

/// Statements, each with its code. Contracts see the statements, of which nothing is kept when the program runs but which of them
/// declare a scalar, and how much room the code of each takes at most on the stack of a frame.
#[derive(Drop)]
pub struct Units {
    compiled: Vec<Sound>,
    lets: Vec<bool>,
    room: u32,
    body: Snapshot<Items<Stmt>>,
}

impl Model for Units {
    ghost use Rattle.std.specs.Coded.{codes};
    ghost use Rattle.nona_tree.specs.contracts.trees.Expr as expr;
    ghost use Rattle.nona_tree.specs.contracts.trees.Stmt as stmt;
    ghost use Rattle.nona_units.specs.UnitsView.{UnitsView};
    ghost use Rattle.nona_units.specs.UnitsInside.{view_of, IsUnits};

    ghost Value = { UnitsView };

    ghost coded = { Prim.hlevel (codes, expr.the_row.coded, stmt.the_row.coded) };

    ghost view = { view_of };

    ghost invariant = { IsUnits };
}

/// The most room that one of these codes takes on a stack.
fn most_room(codes: &[Sound]) -> u32
    ensures { HaveRoom codes.now result }
{
    let mut room = 0;
    for code in codes {
        room = code.deepest().max(room);
    }
    room
}

/// Whether a statement declares a scalar that stays behind it.
fn is_declaring(s: &Stmt) -> bool
    ensures { result ≡ is_let s.now }
{
    match s {
        Stmt::Let { .. } => true,
        _ => false,
    }
}

/// Which of these statements declare a scalar.
fn lets_in(alloc: Global, body: &[Stmt]) -> Result<Vec<bool>, AllocError>
    ensures { IfOk result (λ lets. lets.items ≡ map is_let body.now) }
{
    let mut lets = Vec::new(alloc);
    for s in body {
        lets.push(is_declaring(s))?;
    }
    Ok(lets)
}

impl Units {
    /// These statements with their codes, one for each in the same order. Takes time linear in their number; nothing of the
    /// statements is copied. The one error is that memory ran out.
    pub fn of(body: &Items<Stmt>, codes: Vec<Sound>) -> Result<Units, AllocError>
        requires { AreUnits codes.items body.now }
        ensures { IfOk result (λ units. units.body ≡ body.now) }
    {
        let lets = lets_in(*codes.allocator(), body.as_slice())?;
        let room = most_room(&codes);
        Ok(Units {
            compiled: codes,
            lets,
            room,
            body: Snapshot::of(body),
        })
    }

    /// The codes, in order.
    pub(crate) fn codes(&self) -> &[Sound]
        ensures count { length result.now ≡ length self.now.body }
        ensures units { (at : ℕ) (code : SoundView) → slice_get result.now at ≡ Some code → IsUnitAt code self.now at }
    {
        self.compiled.as_slice()
    }

    /// How many statements there are.
    pub fn count(&self) -> usize
        ensures { result ≡ length self.now.body }
    {
        self.codes().len()
    }

    /// A frame with room for the code of each. It is refused for want of memory alone.
    pub fn frame(&self) -> Result<Frame, AllocError>
        ensures { IfOk result (λ frame. frame.room ≡ self.now.room) }
    {
        Frame::with_room(*self.compiled.allocator(), self.room)
    }

    /// Whether the statement with this number, from 0, declares a scalar that stays behind it. Takes constant time.
    pub fn declares(&self, at: usize) -> bool
        requires { at < length self.now.body }
        ensures { result ≡ is_let_at self.now.body at }
    {
        self.lets[at]
    }

    /// The code of the statement with this number, from 0.
    pub fn code(&self, at: usize) -> &Sound
        requires { at < length self.now.body }
        ensures { IsUnitAt result.now self.now at }
    {
        &self.codes()[at]
    }
}
