//! The trees of programs, and what they mean.
//!
//! `specs/` defines the sequential meaning of the whole language: what a store holds (`Memory`), the value of an
//! expression (`Value`), the run of a statement (`Run`), the regions that a run comes to and the state after some
//! iterations of one (`Entries`), and what a run reads, writes and prints (`Deeds`). It says what a statement needs of
//! the store around it (`Scope`) and what has numbers of 64 bits alone (`Numbers`), and states the rules on names and
//! limits (`Names`, `Seen`, `Faults`, `Ids`, `Smallness`, `Checking`).
#![tactic(auto)]

mod checked;
mod checked_laws;
mod deed_laws;
mod entry_laws;
mod faults;
mod laws;
mod limits;
mod names;
mod outcomes;
mod plans;
mod trees;

pub use checked::Checked;
pub use checked_laws::{cells_are_bounded, checked_is_scoped, first_fault_is_one, ids_settle};
pub use deed_laws::{all_unset_stays, unset_stays, value_from_deeds};
pub use entry_laws::{
    after_next, entries_are_regions, locals_hold, loop_is_after, regions_have_places, regions_keep,
    turns_from_first, unassigned_stays,
};
pub use faults::ProgramFault;
pub use laws::{lengths_stay, numbers_stay, printed_grows, scalars_stay, state_after};
pub use limits::{CELLS, NAME_BYTES, NESTING, SIZE, UNITS};
pub use names::{Name, Use};
pub use outcomes::{Outcome, Trap, TrapKind};
pub use plans::{Plan, Stage};
pub use trees::{Access, ArrayDecl, Expr, Loop, Op, Program, Stmt, VarDecl, copy_statements};
