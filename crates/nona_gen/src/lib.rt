//! From trees to compiled code.
//!
//! `specs/` defines the code of each expression and each statement (`Code`), that of main statements, which stops at their
//! regions (`MainCode`), and which statements have code that stands alone (`Units`, `Fit`). Emitted code is equal to that
//! definition; laws say that it stands for its statements and keeps the stack rule. `OfSeen` defines the image of a program, by
//! the regions that are seen of it and by the plans of its loops.
#![tactic(auto)]

mod emit;
mod gather;
mod image;
mod image_laws;
mod jumps;
mod laws;
mod main_code;
mod statements;
mod units;

pub use emit::emit_expr;
pub use image::{compile, generate};
pub use laws::main_code_stands;
pub use statements::emit_stmt;
pub use units::{checked_has_code, code_stands, generate_unit, regions_have_code};
