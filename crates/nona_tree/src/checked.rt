ghost use Rattle.std.specs.Prelude.{◌≡◌};
ghost use Rattle.nona_tree.specs.Checking.{IsChecked};

use crate::trees::Program;
use std::marker::Model;

/// A small program without a fault, each name of which has its id.
#[derive(Debug, Drop)]
pub struct Checked {
    program: Program,
}

impl Model for Checked {
    ghost use Rattle.std.specs.Coded.{codes};
    ghost use Rattle.nona_tree.specs.contracts.trees.Expr as expr;
    ghost use Rattle.nona_tree.specs.contracts.trees.Stmt as stmt;
    ghost use Rattle.nona_tree.specs.declared.trees.Program.{Program};
    ghost use Rattle.nona_tree.specs.Checking.{IsChecked};

    ghost Value = { Program };

    ghost coded = { Prim.hlevel (codes, expr.the_row.coded, stmt.the_row.coded) };

    ghost view = { λ c. c.program };

    ghost invariant = { λ c. IsChecked c.program };
}

impl Checked {
    /// Keeps a program: it is small, no fault stands in it, and its names have their ids.
    pub fn of(program: Program) -> Checked
        requires { IsChecked program }
        ensures { result ≡ program }
    {
        Checked { program }
    }

    /// The program with its ids.
    pub fn program(&self) -> &Program
        ensures program { result.now ≡ self.now }
        ensures checked { IsChecked self.now }
    {
        &self.program
    }
}
