//! The scalars that statements assign.

ghost use Rattle.std.specs.Prelude.{◌≡◌, ◌++◌, OnOk};
ghost use Rattle.nona_forms.specs.References.{assigned, assigned_all};

use nona_tree::Stmt;
use std::alloc::AllocError;

/// Appends the ids of the scalars that a statement assigns.
#[cycle(assigned)]
fn push_assigned(s: &Stmt, ids: &mut Vec<u32>) -> Result<(), AllocError>
    ensures { OnOk result (ids.new.items ≡ ids.old.items ++ assigned s.now) }
{
    match s {
        Stmt::Set { name, .. } => {
            ids.push(name.id)?;
            Ok(())
        }
        Stmt::Fold { name, .. } => {
            ids.push(name.id)?;
            Ok(())
        }
        Stmt::If { yes, no, .. } => {
            push_all_assigned(yes.as_slice(), ids)?;
            push_all_assigned(no.as_slice(), ids)?;
            Ok(())
        }
        Stmt::While { body, .. } => {
            push_all_assigned(body.as_slice(), ids)?;
            Ok(())
        }
        Stmt::For(l) => {
            push_all_assigned(l.body.as_slice(), ids)?;
            Ok(())
        }
        Stmt::Let { .. } | Stmt::Put { .. } | Stmt::FoldPut { .. } | Stmt::Print { .. } => Ok(()),
    }
}

/// Appends the ids of the scalars that one statement after another assigns. The one error is that memory ran out.
#[cycle(assigned)]
pub fn push_all_assigned(stmts: &[Stmt], ids: &mut Vec<u32>) -> Result<(), AllocError>
    ensures { OnOk result (ids.new.items ≡ ids.old.items ++ assigned_all stmts.now) }
{
    for s in stmts {
        push_assigned(s, ids)?;
    }
    Ok(())
}
