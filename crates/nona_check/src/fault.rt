ghost use Rattle.std.specs.Prelude.{◌≡◌, Some};
ghost use Rattle.nona_tree.specs.Faults.{place_of_fault, rank_of, fault_where};
ghost use Rattle.nona_check.specs.First.{is_before, earlier, first_from};

use nona_tree::ProgramFault;
use std::alloc::AllocError;

/// Why `check` answers with no program.
#[derive(Clone, Copy, Debug, PartialEq, Eq)]
pub enum CheckFault {
    /// The program's first fault: the one at the least place, and of several there the first one as `ProgramFault` lists
    /// them.
    Refused(ProgramFault),
    /// Memory ran out.
    NoMemory,
}

impl From<AllocError> for CheckFault {
    ghost use Rattle.std.specs.Prelude.{◌≡◌};
    ghost use Rattle.nona_check.specs.declared.fault.CheckFault.TheVariants.{NoMemory};

    ghost from_gives = { λ _ fault. fault ≡ NoMemory };

    fn from(_error: AllocError) -> CheckFault {
        CheckFault::NoMemory
    }
}

/// The place of a fault.
fn place(fault: ProgramFault) -> u32
    ensures { result ≡ place_of_fault fault }
{
    match fault {
        ProgramFault::Unknown { at } => at,
        ProgramFault::Twice { at } => at,
        ProgramFault::KindWrong { at } => at,
        ProgramFault::IndexAssigned { at } => at,
        ProgramFault::InputWritten { at } => at,
        ProgramFault::Cells { at } => at,
        ProgramFault::Units { at } => at,
    }
}

/// The number of a fault's kind: at one place the kind with the least one counts.
fn rank(fault: ProgramFault) -> u32
    ensures { result ≡ rank_of fault }
{
    match fault {
        ProgramFault::Unknown { .. } => 1,
        ProgramFault::Twice { .. } => 2,
        ProgramFault::KindWrong { .. } => 3,
        ProgramFault::IndexAssigned { .. } => 4,
        ProgramFault::InputWritten { .. } => 5,
        ProgramFault::Cells { .. } => 6,
        ProgramFault::Units { .. } => 7,
    }
}

/// Whether a fault comes before another one.
fn is_before(fault: ProgramFault, other: ProgramFault) -> bool
    ensures { result ≡ is_before fault other }
{
    place(fault) < place(other) || (place(fault) == place(other) && rank(fault) < rank(other))
}

/// Takes a fault into account: `first` is the first of those so far.
pub fn note(first: &mut Option<ProgramFault>, fault: ProgramFault)
    ensures { first.new ≡ Some (earlier first.old fault) }
{
    match *first {
        Some(kept) => {
            if is_before(fault, kept) {
                *first = Some(fault);
            }
        }
        None => *first = Some(fault),
    }
}

/// Takes a fault into account where it stands.
pub fn note_where(first: &mut Option<ProgramFault>, stands: bool, fault: ProgramFault)
    ensures { first.new ≡ first_from first.old (fault_where stands fault) }
{
    if stands {
        note(first, fault);
    }
}
