ghost use Rattle.std.specs.Prelude.{◌≡◌};
ghost use Rattle.morta_exec.specs.declared.fault.DriveFault.TheVariants.{NoMemory};
ghost use Rattle.morta_exec.specs.Faults.{drive_fault};

use fate_io::SendFault;
use std::alloc::AllocError;

/// Why a drive stopped short.
#[derive(Clone, Copy, Debug, PartialEq, Eq)]
pub enum DriveFault {
    /// The sink failed at a put.
    WriteFailed,
    /// The next interval would be the 1,048,577th.
    LogFull,
    /// Memory ran out.
    NoMemory,
}

impl From<AllocError> for DriveFault {
    ghost from_gives = { λ _ e. e ≡ NoMemory };

    fn from(_: AllocError) -> Self {
        DriveFault::NoMemory
    }
}

impl From<SendFault> for DriveFault {
    ghost from_gives = { λ f e. e ≡ drive_fault f };

    fn from(fault: SendFault) -> Self {
        match fault {
            SendFault::WriteFailed => DriveFault::WriteFailed,
            SendFault::NoMemory => DriveFault::NoMemory,
        }
    }
}
