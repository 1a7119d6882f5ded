//! Why a command is cut short.
ghost use Rattle.std.specs.Prelude.{◌≡◌};
ghost use Rattle.vipr_command.specs.declared.fault.CommandFault.TheVariants.{Memory, Write};
ghost use Rattle.vipr_command.specs.{Answer.fault_for, Tighten.tighten_fault_for};

use std::alloc::AllocError;
use vipr_bytes::WriteFailed;
use vipr_tighten::TightenFault;

/// Why a command was cut short.
#[derive(Clone, Copy, Debug, PartialEq, Eq)]
pub enum CommandFault {
    Read,
    Memory,
    /// The output refused more bytes than these.
    Write { taken: u64 },
}

impl From<AllocError> for CommandFault {
    ghost from_gives = { λ _ answer. answer ≡ Memory };

    fn from(_error: AllocError) -> CommandFault {
        CommandFault::Memory
    }
}

impl From<vipr_check::Fault> for CommandFault {
    ghost from_gives = { λ fault answer. answer ≡ fault_for fault };

    fn from(fault: vipr_check::Fault) -> CommandFault {
        match fault {
            vipr_check::Fault::Read => CommandFault::Read,
            vipr_check::Fault::Memory => CommandFault::Memory,
        }
    }
}

impl From<TightenFault> for CommandFault {
    ghost from_gives = { λ fault answer. answer ≡ tighten_fault_for fault };

    fn from(fault: TightenFault) -> CommandFault {
        match fault {
            TightenFault::Read => CommandFault::Read,
            TightenFault::Memory { taken: _ } => CommandFault::Memory,
            TightenFault::Write { taken } => CommandFault::Write { taken },
        }
    }
}

impl From<WriteFailed> for CommandFault {
    ghost from_gives = { λ failed answer. answer ≡ Write failed.accepted };

    fn from(failed: WriteFailed) -> CommandFault {
        CommandFault::Write {
            taken: failed.accepted,
        }
    }
}
