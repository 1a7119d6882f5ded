//! Why a text isn't known to be a proof.

ghost use Rattle.std.specs.Prelude.{◌≡◌};
ghost use Rattle.vipr_check.specs.Reasons.{stop_reason, text_reason};
ghost use Rattle.vipr_check.specs.declared.no_proof.NoProof.TheVariants.{Memory};

use crate::halt::Stop;
use crate::verdict::{Place, Refusal};
use std::alloc::{AllocError, AllocFailed};
use vipr_scan::TextError;

/// Why a text isn't known to be a proof: it is refused, or there is no verdict.
#[derive(Clone, Copy, Debug, PartialEq, Eq)]
pub enum NoProof {
    /// The certificate is refused.
    Refused(Refusal),
    /// A read failed.
    Read,
    /// A growth was refused.
    Memory,
}

impl From<Stop> for NoProof {
    ghost from_gives = { λ stop reason. reason ≡ stop_reason stop };

    fn from(stop: Stop) -> NoProof {
        match stop {
            Stop::Refused(refusal) => NoProof::Refused(refusal),
            Stop::Memory | Stop::Spent => NoProof::Memory,
        }
    }
}

impl From<TextError> for NoProof {
    ghost from_gives = { λ error reason. reason ≡ text_reason error };

    fn from(error: TextError) -> NoProof {
        match error {
            TextError::Refused { cause, offset } => NoProof::Refused(Refusal {
                cause,
                place: Place::Byte(offset),
            }),
            TextError::Read | TextError::Spent => NoProof::Read,
            TextError::Memory => NoProof::Memory,
        }
    }
}

impl From<AllocError> for NoProof {
    ghost from_gives = { λ _ reason. reason ≡ Memory };

    fn from(_error: AllocError) -> NoProof {
        NoProof::Memory
    }
}

impl<T: Drop> From<AllocFailed<T>> for NoProof {
    ghost from_gives = { λ _ reason. reason ≡ Memory };

    fn from(_error: AllocFailed<T>) -> NoProof {
        NoProof::Memory
    }
}
