//! What tightening answers: an [`Outcome`], or a [`TightenFault`] if there is none.
//!
//! A proof is tightened, with counts of what was kept and removed. A certificate that is no proof
//! is refused as a check refuses it. A fault says how many bytes of the text were accepted.

ghost use Rattle.std.specs.Prelude.{◌≡◌};
ghost use Rattle.vipr_tighten.specs.Text.{outcome_status};

use std::alloc::AllocError;
use vipr_check::Refusal;

/// What became of a certificate that was to be tightened.
#[derive(Clone, Copy, Debug, PartialEq, Eq)]
pub enum Outcome {
    /// It is a proof, and the tightened one was written.
    Tightened {
        /// How many derivations were written.
        kept: u32,
        /// How many were removed.
        removed: u32,
        /// How many derived constraints had to be held at most.
        peak_before: usize,
        /// How many of the tightened certificate's derived constraints have to be held at most.
        peak_after: usize,
    },
    /// It is none. Nothing was written.
    Refused(Refusal),
}

impl Outcome {
    /// The program's exit status: 0 if the certificate is tightened, 1 if it is refused.
    pub fn status(&self) -> u8
        ensures { result ≡ outcome_status self.now }
    {
        match self {
            Outcome::Tightened { .. } => 0,
            Outcome::Refused(_) => 1,
        }
    }
}

/// Why there is no outcome.
#[derive(Clone, Copy, Debug, PartialEq, Eq)]
pub enum TightenFault {
    /// A read failed. Nothing was written.
    Read,
    /// A growth was refused. Nothing was written, and the count is 0.
    Memory { taken: u64 },
    /// A write failed or accepted nothing, after exactly so many bytes were accepted.
    Write { taken: u64 },
}

impl From<AllocError> for TightenFault {
    ghost use Rattle.std.specs.Prelude.{◌≡◌};
    ghost use Rattle.vipr_tighten.specs.declared.outcome.TightenFault.TheVariants.{Memory};

    ghost from_gives = { λ _ e. e ≡ Memory 0 };

    fn from(_error: AllocError) -> TightenFault {
        TightenFault::Memory { taken: 0 }
    }
}
