ghost use Rattle.std.specs.Prelude.{◌≡◌};

use std::alloc::{AllocError, AllocFailed};
use std::marker::Model;
use thiserror::Error;
use vipr_bytes::Failed;

/// The number of a cause, in a word: a result that may hold it is moved in whole words.
#[derive(Clone, Copy, Debug, PartialEq, Eq)]
pub struct Cause {
    number: u32,
}

impl Model for Cause {
    ghost use Rattle.std.specs.Prelude.{ℕ, ◌<◌};
    ghost use Rattle.std.specs.Coded.{coded_ℕ};

    ghost Value = { ℕ };

    ghost coded = { coded_ℕ };

    ghost view = { λ c. c.number };

    ghost invariant = { λ c. c.number < 256 };

    ghost inverse = { λ n. record { number = n } };
}

impl Cause {
    /// The cause of this number.
    #[inline(always)]
    pub fn new(number: u8) -> Cause
        ensures { result ≡ number }
    {
        Cause {
            number: u32::from(number),
        }
    }

    /// Its number.
    pub fn number(self) -> u8
        ensures { result ≡ self }
    {
        self.number as u8
    }
}

/// Why a text was not read on.
#[derive(Clone, Copy, Debug, PartialEq, Eq)]
pub enum ScanError {
    /// The text is refused: the number of the cause, and the offset of the first byte of the token
    /// that is at fault.
    Refused { cause: Cause, offset: u64 },

    /// A read failed.
    Read,

    /// A growth was refused.
    Memory,
}

impl From<AllocError> for ScanError {
    ghost use Rattle.std.specs.Prelude.{◌≡◌};
    ghost use Rattle.vipr_scan.specs.declared.error.ScanError.TheVariants.{Memory};

    ghost from_gives = { λ _ e. e ≡ Memory };

    fn from(_e: AllocError) -> ScanError {
        ScanError::Memory
    }
}

impl From<Failed> for ScanError {
    ghost use Rattle.std.specs.Prelude.{◌≡◌};
    ghost use Rattle.vipr_scan.specs.declared.error.ScanError.TheVariants.{Read};

    ghost from_gives = { λ _ e. e ≡ Read };

    fn from(_failed: Failed) -> ScanError {
        ScanError::Read
    }
}

/// Why a public reader did not read on.
#[derive(Clone, Copy, Debug, PartialEq, Eq, Error)]
pub enum TextError {
    /// The text is refused: the number of the cause, and the offset of the first byte of the token
    /// that is at fault.
    #[error("refused {cause} at byte {offset}")]
    Refused { cause: u8, offset: u64 },

    /// A read failed.
    #[error("a read failed")]
    Read,

    /// A growth was refused.
    #[error("out of memory")]
    Memory,

    /// An error came before.
    #[error("the reader is spent")]
    Spent,
}

impl From<ScanError> for TextError {
    ghost use Rattle.std.specs.Prelude.{◌≡◌};
    ghost use Rattle.vipr_scan.specs.Faults.{error_of};

    ghost from_gives = { λ stop e. e ≡ error_of stop };

    fn from(stop: ScanError) -> TextError {
        match stop {
            ScanError::Refused { cause, offset } => TextError::Refused {
                cause: cause.number(),
                offset,
            },
            ScanError::Read => TextError::Read,
            ScanError::Memory => TextError::Memory,
        }
    }
}

impl From<AllocError> for TextError {
    ghost use Rattle.std.specs.Prelude.{◌≡◌};
    ghost use Rattle.vipr_scan.specs.declared.error.TextError.TheVariants.{Memory};

    ghost from_gives = { λ _ e. e ≡ Memory };

    fn from(_e: AllocError) -> TextError {
        TextError::Memory
    }
}

impl<T: Drop> From<AllocFailed<T>> for TextError {
    ghost use Rattle.std.specs.Prelude.{◌≡◌};
    ghost use Rattle.vipr_scan.specs.declared.error.TextError.TheVariants.{Memory};

    ghost from_gives = { λ _ e. e ≡ Memory };

    fn from(_e: AllocFailed<T>) -> TextError {
        TextError::Memory
    }
}
