//! How an outcome is printed: the line of `vipr tighten`, without the line feed at its end.
ghost use Rattle.std.specs.Prelude.{Some};
ghost use Rattle.vipr_tighten.specs.Text.{no_outcome_text, outcome_text};

use crate::outcome::{Outcome, TightenFault};
use std::error::Error;
use std::fmt;
use std::fmt::{Display, Formatter, Write};

/// `kept K removed R peak BEFORE AFTER`, or the line of the refusal.
impl Display for Outcome {
    ghost output = { λ outcome. Some (outcome_text outcome) };

    fn fmt<W: Write>(&self, f: &mut Formatter<W>) -> fmt::Result {
        match self {
            Outcome::Tightened {
                kept,
                removed,
                peak_before,
                peak_after,
            } => write!(
                f,
                "kept {kept} removed {removed} peak {peak_before} {peak_after}"
            ),
            Outcome::Refused(refusal) => write!(f, "{refusal}"),
        }
    }
}

/// `fault read`, `fault memory`, or `fault write after` and how many bytes were accepted.
impl Display for TightenFault {
    ghost output = { λ fault. Some (no_outcome_text fault) };

    fn fmt<W: Write>(&self, f: &mut Formatter<W>) -> fmt::Result {
        match self {
            TightenFault::Read => f.write_str("fault read"),
            TightenFault::Memory { .. } => f.write_str("fault memory"),
            TightenFault::Write { taken } => write!(f, "fault write after {taken}"),
        }
    }
}

impl Error for TightenFault {}
