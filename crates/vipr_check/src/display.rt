//! How a verdict is printed: the lines of `vipr check`, without the line feed at their end.
ghost use Rattle.std.specs.Prelude.{Some};
ghost use Rattle.vipr_check.specs.Text.{no_verdict_text, place_text, refusal_text, verdict_text};

use crate::verdict::{Fault, Place, Refusal, Report, Verdict};
use std::error::Error;
use std::fmt;
use std::fmt::{Display, Formatter, Write};

/// `byte`, `SOL` or `DER` with the number, or `end`.
impl Display for Place {
    ghost output = { λ place. Some (place_text place) };

    fn fmt<W: Write>(&self, f: &mut Formatter<W>) -> fmt::Result {
        match self {
            Place::Byte(offset) => write!(f, "byte {offset}"),
            Place::Sol(number) => write!(f, "SOL {number}"),
            Place::Der(index) => write!(f, "DER {index}"),
            Place::End => f.write_str("end"),
        }
    }
}

/// `refused CAUSE at PLACE`.
impl Display for Refusal {
    ghost output = { λ refusal. Some (refusal_text refusal) };

    fn fmt<W: Write>(&self, f: &mut Formatter<W>) -> fmt::Result {
        let Refusal { cause, place } = self;
        write!(f, "refused {cause} at {place}")
    }
}

/// `verified CLAIM` with a second line of counts, or the line of the refusal.
impl Display for Verdict {
    ghost output = { λ verdict. Some (verdict_text verdict) };

    fn fmt<W: Write>(&self, f: &mut Formatter<W>) -> fmt::Result {
        match self {
            Verdict::Verified(report) => {
                let Report {
                    claim,
                    solutions,
                    derived,
                    peak,
                    ..
                } = report;
                write!(
                    f,
                    "verified {claim}\nsolutions {solutions} derived {derived} peak {peak}"
                )
            }
            Verdict::Refused(refusal) => write!(f, "{refusal}"),
        }
    }
}

/// `fault read` or `fault memory`.
impl Display for Fault {
    ghost output = { λ fault. Some (no_verdict_text fault) };

    fn fmt<W: Write>(&self, f: &mut Formatter<W>) -> fmt::Result {
        f.write_str(match self {
            Fault::Read => "fault read",
            Fault::Memory => "fault memory",
        })
    }
}

impl Error for Fault {}
