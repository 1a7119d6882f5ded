//! How rows and constraints are printed: as in a certificate's canonical text.
ghost use Rattle.std.specs.Prelude.{Some};
ghost use Rattle.vipr_linear.specs.Text.{constraint_text, row_text, sense_text};

use crate::constraint::{Constraint, Sense};
use crate::row::Row;
use std::fmt;
use std::fmt::{Display, Formatter, Write};

impl Display for Sense {
    ghost output = { λ s. Some (sense_text s) };

    fn fmt<W: Write>(&self, f: &mut Formatter<W>) -> fmt::Result {
        f.write_str(match self {
            Sense::E => "E",
            Sense::L => "L",
            Sense::G => "G",
        })
    }
}

/// How many variables there are, and then each variable with its coefficient.
impl Display for Row {
    ghost output = { λ row. Some (row_text row) };

    fn fmt<W: Write>(&self, f: &mut Formatter<W>) -> fmt::Result {
        let entries = self.entries();
        write!(f, "{}", entries.len())?;
        for entry in entries {
            let (variable, coefficient) = entry;
            write!(f, " {variable} {coefficient}")?;
        }
        Ok(())
    }
}

/// The sense, the right-hand side and the row.
impl Display for Constraint {
    ghost output = { λ c. Some (constraint_text c) };

    fn fmt<W: Write>(&self, f: &mut Formatter<W>) -> fmt::Result {
        let sense = self.sense;
        let right = self.rhs;
        let row = &self.row;
        write!(f, "{sense} {right} {row}")
    }
}
