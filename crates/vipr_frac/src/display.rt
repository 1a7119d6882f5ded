//! How a fraction is printed.
ghost use Rattle.std.specs.Prelude.{Some};

use crate::frac::Frac;
use std::fmt;
use std::fmt::{Display, Formatter, Write};

impl Display for Frac {
    ghost use Rattle.vipr_spec.specs.Number.{number_text};

    ghost output = { λ x. Some (number_text x) };

    fn fmt<W: Write>(&self, f: &mut Formatter<W>) -> fmt::Result {
        if self.denom() == 1 {
            write!(f, "{}", self.numer())
        } else {
            write!(f, "{}/{}", self.numer(), self.denom())
        }
    }
}
