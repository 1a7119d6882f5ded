//! Rows and constraints as people write them, with the names of variables.

use crate::stranger::StrangeBytes;
use std::fmt::{self, Display, Formatter, Write};
use vipr_cert::Problem;
use vipr_frac::Frac;
use vipr_linear::{Constraint, Row, Sense};

/// How many terms of a row are shown.
const MOST_TERMS: usize = 12;

/// How many bytes a name has at most that is shown whole.
const MOST_OF_NAME: usize = 40;

/// How many bytes are shown of each end of a longer one.
const END_OF_NAME: usize = 19;

/// The bytes of a name, cut in the middle if they are many.
#[derive(Clone, Copy)]
pub(crate) struct ShownName<'a>(pub(crate) &'a [u8]);

impl Display for ShownName<'_> {
    fn fmt<W: Write>(&self, f: &mut Formatter<W>) -> fmt::Result {
        let bytes = self.0;
        if bytes.len() > MOST_OF_NAME {
            let front = StrangeBytes(&bytes[..END_OF_NAME]);
            let end = StrangeBytes(&bytes[bytes.len() - END_OF_NAME..]);
            write!(f, "{front}..{end}")
        } else {
            write!(f, "{}", StrangeBytes(bytes))
        }
    }
}

/// The name of a problem's variable, by its index, which is behind a name that is cut.
#[derive(Clone, Copy)]
pub(crate) struct VariableName<'a>(pub(crate) &'a Problem, pub(crate) u32);

impl Display for VariableName<'_> {
    fn fmt<W: Write>(&self, f: &mut Formatter<W>) -> fmt::Result {
        let index = self.1;
        match self.0.names().get(index as usize) {
            Some(name) if name.as_bytes().len() > MOST_OF_NAME => {
                write!(f, "{}#{index}", ShownName(name.as_bytes()))
            }
            Some(name) => write!(f, "{}", ShownName(name.as_bytes())),
            None => write!(f, "variable {index}"),
        }
    }
}

/// A problem's constraint in algebra, as `3 x1 + 4 x2 >= 7`. A long one is cut, with its number of
/// terms.
#[derive(Clone, Copy)]
pub(crate) struct Algebra<'a>(pub(crate) &'a Problem, pub(crate) &'a Constraint);

impl Display for Algebra<'_> {
    fn fmt<W: Write>(&self, f: &mut Formatter<W>) -> fmt::Result {
        let Algebra(problem, constraint) = *self;
        let shown = BoundOn {
            problem,
            row: &constraint.row,
            sense: constraint.sense,
            bound: constraint.rhs,
        };
        write!(f, "{shown}")
    }
}

/// A row with a bound, as a constraint is shown.
#[derive(Clone, Copy)]
pub(crate) struct BoundOn<'a> {
    pub(crate) problem: &'a Problem,
    pub(crate) row: &'a Row,
    pub(crate) sense: Sense,
    pub(crate) bound: Frac,
}

impl Display for BoundOn<'_> {
    fn fmt<W: Write>(&self, f: &mut Formatter<W>) -> fmt::Result {
        let entries = self.row.entries();
        let count = entries.len();
        let sign = sign_of(self.sense);
        let right = self.bound;
        if count > MOST_TERMS {
            let terms = Terms(self.problem, &entries[..MOST_TERMS]);
            write!(f, "{terms} .. ({count} terms) {sign} {right}")
        } else {
            let terms = Terms(self.problem, entries);
            write!(f, "{terms} {sign} {right}")
        }
    }
}

// All terms, `0` if there is none.
#[derive(Clone, Copy)]
struct Terms<'a>(&'a Problem, &'a [(u32, Frac)]);

impl Display for Terms<'_> {
    fn fmt<W: Write>(&self, f: &mut Formatter<W>) -> fmt::Result {
        match self.1 {
            [] => f.write_str("0"),
            [first, others @ ..] => {
                let sign = if first.1.numer() < 0 { "-" } else { "" };
                write!(f, "{sign}{}", Term(self.0, *first))?;
                for other in others {
                    write!(f, "{}", NextTerm(self.0, *other))?;
                }
                Ok(())
            }
        }
    }
}

// A term behind others.
#[derive(Clone, Copy)]
struct NextTerm<'a>(&'a Problem, (u32, Frac));

impl Display for NextTerm<'_> {
    fn fmt<W: Write>(&self, f: &mut Formatter<W>) -> fmt::Result {
        let entry = self.1;
        let sign = if entry.1.numer() < 0 { " - " } else { " + " };
        write!(f, "{sign}{}", Term(self.0, entry))
    }
}

// A term without its sign: a factor of 1 isn't written.
#[derive(Clone, Copy)]
struct Term<'a>(&'a Problem, (u32, Frac));

impl Display for Term<'_> {
    fn fmt<W: Write>(&self, f: &mut Formatter<W>) -> fmt::Result {
        let (index, coefficient) = self.1;
        let variable = VariableName(self.0, index);
        let factor = size_of(coefficient);
        if factor == Frac::one() {
            write!(f, "{variable}")
        } else {
            write!(f, "{factor} {variable}")
        }
    }
}

/// The size of a number.
pub(crate) fn size_of(number: Frac) -> Frac {
    if number.numer() < 0 {
        number.neg()
    } else {
        number
    }
}

/// A sense as it is written in algebra.
pub(crate) fn sign_of(sense: Sense) -> &'static str {
    match sense {
        Sense::E => "=",
        Sense::L => "<=",
        Sense::G => ">=",
    }
}
