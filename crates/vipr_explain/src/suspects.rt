//! Numbers of rows that are likely to be wrong if a sum has another row than is stated.

use crate::algebra::VariableName;
use crate::differences::Difference;
use crate::lasts::has_same_digits;
use crate::listed::FirstSolutions;
use crate::page::Page;
use crate::rounded::is_rounded;
use crate::shown::write_line;
use crate::sought::{Refused, constraint_at, inverse};
use crate::step::RefusedStep;
use std::alloc::AllocError;
use vipr_frac::Frac;
use vipr_linear::Row;
use vipr_rules::Rows;

/// A change of one row with which a sum has the stated row.
#[derive(Clone, Copy)]
pub(crate) struct Suspect {
    /// The constraint whose row it is, none for what the derivation states.
    pub(crate) index: Option<u32>,
    slip: RowSlip,
}

/// What is likely to be wrong in a row.
#[derive(Clone, Copy)]
enum RowSlip {
    /// The sign of a variable's coefficient, the digits of a fraction, or the order of digits.
    Sign(u32),
    /// Another whole number is meant by the coefficient of a variable.
    Digits(u32),
    /// The coefficients of two variables are exchanged.
    Exchange(u32, u32),
    /// The second variable is meant by the first one's index.
    Variable(u32, u32),
}

/// The first changes of a row of which each would do.
#[derive(Clone, Copy)]
pub(crate) struct Suspects(pub(crate) [Option<Suspect>; 2]);

impl Suspects {
    /// None.
    pub(crate) fn none() -> Suspects {
        Suspects([None; 2])
    }

    // One alone.
    fn of(suspect: Option<Suspect>) -> Suspects {
        Suspects([suspect, None])
    }

    // Whether there is room for no other one.
    fn is_full(&self) -> bool {
        self.0[1].is_some()
    }

    // Adds one.
    fn add(&mut self, suspect: Option<Suspect>) {
        if self.0[0].is_none() {
            self.0[0] = suspect;
        } else {
            self.0[1] = suspect;
        }
    }
}

/// A sum whose row isn't the stated one.
#[derive(Clone, Copy)]
pub(crate) struct DifferingSum<'a> {
    pub(crate) refused: Refused<'a>,
    pub(crate) entries: &'a [(u32, Frac)],
    /// The variables at which the rows differ.
    pub(crate) differences: &'a [Difference],
}

impl<'a> DifferingSum<'a> {
    /// The numbers that are likely to be wrong in a row, without those of which a listed solution
    /// says that they are right.
    pub(crate) fn likely_suspects(self) -> Result<Suspects, AllocError> {
        let suspects = self.suspects();
        if suspects.0[0].is_none() {
            return Ok(suspects);
        }
        let solutions = FirstSolutions::find(self.refused.subject)?;
        let mut kept = Suspects::none();
        for suspect in suspects.0 {
            if let Some(known) = &suspect {
                if !self.is_refuted(known, &solutions) {
                    kept.add(suspect);
                }
            }
        }
        drop(solutions);
        Ok(kept)
    }

    // Whether a listed solution breaks a constraint of the problem with this change.
    fn is_refuted(self, suspect: &Suspect, solutions: &FirstSolutions) -> bool {
        let Some(index) = suspect.index else {
            return false;
        };
        let Some(given) = self.refused.problem.cons().get(index as usize) else {
            return false;
        };
        match self.gains_of(suspect, index, &given.item.row) {
            Some(gains) => solutions.refute(&given.item, gains.as_slice()),
            None => false,
        }
    }

    // What a change of the row of a constraint adds to the coefficients of two variables.
    fn gains_of(self, suspect: &Suspect, index: u32, row: &Row) -> Option<[(u32, Frac); 2]> {
        match suspect.slip {
            RowSlip::Sign(variable) | RowSlip::Digits(variable) => {
                let difference = self.differences.first()?;
                let multiplier = self.multiplier_of(index)?;
                let present = row.coefficient(variable);
                let meant = meant_for(present, multiplier, *difference)?;
                let gain = meant.add(present.neg()).ok()?;
                Some([(variable, gain), (variable, Frac::zero())])
            }
            RowSlip::Exchange(one, another) | RowSlip::Variable(one, another) => {
                let first = row.coefficient(one);
                let gain = row.coefficient(another).add(first.neg()).ok()?;
                Some([(one, gain), (another, gain.neg())])
            }
        }
    }

    // The multiplier of the entry of a constraint.
    fn multiplier_of(self, index: u32) -> Option<Frac> {
        for entry in self.entries {
            if entry.0 == index {
                return Some(entry.1);
            }
        }
        None
    }

    // The numbers that are likely to be wrong in a row.
    fn suspects(self) -> Suspects {
        match self.differences {
            [one] => self.coefficients(*one),
            [one, another] => self.exchanges(*one, *another),
            _ => Suspects::none(),
        }
    }

    // The coefficients that are likely to be wrong if the rows differ at one variable.
    fn coefficients(self, difference: Difference) -> Suspects {
        let mut found = Suspects::none();
        let mut other = None;
        for entry in self.entries {
            match self.slip_of(*entry, difference) {
                Some(RowSlip::Digits(variable)) if other.is_none() => {
                    other = Some(of_row(entry.0, RowSlip::Digits(variable)));
                }
                Some(RowSlip::Sign(variable)) if !found.is_full() => {
                    found.add(Some(of_row(entry.0, RowSlip::Sign(variable))));
                }
                _ => {}
            }
        }
        if found.0[0].is_some() {
            self.alone(found)
        } else if difference.stated == difference.computed.neg() {
            let variable = difference.variable;
            let slip = RowSlip::Sign(variable);
            Suspects::of(Some(Suspect { index: None, slip }))
        } else {
            self.alone(Suspects::of(other))
        }
    }

    // What is likely to be wrong in the row of an entry, if another coefficient of a variable makes
    // the rows the same.
    fn slip_of(self, entry: (u32, Frac), difference: Difference) -> Option<RowSlip> {
        let variable = difference.variable;
        let row = self.written_row(entry.0)?;
        let present = row.coefficient(variable);
        if present.is_zero() {
            return None;
        }
        let meant = meant_for(present, entry.1, difference)?;
        if meant.is_zero() {
            None
        } else if meant == present.neg() || is_rounded(present, meant) {
            Some(RowSlip::Sign(variable))
        } else if are_transposed(present, meant) {
            Some(RowSlip::Sign(variable))
        } else if row.entries().len() > 1 && present.is_whole() && meant.is_whole() {
            Some(RowSlip::Digits(variable))
        } else {
            None
        }
    }

    // The rows with two coefficients exchanged, if rows differ at two variables.
    fn exchanges(self, one: Difference, another: Difference) -> Suspects {
        if one.stated == another.computed && one.computed == another.stated {
            let slip = exchange_of(one, one.stated, another, another.stated);
            return Suspects::of(Some(Suspect { index: None, slip }));
        }
        let mut found = Suspects::none();
        for entry in self.entries {
            if let (Some(row), false) = (self.written_row(entry.0), found.is_full()) {
                if are_exchanged(row, entry.1, one, another) == Some(true) {
                    let first = row.coefficient(one.variable);
                    let second = row.coefficient(another.variable);
                    let slip = exchange_of(one, first, another, second);
                    found.add(Some(of_row(entry.0, slip)));
                }
            }
        }
        self.alone(found)
    }

    // The row of a constraint that was written, and doesn't follow from others.
    fn written_row(self, index: u32) -> Option<&'a Row> {
        let is_derived = match self.refused.rows.get(index) {
            Some(entry) => !entry.is_assumption,
            None => false,
        };
        if is_derived {
            return None;
        }
        Some(&constraint_at(self.refused, index)?.row)
    }

    // Those in constraints that one entry alone is of.
    fn alone(self, found: Suspects) -> Suspects {
        let mut kept = Suspects::none();
        for suspect in found.0 {
            if let Some(
                Suspect {
                    index: Some(index),
                    ..
                },
            ) = suspect
            {
                if self.is_named_once(index) {
                    kept.add(suspect);
                }
            }
        }
        kept
    }

    // Whether one entry alone is of a constraint.
    fn is_named_once(self, index: u32) -> bool {
        let mut count: usize = 0;
        for entry in self.entries {
            if entry.0 == index {
                count = count.saturating_add(1);
            }
        }
        count == 1
    }
}

// Whether two whole numbers have the same digits in another order.
fn are_transposed(present: Frac, meant: Frac) -> bool {
    if !present.is_whole() || !meant.is_whole() {
        return false;
    }
    match (u32::try_from(present.numer()), u32::try_from(meant.numer())) {
        (Ok(one), Ok(other)) => has_same_digits(one, other),
        _ => false,
    }
}

// What is likely to be wrong in the row of a constraint.
fn of_row(index: u32, slip: RowSlip) -> Suspect {
    Suspect {
        index: Some(index),
        slip,
    }
}

// The coefficient that makes rows the same, in place of one that a sum takes with a multiplier.
fn meant_for(present: Frac, multiplier: Frac, difference: Difference) -> Option<Frac> {
    let gap = difference.stated.add(difference.computed.neg()).ok()?;
    present.add(gap.mul(inverse(multiplier)?).ok()?).ok()
}

// Whether a sum has the stated row if in this row, which it takes with a multiplier, the
// coefficients of two variables are exchanged. None past the limit.
fn are_exchanged(
    row: &Row,
    multiplier: Frac,
    one: Difference,
    another: Difference,
) -> Option<bool> {
    let first = row.coefficient(one.variable);
    let second = row.coefficient(another.variable);
    let gain = second.add(first.neg()).ok()?.mul(multiplier).ok()?;
    let is_one = one.computed.add(gain).ok()? == one.stated;
    Some(is_one && another.computed.add(gain.neg()).ok()? == another.stated)
}

// The exchange of two coefficients, of which one may be 0.
fn exchange_of(one: Difference, first: Frac, another: Difference, second: Frac) -> RowSlip {
    let (one, another) = (one.variable, another.variable);
    if second.is_zero() {
        RowSlip::Variable(one, another)
    } else if first.is_zero() {
        RowSlip::Variable(another, one)
    } else {
        RowSlip::Exchange(one, another)
    }
}

impl Suspect {
    /// Whether it is likelier than a change of the reason.
    pub(crate) fn is_likely(&self) -> bool {
        !matches!(self.slip, RowSlip::Digits(_))
    }

    /// Whether it is one number.
    pub(crate) fn is_number(&self) -> bool {
        matches!(self.slip, RowSlip::Sign(_) | RowSlip::Digits(_))
    }

    /// Asks whether it is what is wrong in a sum with this row.
    pub(crate) fn write(&self, page: &mut Page, refused: &RefusedStep<'_>, computed: &Row) {
        let known = &refused.known;
        page.put("  = help: with ");
        match self.slip {
            RowSlip::Sign(variable) | RowSlip::Digits(variable) => {
                self.write_number(page, refused, computed, variable);
            }
            RowSlip::Exchange(one, another) => {
                let one = VariableName(&known.problem, one);
                let another = VariableName(&known.problem, another);
                write!(page, "the coefficients of {one} and {another} exchanged");
            }
            RowSlip::Variable(present, meant) => {
                let meant = VariableName(&known.problem, meant);
                let present = VariableName(&known.problem, present);
                write!(page, "{meant} in place of {present}");
            }
        }
        match self.index {
            Some(index) => {
                page.put(" in ");
                known.write_name(page, index);
                write_line(page, known.marks.place(index));
            }
            None => page.put(" in the stated row"),
        }
        page.put(" the rows are the same: is that meant");
        if let (Some(_), RowSlip::Sign(variable) | RowSlip::Digits(variable)) = (
            self.index, self.slip,
        ) {
            let here = computed.coefficient(variable);
            write!(page, ", or {here} in the stated row");
        }
        page.put("?\n");
    }

    // Writes which number of a variable is meant in place of which.
    fn write_number(
        &self,
        page: &mut Page,
        refused: &RefusedStep<'_>,
        computed: &Row,
        variable: u32,
    ) {
        let name = VariableName(&refused.known.problem, variable);
        let difference = Difference {
            variable,
            computed: computed.coefficient(variable),
            stated: refused.stated().row.coefficient(variable),
        };
        let (present, meant) = match self.index {
            Some(index) => {
                let present = match refused.constraint(index) {
                    Some(constraint) => constraint.row.coefficient(variable),
                    None => Frac::zero(),
                };
                (
                    present,
                    meant_for(present, refused.multiplier(index), difference),
                )
            }
            None => (difference.stated, Some(difference.computed)),
        };
        if let Some(meant) = meant {
            write!(page, "{meant} in place of {present} at {name}");
        }
    }
}
