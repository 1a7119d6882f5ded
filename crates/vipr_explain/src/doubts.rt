//! What is likely to be wrong in a text if a derivation is refused, but for its reason.
ghost use Rattle.std.specs.Prelude.{◌≡◌, length};
ghost use Rattle.vipr_spec.specs.Certificate.{variables};

use crate::algebra::{ShownName, VariableName};
use crate::by_name::OtherOrder;
use crate::cases::without_strange_case;
use crate::changes::{Change, Changes, shifted};
use crate::differences::{Difference, MOST_SHOWN, row_differences};
use crate::excerpt::part_of;
use crate::order::NameOrder;
use crate::page::Page;
use crate::rounded::{is_float, simple_near, unrounded};
use crate::sought::{Refused, constraint_at, less_sum};
use crate::step::RefusedStep;
use crate::suspects::{DifferingSum, Suspect, Suspects};
use std::alloc::AllocError;
use vipr_cert::References;
use vipr_check::StepDetail;
use vipr_frac::Frac;
use vipr_linear::{Combination, Constraint, Row, Sense};
use vipr_rules::Rows;

/// At how many variables the objective is said to be wrong.
const MOST_OF_OBJECTIVE: usize = 2;

/// What is likely to be wrong but for a reason.
#[derive(Clone, Copy)]
pub(crate) struct Doubts {
    /// Lines whose names say another order.
    order: Option<NameOrder>,
    /// One of the multipliers that are rounded, or a number of floating point.
    rounded: Option<Frac>,
    /// Whether the sum has the stated row with fractions for such multipliers.
    has_row: bool,
    /// Whether the right-hand side alone differs.
    is_side: bool,
    /// Numbers in a row, each of which may be wrong.
    suspects: Suspects,
    /// Whether the stated row is the objective's but for the order of the variables.
    variables: Option<OtherOrder>,
    /// Whether the stated row is the objective's, and a coefficient or two of that may be wrong.
    is_objective: bool,
}

impl Doubts {
    /// None.
    pub(crate) fn none() -> Doubts {
        Doubts {
            order: None,
            rounded: None,
            has_row: false,
            is_side: false,
            suspects: Suspects::none(),
            variables: None,
            is_objective: false,
        }
    }

    /// Finds what is likely to be wrong, if a derivation is refused for this.
    pub(crate) fn find(
        refused: Refused<'_>,
        scratch: &mut Combination,
        what: &StepDetail,
    ) -> Result<Doubts, AllocError>
        requires { length scratch.old.sums ≡ variables refused.problem.now }
        ensures { length scratch.new.sums ≡ length scratch.old.sums }
    {
        let mut doubts = Doubts::none();
        doubts.order = NameOrder::find(refused.subject.text);
        let stated = &refused.step.constraint;
        if let References::Entries(entries) = refused.step.reason.references() {
            let computed = match what {
                StepDetail::Rows { computed, .. } => computed,
                StepDetail::Sum(sum) => sum,
                _ => return Ok(doubts),
            };
            let differences = row_differences(refused.subject.alloc, &computed.row, &stated.row)?;
            doubts.rounded = rounded_in(refused, scratch, entries, &differences)?;
            doubts.has_row = doubts.rounded.is_some();
            let sum = DifferingSum {
                refused,
                entries,
                differences: differences.as_slice(),
            };
            doubts.suspects = sum.likely_suspects()?;
            let has_row = differences.is_empty() && matches!(what, StepDetail::Rows { .. });
            doubts.is_side = has_row && is_side_alone(computed, stated);
            if doubts.rounded.is_none() && !doubts.has_likely_suspect() {
                doubts.rounded = float_in(refused, entries, &differences);
            }
            let most = stated.row.entries().len().min(MOST_OF_OBJECTIVE + 1);
            let is_near = !differences.is_empty() && differences.len() < most;
            doubts.is_objective = is_near && stated.row.is_same(refused.problem.objective());
            if !differences.is_empty() {
                doubts.variables = OtherOrder::find(refused)?;
            }
        }
        Ok(doubts)
    }

    /// Changes without those that are less likely. What is less likely than one of them is no
    /// longer in doubt.
    pub(crate) fn weigh(&mut self, refused: Refused<'_>, changes: Changes) -> Changes {
        let Changes {
            mut multiplier,
            mut exchange,
            mut slip,
            addition,
        } = changes;
        let References::Entries(entries) = refused.step.reason.references() else {
            return without_strange_case(refused, changes);
        };
        if let Some(OtherOrder::Named) = self.variables {
            self.suspects = Suspects::none();
            return Changes::none();
        }
        if !changes.is_empty() {
            self.variables = None;
            self.is_objective = false;
        }
        let is_other = brings_assumption(refused, entries, exchange);
        let has_part = multiplier.is_some() || exchange.is_some();
        if is_sign(multiplier, entries) {
            *self = Doubts::none();
            slip = None;
        } else if counts_from_zero(refused, exchange) {
            *self = Doubts::none();
            multiplier = None;
        }
        if self.is_side {
            slip = None;
            if is_other {
                exchange = None;
            }
            self.is_side = !matches!(exchange, Some(Change::Word));
        }
        if multiplier.is_some() {
            self.rounded = None;
        }
        if names_absurdity(refused, entries, slip) {
            slip = None;
        }
        if let Some(suspect) = self.suspect() {
            if suspect.is_likely() && suspect.is_number() {
                multiplier = None;
            } else if suspect.is_likely() && multiplier.is_none() && is_other {
                exchange = None;
            } else if has_part || slip.is_some() || addition.is_some() {
                self.suspects = Suspects::none();
            }
        }
        if self.rounded.is_some() && self.has_row {
            exchange = None;
        }
        Changes {
            multiplier,
            exchange,
            slip,
            addition,
        }
    }

    /// Those about the order of lines alone.
    pub(crate) fn of_order(&self) -> Doubts {
        let mut left = Doubts::none();
        left.order = self.order;
        left
    }

    /// The constraints whose rows are in doubt.
    pub(crate) fn indices(&self) -> [Option<u32>; 2] {
        let [first, second] = self.suspects.0;
        [index_of(first), index_of(second)]
    }

    // The first number of a row that is in doubt.
    fn suspect(&self) -> Option<Suspect> {
        self.suspects.0[0]
    }

    // Whether a number of a row is in doubt that is likelier than a change of the reason.
    fn has_likely_suspect(&self) -> bool {
        match self.suspect() {
            Some(suspect) => suspect.is_likely(),
            None => false,
        }
    }

    /// Whether a number of a sum is in doubt.
    pub(crate) fn has_number(&self) -> bool {
        self.is_objective
            || self.variables.is_some()
            || self.rounded.is_some()
            || self.is_side
            || self.suspect().is_some()
    }

    /// Whether anything is asked before a change is offered.
    pub(crate) fn are_first(&self) -> bool {
        self.order.is_some() || self.has_number()
    }

    /// Asks whether lines are in another order than their names say.
    pub(crate) fn write_order(&self, page: &mut Page, text: &[u8]) {
        if let Some(order) = self.order {
            let index = order.index;
            let next = index.saturating_add(1);
            let first = ShownName(part_of(text, order.first));
            let second = ShownName(part_of(text, order.second));
            write!(
                page,
                "  = help: [{index}] is `{first}`, and [{next}] is `{second}`: "
            );
            page.put("are the lines in another order than they were written, as by name?\n");
        }
    }

    /// Asks about the numbers of a sum with this row.
    pub(crate) fn write(&self, page: &mut Page, refused: &RefusedStep<'_>, computed: &Constraint) {
        if let Some(order) = self.variables {
            order.write(page);
        }
        if self.is_objective {
            write_objective(page, refused, &computed.row);
        }
        if let Some(present) = self.rounded {
            let meant = simple_near(present).unwrap_or(present);
            page.put("  = help: ");
            if self.has_row {
                write!(
                    page,
                    "with {meant} for {present}, and such a fraction for each "
                );
                page.put("rounded multiplier, the sum has the stated row: write exact fractions\n");
            } else {
                write!(
                    page,
                    "{present} is near {meant}, and its denominator is a power of 2, "
                );
                write!(page, "as in floating point: is {meant} meant?\n");
            }
        }
        if self.is_side {
            let side = computed.rhs;
            write!(
                page,
                "  = help: the sum has the stated row: is {side} meant here, "
            );
            page.put("or is a right-hand side below wrong?\n");
        }
        if !self.has_late_suspects(&refused.advice().changes) {
            self.write_suspects(page, refused, computed);
        }
    }

    // Whether numbers of a row are asked about after the changes: they are less likely than one
    // more entry with which the derivation follows.
    fn has_late_suspects(&self, changes: &Changes) -> bool {
        changes.addition.is_some() && !self.has_likely_suspect()
    }

    /// Asks about those numbers of a sum with this row that are asked about after the changes.
    pub(crate) fn write_late(
        &self,
        page: &mut Page,
        refused: &RefusedStep<'_>,
        computed: &Constraint,
    ) {
        if self.has_late_suspects(&refused.advice().changes) {
            self.write_suspects(page, refused, computed);
        }
    }

    // Asks about the numbers of a row.
    fn write_suspects(&self, page: &mut Page, refused: &RefusedStep<'_>, computed: &Constraint) {
        for suspect in self.suspects.0 {
            if let Some(suspect) = suspect {
                suspect.write(page, refused, &computed.row);
            }
        }
    }
}

// Asks whether the objective is wrong, if a derivation states its row, and this is computed.
fn write_objective(page: &mut Page, refused: &RefusedStep<'_>, computed: &Row) {
    page.put("  = help: the stated row is the objective's: with ");
    let stated = &refused.stated().row;
    let mut front = "";
    for entry in computed.entries() {
        front = write_meant(page, refused, computed, entry.0, front);
    }
    for entry in stated.entries() {
        if computed.coefficient(entry.0).is_zero() {
            front = write_meant(page, refused, computed, entry.0, front);
        }
    }
    page.put(" in both the rows are the same: is that meant after `OBJ`?\n");
}

// Writes which coefficient of a variable is computed in place of the stated one, if it is another
// one, and gives what is written in front of the next.
fn write_meant(
    page: &mut Page,
    refused: &RefusedStep<'_>,
    computed: &Row,
    variable: u32,
    front: &'static str,
) -> &'static str {
    let meant = computed.coefficient(variable);
    let present = refused.stated().row.coefficient(variable);
    if meant == present {
        return front;
    }
    let name = VariableName(&refused.known.problem, variable);
    write!(page, "{front}{meant} in place of {present} at {name}");
    ", and "
}

// The constraint that a number is of.
fn index_of(suspect: Option<Suspect>) -> Option<u32> {
    suspect?.index
}

// A multiplier that is rounded, if rows differ so, and the sum has the stated row with fractions in
// the place of such multipliers.
fn rounded_in(
    refused: Refused<'_>,
    scratch: &mut Combination,
    entries: &[(u32, Frac)],
    differences: &[Difference],
) -> Result<Option<Frac>, AllocError>
    requires { length scratch.old.sums ≡ variables refused.problem.now }
    ensures { length scratch.new.sums ≡ length scratch.old.sums }
{
    if differences.is_empty() {
        return Ok(None);
    }
    let Some((meant, first)) = unrounded(refused.subject.alloc, entries)? else {
        return Ok(None);
    };
    let stated = &refused.step.constraint;
    match less_sum(refused, scratch, stated, Frac::one(), &meant)? {
        Some(left) => {
            let has_row = left.row.is_empty();
            drop(left);
            Ok(has_row.then_some(first))
        }
        None => Ok(None),
    }
}

// The first number of floating point among the multipliers and right-hand sides of a sum, and the
// coefficients where its row differs.
fn float_in(
    refused: Refused<'_>,
    entries: &[(u32, Frac)],
    differences: &[Difference],
) -> Option<Frac> {
    let side = refused.step.constraint.rhs;
    if is_float(side) {
        return Some(side);
    }
    for entry in entries {
        if is_float(entry.1) {
            return Some(entry.1);
        }
        if let Some(constraint) = constraint_at(refused, entry.0) {
            if is_float(constraint.rhs) {
                return Some(constraint.rhs);
            }
            for difference in &differences[..differences.len().min(MOST_SHOWN)] {
                let coefficient = constraint.row.coefficient(difference.variable);
                if is_float(coefficient) {
                    return Some(coefficient);
                }
            }
        }
    }
    None
}

// Whether a sum with the stated row differs at the right-hand side alone.
fn is_side_alone(computed: &Constraint, stated: &Constraint) -> bool {
    !stated.row.is_empty() && (computed.sense == Sense::E || computed.sense == stated.sense)
}

// Whether a change takes a derivation in place of an index that was counted from the first one on.
fn counts_from_zero(refused: Refused<'_>, change: Option<Change>) -> bool {
    let given = refused.problem.cons().len() as u32;
    match change {
        Some(change) => change.counts_from_zero(given, &refused.step.reason),
        None => false,
    }
}

// Whether a change of a multiplier is one of its sign.
fn is_sign(change: Option<Change>, entries: &[(u32, Frac)]) -> bool {
    match change {
        Some(change) => turns_sign(change, entries),
        None => false,
    }
}

// Whether a change gives the entry at its position the other sign.
fn turns_sign(change: Change, entries: &[(u32, Frac)]) -> bool {
    match change {
        Change::Entry(position, _, multiplier) => {
            let turned = multiplier.neg();
            let (above, below) = (turned.numer(), turned.denom());
            for (at, entry) in entries.iter().enumerate() {
                if at == position && entry.1.numer() == above && entry.1.denom() == below {
                    return true;
                }
            }
            false
        }
        _ => false,
    }
}

// Whether a constraint in the place of an entry rests on an assumption that no entry rests on.
fn brings_assumption(
    refused: Refused<'_>,
    entries: &[(u32, Frac)],
    change: Option<Change>,
) -> bool {
    let Some(Change::Entry(_, index, _)) = change else {
        return false;
    };
    match refused.rows.get(index) {
        Some(entry) if !entry.assumptions.is_empty() => {
            for assumption in 0..=index {
                if entry.assumptions.contains(assumption)
                    && !rest_on(refused, entries, assumption)
                {
                    return true;
                }
            }
            false
        }
        _ => false,
    }
}

// Whether a shift of indices leads to a contradiction that isn't stated: such a sum follows by
// chance.
fn names_absurdity(refused: Refused<'_>, entries: &[(u32, Frac)], slip: Option<Change>) -> bool {
    let Some(Change::Shift(from, by)) = slip else {
        return false;
    };
    for entry in entries {
        if is_other_absurdity(refused, shifted(entry.0, from, by)) {
            return true;
        }
    }
    false
}

/// Whether a constraint is a contradiction, and the stated one isn't.
pub(crate) fn is_other_absurdity(refused: Refused<'_>, index: u32) -> bool {
    match constraint_at(refused, index) {
        Some(constraint) => constraint.is_absurd() && !refused.step.constraint.is_absurd(),
        None => false,
    }
}

// Whether one of the entries rests on an assumption.
fn rest_on(refused: Refused<'_>, entries: &[(u32, Frac)], assumption: u32) -> bool {
    for entry in entries {
        if let Some(entry) = refused.rows.get(entry.0) {
            if entry.assumptions.contains(assumption) {
                return true;
            }
        }
    }
    false
}
