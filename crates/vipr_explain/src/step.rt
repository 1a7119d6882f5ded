//! A derivation that is refused.
ghost use Rattle.std.specs.Prelude.{◌≡◌, length};
ghost use Rattle.vipr_spec.specs.Certificate.{variables};
ghost use Rattle.vipr_table.specs.Table.{DerivedBelow};
ghost use Rattle.vipr_explain.specs.Replays.{IsReplayOf};

use crate::algebra::{Algebra, ShownName, VariableName, sign_of};
use crate::cases::write_case_help;
use crate::changes::{Change, Changes, Replay, changes_of};
use crate::differences::{Difference, row_differences, write_differences};
use crate::doubts::Doubts;
use crate::faults::{RowFault, has_fraction, has_part, row_faults, write_faults};
use crate::later::{marks_with_later, write_not_earlier};
use crate::lines::write_repeated_line;
use crate::marks::{ItemSort, Marks, Sought};
use crate::near::{NearSearch, is_turned, search_to};
use crate::page::Page;
use crate::past::write_past_in_sum;
use crate::reason::{label_of, part_at_fault, step_indices, write_reason, write_sources};
use crate::shown::{PlacedItems, write_last_use};
use crate::sides::SideSlip;
use crate::solution::PAST_LIMIT;
use crate::sought::{Refused, constraint_at, inverse, less_sum};
use crate::splits::{write_gap_help, write_partners};
use crate::sums::OtherSum;
use crate::text::{Reread, Subject};
use std::alloc::AllocError;
use vipr_cert::{Derivation, Problem, Reason, References};
use vipr_check::{StepDetail, cause};
use vipr_frac::Frac;
use vipr_linear::{Combination, Constraint, Ints, Row, Sense, covers};
use vipr_rules::{Profile, Rows};
use vipr_scan::TextError;

/// How many variables are shown with the entries that bring their coefficients.
const MOST_SOURCES: usize = 3;

/// What is wrong with a derivation: the cause, the index of its constraint, and the part at fault.
#[derive(Clone, Copy)]
pub(crate) struct StepFault<'a> {
    pub(crate) cause: u8,
    pub(crate) index: u32,
    pub(crate) what: &'a StepDetail,
}

/// A derivation that is refused, the constraints that are live there, the places of those that are
/// shown, and what is behind the fault.
#[derive(Drop)]
pub(crate) struct RefusedStep<'a> {
    own: Derivation,
    /// The search up to it, whose table has the constraints that are live.
    search: NearSearch,
    pub(crate) known: PlacedItems<'a>,
    facts: StepFacts,
    advice: StepAdvice,
    profile: Profile,
}

/// What is said of a refused derivation: what is likely to be wrong, and changes with which it
/// follows.
#[derive(Clone, Copy)]
pub(crate) struct StepAdvice {
    pub(crate) doubts: Doubts,
    pub(crate) changes: Changes,
    /// Whether it follows by `lin` in place of `rnd`.
    pub(crate) follows_as_lin: bool,
    /// A sum with which it follows that has all entries changed.
    other: Option<OtherSum>,
    /// A right-hand side or a sense above that is likely to be wrong.
    pub(crate) side: Option<SideSlip>,
    /// The entry of a sum that gives another sense than the stated one.
    pub(crate) entry: Option<usize>,
}

/// What is behind the fault of a derivation.
#[derive(Drop)]
enum StepFacts {
    Rows(Vec<Difference>),
    /// What keeps a sum from being whole.
    Sum(Vec<RowFault>),
    /// What keeps the row of two assumptions from being whole, and whether they are a split by the
    /// second profile.
    Pair(Vec<RowFault>, bool),
    /// The sum of the entries in front of the one that passes the limit, with the other sign.
    Front(Constraint),
    Nothing,
}

impl StepAdvice {
    // Nothing.
    fn none() -> StepAdvice {
        StepAdvice {
            doubts: Doubts::none(),
            changes: Changes::none(),
            follows_as_lin: false,
            other: None,
            side: None,
            entry: None,
        }
    }

    // Whether a change of one part comes first, so that the part is marked.
    fn begins_with_part(&self) -> bool {
        !self.doubts.are_first() && !self.changes.begin_with_slip() && self.other.is_none()
    }

    // Takes a sum with all entries changed, if it is likelier than other changes and the doubts.
    fn take_other(&mut self, refused: Refused<'_>, other: Option<OtherSum>) {
        let has_part = !self.changes.is_empty() && !self.changes.has_rounded_alone();
        let is_open = !has_part && !self.doubts.has_number();
        let mut is_likely = false;
        if let Some(found) = &other {
            is_likely = is_open || found.slip.is_of_count(refused);
        }
        if is_likely && !self.changes.begin_with_slip() {
            self.other = other;
            self.changes = Changes::none();
            self.doubts = self.doubts.of_order();
        }
    }

    // Whether it follows with no change that was tried.
    fn has_no_change(&self) -> bool {
        self.changes.is_empty() && self.other.is_none() && self.side.is_none()
    }

    /// The other multiplier and the exchange of which the part is marked.
    pub(crate) fn marked(&self) -> (Option<Change>, Option<Change>) {
        if self.begins_with_part() {
            (self.changes.multiplier, self.changes.exchange)
        } else {
            (None, None)
        }
    }

    /// Whether no change is marked.
    pub(crate) fn has_no_mark(&self) -> bool {
        !self.begins_with_part() || self.changes.is_empty()
    }
}

impl<'a> RefusedStep<'a> {
    /// Reads the derivation that is refused, and what it names.
    pub(crate) fn find(subject: Subject<'a>, fault: StepFault<'_>) -> Reread<RefusedStep<'a>> {
        let (problem, mut search, step) = search_to(subject, Some(fault.index))?;
        let Some(own) = step else {
            drop(search);
            drop(problem);
            return Err(TextError::Read);
        };
        match find_behind(subject, fault, &problem, &mut search.replay, &own) {
            Ok((marks, facts, advice)) => Ok(RefusedStep {
                own,
                search,
                known: PlacedItems {
                    text: subject.text,
                    problem,
                    marks,
                },
                facts,
                advice,
                profile: subject.profile,
            }),
            Err(error) => {
                drop(own);
                drop(search);
                drop(problem);
                Err(error.into())
            }
        }
    }

    /// A constraint of the problem, or a derived one that is live.
    pub(crate) fn constraint(&self, index: u32) -> Option<&Constraint> {
        match self.known.problem.cons().get(index as usize) {
            Some(named) => Some(&named.item),
            None => Some(&self.search.replay.rows.get(index)?.constraint),
        }
    }

    /// What is said of it.
    pub(crate) fn advice(&self) -> &StepAdvice {
        &self.advice
    }

    /// An assumption.
    pub(crate) fn assumption(&self, index: u32) -> Option<&Constraint> {
        let entry = self.search.replay.rows.get(index)?;
        entry.is_assumption.then_some(&entry.constraint)
    }

    /// What it states.
    pub(crate) fn stated(&self) -> &Constraint {
        &self.own.constraint
    }

    /// The multiplier of the first entry of a constraint, 0 if there is none.
    pub(crate) fn multiplier(&self, index: u32) -> Frac {
        if let References::Entries(entries) = self.own.reason.references() {
            for entry in entries {
                if entry.0 == index {
                    return entry.1;
                }
            }
        }
        Frac::zero()
    }

    // Writes the sense that an entry of a sum gives, and the one that the entries before it give.
    fn write_senses(&self, page: &mut Page, position: u32) {
        if let References::Entries(entries) = self.own.reason.references() {
            if let Some(entry) = entries.get(position as usize) {
                if let Some(constraint) = self.constraint(entry.0) {
                    let is_turned = entry.1.numer() < 0;
                    let (given, before) = match (constraint.sense, is_turned) {
                        (Sense::L, true) | (Sense::G, false) => (">=", "<="),
                        _ => ("<=", ">="),
                    };
                    write!(page, " gives {given}, and the sum before it is {before}");
                }
            }
        }
    }

    /// Writes its page.
    pub(crate) fn write(&self, page: &mut Page, fault: StepFault<'_>, file: &[u8]) {
        let own = &self.own;
        let index = fault.index;
        let name = ShownName(own.name.as_bytes());
        let (before, behind) = words_of(fault.cause);
        write!(page, "error: derivation {index} `{name}` {before}");
        if let StepDetail::Index(at) | StepDetail::Entry(at) = fault.what {
            write!(page, " {at}");
        }
        page.put(behind);
        if let (cause::MIXED_SIGNS, StepDetail::Entry(at)) = (fault.cause, fault.what) {
            self.write_senses(page, *at);
        }
        page.put("\n");
        let advice = &self.advice;
        let changes = &advice.changes;
        if let Some(place) = self.known.part(index) {
            let part = part_at_fault(fault, &own.reason, advice);
            place.write(page, file, label_of(fault, part, advice));
            if advice.begins_with_part() && changes.has_token() {
                place.write_front(page, "~");
                changes.write_token(page, &own.reason);
                place.write_rest(page);
            }
        }
        let problem = &self.known.problem;
        write_repeated_line(page, self.known.text, self.known.marks.place(index));
        advice.doubts.write_order(page, self.known.text);
        write_facts(page, self, &own.reason, fault);
        if let Some(other) = &advice.other {
            other.write(page, &self.known, &own.reason);
        }
        if let Some(slip) = &advice.side {
            if let Some(constraint) = self.constraint(slip.index()) {
                slip.write(page, &self.known, constraint.rhs, constraint.sense);
            }
        }
        changes.write(page, &self.known, &own.reason);
        if let StepDetail::Rows { computed, .. } | StepDetail::Sum(computed) = fault.what {
            advice.doubts.write_late(page, self, computed);
        }
        if advice.has_no_change() {
            write_help(page, &self.known, fault);
        }
        if let Some(dropped) = used_by(fault) {
            write_last_use(page, &self.known, dropped, file);
        }
        if !matches!(fault.what, StepDetail::Rows { .. }) {
            write_labelled(page, problem, "  it states    ", &own.constraint);
        }
        write_reason(page, self, fault, &own.reason);
    }
}

// Finds the places of what a derivation names, what is behind its fault, and changes with which it
// follows, if it is one that might.
fn find_behind(
    subject: Subject<'_>,
    fault: StepFault<'_>,
    problem: &Problem,
    replay: &mut Replay,
    step: &Derivation,
) -> Result<(Marks, StepFacts, StepAdvice), AllocError>
    requires { IsReplayOf (variables problem.now) replay.old }
{
    let refused = Refused {
        subject,
        problem,
        rows: &replay.rows,
        step,
    };
    let (advice, front) = match fault.cause {
        cause::OVERFLOW => {
            let front = negated_front(refused, &mut replay.scratch, fault)?;
            (StepAdvice::none(), front)
        }
        _ => (advice_of(refused, &mut replay.scratch, fault)?, None),
    };
    let wanted = or_drop!(
        step_indices(subject.alloc, fault, &step.reason, &advice),
        front
    );
    let sought = Sought {
        kind: ItemSort::Constraints,
        items: wanted.as_slice(),
        part: part_at_fault(fault, &step.reason, &advice),
        used: used_by(fault),
    };
    let marks = match fault.cause {
        cause::NOT_EARLIER => marks_with_later(subject, sought, fault.index, &step.reason),
        _ => Marks::find(subject.alloc, subject.text, sought),
    };
    let marks = or_drop!(marks, front);
    let facts = match front {
        Some(front) => StepFacts::Front(front),
        None => or_drop!(StepFacts::find(subject, fault.what, problem.ints()), marks),
    };
    Ok((marks, facts, advice))
}

// What is said of a refused derivation, if it is one that might follow with a change.
fn advice_of(
    refused: Refused<'_>,
    scratch: &mut Combination,
    fault: StepFault<'_>,
) -> Result<StepAdvice, AllocError>
    requires rows { DerivedBelow (variables refused.problem.now) refused.rows.now }
    requires variables { length scratch.old.sums ≡ variables refused.problem.now }
{
    let mut advice = StepAdvice::none();
    match fault.cause {
        cause::NOT_EARLIER
        | cause::DROPPED
        | cause::NOT_ASSUMPTION
        | cause::MIXED_SIGNS
        | cause::NOT_ROUNDABLE
        | cause::NOT_SPLIT
        | cause::NOT_DOMINATED => {
            let mut doubts = Doubts::find(refused, scratch, fault.what)?;
            let other = OtherSum::find(refused, scratch)?;
            let side = SideSlip::find(refused, scratch)?;
            let changes = changes_of(refused, scratch)?;
            advice.follows_as_lin = matches!(changes.exchange, Some(Change::Word));
            let changes = without_lin(changes, fault, refused.problem.ints());
            advice.changes = doubts.weigh(refused, changes);
            advice.doubts = doubts;
            advice.take_other(refused, other);
            if advice.has_no_change() && has_sum_of_rows(fault.cause) {
                advice.side = side;
            }
            advice.entry = entry_of_other_sense(refused, fault);
            Ok(advice)
        }
        _ => Ok(advice),
    }
}

// Whether a derivation with this cause might follow with another right-hand side or sense above.
fn has_sum_of_rows(cause: u8) -> bool {
    matches!(cause, cause::MIXED_SIGNS | cause::NOT_DOMINATED)
}

// The first entry that gives another sense than the stated one, if a sum has both.
fn entry_of_other_sense(refused: Refused<'_>, fault: StepFault<'_>) -> Option<usize> {
    let stated = refused.step.constraint.sense;
    let (StepDetail::Entry(last), References::Entries(entries)) = (
        fault.what,
        refused.step.reason.references(),
    ) else {
        return None;
    };
    if stated == Sense::E {
        return None;
    }
    for (position, entry) in entries.iter().enumerate() {
        if let Some(constraint) = constraint_at(refused, entry.0) {
            let is_as_stated = (constraint.sense == stated) == (entry.1.numer() > 0);
            let gives_sense = constraint.sense != Sense::E && !entry.1.is_zero();
            if gives_sense && !is_as_stated && position <= *last as usize {
                return Some(position);
            }
        }
    }
    None
}

// The sum of the entries in front of the one at fault, with the other sign.
fn negated_front(
    refused: Refused<'_>,
    scratch: &mut Combination,
    fault: StepFault<'_>,
) -> Result<Option<Constraint>, AllocError>
    requires { length scratch.old.sums ≡ variables refused.problem.now }
{
    match (fault.what, refused.step.reason.references()) {
        (StepDetail::Entry(position), References::Entries(entries)) => {
            let front = &entries[..entries.len().min(*position as usize)];
            let stated = &refused.step.constraint;
            less_sum(refused, scratch, stated, Frac::zero(), front)
        }
        _ => Ok(None),
    }
}

// Changes without `lin` in place of `rnd`, if a variable of the sum isn't an integer one: it is
// likelier that INT lacks it.
fn without_lin(mut changes: Changes, fault: StepFault<'_>, ints: &Ints) -> Changes {
    if let (StepDetail::Sum(sum), Some(Change::Word)) = (fault.what, changes.exchange) {
        if !are_integer(&sum.row, ints) {
            changes.exchange = None;
        }
    }
    changes
}

// Whether each variable of a row is an integer one.
fn are_integer(row: &Row, ints: &Ints) -> bool {
    row.entries().iter().all(|entry| ints.contains(entry.0))
}

// The constraint whose last use is looked for, if the cause is that it was dropped.
fn used_by(fault: StepFault<'_>) -> Option<u32> {
    match fault.what {
        StepDetail::Index(index) if fault.cause == cause::DROPPED => Some(*index),
        _ => None,
    }
}

impl StepFacts {
    // Finds what is behind the fault of a derivation.
    fn find(subject: Subject<'_>, what: &StepDetail, ints: &Ints) -> Result<StepFacts, AllocError> {
        match what {
            StepDetail::Rows { computed, stated } => {
                {
                    let alloc = subject.alloc;
                    Ok(StepFacts::Rows(row_differences(alloc, &computed.row, &stated.row)?))
                }
            }
            StepDetail::Sum(sum) => Ok(StepFacts::Sum(row_faults(subject, ints, &sum.row)?)),
            StepDetail::Pair(first, second) => {
                let faults = row_faults(subject, ints, &first.row)?;
                Ok(StepFacts::Pair(faults, covers(first, second, ints)))
            }
            _ => Ok(StepFacts::Nothing),
        }
    }
}

// Whether a sum has the stated coefficients with the other sign, and not the stated sense.
fn is_negated(computed: Sense, stated: &Constraint, differences: &[Difference]) -> bool {
    !differences.is_empty()
        && differences.len() == stated.row.entries().len()
        && (computed == Sense::E || is_turned(computed, stated.sense))
        && are_opposite(differences)
}

// Whether each stated coefficient is the computed one with the other sign.
fn are_opposite(differences: &[Difference]) -> bool {
    differences.iter().all(|difference| difference.stated == difference.computed.neg())
}

// How many times the computed coefficients the stated ones are, if that is one number for several.
fn ratio_of(stated: &Constraint, differences: &[Difference]) -> Option<Frac> {
    let first = differences.first()?;
    let ratio = first.stated.mul(inverse(first.computed)?).ok()?;
    if differences.len() < 2 || differences.len() != stated.row.entries().len() {
        return None;
    }
    for difference in differences {
        if difference.computed.mul(ratio).ok()? != difference.stated {
            return None;
        }
    }
    Some(ratio)
}

// What is said of a cause, in front of the number at fault and behind it.
fn words_of(cause: u8) -> (&'static str, &'static str) {
    match cause {
        cause::NOT_EARLIER => ("names constraint", ", which is not earlier"),
        cause::DROPPED => ("needs constraint", ", which was dropped"),
        cause::NOT_ASSUMPTION => ("takes constraint", " for an assumption, which it is not"),
        cause::MIXED_SIGNS => ("has a sum of both senses: entry", ""),
        cause::OVERFLOW => ("passes 2^127 - 1 at entry", " of its sum"),
        cause::NOT_ROUNDABLE => ("has a sum that can't be rounded", ""),
        cause::NOT_SPLIT => ("has two assumptions that don't form a split", ""),
        cause::NOT_DOMINATED => ("does not follow from its reason", ""),
        _ => ("needs a listed solution", ""),
    }
}

// Writes what is behind the fault.
fn write_facts(page: &mut Page, refused: &RefusedStep<'_>, reason: &Reason, fault: StepFault<'_>) {
    let problem = &refused.known.problem;
    match (fault.what, &refused.facts) {
        (StepDetail::Rows { computed, stated }, StepFacts::Rows(differences)) => {
            write_labelled(page, problem, "    computed   ", computed);
            write_labelled(page, problem, "    stated     ", stated);
            write_differences(page, problem, computed, stated, differences);
            if let References::Entries(entries) = reason.references() {
                for difference in &differences[..differences.len().min(MOST_SOURCES)] {
                    write_sources(page, refused, entries, difference.variable);
                }
            }
            write_rows_help(page, refused, reason, computed, stated, differences);
        }
        (StepDetail::Sum(sum), StepFacts::Sum(faults)) => {
            write_labelled(page, problem, "    sum        ", sum);
            write_faults(page, problem, faults);
            refused.advice.doubts.write(page, refused, sum);
            if refused.advice.has_no_change() && !refused.advice.doubts.has_number() {
                write_rounding(page, refused.advice.follows_as_lin, faults);
            }
        }
        (StepDetail::Pair(first, second), StepFacts::Pair(faults, is_split)) => {
            if first.row.entries() != second.row.entries() {
                page.put(
                    "    they are about different rows: a split is of one row, `<=` and `>=`\n",
                );
                if refused.advice.changes.is_empty() {
                    write_other_variable(page, problem, &first.row, &second.row);
                }
                write_partners(page, problem, first, second);
            } else if faults.is_empty() {
                write_gap(page, refused.profile, *is_split, first, second);
                write_partners(page, problem, first, second);
                if let References::Branches { l1, l2, .. } = reason.references() {
                    write_gap_help(page, refused, (l1, l2), first, second);
                }
            } else {
                write_faults(page, problem, faults);
            }
        }
        (StepDetail::Entry(position), StepFacts::Front(front)) => {
            if let References::Entries(entries) = reason.references() {
                if let Some(entry) = entries.get(*position as usize) {
                    if let Some(constraint) = refused.constraint(entry.0) {
                        write_past_in_sum(page, problem, front, constraint, entry.1);
                    }
                }
            }
        }
        _ => {}
    }
}

// Writes when a sum is rounded, and what is likely if one can't be.
fn write_rounding(page: &mut Page, follows_as_lin: bool, faults: &[RowFault]) {
    page.put(
        "  = help: a sum is rounded if all coefficients are whole, and all its variables are \
         integer ones",
    );
    if follows_as_lin {
        page.put(": is `lin` meant, which doesn't round?\n");
    } else if has_fraction(faults) {
        page.put("; derive a cut over other variables by a split, with `asm`, `lin` and `uns`\n");
    } else if has_part(faults) {
        page.put("; multiples of bounds in the sum can make the coefficients whole\n");
    } else {
        page.put("\n");
    }
}

// Writes what is likely to be wrong if a reason gives another constraint than the stated one.
fn write_rows_help(
    page: &mut Page,
    refused: &RefusedStep<'_>,
    reason: &Reason,
    computed: &Constraint,
    stated: &Constraint,
    differences: &[Difference],
) {
    match reason.references() {
        References::Entries(entries)
            if entries.len() > 1 && is_negated(computed.sense, stated, differences) => {
            page.put(
                "  = help: each coefficient has the other sign: does every multiplier have the \
                 wrong sign?\n",
            );
        }
        References::Entries(_) if refused.advice.doubts.has_number() => {
            refused.advice.doubts.write(page, refused, computed);
        }
        _ if !refused.advice.has_no_change() => {}
        References::Entries(_) => match ratio_of(stated, differences) {
            Some(ratio) => {
                write!(
                    page,
                    "  = help: each stated coefficient is {ratio} times the computed "
                );
                page.put("one: was the objective, or a row, multiplied by that?\n");
            }
            None if stated.is_absurd() && differences.is_empty() => page.put(
                "  = help: the rows cancel, and what is left is no contradiction: is a right-hand \
                 side below wrong, or is this case not ruled out?\n",
            ),
            None => page.put(
                "  = help: no change of one entry that was tried makes it follow: is what was \
                 computed meant, or is a number below wrong?\n",
            ),
        },
        References::Branches { i1, i2, .. } => write_case_help(page, refused, [i1, i2], stated),
        References::Nothing => match ratio_of(stated, differences) {
            Some(ratio) => {
                write!(
                    page,
                    "  = help: each stated coefficient is {ratio} times the computed one: "
                );
                page.put("`sol` gives a bound on the objective as OBJ has it\n");
            }
            None => page.put(
                "  = help: is what was computed meant? `sol` gives the best listed value, and \
                 nothing better\n",
            ),
        },
    }
}

// Asks whether another variable is meant in one of two rows that have one each.
fn write_other_variable(page: &mut Page, problem: &Problem, first: &Row, second: &Row) {
    if let ([first], [second]) = (first.entries(), second.entries()) {
        if first.0 != second.0 {
            let first = VariableName(problem, first.0);
            let second = VariableName(problem, second.0);
            write!(
                page,
                "  = help: one is about {first}, and the other about {second}: "
            );
            page.put("is the variable's index wrong in one of them?\n");
        }
    }
}

// Writes which two sides are a split, and which these are.
fn write_gap(
    page: &mut Page,
    profile: Profile,
    is_split: bool,
    first: &Constraint,
    second: &Constraint,
) {
    let split = match profile {
        Profile::One => "<= k and >= k + 1 with k whole",
        Profile::Two => "<= k and >= h, where h rounded up is at most k rounded down plus 1",
    };
    let (first_sign, second_sign) = (sign_of(first.sense), sign_of(second.sense));
    let (first_side, second_side) = (first.rhs, second.rhs);
    write!(page, "    a split is {split}; here it is {first_sign} ");
    write!(page, "{first_side} and {second_sign} {second_side}\n");
    if profile == Profile::One && is_split {
        page.put("  = help: `--profile 2` accepts these\n");
    }
}

// Writes a constraint behind a label.
fn write_labelled(page: &mut Page, problem: &Problem, label: &str, constraint: &Constraint) {
    write!(page, "{label}{}\n", Algebra(problem, constraint));
}

// Writes what is likely to be wrong, by the cause.
fn write_help(page: &mut Page, known: &PlacedItems<'_>, fault: StepFault<'_>) {
    if let (cause::NOT_EARLIER, StepDetail::Index(index)) = (fault.cause, fault.what) {
        write_not_earlier(page, known, fault.index, *index);
        return;
    }
    let help = match fault.cause {
        cause::NOT_ASSUMPTION => {
            "  = help: `uns i1 l1 i2 l2`: l1 and l2 are the assumptions of the two cases, \
             derivations by `asm`; i1 holds if l1 does, and i2 if l2 does\n"
        }
        cause::MIXED_SIGNS => {
            "  = help: a sum that is >= takes positive multiples of >= and negative ones of <=, \
             and a sum that is <= the other way round: is a sign wrong, or is another constraint \
             meant (indices count bounds, too)?\n"
        }
        cause::OVERFLOW => PAST_LIMIT,
        cause::NO_SOLUTION => "  = help: list a solution in SOL, or give another reason\n",
        _ => "",
    };
    page.put(help);
}
