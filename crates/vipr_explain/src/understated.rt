//! Sums that are absurd, while what they state is always true.
ghost use Rattle.vipr_spec.specs.Certificate.{variables};
ghost use Rattle.vipr_explain.specs.Replays.{IsReplayOf};

use crate::algebra::sign_of;
use crate::changes::{Change, Replay, first_that_follows};
use crate::items::open_derivations;
use crate::near::search_to;
use crate::page::Page;
use crate::shown::{PlacedItems, write_line};
use crate::sought::{Ranking, Refused};
use crate::text::{Reread, Subject};
use std::alloc::AllocError;
use vipr_bytes::Bytes;
use vipr_cert::{Derivation, Problem, References};
use vipr_frac::Frac;
use vipr_linear::Sense;
use vipr_read::Derivations;

/// A derivation by a sum that is absurd, though a constraint without variables is stated that is
/// true; and how many sums state such a constraint.
#[derive(Clone, Copy)]
pub(crate) struct Understated {
    pub(crate) index: u32,
    sense: Sense,
    side: Frac,
    count: u32,
}

impl Understated {
    /// Finds the first one that may be, and tries it by the rule.
    pub(crate) fn find(subject: Subject<'_>) -> Reread<Option<Understated>> {
        let (problem, mut derivations) = open_derivations(subject.alloc, subject.text)?;
        let given = problem.cons().len() as u32;
        drop(problem);
        let passed = first_true(subject, &mut derivations, given);
        drop(derivations);
        let Some(found) = passed? else {
            return Ok(None);
        };
        let (problem, mut search, step) = search_to(subject, Some(found.index))?;
        let is_absurd = match step {
            Some(step) => is_absurd_sum(subject, &problem, &mut search.replay, step),
            None => Ok(false),
        };
        drop(search);
        drop(problem);
        Ok(if is_absurd? { Some(found) } else { None })
    }

    /// Writes that the sum is absurd.
    pub(crate) fn write(&self, page: &mut Page, known: &PlacedItems<'_>) {
        let Understated {
            index,
            sense,
            side,
            count,
        } = *self;
        page.put("  = help: the sum of ");
        known.write_name(page, index);
        write_line(page, known.marks.place(index));
        let sign = sign_of(sense);
        write!(page, " is absurd, and it states 0 {sign} {side}, ");
        page.put("which is always true");
        if count > 1 {
            write!(page, ", as {count} sums do");
        }
        page.put(": is `G 1 0` meant?\n");
    }
}

// The first derivation by a sum that states a constraint without variables which is true, and how
// many there are.
fn first_true(
    subject: Subject<'_>,
    derivations: &mut Derivations<Bytes<'_>>,
    given: u32,
) -> Reread<Option<Understated>> {
    let count = derivations.left();
    let mut found: Option<Understated> = None;
    let mut step = Derivation::blank(subject.alloc);
    for passed in 0..count {
        if or_drop!(derivations.next_into(subject.alloc, &mut step), step) {
            let index = given.saturating_add(passed);
            take_step(&mut found, &step, index);
        }
    }
    drop(step);
    Ok(found)
}

// Takes the derivation of an index, if it is such a one.
fn take_step(found: &mut Option<Understated>, step: &Derivation, index: u32) {
    if is_true_sum(step) {
        match found {
            Some(known) => known.count = known.count.saturating_add(1),
            None => {
                *found = Some(Understated {
                    index,
                    sense: step.constraint.sense,
                    side: step.constraint.rhs,
                    count: 1,
                });
            }
        }
    }
}

// Whether a derivation by a sum states a constraint without variables that is true.
fn is_true_sum(step: &Derivation) -> bool {
    let constraint = &step.constraint;
    match step.reason.references() {
        References::Entries(entries) => {
            !entries.is_empty() && constraint.row.is_empty() && !constraint.is_absurd()
        }
        _ => false,
    }
}

// Whether the sum of a derivation is absurd, after those that are replayed.
fn is_absurd_sum(
    subject: Subject<'_>,
    problem: &Problem,
    replay: &mut Replay,
    step: Derivation,
) -> Result<bool, AllocError>
    requires { IsReplayOf (variables problem.now) replay.old }
{
    let mut step = step;
    step.constraint.sense = Sense::G;
    step.constraint.rhs = Frac::one();
    let refused = Refused {
        subject,
        problem,
        rows: &replay.rows,
        step: &step,
    };
    let mut ranking = Ranking::new();
    ranking.add(0, Change::Shift(0, 0));
    let found = first_that_follows(refused, &mut replay.scratch, &ranking);
    drop(step);
    match found {
        Ok(found) => Ok(found.is_some()),
        Err(error) => Err(error),
    }
}
