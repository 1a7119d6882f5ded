//! What a program in C gets of a verdict.

ghost use Rattle.std.specs.Prelude.{◌≡◌, Ok};
ghost use Rattle.vipr_c.specs.AnswerOf.{answer_of_verdict};

use vipr_check::{Place, Verdict};

/// A verdict in numbers: all but those that the status asks for are 0.
#[repr(C)]
#[derive(Clone, Copy, Debug, PartialEq, Eq)]
pub struct Answer {
    /// If it is refused: the number of its cause.
    pub cause: u32,
    /// If it is refused: 1 at a byte, 2 at a solution, 3 at a derivation, 4 at the end.
    pub place: u32,
    /// The byte's offset, the solution's number from 0, or the derived constraint's index.
    pub number: u64,
    /// If it is verified: how many solutions are listed.
    pub solutions: u32,
    /// How many constraints are derived.
    pub derived: u32,
    /// How many derived constraints had to be held at most.
    pub peak: u64,
    /// 1 if there is a goal.
    pub has_goal: u32,
    /// The goal's index.
    pub goal: u32,
}

pub(crate) const NOTHING: Answer = Answer {
    cause: 0,
    place: 0,
    number: 0,
    solutions: 0,
    derived: 0,
    peak: 0,
    has_goal: 0,
    goal: 0,
};

/// The numbers of a verdict.
pub(crate) fn answer_of(verdict: &Verdict) -> Answer
    ensures { result ≡ answer_of_verdict (Ok verdict.now) }
{
    match verdict {
        Verdict::Verified(report) => Answer {
            solutions: report.solutions,
            derived: report.derived,
            peak: report.peak as u64,
            has_goal: report.goal.is_some() as u32,
            goal: report.goal.unwrap_or(0),
            ..NOTHING
        },
        Verdict::Refused(refusal) => {
            let (place, number) = match refusal.place {
                Place::Byte(offset) => (1, offset),
                Place::Sol(number) => (2, number as u64),
                Place::Der(index) => (3, index as u64),
                Place::End => (4, 0),
            };
            Answer {
                cause: refusal.cause as u32,
                place,
                number,
                ..NOTHING
            }
        }
    }
}
