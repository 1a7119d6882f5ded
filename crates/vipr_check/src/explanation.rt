//! How a verdict is printed with what shows why it is so: the lines of `vipr explain`.
ghost use Rattle.std.specs.Prelude.{◌≡◌, Some, option_map};
ghost use Rattle.vipr_check.specs.Explanation.{detail_text, explained_text, refused_name};
ghost use Rattle.vipr_check.specs.Explanation.{step_text};

use crate::detail::{Detail, StepDetail};
use crate::verdict::{Place, Verdict};
use std::fmt;
use std::fmt::{Display, Formatter, Write};
use vipr_cert::Name;

/// A verdict and what there is to show of it, to be printed: the verdict's lines, and then the
/// goal, or the cause's name, the item that is refused and the detail. Each line has its line feed.
#[derive(Clone, Copy)]
pub struct Explanation<'a> {
    pub verdict: &'a Verdict,
    pub detail: &'a Detail,
}

impl Display for Explanation<'_> {
    ghost output = { λ e. Some (explained_text e.verdict.now e.detail.now) };

    fn fmt<W: Write>(&self, f: &mut Formatter<W>) -> fmt::Result {
        let verdict = self.verdict;
        let detail = self.detail;
        match verdict {
            Verdict::Verified(report) => match report.goal {
                Some(goal) => write!(f, "{verdict}\ngoal {goal}\n"),
                None => write!(f, "{verdict}\ngoal none\n"),
            },
            Verdict::Refused(refusal) => {
                let cause = refusal.name();
                match (refusal.place, detail.name()) {
                    (Place::Sol(number), Some(name)) => write!(
                        f,
                        "{verdict}\ncause {cause}\nsolution {number} {name}\n{detail}"
                    ),
                    (Place::Der(index), Some(name)) => write!(
                        f,
                        "{verdict}\ncause {cause}\nderivation {index} {name}\n{detail}"
                    ),
                    _ => write!(f, "{verdict}\ncause {cause}\n{detail}"),
                }
            }
        }
    }
}

impl Detail {
    /// The name of the solution or the derivation that is refused, `None` if neither is.
    pub fn name(&self) -> Option<&Name>
        ensures { option_map (λ name. name.now) result ≡ refused_name self.now }
    {
        match self {
            Detail::NotWhole { solution, .. }
            | Detail::Breaks { solution, .. }
            | Detail::SolutionOverflow { solution, .. } => Some(solution),
            Detail::Step { name, .. } => Some(name),
            Detail::None | Detail::NoProof(_) | Detail::NoPrimal(_) => None,
        }
    }
}

/// What shows the fault, each line with its line feed. Which item is at fault is not among it.
impl Display for Detail {
    ghost output = { λ detail. Some (detail_text detail) };

    fn fmt<W: Write>(&self, f: &mut Formatter<W>) -> fmt::Result {
        match self {
            Detail::None => Ok(()),
            Detail::NotWhole {
                variable,
                name,
                value,
                ..
            } => write!(f, "variable {variable} {name}\nvalue {value}\n"),
            Detail::Breaks {
                constraint,
                name,
                left,
                sense,
                right,
                ..
            } => write!(
                f,
                "constraint {constraint} {name}\nleft {left} {sense} right {right}\n"
            ),
            Detail::SolutionOverflow {
                at: Some((index, name)),
                ..
            } => write!(f, "constraint {index} {name}\n"),
            Detail::SolutionOverflow { at: None, .. } => f.write_str("objective\n"),
            Detail::Step { what, .. } => write!(f, "{what}"),
            Detail::NoProof(Some(goal)) => write!(f, "goal {goal}\n"),
            Detail::NoProof(None) => f.write_str("goal absurdity\n"),
            Detail::NoPrimal(bound) => write!(f, "bound {bound}\n"),
        }
    }
}

/// What shows the fault of a derivation, each line with its line feed.
impl Display for StepDetail {
    ghost output = { λ what. Some (step_text what) };

    fn fmt<W: Write>(&self, f: &mut Formatter<W>) -> fmt::Result {
        match self {
            StepDetail::Index(index) => write!(f, "index {index}\n"),
            StepDetail::Entry(position) => write!(f, "entry {position}\n"),
            StepDetail::Sum(sum) => write!(f, "sum {sum}\n"),
            StepDetail::Pair(first, second) => write!(f, "first {first}\nsecond {second}\n"),
            StepDetail::Rows { computed, stated } => {
                write!(f, "computed {computed}\nstated {stated}\n")
            }
            StepDetail::Nothing => Ok(()),
        }
    }
}
