//! How a command ends.
ghost use Rattle.std.specs.Prelude.{◌≡◌, ◌++◌, [], codes};
ghost use Rattle.vipr_check.specs.Text.{refusal_text};
ghost use Rattle.vipr_tighten.specs.Text.{outcome_status, outcome_text};
ghost use Rattle.vipr_command.specs.{Output.IsEnding, Output.TellsLine, Text.fault_text};

use crate::fault::CommandFault;
use crate::line::{Line, fault_line, outcome_line, refusal_line, say};
use vipr_bytes::Sink;
use vipr_check::Refusal;
use vipr_tighten::Outcome;

/// What a command says on standard error at its end, which may be nothing, and its exit status.
#[derive(Drop)]
pub struct Ending {
    pub line: Line,
    pub status: u8,
}

impl Ending {
    /// Nothing is said.
    pub fn silent(status: u8) -> Ending
        ensures { IsEnding [] status result }
    {
        Ending {
            line: Line::new(),
            status,
        }
    }

    /// A text was refused.
    pub fn of_refusal(refusal: &Refusal) -> Ending
        ensures { IsEnding (refusal_text refusal.now ++ codes "\n") 1 result }
    {
        Ending {
            line: refusal_line(refusal),
            status: 1,
        }
    }

    /// A certificate was tightened, or refused.
    pub fn of_outcome(outcome: &Outcome) -> Ending
        ensures { IsEnding (outcome_text outcome.now ++ codes "\n") (outcome_status outcome.now)
            result }
    {
        Ending {
            line: outcome_line(outcome),
            status: outcome.status(),
        }
    }

    /// A command was cut short.
    pub fn of_fault(fault: CommandFault) -> Ending
        ensures { IsEnding (fault_text fault ++ codes "\n") 3 result }
    {
        Ending {
            line: fault_line(fault),
            status: 3,
        }
    }

    /// Says the line, if there is one, and answers the status. A failed write is ignored.
    pub fn end<E: Sink>(self, err: &mut E) -> u8
        ensures line { TellsLine (E.output err.old) (E.output err.new) self.line.bytes }
        ensures status { result ≡ self.status }
    {
        say(err, &self.line);
        self.status
    }
}
