//! The lines of steps.
ghost use Rattle.std.specs.Prelude.{◌++◌, codes};
ghost use Rattle.vipr_bytes.specs.Puts.{Puts};
ghost use Rattle.vipr_cert.specs.Reasons.{reason_word};
ghost use Rattle.vipr_write.specs.Canonical.{reference_words, words_after_spaces};
ghost use Rattle.vipr_write.specs.StepReasons.{kept_reason_of, kept_references_of};
ghost use Rattle.vipr_write.specs.Steps.{step_line, steps_section};

use crate::lines::{put_heading, put_references};
use crate::statements::{Statements, Step};
use crate::step_reason::{StepReason, StepReferences};
use crate::words::{put_counted, put_last};
use vipr_bytes::Out;

// What the reason of a step names.
fn put_step_references<O: Out>(out: &mut O, references: StepReferences<'_>)
    ensures { Puts O.carries out.old out.new
        (words_after_spaces (reference_words (kept_references_of references.entry))) }
{
    match references {
        StepReferences::Whole(references) => put_references(out, references),
        StepReferences::Short(entries) => put_counted(out, entries),
    }
}

// The brace before a reason, and the word of its rule.
fn put_rule<O: Out>(out: &mut O, reason: &StepReason)
    ensures { Puts O.carries out.old out.new
        (codes " { " ++ reason_word (kept_reason_of reason.now)) }
{
    match reason {
        StepReason::Asm => out.put(b" { asm"),
        StepReason::Empty | StepReason::One(_) | StepReason::Lin(_) => out.put(b" { lin"),
        StepReason::Rnd(_) => out.put(b" { rnd"),
        StepReason::Whole(whole) => {
            out.put(b" { ");
            out.put(whole.word().as_bytes());
        }
    }
}

// A derivation of which this step is kept, unless it has failed.
fn put_step<O: Out>(out: &mut O, statements: &Statements, step: &Step)
    ensures { Puts O.carries out.old out.new
        (step_line statements.now step.now) }
{
    if out.has_failed() {
        return;
    }
    out.put(statements.own_bytes(step.stated));
    out.put(statements.row_bytes(step.stated));
    put_rule(out, &step.reason);
    put_step_references(out, step.reason.references());
    out.put(b" }");
    put_last(out, step.last);
    out.push(b'\n');
}

/// How many steps there are, and each of them.
pub(crate) fn put_steps<O: Out>(out: &mut O, statements: &Statements, steps: &[Step])
    ensures { Puts O.carries out.old out.new
        (steps_section statements.now steps.now) }
{
    put_heading(out, b"DER", steps.len());
    for step in steps {
        put_step(out, statements, step);
    }
}
