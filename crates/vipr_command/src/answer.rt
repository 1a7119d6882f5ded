//! What is answered of a certificate that is checked or explained, as a value.
ghost use Rattle.std.specs.Prelude.{Ok, false};
ghost use Rattle.vipr_rules.specs.Profile.{profile_of};
ghost use Rattle.vipr_command.specs.declared.request.Task.TheVariants.{Check, Explain};
ghost use Rattle.vipr_command.specs.{Answer.AnswersTask, Answer.Prints, Known.OfInput};

use crate::ending::Ending;
use crate::fault::CommandFault;
use crate::in_memory::{lines, read_all};
use crate::incoming::Incoming;
use crate::request::{Job, Task};
use std::alloc::Global;
use vipr_bytes::{Sink, Source, write_bytes};
use vipr_check::{Detail, Table, check_last, explain_in};
use vipr_rules::Profile;

/// What is printed of a certificate, and the exit status. Nothing is said then.
#[derive(Drop)]
pub struct Printed {
    pub text: Vec<u8>,
    pub status: u8,
}

/// The answer for a certificate: the verdict on it by the rules of the job's profile, explained
/// unless the job is to check. If the job is long or has a sum, the text is read into memory, and
/// a page for people, or the digest of the text, are behind the verdict.
///
/// # Errors
///
/// If a read fails, and if a growth is refused.
pub fn answer_to<R: Incoming + Drop>(
    alloc: Global,
    job: &Job<'_>,
    mut source: R,
) -> Result<Printed, CommandFault>
    ensures { OfInput (R.input source) (λ k. AnswersTask job.now.command
        (profile_of job.now.profile) job.now.is_long job.now.has_sum k result) }
{
    if job.is_long || job.has_sum {
        let text = read_all(alloc, job, &mut source)?;
        return text.answer(alloc, job);
    }
    if job.command == Task::Check {
        check(alloc, job.profile, source)
    } else {
        explain(alloc, job.profile, source)
    }
}

// The verdict on a certificate. Its caller needs no stack for it when it does something else.
#[inline(never)]
fn check<R: Source + Drop>(
    alloc: Global,
    profile: Profile,
    source: R,
) -> Result<Printed, CommandFault>
    ensures { OfInput (R.input source) (λ k. AnswersTask Check (profile_of profile) false false k
        result) }
{
    let verdict = check_last::<R, Table>(alloc, profile, source)?;
    let text = lines(alloc, Task::Check, &verdict, &Detail::None)?;
    Ok(Printed {
        text: text.into_bytes(),
        status: verdict.status(),
    })
}

// The verdict on a certificate, with what there is to show of it.
#[inline(never)]
fn explain<R: Source + Drop>(
    alloc: Global,
    profile: Profile,
    source: R,
) -> Result<Printed, CommandFault>
    ensures { OfInput (R.input source) (λ k. AnswersTask Explain (profile_of profile) false false k
        result) }
{
    let (verdict, detail) = explain_in(alloc, profile, source)?;
    let text = lines(alloc, Task::Explain, &verdict, &detail);
    drop(detail);
    Ok(Printed {
        text: text?.into_bytes(),
        status: verdict.status(),
    })
}

/// Prints an answer.
///
/// # Errors
///
/// If there is a fault in place of the answer: nothing was printed. If a write fails.
pub(crate) fn print_answer<O: Sink>(
    answer: Result<Printed, CommandFault>,
    out: &mut O,
) -> Result<Ending, CommandFault>
    ensures { Prints answer (O.output out.old) (O.output out.new) result }
{
    match answer {
        Ok(answer) => print(&answer, out),
        Err(fault) => Err(fault),
    }
}

fn print<O: Sink>(answer: &Printed, out: &mut O) -> Result<Ending, CommandFault>
    ensures { Prints (Ok answer.now) (O.output out.old) (O.output out.new) result }
{
    write_bytes(out, answer.text.as_slice())?;
    Ok(Ending::silent(answer.status))
}
