//! The whole program, over any folder, source and sinks in place of the files and standard streams.
ghost use Rattle.std.specs.Prelude.{◌≡◌, ◌≤◌, IfOk, Some, None, false, map};
ghost use Rattle.clap.specs.Words.{kind_of};
ghost use Rattle.vipr_command.specs.Run.{AnswersError, AnswersWords, DoesJob, FailsToRead};
ghost use Rattle.vipr_command.specs.Run.{RunsOver, SaysNoMore, outside_of};
ghost use Rattle.vipr_command.specs.{Args.are_accepted, Folder.text_held, Known.OfInput};

use crate::answer::{answer_to, print_answer};
use crate::args::job;
use crate::ending::Ending;
use crate::fault::CommandFault;
use crate::folder::Folder;
use crate::incoming::Incoming;
use crate::line::{say_at_length, say_why_unread};
use crate::request::{Job, Task};
use crate::show::print_text;
use crate::tighten::print_tightened;
use clap::Error;
use clap::error::ErrorKind;
use std::alloc::Global;
use vipr_bytes::{Sink, write_bytes};

/// Does what the words ask for, of which the first is the program's name, and answers the exit
/// status. It is 0 if the certificate is verified, shown or tightened, or help was asked for; 1 if
/// it is refused; 2 for words that aren't accepted; 3 for a fault. FILE and OUT are the folder's.
///
/// A verdict, an explanation, a certificate and help go to `out`. To `err` go what is wrong with
/// the words, a fault, the refusal of a certificate that was to be shown or tightened, and what was
/// removed. A tightened certificate goes to a file if the words name one.
pub fn run<D: Folder, R: Incoming + Drop, O: Sink, E: Sink>(
    alloc: Global,
    files: &mut D,
    words: &[&str],
    input: R,
    out: &mut O,
    err: &mut E,
) -> u8
    ensures status { result ≤ 3 }
    ensures usage { result ≡ 2 → are_accepted (map (λ w. w.now) words.now) ≡ false }
    ensures runs { RunsOver (map (λ w. w.now) words.now) (R.input input)
        (outside_of (O.output out.old) (D.known files.old))
        (outside_of (O.output out.new) (D.known files.new))
        (E.output err.old) (E.output err.new) result }
{
    match answer_words(alloc, files, words, input, out, err) {
        Ok(ending) => ending.end(err),
        Err(fault) => Ending::of_fault(fault).end(err),
    }
}

// Does what the words ask for. What is to be said at the end is answered.
fn answer_words<D: Folder, R: Incoming + Drop, O: Sink, E: Sink>(
    alloc: Global,
    files: &mut D,
    words: &[&str],
    input: R,
    out: &mut O,
    err: &mut E,
) -> Result<Ending, CommandFault>
    ensures status { IfOk result (λ e. e.status ≤ 2) }
    ensures usage { IfOk result
        (λ e. e.status ≡ 2 → are_accepted (map (λ w. w.now) words.now) ≡ false) }
    ensures answered { AnswersWords (map (λ w. w.now) words.now) (R.input input)
        (outside_of (O.output out.old) (D.known files.old))
        (outside_of (O.output out.new) (D.known files.new))
        (E.output err.old) (E.output err.new) result }
{
    let job = match job(alloc, words) {
        Ok(job) => job,
        Err(error) => return decline(alloc, &error, out, err),
    };
    match job.file {
        None => do_task(alloc, files, &job, input, out),
        Some(name) => do_task_on_file(alloc, files, &job, name, out, err),
    }
}

/// Prints help, or what is wrong with the words.
fn decline<O: Sink, E: Sink>(
    alloc: Global,
    error: &Error,
    out: &mut O,
    err: &mut E,
) -> Result<Ending, CommandFault>
    ensures { AnswersError (kind_of error.now) (O.output out.old) (O.output out.new)
        (E.output err.old) (E.output err.new) result }
{
    if error.kind() == ErrorKind::OutOfMemory {
        return Err(CommandFault::Memory);
    }
    if error.use_stderr() {
        say_at_length(alloc, err, error);
        return Ok(Ending::silent(2));
    }
    let text = error.to_string(alloc)?;
    let written = write_bytes(out, text.as_bytes());
    drop(text);
    written?;
    Ok(Ending::silent(0))
}

fn do_task_on_file<D: Folder, O: Sink, E: Sink>(
    alloc: Global,
    files: &mut D,
    job: &Job<'_>,
    name: &str,
    out: &mut O,
    err: &mut E,
) -> Result<Ending, CommandFault>
    ensures done { OfInput (text_held ((D.known files.old).holds name.now)) (λ k. DoesJob job.now k
        (outside_of (O.output out.old) (D.known files.old))
        (outside_of (O.output out.new) (D.known files.new)) result) }
    ensures missing { (D.known files.old).holds name.now ≡ Some None
        → FailsToRead (O.output out.old) (O.output out.new) result }
    ensures said { SaysNoMore job.now.command job.now.is_long (D.known files.old) (Some name.now)
        (E.output err.old) (E.output err.new) result }
{
    match files.open(name) {
        Ok(source) => do_task(alloc, files, job, source, out),
        Err(error) => {
            if job.command == Task::Explain && job.is_long {
                say_why_unread(alloc, name, &error, err);
            }
            Err(CommandFault::Read)
        }
    }
}

fn do_task<D: Folder, R: Incoming + Drop, O: Sink>(
    alloc: Global,
    files: &mut D,
    job: &Job<'_>,
    source: R,
    out: &mut O,
) -> Result<Ending, CommandFault>
    ensures { OfInput (R.input source) (λ k. DoesJob job.now k
        (outside_of (O.output out.old) (D.known files.old))
        (outside_of (O.output out.new) (D.known files.new)) result) }
{
    match job.command {
        Task::Show => print_text(alloc, job.form, source, out),
        Task::Tighten => print_tightened(alloc, files, job, source, out),
        Task::Check | Task::Explain => print_answer(answer_to(alloc, job, source), out),
    }
}
