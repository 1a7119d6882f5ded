//! Tightens a certificate: writes what its proof needs.
ghost use Rattle.std.specs.Prelude.{option_map};
ghost use Rattle.vipr_rules.specs.Profile.{profile_of};
ghost use Rattle.vipr_command.specs.Tighten.{Settles, WritesFile, WritesTightened};
ghost use Rattle.vipr_command.specs.{Known.OfInput, Run.PrintsTightened, Run.outside_of};

use crate::ending::Ending;
use crate::fault::CommandFault;
use crate::folder::Folder;
use crate::request::Job;
use std::alloc::Global;
use vipr_bytes::{Sink, Source};
use vipr_tighten::{Outcome, TightenFault, tighten_as};

/// Prints a certificate's text, tightened as a job says, or writes it to the job's OUT. Answers
/// what was kept and removed, or why there is none.
///
/// OUT is begun before the certificate is read, and may be the file that is read. It is kept once
/// the whole text is written, and else given up.
///
/// # Errors
///
/// A read fails or a growth is refused: nothing was written. A write fails, or OUT can't be kept.
pub(crate) fn print_tightened<D: Folder, R: Source + Drop, O: Sink>(
    alloc: Global,
    files: &mut D,
    job: &Job<'_>,
    source: R,
    out: &mut O,
) -> Result<Ending, CommandFault>
    ensures { OfInput (R.input source) (λ k. PrintsTightened (profile_of job.now.profile)
        job.now.form (option_map (λ s. s.now) job.now.out) k
        (outside_of (O.output out.old) (D.known files.old))
        (outside_of (O.output out.new) (D.known files.new)) result) }
{
    match job.out {
        None => write_tightened(alloc, job, source, out),
        Some(name) => write_file(alloc, files, job, source, name),
    }
}

fn write_tightened<R: Source + Drop, W: Sink>(
    alloc: Global,
    job: &Job<'_>,
    source: R,
    sink: &mut W,
) -> Result<Ending, CommandFault>
    ensures { OfInput (R.input source) (λ k. WritesTightened (profile_of job.now.profile)
        job.now.form (k.proof (profile_of job.now.profile)) (W.output sink.old)
        (W.output sink.new) result) }
{
    let outcome = tighten_as(alloc, job.profile, job.form, source, sink)?;
    Ok(Ending::of_outcome(&outcome))
}

fn write_file<D: Folder, R: Source + Drop>(
    alloc: Global,
    files: &mut D,
    job: &Job<'_>,
    source: R,
    name: &str,
) -> Result<Ending, CommandFault>
    ensures { OfInput (R.input source) (λ k. WritesFile (profile_of job.now.profile) job.now.form
        (k.proof (profile_of job.now.profile)) (D.known files.old) (D.known files.new) name.now
        result) }
{
    let mut place = files.begin(name)?;
    let tightened = tighten_as(alloc, job.profile, job.form, source, &mut place);
    let outcome = settle(files, name, place, tightened)?;
    Ok(Ending::of_outcome(&outcome))
}

/// Keeps what was written of a certificate that was tightened, and nothing else.
fn settle<D: Folder>(
    files: &mut D,
    name: &str,
    place: D::Out,
    tightened: Result<Outcome, TightenFault>,
) -> Result<Outcome, CommandFault>
    ensures { Settles tightened (D.known files.old) (D.known files.new) name.now
        (D.Out.output place) result }
{
    if let Ok(Outcome::Tightened { .. }) = tightened {
        files.keep(name, place)?;
    } else {
        files.abandon(place);
    }
    Ok(tightened?)
}
