//! Answers for a text that is read into memory: with a page for people, or with its digest.
ghost use Rattle.std.specs.Prelude.{◌≡◌, ◌<◌, ◌^◌, Some, None, true, false};
ghost use Rattle.std.specs.Prelude.{length, take, ◌/◌, IfOk, IfSome, string_bytes};
ghost use Rattle.vipr_spec.specs.{Input.Input, Verdict.Answer, Verdict.IsAnswer};
ghost use Rattle.vipr_spec.specs.{Verdict.IsExplained};
ghost use Rattle.vipr_rules.specs.Profile.{profile_of};
ghost use Rattle.vipr_bytes.specs.Known.{text_of, IfKnown};
ghost use Rattle.vipr_check.specs.{Checks.ChecksIn, Run.SaysInDetail, Run.verdict_in};
ghost use Rattle.vipr_command.specs.Answer.{AnswersWhole, HasRead, IsPrinted, ReadsOn, input_of};
ghost use Rattle.vipr_command.specs.Text.{answer_lines, sum_asked};

use crate::answer::Printed;
use crate::fault::CommandFault;
use crate::incoming::Incoming;
use crate::request::{Job, Task};
use std::alloc::{AllocError, Global};
use vipr_bytes::{BUFFER_BYTES, Bytes, Failed, Source};
use vipr_check::{Detail, Explanation, Fault, Table, Verdict, check_in, explain_in};
use vipr_explain::{Page, page_for, with_page};
use vipr_rules::Profile;
use vipr_text::hex_digest;

// How many bytes are read before their first eighth is checked; then eight times as many.
const LOOK_BYTES: usize = 1_048_576;

/// What a source gave: its bytes, and whether a read failed behind them. If the source was left
/// there, that is as if one failed.
#[derive(Drop)]
pub(crate) struct ReadText {
    bytes: Vec<u8>,
    has_failed: bool,
    is_left: bool,
}

/// Reads a text from memory, up to the read that failed if one did.
#[derive(Drop)]
struct TextReader<'a> {
    bytes: Bytes<'a>,
    has_failed: bool,
}

impl Source for TextReader<'_> {
    ghost reads_left = { λ r. length r.bytes };

    ghost input = { λ r. Some (record { bytes = r.bytes; fails = r.has_failed }) };

    fn read(&mut self, buf: &mut [u8]) -> Result<usize, Failed> {
        match self.bytes.read(buf) {
            Ok(0) if self.has_failed => Err(Failed),
            given => given,
        }
    }
}

/// Reads all that a source gives. One that may be left is read no further once the first eighth of
/// what was read is refused, unless the job has a sum.
pub(crate) fn read_all<R: Incoming>(
    alloc: Global,
    job: &Job<'_>,
    source: &mut R,
) -> Result<ReadText, AllocError>
    ensures { IfSome (R.input source.old)
        (λ i. IfOk result (λ t. input_of t.bytes.items t.has_failed ≡ i)) }
{
    let mut buffer = Box::new(alloc, [0; BUFFER_BYTES])?;
    let mut text = ReadText {
        bytes: Vec::new(alloc),
        has_failed: false,
        is_left: false,
    };
    let mut look = LOOK_BYTES;
    loop {
        let room: &mut [u8; BUFFER_BYTES] = &mut buffer;
        if !text.read_more(source, room)? {
            return Ok(text);
        }
        if text.bytes.len() >= look {
            look = look.saturating_mul(8);
            if text.is_enough(alloc, job, source) {
                text.has_failed = true;
                text.is_left = true;
                return Ok(text);
            }
        }
    }
}

impl ReadText {
    // Reads the next bytes of a source, and answers whether more may follow.
    fn read_more<R: Source>(&mut self, source: &mut R, room: &mut [u8]) -> Result<bool, AllocError>
        requires { 0 < length room.old }
        ensures bound { IfOk result
            (λ more. more ≡ true → R.reads_left source.new < R.reads_left source.old) }
        ensures working { IfOk result
            (λ more. more ≡ true → self.new.has_failed ≡ self.old.has_failed) }
        ensures read { (i : Input) → HasRead i (R.input source.old) self.old.bytes.items
            → self.old.has_failed ≡ false → IfOk result (ReadsOn i (R.input source.new)
            self.new.bytes.items self.new.has_failed) }
    {
        match source.read(room) {
            Ok(0) => Ok(false),
            Ok(count) => {
                self.bytes.extend_from_slice(&room[..count])?;
                Ok(true)
            }
            Err(_) => {
                self.has_failed = true;
                Ok(false)
            }
        }
    }

    // Whether the rest of its source may stay unread: nobody knows it, no digest is asked for, and
    // the first eighth of what was read is refused, whatever follows.
    fn is_enough<R: Incoming>(&self, alloc: Global, job: &Job<'_>, source: &R) -> bool
        ensures unknown { result ≡ true → R.input source.now ≡ None }
        ensures sum { result ≡ true → job.now.has_sum ≡ false }
        ensures refused { result ≡ true → (a : Answer) × IsAnswer (profile_of job.now.profile)
            (text_of (input_of (take (length self.now.bytes.items / 8) self.now.bytes.items) true))
            a }
    {
        let front = TextReader {
            bytes: Bytes::new(&self.bytes.as_slice()[..self.bytes.len() / 8]),
            has_failed: true,
        };
        source.may_be_left()
            && !job.has_sum
            && check_in::<TextReader, Table>(alloc, job.profile, front).is_ok()
    }

    // A reader of it.
    fn reader(&self) -> TextReader<'_>
        ensures bytes { result.bytes ≡ self.now.bytes.items }
        ensures end { result.has_failed ≡ self.now.has_failed }
        ensures short { length self.now.bytes.items < 2 ^ 64 }
    {
        TextReader {
            bytes: Bytes::new(self.bytes.as_slice()),
            has_failed: self.has_failed,
        }
    }

    /// The answer for it: behind the lines of the job's task a page, if the job is long, and the
    /// line of the digest, if the job has a sum.
    pub(crate) fn answer(&self, alloc: Global, job: &Job<'_>) -> Result<Printed, CommandFault>
        ensures { AnswersWhole job.now.command (profile_of job.now.profile) job.now.is_long
            job.now.has_sum (input_of self.now.bytes.items self.now.has_failed) result }
    {
        let (verdict, detail) = explained(alloc, job.profile, self.reader())?;
        let text = self.text(alloc, job, &verdict, &detail);
        drop(detail);
        Ok(Printed {
            text: text?,
            status: verdict.status(),
        })
    }

    // What is printed of a verdict on it.
    fn text(
        &self,
        alloc: Global,
        job: &Job<'_>,
        verdict: &Verdict,
        detail: &Detail,
    ) -> Result<Vec<u8>, AllocError>
        ensures { IfOk result (λ text. IsPrinted job.now.command job.now.is_long job.now.has_sum
            (input_of self.now.bytes.items self.now.has_failed) verdict.now detail.now
            text.items) }
    {
        let sum = self.sum(alloc, job.has_sum)?;
        let lines = lines(alloc, job.command, verdict, detail)?;
        let mut text = with_page(lines.into_bytes(), self.page(alloc, job, verdict, detail));
        text.extend_from_slice(sum.as_slice())?;
        Ok(text)
    }

    // The page that explains the answer for people, if there is to be one and memory for it.
    fn page(&self, alloc: Global, job: &Job<'_>, verdict: &Verdict, detail: &Detail) -> Option<Page>
        ensures { job.now.is_long ≡ false → result ≡ None }
    {
        if !job.is_long {
            return None;
        }
        let name = job.file.unwrap_or("standard input").as_bytes();
        page_for(alloc, job.profile, self.whole(), name, verdict, detail)
    }

    // The line of its digest, if that is asked for and no read failed.
    fn sum(&self, alloc: Global, is_asked: bool) -> Result<Vec<u8>, AllocError>
        ensures { IfOk result (λ line. line.items
            ≡ sum_asked is_asked (input_of self.now.bytes.items self.now.has_failed)) }
    {
        let mut line = Vec::new(alloc);
        if !is_asked || self.has_failed {
            return Ok(line);
        }
        line.extend_from_slice("sha256 ".as_bytes())?;
        line.extend_from_slice(&hex_digest(self.bytes.as_slice()))?;
        line.push(b'\n')?;
        Ok(line)
    }

    // What was read, unless a read failed.
    fn whole(&self) -> Option<&[u8]> {
        if self.has_failed && !self.is_left {
            None
        } else {
            Some(self.bytes.as_slice())
        }
    }
}

// The verdict on a certificate, with what there is to show of it. The stack that this takes is free
// again while a page is made.
#[inline(never)]
fn explained<R: Source + Drop>(
    alloc: Global,
    profile: Profile,
    source: R,
) -> Result<(Verdict, Detail), Fault>
    ensures verdict { ChecksIn (profile_of profile) (R.input source) (verdict_in result) }
    ensures detail { IfKnown (R.input source)
        (λ i. SaysInDetail (IsExplained (profile_of profile) (text_of i)) result) }
{
    explain_in(alloc, profile, source)
}

/// The lines of the verdict, with those of the detail for a task that explains.
pub(crate) fn lines(
    alloc: Global,
    task: Task,
    verdict: &Verdict,
    detail: &Detail,
) -> Result<String, AllocError>
    ensures { IfOk result (λ t. string_bytes t ≡ answer_lines task verdict.now detail.now) }
{
    match task {
        Task::Check => format!(in alloc; "{verdict}\n"),
        _ => Explanation { verdict, detail }.to_string(alloc),
    }
}
