//! Makes a certificate's text, in a form, while it is read.
ghost use Rattle.std.specs.Prelude.{◌≡◌, false, Ok, IfOk};
ghost use Rattle.vipr_spec.specs.Certificate.{Problem as ProblemMeant};
ghost use Rattle.vipr_spec.specs.Reading.{solution_read, derivation_read, end_read};
ghost use Rattle.vipr_read.specs.Items.{Knows};
ghost use Rattle.vipr_write.specs.{Canonical.solution_words, Forms.derivation_words_in};
ghost use Rattle.vipr_text.specs.Spelling.{BeginsText, Appends, Respells, RespellsText, with_count};

use std::alloc::Global;
use vipr_bytes::Source;
use vipr_cert::Derivation;
use vipr_read::{CertReader, Derivations, Solutions};
use vipr_scan::TextError;
use vipr_write::{FoldedText, Form};

/// The text of the certificate that `source` gives, in a form. The source is read to its end. No
/// item is kept once its line is made.
///
/// # Errors
///
/// `Refused` if the text spells no certificate, `Read` if a read fails before that is known,
/// and `Memory` if a growth is refused.
pub fn respell<R: Source + Drop>(
    alloc: Global,
    form: Form,
    source: R,
) -> Result<FoldedText, TextError>
    ensures { RespellsText form (λ text. text.bytes) (R.input source) result }
{
    let reader = CertReader::new(alloc, source)?;
    text_from(alloc, form, reader)
}

// The text of the certificate that the reader is at the start of.
fn text_from<R: Source + Drop>(
    alloc: Global,
    form: Form,
    reader: CertReader<R>,
) -> Result<FoldedText, TextError>
    ensures { Respells form (λ text. text.bytes) reader result }
{
    let (text, mut solutions) = problem_text(alloc, form, reader)?;
    let text = solution_lines(alloc, text, &mut solutions)?;
    let mut derivations = solutions.finish()?;
    let whole = derived_text(alloc, text, &mut derivations);
    // Dropped at this one place, whatever was answered.
    drop(derivations);
    whole
}

// The text of the problem, up to and with the number of solutions.
fn problem_text<R: Source + Drop>(
    alloc: Global,
    form: Form,
    reader: CertReader<R>,
) -> Result<(FoldedText, Solutions<R>), TextError>
    ensures { BeginsText form (λ x. x.0) (λ x. x.1) reader result }
{
    let (problem, solutions) = reader.read_problem(alloc)?;
    let lines = FoldedText::new(alloc, form, &problem, solutions.left());
    // Dropped at this one place, whatever was answered.
    drop(problem);
    let text = lines?;
    Ok((text, solutions))
}

// The text with a line for each solution that follows.
fn solution_lines<R: Source>(
    alloc: Global,
    mut text: FoldedText,
    solutions: &mut Solutions<R>,
) -> Result<FoldedText, TextError>
    requires { solutions.old.failed ≡ false }
    ensures none { IfOk result (λ _. solutions.new.left ≡ 0) }
    ensures lines { (p : ProblemMeant) → Knows solutions.old p
        → Appends (solution_read p) (λ _. Ok tt) solution_words solutions.old solutions.new text
        (λ t. t) result }
{
    while let Some(solution) = solutions.next(alloc)? {
        let pushed = text.push_solution(&solution);
        drop(solution);
        pushed?;
    }
    Ok(text)
}

// The text with the number of derivations, and with a line for each, up to the end of the text that
// is read.
fn derived_text<R: Source>(
    alloc: Global,
    mut text: FoldedText,
    derivations: &mut Derivations<R>,
) -> Result<FoldedText, TextError>
    requires { derivations.old.failed ≡ false }
    ensures { (p : ProblemMeant) → Knows derivations.old p
        → Appends (derivation_read p) end_read (derivation_words_in text.form text.objective)
        derivations.old derivations.new (with_count text derivations.old.left) (λ t. t) result }
{
    text.push_derivation_count(derivations.left())?;
    let mut derivation = Derivation::blank(alloc);
    let lines = derivation_lines(alloc, text, derivations, &mut derivation);
    // Dropped at this one place, whatever was answered.
    drop(derivation);
    lines
}

// The text with a line for each derivation that follows, up to the end of the text that is read.
// Each is read in place of `derivation`.
fn derivation_lines<R: Source>(
    alloc: Global,
    mut text: FoldedText,
    derivations: &mut Derivations<R>,
    derivation: &mut Derivation,
) -> Result<FoldedText, TextError>
    requires { derivations.old.failed ≡ false }
    ensures { (p : ProblemMeant) → Knows derivations.old p
        → Appends (derivation_read p) end_read (derivation_words_in text.form text.objective)
        derivations.old derivations.new text (λ t. t) result }
{
    'lines: loop {
        let found = derivations.next_into(alloc, derivation)?;
        if !found {
            return Ok(text);
        }
        text.push_derivation(derivation)?;
    }
}
