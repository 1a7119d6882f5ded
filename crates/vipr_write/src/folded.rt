//! A text that grows item by item, and keeps what is written for the objective's row once.
ghost use Rattle.std.specs.Prelude.{◌≡◌, ◌<◌, ◌-◌, ◌^◌, ◌++◌, ◌+◌, [], length, IsTrue, IfOk, IfErr};
ghost use Rattle.std.specs.Prelude.{IfSome, OnOk, OnErr, codes, false};
ghost use Rattle.vipr_bytes.specs.Hands.{Start, start_of, IsEnd};
ghost use Rattle.vipr_bytes.specs.{Puts.Puts, Sent.Carries};
ghost use Rattle.vipr_cert.specs.Items.{solution_of, derivation_of};
ghost use Rattle.vipr_write.specs.Canonical.{solution_words, heading, line_text, lines_text};
ghost use Rattle.vipr_write.specs.Canonical.{words_after_spaces};
ghost use Rattle.vipr_write.specs.Forms.{row_words, problem_lines_in, derivation_words_in};
ghost use Rattle.vipr_write.specs.Folded.{IsFolded, IsIntact, KeepsOrEmpties, FoldsBy, begun, full};
ghost use Rattle.vipr_write.specs.Folded.{with_more_bytes, with_no_bytes};
ghost use Rattle.vipr_write.specs.WrittenText.{WroteText, IsWithin, LeavesFailures};

use crate::form::Form;
use crate::lines::{put_derivation, put_heading, put_solution};
use crate::rows::{PutRow, is_row, spell_row, spelled_objective};
use crate::sections::put_problem;
use crate::write::WriteError;
use std::alloc::{AllocError, Global};
use std::marker::Model;
use vipr_bytes::{Growing, Out, Sink, SinkBuffer, ToSink, WriteFailed};
use vipr_cert::{Derivation, Named, Problem};
use vipr_linear::{Row, Solution};

// How many bytes a mark takes.
const MARK: usize = 4;

/// A text, and marks in it, each of which means what is written for the objective's row.
#[derive(Drop)]
pub(crate) struct Folded {
    pub(crate) form: Form,
    pub(crate) text: Growing,
    /// How many bytes of the text come after one mark and before the next.
    pub(crate) gaps: Vec<u32>,
    /// How many bytes of the text come before the last mark.
    pub(crate) marked: usize,
    pub(crate) objective: Row,
    /// What a mark means.
    pub(crate) spelled: Vec<u8>,
}

/// The beginning of a text in a form, which takes the items that follow one by one, to be written
/// to a sink at the end.
///
/// A row that is the objective's takes 4 bytes of memory at most, however long it is. If a
/// growth is refused, the text is given up: it is empty then.
#[derive(Drop)]
pub struct FoldedText {
    folded: Folded,
    objective: Row,
}

impl Out for Folded {
    ghost carries = { FoldsBy };

    #[inline(always)]
    fn push(&mut self, byte: u8) {
        self.text.push(byte);
    }

    #[inline(always)]
    fn put(&mut self, bytes: &[u8]) {
        self.text.put(bytes);
    }

    fn has_failed(&self) -> bool {
        self.text.has_failed()
    }
}

impl PutRow for Folded {
    fn put_row(&mut self, form: Form, objective: &Row, row: &Row) {
        if self.can_mark(form, objective, row) {
            self.mark();
            return;
        }
        spell_row(&mut self.text, form, objective, row);
    }
}

impl Folded {
    // An empty text.
    fn new(alloc: Global, form: Form, objective: &Row) -> Result<Folded, AllocError>
        ensures { IfOk result (λ f. IsIntact f
            × (begun f ≡ record { form = form; objective = objective.now; bytes = [] })) }
    {
        Ok(Folded {
            form,
            text: Growing::new(alloc),
            gaps: Vec::new(alloc),
            marked: 0,
            objective: objective.clone()?,
            spelled: spelled_objective(alloc, form, objective)?,
        })
    }

    // Whether a mark means the words of a row, and is shorter.
    fn can_mark(&self, form: Form, objective: &Row, row: &Row) -> bool
        ensures { IsTrue result → IsFolded self.now
            → words_after_spaces (row_words form objective.now row.now) ≡ self.now.spelled.items }
    {
        self.spelled.len() > MARK
            && form == self.form
            && is_row(row, objective)
            && is_row(objective, &self.objective)
    }

    // A mark, unless it is too far behind the last one: then what it means.
    fn mark(&mut self)
        ensures { Puts FoldsBy self.old self.new self.old.spelled.items }
    {
        let end = self.text.as_slice().len();
        match u32::try_from(end.saturating_sub(self.marked)) {
            Ok(gap) if self.gaps.push(gap).is_ok() => self.marked = end,
            Ok(_) => self.text.give_up(),
            Err(_) => self.text.put(&self.spelled),
        }
    }

    // Empties the text if a growth was refused.
    fn or_empty(&mut self) -> Result<(), AllocError>
        ensures { KeepsOrEmpties self.old self.new result }
    {
        if !self.text.has_failed() {
            return Ok(());
        }
        self.text.clear();
        self.gaps.clear();
        self.marked = 0;
        Err(AllocError)
    }

    // Whether the text is shorter than 2^64 bytes.
    fn is_short(&self) -> bool
        requires { IsFolded self.now }
        ensures { IsTrue result → length (full self.now) < 2 ^ 64 }
    {
        let marks = self.gaps.len() as u64;
        match marks.checked_mul(self.spelled.len() as u64) {
            Some(n) => matches!(n.checked_add(self.text.as_slice().len() as u64), Some(_)),
            None => false,
        }
    }
}

// The text with what each mark means, unless it has failed.
fn put_full<O: Out>(out: &mut O, folded: &Folded)
    requires { IsFolded folded.now }
    ensures { Puts O.carries out.old out.new (full folded.now) }
{
    let text = folded.text.as_slice();
    let mut at = 0;
    for gap in &folded.gaps {
        if out.has_failed() {
            return;
        }
        let end = at + *gap as usize;
        out.put(&text[at..end]);
        out.put(&folded.spelled);
        at = end;
    }
    out.put(&text[at..]);
}

// Hands the text on, of which nothing is written yet.
fn write_full<W: Sink>(
    mut buffer: SinkBuffer,
    folded: &Folded,
    sink: &mut W,
) -> Result<(), WriteFailed>
    requires folded { IsFolded folded.now }
    requires nothing { (start : Start) → Carries start start buffer [] }
    ensures { length (full folded.now) < 2 ^ 64
        → IsEnd (start_of W.output W.failures sink.old) (start_of W.output W.failures sink.new)
        (full folded.now) result }
{
    let mut out = ToSink {
        sink,
        buffer: &mut buffer,
    };
    put_full(&mut out, folded);
    out.finish()
}

impl Model for FoldedText {
    ghost use Rattle.std.specs.Prelude.{◌≡◌};
    ghost use Rattle.vipr_write.specs.Folded.{Begun, IsIntact, begun};
    ghost use Rattle.vipr_write.specs.BegunCode.{begun_code};

    ghost Value = { Begun };

    ghost coded = { begun_code };

    ghost view = { λ t. begun t.folded };

    ghost invariant = { λ t. IsIntact t.folded × (t.objective ≡ t.folded.objective) };
}

impl FoldedText {
    /// The problem, and how many solutions are to follow.
    pub fn new(
        alloc: Global,
        form: Form,
        problem: &Problem,
        solutions: u32,
    ) -> Result<FoldedText, AllocError>
        ensures { IfOk result (λ t. t ≡ record {
          form = form;
          objective = problem.now.objective;
          bytes = lines_text (problem_lines_in form problem.now)
              ++ line_text (heading (codes "SOL") solutions);
        }) }
    {
        let mut folded = Folded::new(alloc, form, problem.objective())?;
        put_problem(&mut folded, form, problem);
        put_heading(&mut folded, b"SOL", solutions as usize);
        folded.or_empty()?;
        let objective = folded.objective.clone()?;
        Ok(FoldedText { folded, objective })
    }

    /// Appends a listed solution.
    ///
    /// # Errors
    ///
    /// A growth is refused.
    pub fn push_solution(&mut self, solution: &Named<Solution>) -> Result<(), AllocError>
        ensures ok { OnOk result (self.new ≡ with_more_bytes self.old
            (line_text (solution_words (solution_of solution.now)))) }
        ensures err { OnErr result (self.new ≡ with_no_bytes self.old) }
    {
        put_solution(&mut self.folded, solution);
        self.folded.or_empty()
    }

    /// Appends how many derivations are to follow.
    ///
    /// # Errors
    ///
    /// A growth is refused.
    pub fn push_derivation_count(&mut self, derivations: u32) -> Result<(), AllocError>
        ensures ok { OnOk result (self.new ≡ with_more_bytes self.old
            (line_text (heading (codes "DER") derivations))) }
        ensures err { OnErr result (self.new ≡ with_no_bytes self.old) }
    {
        put_heading(&mut self.folded, b"DER", derivations as usize);
        self.folded.or_empty()
    }

    /// Appends a derivation.
    ///
    /// # Errors
    ///
    /// A growth is refused.
    pub fn push_derivation(&mut self, derivation: &Derivation) -> Result<(), AllocError>
        ensures ok { OnOk result (self.new ≡ with_more_bytes self.old (line_text
            (derivation_words_in self.old.form self.old.objective
            (derivation_of derivation.now)))) }
        ensures err { OnErr result (self.new ≡ with_no_bytes self.old) }
    {
        let form = self.folded.form;
        put_derivation(&mut self.folded, form, &self.objective, derivation);
        self.folded.or_empty()
    }

    /// Hands the text on to a sink, until that took all of it. All memory is asked for before the
    /// first byte: a fixed buffer, through which short pieces are handed on together.
    ///
    /// # Errors
    ///
    /// `Memory` if a growth is refused, or the text is 2^64 bytes or longer: nothing was
    /// written. `Write` if a write fails or takes nothing, and the sink is asked no more.
    pub fn write_to<W: Sink>(&self, alloc: Global, sink: &mut W) -> Result<(), WriteError>
        ensures output { IfSome (W.output sink.old)
            (λ o. WroteText o (W.output sink.new) self.now.bytes result) }
        ensures part { IfErr result (IsWithin self.now.bytes) }
        ensures failures { IfSome (W.failures sink.old)
            (λ n. LeavesFailures n (W.failures sink.new) result) }
    {
        if !self.folded.is_short() {
            return Err(WriteError::Memory { taken: 0 });
        }
        match SinkBuffer::new(alloc) {
            Ok(buffer) => Ok(write_full(buffer, &self.folded, sink)?),
            Err(_) => Err(WriteError::Memory { taken: 0 }),
        }
    }
}
