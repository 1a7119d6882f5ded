//! Rows in either form.
ghost use Rattle.std.specs.Prelude.{◌≡◌, ◌↔◌, ◌∷◌, [], codes, if◌then◌else◌, IfOk, IsTrue};
ghost use Rattle.vipr_bytes.specs.Puts.{Puts};
ghost use Rattle.vipr_write.specs.Canonical.{vector_words, words_after_spaces};
ghost use Rattle.vipr_write.specs.Forms.{row_words};

use crate::form::Form;
use crate::words::{put_counted, put_word};
use std::alloc::{AllocError, Global};
use vipr_bytes::{Growing, Out, Sink, ToSink};
use vipr_linear::Row;

/// A text in which rows are written.
pub(crate) trait PutRow: Out {
    /// The words of a row, in a form and over this objective.
    fn put_row(&mut self, form: Form, objective: &Row, row: &Row)
        ensures { Puts Self.carries self.old self.new
            (words_after_spaces (row_words form objective.now row.now)) };
}

impl<W: Sink> PutRow for ToSink<'_, W> {
    fn put_row(&mut self, form: Form, objective: &Row, row: &Row) {
        spell_row(self, form, objective, row);
    }
}

/// Whether a row is this one. A shared row is found at once.
pub(crate) fn is_row(row: &Row, other: &Row) -> bool
    ensures { IsTrue result ↔ (row.now ≡ other.now) }
{
    let _entries = row.entries();
    let _others = other.entries();
    row.is_same(other)
}

// Whether `OBJ` is written for a row.
fn is_named(form: Form, objective: &Row, row: &Row) -> bool
    ensures { row_words form objective.now row.now
        ≡ (if result then codes "OBJ" ∷ [] else vector_words row.now) }
{
    match form {
        Form::Canonical => false,
        Form::Compact => {
            let entries = row.entries();
            is_row(row, objective) && !entries.is_empty()
        }
    }
}

/// The words of a row, one by one.
pub(crate) fn spell_row<O: Out>(out: &mut O, form: Form, objective: &Row, row: &Row)
    ensures { Puts O.carries out.old out.new
        (words_after_spaces (row_words form objective.now row.now)) }
{
    if is_named(form, objective, row) {
        put_word(out, b"OBJ");
        return;
    }
    put_counted(out, row.entries());
}

/// What is written for the objective's row.
pub(crate) fn spelled_objective(
    alloc: Global,
    form: Form,
    objective: &Row,
) -> Result<Vec<u8>, AllocError>
    ensures { IfOk result (λ spelled. spelled.items
        ≡ words_after_spaces (row_words form objective.now objective.now)) }
{
    let mut text = Growing::new(alloc);
    spell_row(&mut text, form, objective, objective);
    text.into_bytes()
}
