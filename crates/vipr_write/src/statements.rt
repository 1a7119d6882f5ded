//! Names and constraints of derivations, kept as they are written.
//!
//! [`Statements`] keeps them in one text, so that a derivation takes little memory until it is
//! written. Its reason stays in a [`Step`], as a [`StepReason`].
ghost use Rattle.std.specs.Prelude.{◌≡◌, ◌≤◌, ◌∷◌, ◌++◌, [], List, IfOk, OnOk, IsTrue, cond};
ghost use Rattle.std.specs.Prelude.{length, slice_index};
ghost use Rattle.vipr_spec.specs.Certificate.{Derivation as DerivationMeant};
ghost use Rattle.vipr_bytes.specs.{Grown.GrowsBy, Puts.Puts};
ghost use Rattle.vipr_cert.specs.Items.{derivation_of};
ghost use Rattle.vipr_write.specs.{Canonical.words_after_spaces, Forms.row_words};
ghost use Rattle.vipr_write.specs.{StepReasons.IsShortest, Steps.own_bytes, Steps.row_bytes};
ghost use Rattle.vipr_write.specs.{Steps.AreKept, declared.statements.Step.Step as StepMeant};

use crate::ends::Ends;
use crate::form::Form;
use crate::lines::put_start;
use crate::rows::{is_row, spell_row, spelled_objective};
use crate::step_reason::StepReason;
use std::alloc::{AllocError, Global};
use vipr_bytes::{Growing, Out};
use vipr_cert::Derivation;
use vipr_linear::Row;

/// The number of a name and a constraint among those that are kept. A row that is the objective's
/// is left out.
#[derive(Clone, Copy, Debug, Drop)]
pub struct Statement {
    pub(crate) index: u32,
    pub(crate) is_cut: bool,
}

/// A derivation, of whose name and constraint this is kept.
#[derive(Debug, Drop)]
pub struct Step {
    pub(crate) stated: Statement,
    pub reason: StepReason,
    /// The last derivation that refers to it by index, `None` if it is never dropped.
    pub last: Option<u32>,
}

/// What is written of derivations up to their reasons, in one text.
#[derive(Drop)]
pub struct Statements {
    pub(crate) form: Form,
    pub(crate) objective: Row,
    /// What is written for the objective's row.
    pub(crate) spelled: Vec<u8>,
    pub(crate) text: Growing,
    /// The end of each of them in the text.
    pub(crate) ends: Ends,
}

// The words of a row, unless it is the objective's. Whether it is.
fn put_other_row(text: &mut Growing, form: Form, objective: &Row, row: &Row) -> bool
    ensures text { Puts GrowsBy text.old text.new
        (cond result [] (words_after_spaces (row_words form objective.now row.now))) }
    ensures row { IsTrue result → row.now ≡ objective.now }
{
    if is_row(row, objective) {
        return true;
    }
    spell_row(text, form, objective, row);
    false
}

impl Statements {
    /// None so far, in this form and over this objective.
    pub fn new(alloc: Global, form: Form, objective: &Row) -> Result<Statements, AllocError>
        ensures form { IfOk result (λ t. t.form ≡ form) }
        ensures objective { IfOk result (λ t. t.objective ≡ objective.now) }
        ensures none { IfOk result (λ t. AreKept t [] []) }
    {
        Ok(Statements {
            form,
            objective: objective.clone()?,
            spelled: spelled_objective(alloc, form, objective)?,
            text: Growing::new(alloc),
            ends: Ends::new(alloc),
        })
    }

    /// Keeps the name and the constraint of a derivation, and gives back what is kept of the rest.
    ///
    /// # Errors
    ///
    /// If a growth is refused, or if 2^32 of them are kept.
    pub fn keep(&mut self, alloc: Global, derivation: &Derivation) -> Result<Step, AllocError>
        ensures form { OnOk result (self.new.form ≡ self.old.form) }
        ensures objective { OnOk result (self.new.objective ≡ self.old.objective) }
        ensures kept { IfOk result (λ s. (ss : List StepMeant)
            (ds : List DerivationMeant) → AreKept self.old ss ds
            → AreKept self.new (ss ++ s ∷ []) (ds ++ derivation_of derivation.now ∷ [])) }
        ensures shortest { IfOk result (λ s. IsShortest s.reason) }
    {
        let Ok(index) = u32::try_from(self.ends.len()) else {
            return Err(AllocError);
        };
        put_start(&mut self.text, &derivation.name, &derivation.constraint);
        let is_cut = put_other_row(
            &mut self.text,
            self.form,
            &self.objective,
            &derivation.constraint.row,
        );
        if self.text.has_failed() {
            return Err(AllocError);
        }
        self.ends.push(self.text.as_slice().len())?;
        Ok(Step {
            stated: Statement { index, is_cut },
            reason: StepReason::of(alloc, &derivation.reason)?,
            last: derivation.last,
        })
    }

    // The start of the statement of this index, which is the end of the one before it.
    fn start_of(&self, index: usize) -> usize
        requires { index ≤ length self.now.ends }
        ensures { result ≡ slice_index (0 ∷ self.now.ends) index }
    {
        if index == 0 {
            0
        } else {
            self.ends.at(index - 1)
        }
    }

    /// What is kept of a statement alone, and nothing if it doesn't lie here.
    pub(crate) fn own_bytes(&self, stated: Statement) -> &[u8]
        ensures { result.now ≡ own_bytes self.now stated }
    {
        let index = stated.index as usize;
        if index < self.ends.len() {
            let start = self.start_of(index);
            let end = self.ends.at(index);
            let text = self.text.as_slice();
            if start <= end && end <= text.len() {
                return &text[start..end];
            }
        }
        b""
    }

    /// What is written for the objective's row, if the statement ends before it.
    pub(crate) fn row_bytes(&self, stated: Statement) -> &[u8]
        ensures { result.now ≡ row_bytes self.now.spelled.items stated }
    {
        if stated.is_cut { &self.spelled } else { b"" }
    }
}
