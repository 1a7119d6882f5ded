//! What is tightened: derivations, or what is kept of them.
ghost use Rattle.std.specs.Prelude.{◌≡◌};
ghost use Rattle.vipr_spec.specs.Certificate.{Derivation as DerivationMeant, reason_references};
ghost use Rattle.vipr_spec.specs.Tightened.{with_new_indices};
ghost use Rattle.vipr_cert.specs.Items.{derivation_of};
ghost use Rattle.vipr_write.specs.declared.statements.Statement.{Statement as StatementMeant};
ghost use Rattle.vipr_write.specs.{StepReasons.kept_references_of, Steps.step_of};
ghost use Rattle.vipr_tighten.specs.Passes.{index_by, NamedConstraint};

use crate::renumber::{renumber_reason, renumber_step_reason};
use vipr_cert::Derivation;
use vipr_write::{Step, StepReferences};

/// A derivation, or what is kept of it.
pub(crate) trait Tightenable: Drop {
    // How its name and its constraint are read.
    ghost View: { Type 0 };

    // The derivation.
    ghost derived: { View → Self → DerivationMeant };

    /// What it names.
    fn references(&self) -> StepReferences<'_>
        ensures { (view : View) → kept_references_of result
            ≡ reason_references (derived view self.now).reason };

    /// Gives it the new indices.
    fn renumber(&mut self, first: u32, table: &[u32])
        ensures { (view : View) → derived view self.new
            ≡ with_new_indices (index_by first table.now) (derived view self.old) };

    /// Gives it this last reference.
    fn set_last(&mut self, last: Option<u32>)
        ensures { (view : View) → derived view self.new
            ≡ record (derived view self.old) { last = last } };
}

impl Tightenable for Derivation {
    ghost View = { Unit {0} };

    ghost derived = { λ _ d. derivation_of d };

    fn references(&self) -> StepReferences<'_> {
        StepReferences::Whole(self.reason.references())
    }

    fn renumber(&mut self, first: u32, table: &[u32]) {
        renumber_reason(&mut self.reason, first, table);
    }

    fn set_last(&mut self, last: Option<u32>) {
        self.last = last;
    }
}

impl Tightenable for Step {
    ghost View = { StatementMeant → NamedConstraint };

    ghost derived = { step_of };

    fn references(&self) -> StepReferences<'_> {
        self.reason.references()
    }

    fn renumber(&mut self, first: u32, table: &[u32]) {
        renumber_step_reason(&mut self.reason, first, table);
    }

    fn set_last(&mut self, last: Option<u32>) {
        self.last = last;
    }
}
