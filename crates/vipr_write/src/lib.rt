//! Writes the canonical text of a certificate, or its compact one, in which `OBJ` means rows
//! that are the objective's. That each spells the certificate and no other is a law of its
//! definition, which is in `specs/`.
//!
//! The text goes to the sink through one buffer, which is made first, so that want of memory comes
//! before the first byte.
#![tactic(auto)]

mod canonical;
mod countable;
mod ends;
mod folded;
mod form;
mod lines;
mod rows;
mod sections;
mod short_entry;
mod statements;
mod step_reason;
mod steps;
mod words;
mod write;
mod written_steps;

pub use canonical::{canonical_form, canonical_texts, compact_texts, spelled_ones, worked_example};
pub use folded::FoldedText;
pub use form::Form;
pub use lines::{put_heading, put_solution};
pub use short_entry::ShortEntry;
pub use statements::{Statement, Statements, Step};
pub use step_reason::{StepReason, StepReferences, SumEntry};
pub use write::{WriteError, write_certificate, write_certificate_in};
pub use written_steps::write_steps;
