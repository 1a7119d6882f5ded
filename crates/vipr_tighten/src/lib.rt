//! Tightens certificates: what the goal needs stays, renumbered.
//!
//! One pass from the end marks the derivations that the goal needs. One pass from the front gives
//! them their new indices and last references. Rows are moved and never copied. From a source to a
//! sink names and rows of derivations are kept as the text that is written for them, before the
//! checker takes the row.
#![tactic(auto)]

mod certificate;
mod derived;
mod display;
mod needed;
mod outcome;
mod peak;
mod proof_reader;
mod renumber;
mod source_to_sink;

pub use certificate::tighten_certificate;
pub use outcome::{Outcome, TightenFault};
pub use source_to_sink::{tighten, tighten_as, tighten_in};
