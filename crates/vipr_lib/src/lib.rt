//! The checker for programs in Rattle: all its public names in one crate.
//!
//! | To | Call |
//! |---|---|
//! | check bytes in memory, yes or no | [`is_verified`], [`is_proof`] |
//! | check a certificate | [`check`], or [`check_in`] by the rules of a [`Profile`] |
//! | see why it is refused | [`explain`], [`explain_in`]; an [`Explanation`] prints it |
//! | keep what its proof needs | [`tighten`], [`tighten_in`] |
//! | hold it in memory | [`read_certificate`], [`write_certificate`] |
//! | read it item by item | [`CertReader`], which gives [`Solutions`] and then [`Derivations`] |
//! | check it item by item | [`Checker`] |
//!
//! Each reads from a [`Source`]: [`Bytes`] over a slice, or [`FromRead`] over a reader of std. What
//! writes does so to a [`Sink`]: a `Vec<u8>`, or [`FromWrite`] over a writer of std. Answers print
//! with `{}`, in the words of the program `vipr`.
#![tactic(auto)]

pub use vipr_bytes::{Bytes, Failed, FromRead, FromWrite, Sink, Source, WriteFailed};
pub use vipr_cert::{
    BadShape, Certificate, Claim, Derivation, Goal, Name, Named, Problem, Reason, References,
};
pub use vipr_check::{
    Checker, Detail, Explanation, Fault, Place, Refusal, Report, StepDetail, Stop, Verdict, cause,
    check, check_in, explain, explain_in, is_proof, is_verified,
};
pub use vipr_frac::{Frac, FracError, NumberError, Overflow};
pub use vipr_linear::{Constraint, Ints, Row, RowError, Sense, Solution};
pub use vipr_read::{CertReader, Derivations, Solutions, read_certificate};
pub use vipr_rules::{LiveOnly, Profile, Rows};
pub use vipr_scan::{TextError, Token, Tokens};
pub use vipr_tighten::{
    Outcome, TightenFault, tighten, tighten_as, tighten_certificate, tighten_in,
};
pub use vipr_write::{FoldedText, Form, WriteError, write_certificate, write_certificate_in};
