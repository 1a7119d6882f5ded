//! Reads certificates: one parser over the scanner, the public readers, and whole certificates.
#![tactic(auto)]

mod cert_reader;
mod certificate;
mod derivation;
mod item;
mod kinds;
mod marks;
mod parser;
mod problem;
mod reader;
mod repeat;

pub use cert_reader::CertReader;
pub use certificate::read_certificate;
pub use reader::{Derivations, Solutions};
pub use vipr_scan::{TextError, Token, Tokens};
