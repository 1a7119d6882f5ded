//! A certificate's text in another form, and the digest of a text.
#![tactic(auto)]

mod digest;
mod respelling;

pub use digest::hex_digest;
pub use respelling::respell;
