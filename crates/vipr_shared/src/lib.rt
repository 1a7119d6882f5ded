//! A value that several owners share, and that can say whether two of them share one.
#![tactic(auto)]

mod mark;
mod shared;

pub use shared::Shared;
