//! A caller of the library: what a solver's test suite would write to check a certificate that is
//! in memory, and to look into it.
#![tactic(auto)]

mod check;
mod items;
mod text;
mod tighten;

pub use check::{explanation, verdict_text};
pub use items::{Counts, count_items};
pub use text::canonical;
pub use tighten::tightened;
