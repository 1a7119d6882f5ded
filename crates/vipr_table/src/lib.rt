//! What derived constraints rest on, and the table of those that later derivations may still refer
//! to.
#![tactic(auto)]

mod assumptions;
mod rows;

pub use assumptions::{Assumptions, Union};
pub use rows::{Entry, KeepAll, LiveOnly, Rows, names_stay_below, table_holds_what_is_live};
