//! The rules of derivations: the test of one derivation, of a listed solution, and of a claim.
#![tactic(auto)]

mod bounds;
mod branches;
mod claim;
mod coefficient;
mod columns;
mod context;
mod cutoff;
mod domination;
mod error;
mod profile;
mod rules;
mod solution;
mod sum;

pub use claim::{Target, better, claimed_primal, meets_primal};
pub use columns::Columns;
pub use context::Context;
pub use error::RuleError;
pub use profile::Profile;
pub use rules::{apply, apply_in, assumptions_by_reason, assumptions_of, take_entry};
pub use solution::{SolutionError, test_solution, test_solution_by_columns};
pub use vipr_table::{Assumptions, Entry, KeepAll, LiveOnly, Rows};
