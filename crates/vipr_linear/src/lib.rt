//! Linear constraints over numbered variables: rows, sums, domination, rounding, splits and values.
#![tactic(auto)]

mod combination;
mod constraint;
mod display;
mod ints;
mod places;
mod rounding;
mod row;
mod row_entries;
mod split;
mod sum_laws;
mod values;

pub use combination::{CombError, Combination};
pub use constraint::{Constraint, Sense, compares};
pub use ints::Ints;
pub use places::Places;
pub use rounding::{NotRoundable, Rounded, is_whole_row};
pub use row::{Row, RowError, Solution};
pub use split::{covers, is_split};
pub use sum_laws::sums_in_steps;
pub use values::{first_fractional, holds_at, value_at};
