//! Worked examples of the definitions that docs/STATEMENT.md quotes: functions without code, whose
//! contracts the prover computes.
#![tactic(auto)]

pub mod answers;
pub mod certificates;
pub mod fractions;
pub mod grammar;
pub mod kinds;
pub mod numbers;
pub mod points;
pub mod reading;
pub mod short;
pub mod tightening;
pub mod tokens;
