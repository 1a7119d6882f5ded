//! Laws of certificates: functions without code, each of which says by its contract what is so for
//! all certificates, constraints, points or fractions. Their words are defined in `specs/`.
#![tactic(auto)]

pub mod arithmetic;
pub mod checking;
pub mod claims;
pub mod consequences;
pub mod grammar;
pub mod marking;
pub mod numbers;
pub mod profiles;
pub mod refusals;
pub mod renumbering;
pub mod rules;
pub mod short;
pub mod step_by_step;
pub mod texts;
pub mod tightening;
pub mod verdict;
pub mod worked_examples;
