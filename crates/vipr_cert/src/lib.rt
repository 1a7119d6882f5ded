//! What certificates are made of: a problem, listed solutions and derivations, with their names.
//!
//! A [`Certificate`] has them all; the readers give its parts one by one. Each value is within the
//! limits of the format: a constructor refuses what isn't with [`BadShape`], so that no rule and no
//! writer has to test a limit again. In contracts a value is what it means, as `vipr_spec` defines
//! it: a name is its bytes, a constraint a row with a sense and a bound.
#![tactic(auto)]

mod bytes;
mod certificate;
mod display;
mod items;
mod limits;
mod name;
mod problem;
mod short;

pub use certificate::Certificate;
pub use items::{Claim, Derivation, Goal, Named, Reason, References};
pub use name::{BadShape, MOST_BYTES, Name};
pub use problem::Problem;
