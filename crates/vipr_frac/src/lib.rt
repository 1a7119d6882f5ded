//! Bounded fractions: exact arithmetic on numerators and denominators of at most 2^127 - 1.
#![tactic(auto)]

mod display;
mod frac;
mod gcd;
mod number;
mod pairs;
mod partial;
mod short;
mod words;

pub use frac::{Frac, FracError, Overflow};
pub use number::{NumberError, front_natural, lone_digit};
pub use partial::Partial;
pub use short::ShortFrac;
