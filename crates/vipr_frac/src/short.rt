//! Short fractions, which take 8 bytes.
ghost use Rattle.std.specs.Int.{w32};
ghost use Rattle.std.specs.Prelude.{◌≡◌, ◌<◌, ◌^◌, FitsSigned, IfSome, IsSome};

use crate::frac::{Frac, of_parts};
use std::marker::Model;

/// A fraction in lowest terms whose numerator and denominator are numbers of 32 bits.
#[derive(Clone, Copy, Debug)]
pub struct ShortFrac {
    p: i32,
    q: u32,
}

impl Model for ShortFrac {
    ghost use Rattle.vipr_spec.specs.Fraction.{ℚ, coded_ℚ, over};

    ghost Value = { ℚ };

    ghost coded = { coded_ℚ };

    ghost use Rattle.vipr_frac.specs.Parts.{IsReduced};
    ghost use Rattle.vipr_frac.specs.Fields.{short_is};

    ghost view = { λ f. over f.p f.q };

    ghost invariant = { λ f. IsReduced f.p f.q };

    ghost inverse = { λ x. record { p = x.numer; q = x.denom } };

    ghost inverse_ok = { λ a h. short_is a h };
}

impl ShortFrac {
    /// The fraction, if its parts are that small.
    pub fn of(fraction: Frac) -> Option<ShortFrac>
        ensures same { IfSome result (λ short. short ≡ fraction) }
        ensures small { FitsSigned w32 fraction.numer → fraction.denom < 2 ^ 32 → IsSome result }
    {
        let (p, q) = fraction.parts();
        match (i32::try_from(p), u32::try_from(q)) {
            (Ok(p), Ok(q)) => Some(ShortFrac { p, q }),
            _ => None,
        }
    }

    /// The fraction.
    #[inline(always)]
    pub fn fraction(self) -> Frac
        ensures { result ≡ self }
    {
        of_parts(i128::from(self.p), u128::from(self.q))
    }
}
