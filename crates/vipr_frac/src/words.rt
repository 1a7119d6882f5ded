//! Numbers of 128 bits in words of 32 bits: so a fraction beside an index leaves no gap.
ghost use Rattle.std.specs.Prelude.{◌≡◌, ◌↔◌, IsTrue};

use std::fmt;
use std::marker::Model;

const HALF: u64 = 1 << 32;

pub(crate) const WHOLE: u128 = 1 << 64;

// A number of 64 bits.
#[derive(Clone, Copy)]
struct Half {
    low: u32,
    high: u32,
}

impl Model for Half {
    ghost use Rattle.std.specs.Prelude.{ℕ, ◌+◌, ◌*◌, ◌^◌, ◌<◌};
    ghost use Rattle.std.specs.Coded.{coded_ℕ};

    ghost Value = { ℕ };

    ghost coded = { coded_ℕ };

    ghost use Rattle.vipr_frac.specs.Words.{half_of, half_is};

    ghost view = { λ h. h.high * 2 ^ 32 + h.low };

    ghost invariant = { λ h. h.low < 2 ^ 32 };

    ghost inverse = { half_of };

    ghost inverse_ok = { λ h e. half_is h e };
}

impl Half {
    #[inline(always)]
    fn of(n: u64) -> Half
        ensures { result ≡ n }
    {
        Half {
            low: (n % HALF) as u32,
            high: (n / HALF) as u32,
        }
    }

    #[inline(always)]
    fn value(&self) -> u64
        ensures { result ≡ self.now }
    {
        u64::from(self.high) * HALF + u64::from(self.low)
    }
}

/// A number of 128 bits.
#[derive(Clone, Copy)]
pub(crate) struct Wide {
    low: Half,
    high: Half,
}

impl Model for Wide {
    ghost use Rattle.std.specs.Prelude.{ℕ, ◌+◌, ◌*◌, ◌^◌, ◌<◌};
    ghost use Rattle.std.specs.Coded.{coded_ℕ};

    ghost Value = { ℕ };

    ghost coded = { coded_ℕ };

    ghost use Rattle.vipr_frac.specs.Words.{wide_of, wide_is};

    ghost view = { λ w. w.high * 2 ^ 64 + w.low };

    ghost invariant = { λ w. (w.low < 2 ^ 64) × (w.high < 2 ^ 64) };

    ghost inverse = { wide_of };

    ghost inverse_ok = { λ w e. wide_is w e.0 };
}

impl Wide {
    #[inline(always)]
    pub(crate) fn of(n: u128) -> Wide
        ensures { result ≡ n }
    {
        Wide {
            low: Half::of((n % WHOLE) as u64),
            high: Half::of((n / WHOLE) as u64),
        }
    }

    #[inline(always)]
    pub(crate) fn value(&self) -> u128
        ensures { result ≡ self.now }
    {
        u128::from(self.high.value()) * WHOLE + u128::from(self.low.value())
    }

    #[inline(always)]
    pub(crate) fn same(&self, other: &Wide) -> bool
        ensures { IsTrue result ↔ (self.now ≡ other.now) }
    {
        self.low.value() == other.low.value() && self.high.value() == other.high.value()
    }
}

impl fmt::Debug for Wide {
    fn fmt<W: fmt::Write>(&self, f: &mut fmt::Formatter<W>) -> fmt::Result {
        self.value().fmt(f)
    }
}

/// A number of 128 bits with a sign.
#[derive(Clone, Copy)]
pub(crate) struct SignedWide {
    bits: Wide,
}

impl Model for SignedWide {
    ghost use Rattle.std.specs.Prelude.{ℤ, ◌^◌, ◌<◌};
    ghost use Rattle.std.specs.Int.{w128, cast_signed, cast_unsigned};
    ghost use Rattle.std.specs.Coded.{coded_ℤ};

    ghost Value = { ℤ };

    ghost coded = { coded_ℤ };

    ghost use Rattle.vipr_frac.specs.Words.{signed_is};

    ghost view = { λ s. cast_signed w128 s.bits };

    ghost invariant = { λ s. s.bits < 2 ^ 128 };

    ghost inverse = { λ z. record { bits = cast_unsigned w128 z } };

    ghost inverse_ok = { λ s e. signed_is s e };
}

impl SignedWide {
    #[inline(always)]
    pub(crate) fn of(z: i128) -> SignedWide
        ensures { result ≡ z }
    {
        SignedWide {
            bits: Wide::of(z.cast_unsigned()),
        }
    }

    #[inline(always)]
    pub(crate) fn value(&self) -> i128
        ensures { result ≡ self.now }
    {
        self.bits.value().cast_signed()
    }

    #[inline(always)]
    pub(crate) fn same(&self, other: &SignedWide) -> bool
        ensures { IsTrue result ↔ (self.now ≡ other.now) }
    {
        self.bits.same(&other.bits)
    }
}

impl fmt::Debug for SignedWide {
    fn fmt<W: fmt::Write>(&self, f: &mut fmt::Formatter<W>) -> fmt::Result {
        self.value().fmt(f)
    }
}
