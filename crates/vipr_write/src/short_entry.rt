//! An entry of a sum, which takes little memory.
ghost use Rattle.vipr_spec.specs.Lowest.{IsLowest};

use crate::step_reason::SumEntry;
use crate::words::put_parts;
use vipr_bytes::Out;
use vipr_frac::Frac;

/// An index, and a multiplier in lowest terms whose parts fit 32 bits.
#[derive(Clone, Copy, Debug)]
pub struct ShortEntry {
    pub index: u32,
    pub(crate) numer: i32,
    pub(crate) denom: u32,
    ghost lowest: { IsLowest numer denom },
}

impl SumEntry for ShortEntry {
    ghost use Rattle.vipr_write.specs.StepReasons.{entry_of};

    ghost pair = { entry_of };

    #[inline(always)]
    fn index(&self) -> u32 {
        self.index
    }

    // Neither this nor the next one takes a greatest common divisor.
    #[inline(always)]
    fn put_multiplier<O: Out>(&self, out: &mut O) {
        out.push(b' ');
        put_parts(out, i64::from(self.numer), self.denom as usize);
    }

    #[inline(always)]
    fn is_zero(&self) -> bool {
        self.numer == 0
    }

    #[inline(always)]
    fn set_index(&mut self, index: u32) {
        self.index = index;
    }
}

impl ShortEntry {
    ghost use Rattle.std.specs.Prelude.{◌≡◌, ◌↔◌, IfSome, IsSome};
    ghost use Rattle.vipr_write.specs.StepReasons.{entry_of, IsShort};

    /// The entry of this index and this multiplier, `None` if a part of it is too long.
    pub fn of(index: u32, multiplier: &Frac) -> Option<ShortEntry>
        ensures entry { IfSome result (λ e. entry_of e ≡ (index, multiplier.now)) }
        ensures short { IsSome result ↔ IsShort multiplier.now }
    {
        let numer = i32::try_from(multiplier.numer());
        let denom = u32::try_from(multiplier.denom());
        match (numer, denom) {
            (Ok(numer), Ok(denom)) => Some(ShortEntry {
                index,
                numer,
                denom,
            }),
            _ => None,
        }
    }
}
