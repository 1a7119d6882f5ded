//! The reason of a step, which takes little memory.
ghost use Rattle.std.specs.Prelude.{◌≡◌, ◌↔◌, ◌∷◌, ℕ, Some, IfOk, IfSome, IsSome, map, pos};
ghost use Rattle.std.specs.Ordering.{int_eq};
ghost use Rattle.vipr_spec.specs.Certificate.{is_assumption, lin, reason_references, rnd};
ghost use Rattle.vipr_spec.specs.{Fraction.ℚ, Number.number_text};
ghost use Rattle.vipr_cert.specs.Items.{reason_of};
ghost use Rattle.vipr_bytes.specs.Puts.{Puts};
ghost use Rattle.vipr_write.specs.StepReasons.{entry_of, kept_reason_of, kept_references_of};
ghost use Rattle.vipr_write.specs.StepReasons.{AreShort, IsShortest};

use crate::short_entry::ShortEntry;
use crate::words::put_number;
use std::alloc::{AllocError, Global};
use std::slice::from_ref;
use vipr_bytes::Out;
use vipr_cert::{Reason, References};
use vipr_frac::Frac;

/// Why the derived constraint of a step holds: a reason, or a sum whose entries are short. It takes
/// 16 bytes, and what is long is behind a pointer.
#[derive(Debug, Drop)]
pub enum StepReason {
    Asm,
    /// `Lin` with no entries.
    Empty,
    /// `Lin` with this entry alone.
    One(ShortEntry),
    Lin(Box<Vec<ShortEntry>>),
    Rnd(Box<Vec<ShortEntry>>),
    Whole(Box<Reason>),
}

/// What the reason of a step names, in the order of its text.
#[derive(Clone, Copy, Debug)]
pub enum StepReferences<'a> {
    Whole(References<'a>),
    Short(&'a [ShortEntry]),
}

/// An entry of a sum: an index with a multiplier.
pub trait SumEntry: Copy {
    // The index and the multiplier.
    ghost pair: { Self → ℕ × ℚ };

    /// Its index.
    fn index(&self) -> u32
        ensures { result ≡ (pair self.now).0 };

    /// Puts its multiplier, behind a space.
    fn put_multiplier<O: Out>(&self, out: &mut O)
        ensures { Puts O.carries out.old out.new (32 ∷ number_text (pair self.now).1) };

    /// Whether its multiplier is 0.
    fn is_zero(&self) -> bool
        ensures { result ≡ int_eq (pair self.now).1.numer (pos 0) };

    /// Gives it another index.
    fn set_index(&mut self, index: u32)
        ensures { pair self.new ≡ (index, (pair self.old).1) };
}

impl SumEntry for (u32, Frac) {
    ghost pair = { λ e. e };

    #[inline(always)]
    fn index(&self) -> u32 {
        self.0
    }

    #[inline(always)]
    fn put_multiplier<O: Out>(&self, out: &mut O) {
        put_number(out, &self.1);
    }

    #[inline(always)]
    fn is_zero(&self) -> bool {
        self.1.is_zero()
    }

    #[inline(always)]
    fn set_index(&mut self, index: u32) {
        self.0 = index;
    }
}

// The entries, if all of them are short.
fn short_entries(
    alloc: Global,
    entries: &[(u32, Frac)],
) -> Result<Option<Vec<ShortEntry>>, AllocError>
    ensures entries { IfOk result (λ o. IfSome o (λ v. map entry_of v.items ≡ entries.now)) }
    ensures short { IfOk result (λ o. IsSome o ↔ AreShort entries.now) }
{
    let mut short = Vec::with_capacity(alloc, entries.len())?;
    for (index, multiplier) in entries {
        match ShortEntry::of(*index, multiplier) {
            Some(entry) => short.push(entry)?,
            None => return Ok(None),
        }
    }
    Ok(Some(short))
}

// `Lin` of these entries.
fn lin_of(alloc: Global, entries: &[(u32, Frac)]) -> Result<StepReason, AllocError>
    ensures reason { IfOk result (λ r. kept_reason_of r ≡ lin entries.now) }
    ensures shortest { IfOk result IsShortest }
{
    if entries.is_empty() {
        return Ok(StepReason::Empty);
    }
    if entries.len() == 1 {
        let (index, multiplier) = entries[0];
        if let Some(entry) = ShortEntry::of(index, &multiplier) {
            return Ok(StepReason::One(entry));
        }
    }
    match short_entries(alloc, entries)? {
        Some(short) => Ok(StepReason::Lin(Box::new(alloc, short)?)),
        None => {
            let whole = Reason::Lin(Vec::from_slice(alloc, entries)?);
            Ok(StepReason::Whole(Box::new(alloc, whole)?))
        }
    }
}

// `Rnd` of these entries.
fn rnd_of(alloc: Global, entries: &[(u32, Frac)]) -> Result<StepReason, AllocError>
    ensures reason { IfOk result (λ r. kept_reason_of r ≡ rnd entries.now) }
    ensures shortest { IfOk result IsShortest }
{
    match short_entries(alloc, entries)? {
        Some(short) => Ok(StepReason::Rnd(Box::new(alloc, short)?)),
        None => {
            let whole = Reason::Rnd(Vec::from_slice(alloc, entries)?);
            Ok(StepReason::Whole(Box::new(alloc, whole)?))
        }
    }
}

impl StepReason {
    /// What is kept of a reason, in the shortest form.
    ///
    /// # Errors
    ///
    /// If an allocation is refused.
    pub fn of(alloc: Global, reason: &Reason) -> Result<StepReason, AllocError>
        ensures reason { IfOk result (λ r. kept_reason_of r ≡ reason_of reason.now) }
        ensures shortest { IfOk result IsShortest }
    {
        match reason {
            Reason::Lin(entries) => lin_of(alloc, entries),
            Reason::Rnd(entries) => rnd_of(alloc, entries),
            Reason::Asm => Ok(StepReason::Asm),
            whole => Ok(StepReason::Whole(Box::new(alloc, whole.clone()?)?)),
        }
    }

    /// Whether it is that of an assumption.
    pub fn is_assumption(&self) -> bool
        ensures { result ≡ is_assumption (Some (kept_reason_of self.now)) }
    {
        match self {
            StepReason::Asm => true,
            StepReason::Whole(whole) => matches!(**whole, Reason::Asm),
            _ => false,
        }
    }

    /// What it names.
    pub fn references(&self) -> StepReferences<'_>
        ensures { kept_references_of result ≡ reason_references (kept_reason_of self.now) }
    {
        match self {
            StepReason::Asm => StepReferences::Whole(References::Nothing),
            StepReason::Empty => StepReferences::Short(&[]),
            StepReason::One(entry) => StepReferences::Short(from_ref(entry)),
            StepReason::Lin(short) | StepReason::Rnd(short) => StepReferences::Short(&**short),
            StepReason::Whole(whole) => StepReferences::Whole(whole.references()),
        }
    }
}
