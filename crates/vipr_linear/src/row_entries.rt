//! The entries that a row keeps: its own, or those that it shares with its copies.
ghost use Rattle.std.specs.Prelude.{◌≡◌, IfOk, IsTrue};
ghost use Rattle.vipr_linear.specs.Row.{kept_items};

use std::alloc::{AllocError, Global};
use std::slice;
use vipr_frac::Frac;
use vipr_shared::Shared;

/// Variables with their coefficients. One alone takes no memory of its own.
#[derive(Debug, Drop)]
pub(crate) enum RowEntries {
    One((u32, Frac)),
    Own(Vec<(u32, Frac)>),
    Shared(Shared<Vec<(u32, Frac)>>),
}

impl RowEntries {
    /// The list that is kept.
    pub(crate) fn as_slice(&self) -> &[(u32, Frac)]
        ensures { result.now ≡ kept_items self.now }
    {
        match self {
            RowEntries::One(item) => slice::from_ref(item),
            RowEntries::Own(items) => items.as_slice(),
            RowEntries::Shared(items) => items.as_ref().as_slice(),
        }
    }

    /// Whether both share one list. `true` says that their lists are equal.
    pub(crate) fn is_one(&self, other: &RowEntries) -> bool
        ensures { IsTrue result → kept_items self.now ≡ kept_items other.now }
    {
        match (self, other) {
            (RowEntries::Shared(items), RowEntries::Shared(others)) => items.is_one(others),
            _ => false,
        }
    }

    /// A copy of the list. One that is shared, or has one entry, takes no memory.
    pub(crate) fn try_copy(&self) -> Result<RowEntries, AllocError>
        ensures { IfOk result (λ copy. kept_items copy ≡ kept_items self.now) }
    {
        match self {
            RowEntries::One(item) => Ok(RowEntries::One(*item)),
            RowEntries::Own(items) => Ok(RowEntries::Own(items.clone()?)),
            RowEntries::Shared(items) => Ok(RowEntries::Shared(items.clone()?)),
        }
    }

    /// This list, in a form whose copies share it.
    pub(crate) fn shared(self, alloc: Global) -> Result<RowEntries, AllocError>
        ensures { IfOk result (λ shared. kept_items shared ≡ kept_items self) }
    {
        match self {
            RowEntries::One(item) => Ok(RowEntries::One(item)),
            RowEntries::Own(items) => Ok(RowEntries::Shared(Shared::new(alloc, items)?)),
            RowEntries::Shared(items) => Ok(RowEntries::Shared(items)),
        }
    }
}
