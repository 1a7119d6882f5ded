//! Ends of the parts of a text.
ghost use Rattle.std.specs.Prelude.{◌≡◌, ◌<◌, ◌++◌, ◌∷◌, [], List, ℕ, OnOk, length, slice_index};

use std::alloc::{AllocError, Global};
use std::marker::Model;

/// The end of each part of a text. As long as they fit 32 bits, each takes 4 bytes.
#[derive(Drop)]
pub(crate) struct Ends {
    short: Vec<u32>,
    // Those behind them.
    long: Vec<usize>,
}

// Seen as the ends.
impl Model for Ends {
    ghost Value = { List ℕ };

    ghost view = { λ e. e.short.items ++ e.long.items };
}

impl Ends {
    /// None so far.
    pub(crate) fn new(alloc: Global) -> Ends
        ensures { result ≡ [] }
    {
        Ends {
            short: Vec::new(alloc),
            long: Vec::new(alloc),
        }
    }

    /// How many there are.
    pub(crate) fn len(&self) -> usize
        ensures { result ≡ length self.now }
    {
        self.short.len() + self.long.len()
    }

    /// The end of the part of this index.
    pub(crate) fn at(&self, index: usize) -> usize
        requires { index < length self.now }
        ensures { result ≡ slice_index self.now index }
    {
        let short = self.short.len();
        if index < short {
            self.short[index] as usize
        } else {
            self.long[index - short]
        }
    }

    /// One more.
    pub(crate) fn push(&mut self, end: usize) -> Result<(), AllocError>
        ensures { OnOk result (self.new ≡ self.old ++ end ∷ []) }
    {
        match u32::try_from(end) {
            Ok(end) if self.long.is_empty() => self.short.push(end)?,
            _ => self.long.push(end)?,
        }
        Ok(())
    }
}
