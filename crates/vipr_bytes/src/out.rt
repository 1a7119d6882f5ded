ghost use Rattle.std.specs.Prelude.{◌∷◌, [], List, ℕ, IsTrue};
ghost use Rattle.vipr_bytes.specs.Puts.{Puts};

/// Takes a text piece by piece. It remembers a failure, and says so if it is asked.
pub trait Out {
    // From the first state to the last one, these bytes were put.
    ghost carries: { Self → List ℕ → Self → Type 0 };

    /// A byte more.
    fn push(&mut self, byte: u8)
        ensures { Puts carries self.old self.new (byte ∷ []) };

    /// Bytes more.
    fn put(&mut self, bytes: &[u8])
        ensures { Puts carries self.old self.new bytes.now };

    /// Whether it has failed, so that more bytes change nothing.
    fn has_failed(&self) -> bool
        ensures { IsTrue result → (bytes : List ℕ) → Puts carries self.now self.now bytes };
}
