ghost use Rattle.std.specs.Prelude.{◌≡◌, ℕ, List, take, Result, Ok, IfOk, IfSome, ⊤};
ghost use Rattle.vipr_spec.specs.Tokens.{IsToken};
ghost use Rattle.vipr_scan.specs.Meaning.{Means, IsInFront};

/// Why bytes are no token of a kind.
#[derive(Clone, Copy, Debug, PartialEq, Eq)]
pub enum Unfit {
    /// The number of the cause.
    Cause(u8),
    /// A growth was refused.
    Memory,
}

/// A kind of token: what the bytes of a token mean, or the cause of their refusal.
pub trait TokenKind {
    type Value: Drop;

    /// What the definitions say that a token of this kind is.
    ghost Meant: { Type 0 };

    ghost view: { Self.Value → Meant };

    ghost meaning: { Self → List ℕ → Result Meant ℕ };

    /// What is so of each value, whether or not the source's bytes are known.
    ghost bounds: { Self → Self.Value → Type 0 } = { λ _ _. ⊤ };

    fn read(&self, bytes: &[u8]) -> Result<Self::Value, Unfit>
        requires { IsToken bytes.now }
        ensures meaning { Means view result (meaning self.now bytes.now) }
        ensures bounds { IfOk result (λ x. bounds self.now x) };

    /// What the token at the front means, and its length, if it can be read at once and white
    /// space follows it. `None` says nothing of the bytes.
    #[inline(always)]
    fn read_front(&self, bytes: &[u8]) -> Option<(Self::Value, usize)>
        ensures token { IfSome result (λ r. IsInFront bytes.now r.1) }
        ensures meaning { IfSome result
            (λ r. meaning self.now (take r.1 bytes.now) ≡ Ok (view r.0)) }
        ensures front_bounds { IfSome result (λ r. bounds self.now r.0) }
    {
        let _ = bytes;
        None
    }

    /// Puts what the token at the front means in place of another value, and gives its length, if
    /// it can be read at once. `None` says nothing of the bytes, nor of the value.
    #[inline(always)]
    fn set_front(&self, bytes: &[u8], place: &mut Self::Value) -> Option<usize>
        ensures set_token { IfSome result (λ n. IsInFront bytes.now n) }
        ensures set_meaning { IfSome result
            (λ n. meaning self.now (take n bytes.now) ≡ Ok (view place.new)) }
        ensures set_bounds { IfSome result (λ _. bounds self.now place.new) }
    {
        let (value, len) = self.read_front(bytes)?;
        *place = value;
        Some(len)
    }
}
