//! What the program reads.
ghost use Rattle.std.specs.Prelude.{◌≡◌, is_none};

use vipr_bytes::{Bytes, FromRead, ReadOnce, Source};

/// A source that the program reads.
pub trait Incoming: Source {
    /// Whether it may be left before its end. It may if no clause says which bytes it gives.
    fn may_be_left(&self) -> bool
        ensures { result ≡ is_none (Self.input self.now) };
}

impl<R: ReadOnce> Incoming for FromRead<R> {
    fn may_be_left(&self) -> bool {
        true
    }
}

impl Incoming for Bytes<'_> {
    fn may_be_left(&self) -> bool {
        false
    }
}
