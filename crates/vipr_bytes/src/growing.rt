//! A text in memory.
ghost use Rattle.std.specs.Prelude.{◌≡◌, [], true, false, IfOk, IsErr, ◌↔◌};

use crate::out::Out;
use std::alloc::{AllocError, Global};

/// The bytes of a text in memory. Once a growth is refused, they are the text's no more.
#[derive(Drop)]
pub struct Growing {
    bytes: Vec<u8>,
    failed: bool,
}

impl Growing {
    /// An empty text.
    pub fn new(alloc: Global) -> Growing
        ensures bytes { result.bytes.items ≡ [] }
        ensures failed { result.failed ≡ false }
    {
        Growing {
            bytes: Vec::new(alloc),
            failed: false,
        }
    }

    /// The bytes so far.
    pub fn as_slice(&self) -> &[u8]
        ensures { result.now ≡ self.now.bytes.items }
    {
        &self.bytes
    }

    /// Counts as a refused growth.
    pub fn give_up(&mut self)
        ensures { self.new.failed ≡ true }
    {
        self.failed = true;
    }

    /// Begins again with an empty text.
    pub fn clear(&mut self)
        ensures bytes { self.new.bytes.items ≡ [] }
        ensures failed { self.new.failed ≡ false }
    {
        self.bytes.clear();
        self.failed = false;
    }

    /// The text whole.
    ///
    /// # Errors
    ///
    /// If a growth was refused.
    pub fn into_bytes(self) -> Result<Vec<u8>, AllocError>
        ensures ok { IfOk result (λ bytes. (self.failed ≡ false)
            × (bytes.items ≡ self.bytes.items)) }
        ensures err { IsErr result ↔ (self.failed ≡ true) }
    {
        if self.failed {
            return Err(AllocError);
        }
        let Growing { bytes, failed: _ } = self;
        Ok(bytes)
    }
}

impl Out for Growing {
    ghost use Rattle.vipr_bytes.specs.Grown.{GrowsBy};

    ghost carries = { GrowsBy };

    #[inline(always)]
    fn push(&mut self, byte: u8) {
        if self.bytes.push(byte).is_err() {
            self.failed = true;
        }
    }

    #[inline(always)]
    fn put(&mut self, bytes: &[u8]) {
        if self.bytes.extend_from_slice(bytes).is_err() {
            self.failed = true;
        }
    }

    fn has_failed(&self) -> bool
        ensures { result ≡ self.now.failed }
    {
        self.failed
    }
}
