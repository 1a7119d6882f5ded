//! The hash of an index of the table.

use std::hash::{BuildHasher, Hasher};

/// Makes hashers of indices.
#[derive(Drop)]
pub(crate) struct IndexHashing;

/// The hasher of one index: the number whose bytes were written, the lowest first.
#[derive(Drop)]
pub(crate) struct IndexHasher(u64);

impl BuildHasher for IndexHashing {
    type Hasher = IndexHasher;

    ghost build_hasher = { λ _. record { 0 = 0 } };

    fn build_hasher(&self) -> IndexHasher {
        IndexHasher(0)
    }
}

impl Hasher for IndexHasher {
    ghost use Rattle.vipr_table.specs.Hashing.{with_bytes, hash};

    ghost write = { λ h bytes. record { 0 = with_bytes h.0 bytes } };

    ghost finish = { λ h. hash h.0 };

    // Indices are mostly dense, or come at equal distances. Four that follow each other share a
    // place, so that they are side by side in the table; blocks of four are spread by a product.
    #[inline(always)]
    fn finish(&self) -> u64 {
        let spread = (self.0 / 4).wrapping_mul(0x9E37_79B9_7F4A_7C15);
        (spread / 0x8_0000_0000).wrapping_add(self.0 % 4 * 0x2000_0000)
    }

    #[inline(always)]
    fn write(&mut self, bytes: &[u8]) {
        for byte in bytes {
            self.0 = (self.0 / 256) ^ (u64::from(*byte) * 0x100_0000);
        }
    }
}
