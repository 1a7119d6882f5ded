//! A few bytes, which lie in place.
ghost use Rattle.std.specs.Prelude.{◌≡◌, ◌≤◌, length, take};

/// The most bytes that lie in place.
pub(crate) const MOST_IN_PLACE: usize = 30;

/// At most 30 bytes.
#[derive(Clone, Copy, Drop)]
pub(crate) struct Short {
    bytes: [u8; 30],
    len: u8,
    ghost within: { len ≤ 30 },
}

impl Short {
    /// These bytes.
    #[inline(always)]
    pub(crate) fn of(bytes: &[u8]) -> Short
        requires { length bytes.now ≤ 30 }
        ensures { take result.len result.bytes ≡ bytes.now }
    {
        let mut kept = [0; 30];
        kept[..bytes.len()].copy_from_slice(bytes);
        Short {
            bytes: kept,
            len: bytes.len() as u8,
        }
    }

    /// The first bytes of these, of which there are enough for a copy of fixed length.
    #[inline(always)]
    pub(crate) fn of_front(bytes: &[u8], len: usize) -> Short
        requires few { len ≤ 30 }
        requires enough { 30 ≤ length bytes.now }
        ensures { take result.len result.bytes ≡ take len bytes.now }
    {
        let mut kept = [0; 30];
        kept.copy_from_slice(&bytes[..30]);
        Short {
            bytes: kept,
            len: len as u8,
        }
    }

    /// The bytes.
    #[inline(always)]
    pub(crate) fn as_slice(&self) -> &[u8]
        ensures { result.now ≡ take self.now.len self.now.bytes }
    {
        &self.bytes[..self.len as usize]
    }
}
