ghost use Rattle.std.specs.Prelude.{◌≡◌, ◌-◌, ◌≤◌, length, drop, slice_range, Ok};

use crate::error::ScanError;
use crate::kind::TokenKind;
use crate::place::white;
use crate::scan::Scan;
use crate::window::Window;
use vipr_bytes::Source;

/// Takes the tokens that are at hand of a scanner, which itself doesn't move. It answers that
/// memory ran out if the next token isn't there in full, or is refused.
#[derive(Drop)]
pub struct Cursor<'a, R> {
    window: &'a Window<R>,
    /// The bytes at hand that weren't passed.
    bytes: &'a [u8],
    ghost part: { bytes.now ≡ drop
        (length (slice_range window.now.buf.value window.now.start window.now.ready)
        - length bytes.now)
        (slice_range window.now.buf.value window.now.start window.now.ready) },
}

impl<'a, R: Source> Cursor<'a, R> {
    ghost use Rattle.vipr_scan.specs.Cursor.{hand_at, rest_at, IsGapAt, token_at};
    ghost use Rattle.vipr_scan.specs.Hand.{hand_of, rest_behind};
    ghost use Rattle.vipr_scan.specs.View.{rest_of_window};
    ghost use Rattle.vipr_scan.specs.Giving.{Scans};
    ghost use Rattle.vipr_scan.specs.Meaning.{IsInFront};
    ghost use Rattle.vipr_spec.specs.Reading.{token_read};

    /// A cursor at the next token.
    #[inline(always)]
    pub(crate) fn new(window: &'a Window<R>) -> Cursor<'a, R>
        ensures hand { hand_at R.input result ≡ hand_of R.input window.now }
        ensures rest { rest_at R.input result ≡ rest_of_window R.input window.now }
    {
        let bytes = window.hand();
        Cursor { window, bytes }
    }

    /// How many of the bytes at hand weren't passed.
    #[inline(always)]
    pub fn left(&self) -> usize
        ensures within { result ≤ length (hand_at R.input self.now).bytes }
        ensures rest { rest_at R.input self.now ≡ rest_behind (hand_at R.input self.now)
            (length (hand_at R.input self.now).bytes - result) }
    {
        self.bytes.len()
    }

    /// Takes white space, the token behind it, which is in front of these bytes and has so many,
    /// and the byte that ends it.
    #[inline(always)]
    fn pass(&mut self, gap: usize, bytes: &'a [u8], len: usize)
        requires gap { IsGapAt self.old.bytes.now gap }
        requires bytes { bytes.now ≡ drop gap self.old.bytes.now }
        requires token { IsInFront bytes.now len }
        ensures home { hand_at R.input self.new ≡ hand_at R.input self.old }
        ensures read { Scans (λ _. token_at R.input self.old gap len) token_read
            (rest_at R.input self.old) (rest_at R.input self.new) (Ok result) }
    {
        let _ = gap;
        self.bytes = &bytes[len + 1..];
    }
}

impl<'a, R: Source> Scan for Cursor<'a, R> {
    ghost use Rattle.std.specs.Prelude.{Some};
    ghost use Rattle.vipr_scan.specs.Cursor.{hand_at, rest_at};

    ghost home = { λ c. Some (hand_at R.input c) };

    ghost rest = { rest_at R.input };

    #[inline(always)]
    fn take<K: TokenKind>(&mut self, kind: &K) -> Result<K::Value, ScanError> {
        let gap = white(self.bytes);
        let bytes = &self.bytes[gap..];
        match kind.read_front(bytes) {
            Some((value, len)) => {
                self.pass(gap, bytes, len);
                Ok(value)
            }
            None => Err(ScanError::Memory),
        }
    }

    #[inline(always)]
    fn take_into<K: TokenKind>(&mut self, kind: &K, place: &mut K::Value) -> Result<(), ScanError> {
        let gap = white(self.bytes);
        let bytes = &self.bytes[gap..];
        match kind.set_front(bytes, place) {
            Some(len) => {
                self.pass(gap, bytes, len);
                Ok(())
            }
            None => Err(ScanError::Memory),
        }
    }
}
