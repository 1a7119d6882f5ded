ghost use Rattle.std.specs.Prelude.{◌≡◌, ◌≢◌, ◌<◌, ◌≤◌, ◌-◌, length, Some, IfOk};
ghost use Rattle.std.specs.Prelude.{IfErr, OnOk, IsSome};
ghost use Rattle.vipr_bytes.specs.Known.{IfKnown, text_of};
ghost use Rattle.vipr_spec.specs.Reading.{token_of, end_read};
ghost use Rattle.vipr_scan.specs.Giving.{Scans, Ends, IsBehind, rest_of, Takes};
ghost use Rattle.vipr_scan.specs.Scanning.{Scanning, scanning_of};

use crate::cursor::Cursor;
use crate::error::{Cause, ScanError};
use crate::kind::{TokenKind, Unfit};
use crate::scan::Scan;
use crate::window::Window;
use std::alloc::{AllocError, Global};
use std::marker::Model;
use vipr_bytes::Source;

/// Takes the tokens of a text one by one, over a buffer of 65,536 bytes. In contracts it is the
/// rest of the text, if that is known, and what of it is at hand.
#[derive(Drop)]
pub struct Scanner<R: Source> {
    window: Window<R>,
}

impl<R: Source> Model for Scanner<R> {
    ghost Value = { Scanning };

    ghost view = { λ s. scanning_of R.input s.window };
}

impl<R: Source> Scanner<R> {
    ghost use Rattle.vipr_scan.specs.Cursor.{hand_at, rest_at};
    ghost use Rattle.vipr_scan.specs.Hand.{rest_behind};

    /// A scanner at the start of the text. If there is no memory, nothing was read.
    pub fn new(alloc: Global, source: R) -> Result<Scanner<R>, AllocError>
    where
        R: Drop,
        ensures { IfOk result (λ s. IfKnown (R.input source) (λ i. s.rest ≡ Some (text_of i))) }
    {
        let window = Window::new(alloc, source)?;
        Ok(Scanner { window })
    }

    /// How many bytes are at hand.
    #[inline(always)]
    pub fn at_hand(&self) -> usize
        ensures { result ≡ length self.now.hand.bytes }
    {
        self.window.hand().len()
    }

    /// A cursor at the next token.
    #[inline(always)]
    pub fn cursor(&self) -> Cursor<'_, R>
        ensures hand { hand_at R.input result ≡ self.now.hand }
        ensures rest { rest_at R.input result ≡ self.now.rest }
    {
        Cursor::new(&self.window)
    }

    /// Goes to the place at which so many of the bytes at hand are left.
    #[inline(always)]
    pub fn go_to(&mut self, left: usize)
        requires { left ≤ length self.old.hand.bytes }
        ensures { self.new.rest
            ≡ rest_behind self.old.hand (length self.old.hand.bytes - left) }
    {
        self.window.go_to(left);
    }

    /// The next token, which is of this kind. A token that the kind refuses is consumed too.
    #[inline(always)]
    pub fn take<K: TokenKind>(&mut self, kind: &K) -> Result<K::Value, ScanError>
        ensures read { Scans K.view (token_of (K.meaning kind.now)) self.old.rest self.new.rest
            result }
        ensures behind { IsBehind self.old.rest self.new.rest }
        ensures bounds { IfOk result (λ x. K.bounds kind.now x) }
    {
        let (gap, bytes) = self.window.at_hand();
        if let Some((value, len)) = kind.read_front(bytes) {
            self.window.pass(gap, len);
            return Ok(value);
        }
        self.take_slowly(kind)
    }

    /// The next token, which is of this kind, in place of another value.
    #[inline(always)]
    pub fn take_into<K: TokenKind>(
        &mut self,
        kind: &K,
        place: &mut K::Value,
    ) -> Result<(), ScanError>
        ensures read { Scans (λ _. K.view place.new) (token_of (K.meaning kind.now))
            self.old.rest self.new.rest result }
        ensures bounds { OnOk result (K.bounds kind.now place.new) }
    {
        let (gap, bytes) = self.window.at_hand();
        if let Some(len) = kind.set_front(bytes, place) {
            self.window.pass(gap, len);
            return Ok(());
        }
        *place = self.take_whole(kind)?;
        Ok(())
    }

    // What is between `take` and `take_whole` keeps the place for the result of the one off
    // the way of the other.
    #[inline(always)]
    fn take_slowly<K: TokenKind>(&mut self, kind: &K) -> Result<K::Value, ScanError>
        ensures { Takes K.view (K.meaning kind.now) (K.bounds kind.now) self.old.rest
            self.new.rest result }
    {
        let value = self.take_whole(kind)?;
        Ok(value)
    }

    /// The next token, of a kind that doesn't read it at once.
    #[inline(never)]
    fn take_whole<K: TokenKind>(&mut self, kind: &K) -> Result<K::Value, ScanError>
        ensures { Takes K.view (K.meaning kind.now) (K.bounds kind.now) self.old.rest
            self.new.rest result }
    {
        let found = self.window.want()?;
        let bytes = &self.window.buf[found.start..found.start + found.len];
        match kind.read(bytes) {
            Ok(value) => Ok(value),
            Err(Unfit::Cause(cause)) => Err(ScanError::Refused {
                cause: Cause::new(cause),
                offset: found.offset,
            }),
            Err(Unfit::Memory) => Err(ScanError::Memory),
        }
    }

    /// The end of the text. A token there is consumed.
    pub fn end(&mut self) -> Result<(), ScanError>
        ensures read { IsSome self.old.rest → Ends result (end_read (rest_of self.old.rest)) }
        ensures kept { OnOk result (IsSome self.old.rest → self.new.rest ≡ self.old.rest) }
        ensures behind { IsBehind self.old.rest self.new.rest }
        ensures error { IfErr result (λ e. e ≢ ScanError.Memory) }
    {
        self.window.end()
    }
}

impl<R: Source> Scan for Scanner<R> {
    ghost use Rattle.std.specs.Prelude.{None};

    ghost home = { λ _. None };

    ghost rest = { λ s. s.rest };

    #[inline(always)]
    fn take<K: TokenKind>(&mut self, kind: &K) -> Result<K::Value, ScanError> {
        Scanner::take(self, kind)
    }

    #[inline(always)]
    fn take_into<K: TokenKind>(&mut self, kind: &K, place: &mut K::Value) -> Result<(), ScanError> {
        Scanner::take_into(self, kind, place)
    }
}
