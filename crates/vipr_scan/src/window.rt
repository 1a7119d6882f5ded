ghost use Rattle.std.specs.Prelude.{◌≡◌, ◌+◌, ◌-◌, ◌<◌, ◌≤◌, min, true, false, length, drop};
ghost use Rattle.std.specs.Prelude.{Option, Some, None, Ok, Err, IfOk, IfSome, IfErr, take, OnOk};
ghost use Rattle.std.specs.Prelude.{OnErr, slice_range, ◌≢◌};
ghost use Rattle.vipr_bytes.specs.Known.{IfKnown, text_of};
ghost use Rattle.vipr_scan.specs.declared.place.Position.TheVariants.{Past};

use crate::buffer::{move_to_front, read_behind};
use crate::bytes::run_end;
use crate::cause;
use crate::error::{Cause, ScanError};
use crate::place::{Position, gap, white};
use std::alloc::{AllocError, Global};
use vipr_bytes::{BUFFER_BYTES, Failed, Source};

/// Where a token lies in the buffer.
#[derive(Clone, Copy)]
pub(crate) struct Found {
    pub(crate) start: usize,
    pub(crate) len: usize,
    pub(crate) offset: u64,
    pub(crate) long: bool,
}

/// Reads the tokens of a text.
#[derive(Drop)]
pub(crate) struct Window<R> {
    source: R,
    pub(crate) buf: Box<[u8; BUFFER_BYTES]>,
    pub(crate) start: usize,
    end: usize,
    /// The end of the bytes in which a token may begin: none do at the front of the text.
    pub(crate) ready: usize,
    /// The offset of the first byte of the buffer in the text.
    offset: u64,
    place: Position,
    ended: bool,
    ghost ordered: { start ≤ end },
    ghost within: { end ≤ 65536 },
    ghost opened: { place ≡ Past → ready ≡ end },
    ghost closed: { place ≢ Past → ready ≡ start },
}

/// The end of the bytes in which a token may begin.
fn ready_end(place: Position, start: usize, end: usize) -> usize
    ensures opened { place ≡ Position.Past → result ≡ end }
    ensures closed { place ≢ Position.Past → result ≡ start }
{
    match place {
        Position::Past => end,
        Position::Front | Position::Comment => start,
    }
}

impl<R: Source> Window<R> {
    ghost use Rattle.vipr_scan.specs.Hand.{at_hand, hand_of, rest_behind};
    ghost use Rattle.vipr_scan.specs.View.{unread, input_left, rest_of_window, rounds, Keeps};
    ghost use Rattle.vipr_scan.specs.View.{IsOver, front_offset};
    ghost use Rattle.vipr_scan.specs.View.{IsAtToken, view_of_found, next_answer, next_left};
    ghost use Rattle.vipr_scan.specs.View.{view_of_answer};
    ghost use Rattle.vipr_scan.specs.View.{stops, found_token};
    ghost use Rattle.vipr_scan.specs.View.{IsGap, IsFound, IsMeasured, HoldsUnread, TakesToken};
    ghost use Rattle.vipr_scan.specs.Meaning.{IsInFront};
    ghost use Rattle.vipr_scan.specs.Giving.{Scans, Ends, IsBehind};
    ghost use Rattle.vipr_spec.specs.Reading.{token_read, end_read};

    /// A reader at the start of the text. If there is no memory, nothing was read.
    pub(crate) fn new(alloc: Global, source: R) -> Result<Window<R>, AllocError>
    where
        R: Drop,
        ensures left { IfOk result (λ t. IfKnown (R.input source) (λ i.
            rest_of_window R.input t ≡ Some (text_of i))) }
    {
        let buf = Box::new(alloc, [0; BUFFER_BYTES])?;
        Ok(Window {
            source,
            buf,
            start: 0,
            end: 0,
            ready: 0,
            offset: 0,
            place: Position::Front,
            ended: false,
        })
    }

    /// The offset of the first unread byte in the text.
    #[inline(always)]
    fn front_offset(&self) -> u64
        ensures { result ≡ front_offset self.now }
    {
        self.offset.saturating_add(self.start as u64)
    }

    /// Moves the unread bytes to the front of the buffer, and reads behind them.
    #[inline(never)]
    fn fill(&mut self) -> Result<(), Failed>
        requires room { length (unread self.old) < 65536 }
        requires more { self.old.ended ≡ false }
        ensures held { HoldsUnread self.old self.new }
        ensures left { OnOk result
            (Keeps (rest_of_window R.input self.old) (rest_of_window R.input self.new)) }
        ensures err { OnErr result
            (IfSome (input_left R.input self.old)
            (λ i. (i.bytes ≡ unread self.old) × (i.fails ≡ true))) }
        ensures round { OnOk result (rounds R.reads_left self.new < rounds R.reads_left self.old) }
    {
        let held = self.end - self.start;
        let offset = self.front_offset();
        let buf: &mut [u8; BUFFER_BYTES] = &mut self.buf;
        move_to_front(buf, self.start, self.end);
        self.offset = offset;
        self.start = 0;
        self.end = held;
        self.ready = ready_end(self.place, 0, held);
        match read_behind(&mut self.source, buf, held) {
            Ok(0) => {
                self.ended = true;
                Ok(())
            }
            Ok(n) => {
                self.end = held + n;
                self.ready = ready_end(self.place, 0, held + n);
                Ok(())
            }
            Err(failed) => Err(failed),
        }
    }

    /// Takes the white space and comments at hand before the next token.
    fn take_gap(&mut self)
        ensures left { Keeps (rest_of_window R.input self.old) (rest_of_window R.input self.new) }
        ensures token { self.new.start < self.new.end → IsAtToken self.new }
        ensures ended { self.new.ended ≡ self.old.ended }
        ensures source { self.new.source ≡ self.old.source }
    {
        let bytes = &self.buf[self.start..self.end];
        let (n, place) = gap(self.place, bytes);
        self.start += n;
        self.place = place;
        self.ready = ready_end(place, self.start, self.end);
    }

    /// How much white space is at hand, and the bytes at hand behind it; none at the front of the
    /// text.
    #[inline(always)]
    pub(crate) fn at_hand(&self) -> (usize, &[u8])
        ensures gap { 0 < length result.1.now → IsGap self.now result.0 }
        ensures bytes { 0 < length result.1.now →
            result.1.now ≡ drop result.0 (unread self.now) }
    {
        let bytes = &self.buf[self.start..self.ready];
        let n = white(bytes);
        (n, &bytes[n..])
    }

    /// The bytes in which a token may begin.
    #[inline(always)]
    pub(crate) fn hand(&self) -> &[u8]
        ensures { result.now ≡ at_hand self.now }
    {
        &self.buf[self.start..self.ready]
    }

    /// Goes to the place at which so many of the bytes at hand are left.
    #[inline(always)]
    pub(crate) fn go_to(&mut self, left: usize)
        requires { left ≤ length (at_hand self.old) }
        ensures { rest_of_window R.input self.new
            ≡ rest_behind (hand_of R.input self.old) (length (at_hand self.old) - left) }
    {
        let passed = self.hand().len() - left;
        self.start += passed;
    }

    /// Takes white space, the token behind it, of that many bytes, and the byte that ends it.
    #[inline(always)]
    pub(crate) fn pass(&mut self, gap: usize, len: usize) -> Found
        requires gap { IsGap self.old gap }
        requires token { IsInFront (drop gap (unread self.old)) len }
        ensures read { Scans (found_token self.new.buf.value) token_read
            (rest_of_window R.input self.old) (rest_of_window R.input self.new) (Ok result) }
        ensures bytes { slice_range self.new.buf.value result.start (result.start + result.len)
            ≡ take len (drop gap (unread self.old)) }
        ensures within { result.start + result.len ≤ 65536 }
    {
        let start = self.start + gap;
        let offset = self.offset.saturating_add(start as u64);
        self.start = start + len + 1;
        Found {
            start,
            len,
            offset,
            long: false,
        }
    }

    /// Goes to the next token. At the end no byte is left.
    fn skip(&mut self) -> Result<(), Failed>
        ensures left { OnOk result
            (Keeps (rest_of_window R.input self.old) (rest_of_window R.input self.new)) }
        ensures token { OnOk result (self.new.start < self.new.end → IsAtToken self.new) }
        ensures end { OnOk result
            (self.new.start ≡ self.new.end → IsOver (rest_of_window R.input self.old) false) }
        ensures reached { OnOk result
            (self.new.start ≡ self.new.end →
            IfSome (rest_of_window R.input self.old) (λ l. front_offset self.new ≡ l.length)) }
        ensures failed { OnErr result (IsOver (rest_of_window R.input self.old) true) }
    {
        loop {
            self.take_gap();
            if self.start < self.end || self.ended {
                return Ok(());
            }
            self.fill()?;
        }
    }

    /// The length of the token at the front, all of it at hand, or 65,536 if it is longer.
    fn measure(&mut self) -> Result<usize, Failed>
        requires { IsAtToken self.old }
        ensures left { OnOk result
            (Keeps (rest_of_window R.input self.old) (rest_of_window R.input self.new)) }
        ensures measured { IfOk result (λ n. IsMeasured self.new n) }
        ensures failed { OnErr result (IsOver (rest_of_window R.input self.old) true) }
    {
        let mut len = 0;
        loop {
            let bytes = &self.buf[self.start..self.end];
            len = run_end(bytes, len);
            if len < bytes.len() || len == BUFFER_BYTES || self.ended {
                return Ok(len);
            }
            self.fill()?;
        }
    }

    /// Takes the token at the front, of that many bytes.
    fn take_token(&mut self, n: usize) -> Found
        requires { IsMeasured self.old n }
        ensures answer { IfSome (rest_of_window R.input self.old)
            (λ l. Ok (Some (view_of_found self.new.buf.value result)) ≡ next_answer l) }
        ensures left { result.long ≡ false →
            IfSome (rest_of_window R.input self.old)
            (λ l. rest_of_window R.input self.new ≡ Some (next_left l)) }
        ensures found { IsFound self.new.buf.value result }
    {
        let found = Found {
            start: self.start,
            len: n.min(BUFFER_BYTES - 1),
            offset: self.front_offset(),
            long: n == BUFFER_BYTES,
        };
        self.start += n;
        found
    }

    /// Finds the next token, and takes it.
    pub(crate) fn advance(&mut self) -> Result<Option<Found>, ScanError>
        ensures answer { IfSome (rest_of_window R.input self.old)
            (λ l. view_of_answer (view_of_found self.new.buf.value) result ≡ next_answer l) }
        ensures left { stops (view_of_answer (view_of_found self.new.buf.value) result) ≡ false →
            IfSome (rest_of_window R.input self.old)
            (λ l. rest_of_window R.input self.new ≡ Some (next_left l)) }
        ensures end { result ≡ Ok None →
            IfSome (rest_of_window R.input self.old) (λ l. front_offset self.new ≡ l.length) }
        ensures found { IfOk result (λ o. IfSome o (IsFound self.new.buf.value)) }
        ensures error { IfErr result (λ e. e ≡ ScanError.Read) }
    {
        self.skip()?;
        if self.start == self.end {
            return Ok(None);
        }
        let n = self.measure()?;
        let found = self.take_token(n);
        Ok(Some(found))
    }

    /// Takes the token that is wanted here.
    #[tactic(auto, unfolding(vipr_spec::specs::Reading::first_token))]
    pub(crate) fn want(&mut self) -> Result<Found, ScanError>
        ensures { TakesToken R.input self.old self.new result }
    {
        let (gap, bytes) = self.at_hand();
        let len = run_end(bytes, 0);
        if 0 < len && len < bytes.len() {
            return Ok(self.pass(gap, len));
        }
        self.want_slowly()
    }

    /// The next token, which may not be at hand.
    #[inline(never)]
    #[tactic(auto, unfolding(vipr_spec::specs::Reading::first_token))]
    fn want_slowly(&mut self) -> Result<Found, ScanError>
        ensures { TakesToken R.input self.old self.new result }
    {
        let Some(found) = self.advance()? else {
            return Err(ScanError::Refused {
                cause: Cause::new(cause::TRUNCATED),
                offset: self.front_offset(),
            });
        };
        if found.long {
            return Err(ScanError::Refused {
                cause: Cause::new(cause::TOKEN_TOO_LONG),
                offset: found.offset,
            });
        }
        Ok(found)
    }

    /// Takes the end of the text.
    pub(crate) fn end(&mut self) -> Result<(), ScanError>
        ensures read { IfSome (rest_of_window R.input self.old) (λ l. Ends result (end_read l)) }
        ensures behind { IsBehind (rest_of_window R.input self.old)
            (rest_of_window R.input self.new) }
        ensures kept { OnOk result
            (Keeps (rest_of_window R.input self.old) (rest_of_window R.input self.new)) }
        ensures error { IfErr result (λ e. e ≢ ScanError.Memory) }
    {
        match self.advance()? {
            None => Ok(()),
            Some(found) => Err(ScanError::Refused {
                cause: Cause::new(cause::TRAILING_TEXT),
                offset: found.offset,
            }),
        }
    }
}
