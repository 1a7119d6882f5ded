ghost use Rattle.std.specs.Prelude.{◌≡◌, ℕ, ◌+◌, ◌-◌, ◌^◌, ◌<◌, ◌≤◌, List, length, Option, Some};
ghost use Rattle.std.specs.Prelude.{None, Result, Ok, false, IfOk, IfSome, IsErr, OnOk};
ghost use Rattle.std.specs.Prelude.{MatchResult, ◌↔◌};
ghost use Rattle.std.specs.{Io.KnownBytes.ReadConsumes, declared.io.Error.Error};
ghost use Rattle.vipr_spec.specs.Input.{Input};
ghost use Rattle.vipr_bytes.specs.{Asked.PassesOn, Reads.ReadsBytes};

use std::io::{self, Read};
use std::marker::Model;

/// A read or a write failed.
#[derive(Clone, Copy, Debug, PartialEq, Eq, Hash)]
pub struct Failed;

/// A reader of bytes.
///
/// A read gives the next bytes, as many as it likes. It gives none only at the end, and fails only
/// if the reader's meaning has a failure.
pub trait Source {
    // At most so many reads still give bytes.
    ghost reads_left: { Self → ℕ };

    // If it is known: the remaining bytes, and what follows them.
    ghost input: { Self → Option Input };

    /// Writes the next bytes to the front of `buf`, and answers how many; 0 comes only at the end.
    fn read(&mut self, buf: &mut [u8]) -> Result<usize, Failed>
        requires { 0 < length buf.old }
        ensures count { IfOk result (λ n. n ≤ length buf.new) }
        ensures bound { IfOk result (λ n. 0 < n → reads_left self.new < reads_left self.old) }
        ensures bytes { IfSome (input self.old)
            (λ i. ReadsBytes i (input self.new) result buf.new) };
}

/// Reads a slice. Its bytes are known, and it never fails.
#[derive(Drop)]
pub struct Bytes<'a> {
    left: &'a [u8],
}

// Seen as the bytes that are left.
impl<'a> Model for Bytes<'a> {
    ghost Value = { List ℕ };

    ghost view = { λ b. b.left.now };
}

impl<'a> Bytes<'a> {
    /// A reader at the start of `bytes`.
    pub fn new(bytes: &'a [u8]) -> Bytes<'a>
        ensures { result ≡ bytes.now }
    {
        Bytes { left: bytes }
    }
}

impl Source for Bytes<'_> {
    ghost reads_left = { λ bytes. length bytes };

    ghost input = { λ bytes. Some (record { bytes = bytes; fails = false }) };

    fn read(&mut self, buf: &mut [u8]) -> Result<usize, Failed> {
        let n = self.left.len().min(buf.len());
        let (front, rest) = self.left.split_at(n);
        buf[..n].copy_from_slice(front);
        self.left = rest;
        Ok(n)
    }
}

/// A reader of std. It has a word for what one read gives, and none for what two give. So a
/// contract can say that exactly one was asked for.
pub trait ReadOnce: Read {
    // A read of the first reader gives this, and this is in the buffer then. The last one is left.
    ghost gives: { Self → Result ℕ Error → List ℕ → Self → Type 0 };

    /// Reads once.
    fn read_once(&mut self, buf: &mut [u8]) -> io::Result<usize>
        ensures bound { IfOk result (λ n. n ≤ length buf.new) }
        ensures bytes { ReadConsumes (Self.remaining self.old) (Self.remaining self.new)
            result buf.new }
        ensures gives { gives self.old result buf.new self.new };
}

impl<R: Read> ReadOnce for R {
    ghost gives = { λ old result buf new. ReadConsumes (R.remaining old) (R.remaining new)
        result buf };

    fn read_once(&mut self, buf: &mut [u8]) -> io::Result<usize> {
        self.read(buf)
    }
}

/// Reads a reader of std. The bytes to come aren't known.
///
/// It fails on every error of the reader, an interrupted read too, and at its 2^64th read.
#[derive(Drop)]
pub struct FromRead<R> {
    reader: R,
    reads: u64,
}

impl<R: Read> FromRead<R> {
    /// A reader that was asked nothing yet.
    pub fn new(reader: R) -> FromRead<R>
        ensures reader { result.reader ≡ reader }
        ensures reads { result.reads ≡ 0 }
    {
        FromRead { reader, reads: 0 }
    }

    // Counts a read. The 2^64th is refused, and no other.
    fn count(&mut self) -> Result<(), Failed>
        ensures limit { IsErr result ↔ (self.old.reads ≡ 2 ^ 64 - 1) }
        ensures counted { OnOk result (self.new.reads ≡ self.old.reads + 1) }
        ensures bound { OnOk result
            (2 ^ 64 - 1 - self.new.reads < 2 ^ 64 - 1 - self.old.reads) }
        ensures reader { self.new.reader ≡ self.old.reader }
    {
        if self.reads == u64::MAX {
            return Err(Failed);
        }
        self.reads += 1;
        Ok(())
    }
}

impl<R: ReadOnce> Source for FromRead<R> {
    ghost reads_left = { λ r. 2 ^ 64 - 1 - r.reads };

    ghost input = { λ _. None };

    // What it gives is what the reader gave, which is asked once, unless that is the 2^64th read.
    fn read(&mut self, buf: &mut [u8]) -> Result<usize, Failed>
        ensures count { IfOk result (λ n. n ≤ length buf.new) }
        ensures bound { IfOk result
            (λ n. 0 < n → 2 ^ 64 - 1 - self.new.reads < 2 ^ 64 - 1 - self.old.reads) }
        ensures given { ReadConsumes (R.remaining self.old.reader)
            (R.remaining self.new.reader) result buf.new }
        ensures asked { self.old.reads < 2 ^ 64 - 1 → PassesOn
            (λ given. R.gives self.old.reader given buf.new self.new.reader) result }
        ensures counted { self.old.reads < 2 ^ 64 - 1 → self.new.reads ≡ self.old.reads + 1 }
        ensures limit { self.old.reads ≡ 2 ^ 64 - 1 → IsErr result }
    {
        self.count()?;
        answer(self.reader.read_once(buf))
    }
}

/// What is answered if a reader or a writer of std gave this: each of its errors is a failure,
/// and nothing else is.
pub(crate) fn answer(given: io::Result<usize>) -> Result<usize, Failed>
    ensures { MatchResult given (λ n. result ≡ Ok n) (λ _. IsErr result) }
{
    match given {
        Ok(n) => Ok(n),
        Err(_) => Err(Failed),
    }
}
