ghost use Rattle.std.specs.Prelude.{◌≡◌, ℕ, ◌+◌, ◌<◌, ◌≤◌, List, length, Option, Some, None};
ghost use Rattle.std.specs.Prelude.{Result, IfOk, IfSome};
ghost use Rattle.std.specs.{Io.KnownBytes.WriteAppends, declared.io.Error.Error};
ghost use Rattle.vipr_bytes.specs.Asked.{PassesOn};
ghost use Rattle.vipr_bytes.specs.Output.{Output, Writes, output_of, failure_of};

use crate::source::{Failed, answer};
use std::io::{self, Write};
use std::marker::Model;

/// A writer of bytes.
///
/// A write takes the first bytes that it is handed, at least one if there is room. If there is
/// no room, it takes none or fails.
pub trait Sink {
    // If it is known: the bytes that it accepted, and if that is known how many more it has
    // room for.
    ghost output: { Self → Option Output };

    // Where it is known: how many writes so far failed or took nothing.
    ghost failures: { Self → Option ℕ };

    /// Takes bytes from the front of `bytes`, and answers how many.
    fn write(&mut self, bytes: &[u8]) -> Result<usize, Failed>
        requires { 0 < length bytes.now }
        ensures count { IfOk result (λ n. n ≤ length bytes.now) }
        ensures accepted { IfSome (output self.old)
            (λ o. Writes o (output self.new) result bytes.now) }
        ensures failed { IfSome (failures self.old)
            (λ n. failures self.new ≡ Some (n + failure_of result)) };
}

/// A writer of std. It has a word for what one write gives, and none for what two give. So a
/// contract can say that exactly one was asked for.
pub trait WriteOnce: Write {
    // A write of these bytes to the first writer gives this, and the last one is left.
    ghost gives: { Self → List ℕ → Result ℕ Error → Self → Type 0 };

    /// Writes once.
    fn write_once(&mut self, bytes: &[u8]) -> io::Result<usize>
        ensures bound { IfOk result (λ n. n ≤ length bytes.now) }
        ensures bytes { WriteAppends (Self.contents self.old) (Self.contents self.new)
            result bytes.now }
        ensures gives { gives self.old bytes.now result self.new };
}

impl<W: Write> WriteOnce for W {
    ghost gives = { λ old bytes result new. WriteAppends (W.contents old) (W.contents new)
        result bytes };

    fn write_once(&mut self, bytes: &[u8]) -> io::Result<usize> {
        self.write(bytes)
    }
}

/// Writes to a writer of std. The bytes that it accepted are known if the writer exposes them. How
/// much room there is isn't known.
///
/// It fails on every error of the writer, an interrupted write too.
#[derive(Drop)]
pub struct FromWrite<W> {
    writer: W,
}

// Seen as the writer.
impl<W> Model for FromWrite<W> {
    ghost Value = { W };

    ghost view = { λ w. w.writer };
}

impl<W: Write> FromWrite<W> {
    /// A writer that was handed nothing yet.
    pub fn new(writer: W) -> FromWrite<W>
        ensures { result ≡ writer }
    {
        FromWrite { writer }
    }
}

impl<W: WriteOnce> Sink for FromWrite<W> {
    ghost output = { λ w. output_of (W.contents w) };

    ghost failures = { λ _. None };

    // What it gives is what the writer gave, which is asked once.
    fn write(&mut self, bytes: &[u8]) -> Result<usize, Failed>
        ensures count { IfOk result (λ n. n ≤ length bytes.now) }
        ensures accepted { IfSome (output_of (W.contents self.old))
            (λ o. Writes o (output_of (W.contents self.new)) result bytes.now) }
        ensures asked { PassesOn (λ given. W.gives self.old bytes.now given self.new) result }
    {
        answer(self.writer.write_once(bytes))
    }
}

// It takes what memory allows: a write fails, and keeps nothing, where a growth is refused.
impl Sink for Vec<u8> {
    ghost output = { λ v. output_of (Some v.items) };

    ghost failures = { λ _. None };

    fn write(&mut self, bytes: &[u8]) -> Result<usize, Failed> {
        answer(self.write_once(bytes))
    }
}
