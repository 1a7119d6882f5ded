//! A buffer before a sink.
ghost use Rattle.std.specs.Prelude.{◌≤◌, length, vec_capacity};
ghost use Rattle.vipr_bytes.specs.Hands.{Hands};

use crate::BUFFER_BYTES;
use crate::out::Out;
use crate::sink::Sink;
use crate::write::{WriteFailed, write_bytes};
use std::alloc::{AllocError, Global};

/// The bytes of a text that its sink does not have yet, in a buffer whose memory is there from the
/// start. Once a write has failed, nothing more is handed over.
#[derive(Drop)]
pub struct SinkBuffer {
    bytes: Vec<u8>,
    accepted: u64,
    failed: bool,
    ghost within: { length bytes.items ≤ 65536 },
    ghost room: { 65536 ≤ vec_capacity bytes },
}

/// A sink with the buffer before it.
#[derive(Drop)]
pub struct ToSink<'a, W> {
    pub sink: &'a mut W,
    pub buffer: &'a mut SinkBuffer,
}

// Hands bytes over, where so many were before. How many there are now, and whether a write failed.
fn hand<W: Sink>(sink: &mut W, bytes: &[u8], before: u64) -> (u64, bool)
    ensures { Hands W.output W.failures sink.old sink.new before bytes.now result }
{
    match write_bytes(sink, bytes) {
        Ok(()) => (before.saturating_add(bytes.len() as u64), false),
        Err(error) => (before.saturating_add(error.accepted), true),
    }
}

impl SinkBuffer {
    ghost use Rattle.std.specs.Prelude.{◌≡◌, ◌^◌, ◌<◌, [], ◌∷◌, List, ℕ, IfOk};
    ghost use Rattle.vipr_bytes.specs.Hands.{Start, start_of, IsEnd};
    ghost use Rattle.vipr_bytes.specs.Sent.{Carries, Sends};

    /// Nothing of a text.
    pub fn new(alloc: Global) -> Result<SinkBuffer, AllocError>
        ensures { IfOk result (λ b. (start : Start) → Carries start start b []) }
    {
        Ok(SinkBuffer {
            bytes: Vec::with_capacity(alloc, BUFFER_BYTES)?,
            accepted: 0,
            failed: false,
        })
    }

    // Hands all of it over, unless a write has failed.
    #[inline(never)]
    fn flush<W: Sink>(&mut self, sink: &mut W)
        ensures text { Sends W.output W.failures sink.old sink.new self.old self.new [] }
        ensures bytes { self.new.bytes.items ≡ [] }
    {
        if self.failed {
            self.bytes.clear();
            return;
        }
        let (accepted, failed) = hand(sink, &self.bytes, self.accepted);
        self.accepted = accepted;
        self.failed = failed;
        self.bytes.clear();
    }

    // A byte more.
    #[inline(always)]
    fn push<W: Sink>(&mut self, sink: &mut W, byte: u8)
        ensures { Sends W.output W.failures sink.old sink.new self.old self.new (byte ∷ []) }
    {
        if self.bytes.len() == BUFFER_BYTES {
            self.flush(sink);
        }
        let _ = self.bytes.push(byte);
    }

    // Bytes more.
    #[inline(always)]
    fn put<W: Sink>(&mut self, sink: &mut W, bytes: &[u8])
        ensures { Sends W.output W.failures sink.old sink.new self.old self.new bytes.now }
    {
        if bytes.len() > BUFFER_BYTES - self.bytes.len() {
            self.put_next(sink, bytes);
            return;
        }
        let _ = self.bytes.extend_from_slice(bytes);
    }

    // Bytes more, once all else is handed over. They are handed over, too, if they are too many.
    #[inline(never)]
    fn put_next<W: Sink>(&mut self, sink: &mut W, bytes: &[u8])
        ensures { Sends W.output W.failures sink.old sink.new self.old self.new bytes.now }
    {
        self.flush(sink);
        if bytes.len() <= BUFFER_BYTES {
            let _ = self.bytes.extend_from_slice(bytes);
            return;
        }
        self.send(sink, bytes);
    }

    // Hands bytes over with nothing before them, unless a write has failed.
    fn send<W: Sink>(&mut self, sink: &mut W, bytes: &[u8])
        requires { self.old.bytes.items ≡ [] }
        ensures { Sends W.output W.failures sink.old sink.new self.old self.new bytes.now }
    {
        if self.failed {
            return;
        }
        let (accepted, failed) = hand(sink, bytes, self.accepted);
        self.accepted = accepted;
        self.failed = failed;
    }

    // Hands over the last bytes of the text.
    fn finish<W: Sink>(&mut self, sink: &mut W) -> Result<(), WriteFailed>
        ensures { (start : Start) (text : List ℕ) → length text < 2 ^ 64
            → Carries start (start_of W.output W.failures sink.old) self.old text
            → IsEnd start (start_of W.output W.failures sink.new) text result }
    {
        self.flush(sink);
        if self.failed {
            return Err(WriteFailed {
                accepted: self.accepted,
            });
        }
        Ok(())
    }
}

impl<W: Sink> ToSink<'_, W> {
    ghost use Rattle.std.specs.Prelude.{◌≡◌, ◌^◌, ◌<◌, List, ℕ};
    ghost use Rattle.vipr_bytes.specs.Hands.{Start, start_of, IsEnd};
    ghost use Rattle.vipr_bytes.specs.Sent.{Carries};

    /// Hands over the last bytes of the text.
    ///
    /// # Errors
    ///
    /// If a write failed or took nothing, now or before.
    pub fn finish(&mut self) -> Result<(), WriteFailed>
        ensures sink { self.new.sink.ghost_name ≡ self.old.sink.ghost_name }
        ensures end { (start : Start) (text : List ℕ) → length text < 2 ^ 64
            → Carries start (start_of W.output W.failures self.old.sink.now) self.old.buffer.now
            text
            → IsEnd start (start_of W.output W.failures self.new.sink.now) text result }
    {
        self.buffer.finish(self.sink)
    }
}

impl<W: Sink> Out for ToSink<'_, W> {
    ghost use Rattle.vipr_bytes.specs.Sent.{SendsTo};

    ghost carries = { SendsTo W.output W.failures };

    #[inline(always)]
    fn push(&mut self, byte: u8) {
        self.buffer.push(self.sink, byte);
    }

    #[inline(always)]
    fn put(&mut self, bytes: &[u8]) {
        self.buffer.put(self.sink, bytes);
    }

    fn has_failed(&self) -> bool {
        self.buffer.failed
    }
}
