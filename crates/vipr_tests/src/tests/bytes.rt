use super::same;
use std::io::{self, ErrorKind, Read, Write};
use std::process::Abort;
use vipr_bytes::{Bytes, Failed, FromRead, FromWrite, Sink, Source, WriteFailed, write_bytes};

/// Moves at most two bytes a call. It is interrupted at one call, and goes on at the next. It counts
/// its calls.
#[derive(Drop)]
pub(super) struct Interrupted<T> {
    inner: T,
    calls: usize,
    interrupted_at: usize,
}

impl<T> Interrupted<T> {
    pub(super) fn new(inner: T, interrupted_at: usize) -> Interrupted<T> {
        Interrupted {
            inner,
            calls: 0,
            interrupted_at,
        }
    }

    fn count(&mut self) -> io::Result<()> {
        self.calls = self.calls.saturating_add(1);
        if self.calls == self.interrupted_at {
            return Err(io::Error::from(ErrorKind::Interrupted));
        }
        Ok(())
    }
}

impl<T: Read> Read for Interrupted<T> {
    fn read(&mut self, buf: &mut [u8]) -> io::Result<usize> {
        self.count()?;
        let len = buf.len().min(2);
        self.inner.read(&mut buf[..len])
    }
}

impl<T: Write> Write for Interrupted<T> {
    fn write(&mut self, buf: &[u8]) -> io::Result<usize> {
        self.count()?;
        self.inner.write(&buf[..buf.len().min(2)])
    }

    fn flush(&mut self) -> io::Result<()> {
        Ok(())
    }
}

fn first<R: Source>(source: &mut R) -> Result<(usize, u8), Failed> {
    let mut buf = [0u8; 4];
    let n = source.read(&mut buf)?;
    Ok((n, buf[0]))
}

/// Reads once, and compares how many bytes came and the first of the buffer.
fn gives<R: Source>(rt: &impl Abort, source: &mut R, wanted: Result<(usize, u8), Failed>) {
    same(rt, first(source), wanted);
}

#[test]
fn a_slice_is_read_to_its_end(rt: HostRuntime) {
    let mut source = Bytes::new(b"abcde");
    for wanted in [(4, b'a'), (1, b'e'), (0, 0)] {
        gives(&rt, &mut source, Ok(wanted));
    }
}

#[test]
fn a_reader_is_read_and_its_errors_are_failures(rt: HostRuntime) {
    let mut source = FromRead::new(Interrupted::new(b"abc".as_slice(), 4));
    for wanted in [Ok((2, b'a')), Ok((1, b'c')), Ok((0, 0)), Err(Failed)] {
        gives(&rt, &mut source, wanted);
    }
}

/// Gives a space at each of so many reads, and nothing behind them.
#[derive(Drop)]
struct Spaces {
    left: u32,
}

impl Read for Spaces {
    fn read(&mut self, buf: &mut [u8]) -> io::Result<usize> {
        if self.left == 0 || buf.is_empty() {
            return Ok(0);
        }
        self.left -= 1;
        buf[0] = b' ';
        Ok(1)
    }
}

#[test]
fn two_hundred_thousand_reads_may_give_a_byte_each(rt: HostRuntime) {
    let mut source = FromRead::new(Spaces { left: 200_000 });
    for _ in 0..200_000 {
        gives(&rt, &mut source, Ok((1, b' ')));
    }
    gives(&rt, &mut source, Ok((0, 0)));
}

/// Writes three bytes once, and compares how many were taken.
fn takes<W: Sink>(rt: &impl Abort, sink: &mut W, wanted: Result<usize, Failed>) {
    same(rt, sink.write(b"abc"), wanted);
}

fn takes_two_of_three_and_fails<W: Write + Drop>(rt: &impl Abort, inner: W) {
    let mut sink = FromWrite::new(Interrupted::new(inner, 3));
    for wanted in [Ok(2), Ok(2), Err(Failed)] {
        takes(rt, &mut sink, wanted);
    }
}

#[test]
fn a_writer_is_written_and_its_errors_are_failures(rt: HostRuntime) {
    let mut bytes = Vec::new(rt.alloc());
    takes_two_of_three_and_fails(&rt, &mut bytes);
    same(&rt, bytes.as_slice(), b"abab".as_slice());
    drop(bytes);
}

#[test]
fn an_interrupted_read_fails_and_is_not_asked_for_again(rt: HostRuntime) {
    let mut reader = Interrupted::new(b"abc".as_slice(), 2);
    {
        let mut source = FromRead::new(&mut reader);
        for wanted in [Ok((2, b'a')), Err(Failed)] {
            gives(&rt, &mut source, wanted);
        }
    }
    same(&rt, reader.calls, 2);
}

/// Hands bytes over, and compares the answer.
fn hands_over<W: Write>(
    rt: &impl Abort,
    writer: &mut W,
    bytes: &[u8],
    wanted: Result<(), WriteFailed>,
) {
    let mut sink = FromWrite::new(writer);
    same(rt, write_bytes(&mut sink, bytes), wanted);
}

#[test]
fn bytes_are_handed_over_until_all_are_accepted(rt: HostRuntime) {
    let mut bytes = Vec::new(rt.alloc());
    hands_over(&rt, &mut bytes, b"abcde", Ok(()));
    hands_over(&rt, &mut bytes, b"", Ok(()));
    same(&rt, bytes.as_slice(), b"abcde".as_slice());
    drop(bytes);
}

/// The number of calls that a writer gets for five bytes, the second of which is interrupted.
fn calls_for_five<W: Write + Drop>(rt: &impl Abort, inner: W) -> usize {
    let mut writer = Interrupted::new(inner, 2);
    hands_over(rt, &mut writer, b"abcde", Err(WriteFailed { accepted: 2 }));
    writer.calls
}

#[test]
fn an_interrupted_write_ends_the_call(rt: HostRuntime) {
    let mut bytes = Vec::new(rt.alloc());
    same(&rt, calls_for_five(&rt, &mut bytes), 2);
    same(&rt, bytes.as_slice(), b"ab".as_slice());
    drop(bytes);
}
