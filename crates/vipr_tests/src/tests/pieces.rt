//! Texts that are longer than the buffer from which they are written.
use super::write::Taking;
use super::{same, spelled};
use std::alloc::Global;
use std::process::Abort;
use vipr_write::{WriteError, write_certificate};

const FRONT: &[u8] = b"VER 1.0\nVAR 2\n";

const BACK: &[u8] = b"\nINT 0\nOBJ min\n0\nCON 0 0\nRTP infeas\nSOL 0\nDER 0\n";

/// A text has so many bytes beside its two names.
const OTHERS: usize = 63;

fn letters(rt: &impl Abort, alloc: Global, length: usize) -> Vec<u8> {
    vec![in alloc; b'x'; length].expect(rt, "letters")
}

/// The text of a certificate of two variables, whose names have these lengths.
fn text(rt: &impl Abort, alloc: Global, first: usize, second: usize) -> Vec<u8> {
    let mut text = Vec::new(alloc);
    let (first, second) = (letters(rt, alloc, first), letters(rt, alloc, second));
    for part in [FRONT, first.as_slice(), b"\n", second.as_slice(), BACK] {
        text.extend_from_slice(part).expect(rt, "a text");
    }
    drop((first, second));
    text
}

/// Writes the certificate of two names to a sink, and compares the answer and what was taken.
fn takes(
    rt: &impl Abort,
    alloc: Global,
    (first, second): (usize, usize),
    sink: &mut Taking,
    wanted: Result<(), WriteError>,
) {
    let text = text(rt, alloc, first, second);
    let certificate = spelled(rt, alloc, text.as_slice());
    same(rt, write_certificate(alloc, &certificate, sink), wanted);
    let accepted = sink.accepted.len().min(text.len());
    same(rt, sink.accepted.as_slice(), &text[..accepted]);
    drop((certificate, text));
}

/// A text of so many bytes is taken whole, by so many calls.
fn whole(rt: &impl Abort, alloc: Global, first: usize, second: usize, calls: usize) {
    let mut sink = Taking::new(rt, alloc, usize::MAX, usize::MAX, true);
    takes(rt, alloc, (first, second), &mut sink, Ok(()));
    same(
        rt,
        sink.accepted.len(),
        first.saturating_add(second).saturating_add(OTHERS),
    );
    same(rt, sink.calls, calls);
    drop(sink);
}

#[test]
fn texts_about_as_long_as_the_buffer(rt: HostRuntime) {
    for (first, calls) in [(65_471, 1), (65_472, 1), (65_473, 2), (65_474, 2)] {
        whole(&rt, rt.alloc(), first, 1, calls);
    }
}

#[test]
fn names_that_end_about_where_the_buffer_does(rt: HostRuntime) {
    for (first, calls) in [(65_521, 3), (65_522, 3), (65_523, 4)] {
        whole(&rt, rt.alloc(), first, 65_535, calls);
    }
}

#[test]
fn one_byte_a_call(rt: HostRuntime) {
    let mut sink = Taking::new(&rt, rt.alloc(), usize::MAX, 1, true);
    takes(&rt, rt.alloc(), (65_522, 20), &mut sink, Ok(()));
    same(&rt, sink.calls, 65_605);
    drop(sink);
}

#[test]
fn fails_about_where_the_buffer_ends(rt: HostRuntime) {
    for room in [0, 1, 65_534, 65_535, 65_536, 65_537, 65_538, 131_119] {
        let mut sink = Taking::new(&rt, rt.alloc(), room, usize::MAX, true);
        let taken = room as u64;
        let wanted = Err(WriteError::Write { taken });
        takes(&rt, rt.alloc(), (65_522, 65_535), &mut sink, wanted);
        same(&rt, sink.accepted.len(), room);
        drop(sink);
    }
}
