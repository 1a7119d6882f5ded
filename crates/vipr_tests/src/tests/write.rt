//! A certificate with each kind of line, byte by byte, and writers that take little.
use super::{same, spelled};
use std::alloc::Global;
use std::process::Abort;
use vipr_bytes::{Failed, Sink};
use vipr_cert::Certificate;
use vipr_write::{Form, WriteError, write_certificate, write_certificate_in};

const TEXT: &[u8] = b"VER 1.0
VAR 2
x
y
INT 1
1
OBJ max
2 0 1/2 1 -3
CON 2 1
a G -1/3 0
b E 0 2 0 1/2 1 -3
RTP range -inf 7/2
SOL 2
s 1 1 1
t 0
DER 5
c L 12 1 1 1 { asm } 6
d G 13 1 1 1 { lin 2 0 0 1 -1/2 } -1
e L 0 0 { rnd 0 } -1
f L 0 0 { uns 4 2 5 3 } -1
g E 0 0 { sol } -1
";

/// The same certificate, with its entries in another order, and numbers that aren't in lowest terms.
const SPELLED: &[u8] = b"VER 1.0 VAR 2 x y INT 2 1 1 OBJ max 2 1 -3 0 2/4
    CON 2 1 a G -1/3 0 b E 0 2 1 -3 0 2/4 RTP range -inf 7/2 SOL 2 s 1 1 1 t 0
    DER 5 c L 12 1 1 1 { asm } 6 d G 13 1 1 1 { lin 2 0 0 1 -5/10 } -1
    e L 0 0 { rnd 0 } -1 f L 0 0 { uns 4 2 5 3 } -1 g E 0 0 { sol } -1";

/// The same certificate, with `OBJ` for the row that is the objective's.
const COMPACT: &[u8] = b"VER 1.0
VAR 2
x
y
INT 1
1
OBJ max
2 0 1/2 1 -3
CON 2 1
a G -1/3 0
b E 0 OBJ
RTP range -inf 7/2
SOL 2
s 1 1 1
t 0
DER 5
c L 12 1 1 1 { asm } 6
d G 13 1 1 1 { lin 2 0 0 1 -1/2 } -1
e L 0 0 { rnd 0 } -1
f L 0 0 { uns 4 2 5 3 } -1
g E 0 0 { sol } -1
";

const SHORT: &[u8] = b"VER 1.0
VAR 0
INT 0
OBJ min
0
CON 0 0
RTP infeas
SOL 0
DER 0
";

/// Takes at most so many bytes a call. If no room is left, it fails or takes none. It counts its
/// calls.
#[derive(Drop)]
pub(super) struct Taking {
    pub(super) accepted: Vec<u8>,
    pub(super) calls: usize,
    room: usize,
    most: usize,
    fails: bool,
}

impl Taking {
    pub(super) fn new(
        rt: &impl Abort,
        alloc: Global,
        room: usize,
        most: usize,
        fails: bool,
    ) -> Taking {
        Taking {
            accepted: Vec::with_capacity(alloc, 200_000).expect(rt, "room"),
            calls: 0,
            room,
            most,
            fails,
        }
    }
}

impl Sink for Taking {
    ghost use Rattle.std.specs.Prelude.{None};

    ghost output = { λ _. None };

    ghost failures = { λ _. None };

    fn write(&mut self, bytes: &[u8]) -> Result<usize, Failed> {
        self.calls = self.calls.saturating_add(1);
        let n = bytes.len().min(self.room).min(self.most);
        if n == 0 && self.fails {
            return Err(Failed);
        }
        if self.accepted.extend_from_slice(&bytes[..n]).is_err() {
            return Err(Failed);
        }
        self.room -= n;
        Ok(n)
    }
}

/// Compares what is written for a certificate.
pub(super) fn is_written(rt: &impl Abort, alloc: Global, certificate: Certificate, wanted: &[u8]) {
    // the writer has its room before
    let mut bytes = Vec::with_capacity(alloc, 4096).expect(rt, "room");
    same(
        rt,
        write_certificate(alloc, &certificate, &mut bytes),
        Ok(()),
    );
    same(rt, bytes.as_slice(), wanted);
    drop((certificate, bytes));
}

#[test]
fn each_kind_of_line(rt: HostRuntime) {
    for (text, wanted) in [(SHORT, SHORT), (SPELLED, TEXT)] {
        let certificate = spelled(&rt, rt.alloc(), text);
        is_written(&rt, rt.alloc(), certificate, wanted);
    }
}

#[test]
fn rows_of_the_objective(rt: HostRuntime) {
    let certificate = spelled(&rt, rt.alloc(), SPELLED);
    let mut bytes = Vec::with_capacity(rt.alloc(), 4096).expect(&rt, "room");
    let written = write_certificate_in(rt.alloc(), Form::Compact, &certificate, &mut bytes);
    same(&rt, written, Ok(()));
    same(&rt, bytes.as_slice(), COMPACT);
    drop((certificate, bytes));
}

/// Writes a certificate to a sink, and compares the answer, what was taken, and the calls.
fn takes(
    rt: &impl Abort,
    alloc: Global,
    certificate: &Certificate,
    sink: &mut Taking,
    wanted: (Result<(), WriteError>, &[u8], usize),
) {
    same(rt, write_certificate(alloc, certificate, sink), wanted.0);
    same(rt, sink.accepted.as_slice(), wanted.1);
    same(rt, sink.calls, wanted.2);
}

#[test]
fn one_byte_a_call(rt: HostRuntime) {
    let certificate = spelled(&rt, rt.alloc(), SPELLED);
    let mut sink = Taking::new(&rt, rt.alloc(), usize::MAX, 1, true);
    let wanted = (Ok(()), TEXT, TEXT.len());
    takes(&rt, rt.alloc(), &certificate, &mut sink, wanted);
    drop((certificate, sink));
}

/// The call behind these bytes is the last.
fn stops_behind(
    rt: &impl Abort,
    alloc: Global,
    certificate: &Certificate,
    front: &[u8],
    fails: bool,
) {
    let calls = front.len() + 1;
    let mut sink = Taking::new(rt, alloc, front.len(), 1, fails);
    let error = WriteError::Write {
        taken: front.len() as u64,
    };
    takes(
        rt,
        alloc,
        certificate,
        &mut sink,
        (Err(error), front, calls),
    );
    drop(sink);
}

#[test]
fn each_call_the_last(rt: HostRuntime) {
    let certificate = spelled(&rt, rt.alloc(), SPELLED);
    for before in 0..TEXT.len() {
        let (front, _) = TEXT.split_at(before);
        for fails in [false, true] {
            stops_behind(&rt, rt.alloc(), &certificate, front, fails);
        }
    }
    drop(certificate);
}
