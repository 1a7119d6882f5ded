mod bytes;
mod cert;
mod check;
mod command;
mod example;
mod frac;
mod linear;
mod pieces;
mod read;
mod rules;
mod scan;
mod shared;
mod tighten;
mod write;

use std::alloc::Global;
use std::fmt::Debug;
use std::process::Abort;
use vipr_bytes::Bytes;
use vipr_cert::Certificate;
use vipr_frac::Frac;
use vipr_linear::Row;
use vipr_read::read_certificate;

/// What `assert_eq!` does, proved once for all its callers.
fn same<T: Debug + PartialEq + Drop>(rt: &impl Abort, found: T, wanted: T) {
    assert_eq!(rt; found, wanted);
}

/// Numerator and denominator.
type Parts = (i128, i128);

fn fraction(rt: &impl Abort, (p, q): Parts) -> Frac {
    Frac::new(p, q).expect(rt, "a fraction")
}

/// The row of these coefficients.
fn row_of(rt: &impl Abort, alloc: Global, pairs: Vec<(u32, Frac)>) -> Row {
    Row::from_pairs(alloc, pairs).expect(rt, "a row")
}

/// The certificate that a text spells.
fn spelled(rt: &impl Abort, alloc: Global, text: &[u8]) -> Certificate {
    read_certificate(alloc, Bytes::new(text)).expect(rt, "a certificate")
}

/// How many variables, whole variables, constraints, solutions and derivations there are.
fn lengths(certificate: &Certificate) -> [usize; 5] {
    let problem = certificate.problem();
    [
        problem.names().len(),
        problem.ints().indices().len(),
        problem.cons().len(),
        certificate.solutions().len(),
        certificate.derivations().len(),
    ]
}
