use super::{Parts, fraction, same};
use std::cmp::Ordering;
use std::hash::{DefaultHasher, Hash, Hasher};
use std::process::Abort;
use vipr_frac::{Frac, FracError, NumberError, Overflow, Partial};

const M: i128 = i128::MAX;

fn answer<E: Copy>(rt: &impl Abort, parts: Result<Parts, E>) -> Result<Frac, E> {
    match parts {
        Ok(parts) => Ok(fraction(rt, parts)),
        Err(error) => Err(error),
    }
}

fn hash(f: Frac) -> u64 {
    let mut hasher = DefaultHasher::new();
    f.hash(&mut hasher);
    hasher.finish()
}

#[test]
fn refused_parts(rt: HostRuntime) {
    for (p, q, wanted) in [
        (i128::MIN, 0, Err(FracError::Range)),
        (1, -1, Err(FracError::Range)),
        (1, 0, Err(FracError::ZeroDenominator)),
        (-M, M, Ok(Frac::one().neg())),
    ] {
        same(&rt, Frac::new(p, q), wanted);
    }
}

type Sum = Result<Parts, Overflow>;

fn sum_is(rt: &impl Abort, left: Parts, right: Parts, wanted: Sum) {
    let sum = fraction(rt, left).add(fraction(rt, right));
    same(rt, sum, answer(rt, wanted));
}

const SUMS: [(Parts, Parts, Sum); 6] = [
    ((1, 2), (1, 3), Ok((5, 6))),
    ((M, 2), (1, 2), Err(Overflow)),
    ((M, 1), (1, 1), Err(Overflow)),
    ((-M, 2), (-1, 2), Err(Overflow)),
    ((M, 2), (-1, 2), Ok((M / 2, 1))),
    ((-7, 12), (7, 12), Ok((0, 1))),
];

#[test]
fn sums(rt: HostRuntime) {
    for (left, right, wanted) in &SUMS {
        sum_is(&rt, *left, *right, *wanted);
    }
}

fn product_is(rt: &impl Abort, left: Parts, right: Parts, wanted: Sum) {
    let product = fraction(rt, left).mul(fraction(rt, right));
    same(rt, product, answer(rt, wanted));
}

const PRODUCTS: [(Parts, Parts, Sum); 4] = [
    ((M, 2), (2, 1), Ok((M, 1))),
    ((M, 1), (2, 1), Err(Overflow)),
    ((1, M), (1, 2), Err(Overflow)),
    ((-6, 35), (14, 15), Ok((-4, 25))),
];

#[test]
fn products(rt: HostRuntime) {
    for (left, right, wanted) in &PRODUCTS {
        product_is(&rt, *left, *right, *wanted);
    }
}

fn becomes(rt: &impl Abort, sum: &mut Partial, factors: (Parts, Parts), wanted: Sum) {
    let added = sum.add_product(fraction(rt, factors.0), fraction(rt, factors.1));
    match wanted {
        Ok(parts) => {
            same(rt, added, Ok(()));
            same(rt, sum.value(), fraction(rt, parts));
        }
        Err(error) => same(rt, added, Err(error)),
    }
}

const PARTIAL_SUMS: [(Parts, Parts, Sum); 8] = [
    ((1, 2), (1, 3), Ok((1, 6))),
    ((5, 1), (1, 12), Ok((7, 12))),
    ((-7, 12), (1, 1), Ok((0, 1))),
    ((M, 1), (1, 1), Ok((M, 1))),
    ((1, 1), (1, 1), Err(Overflow)),
    ((-M, 1), (1, 1), Ok((0, 1))),
    ((1, 6), (1, 10), Ok((1, 60))),
    ((1, 9), (1, 10), Ok((1, 36))),
];

#[test]
fn partial_sums(rt: HostRuntime) {
    let mut sum = Partial::zero();
    for (multiplier, coefficient, wanted) in &PARTIAL_SUMS {
        becomes(&rt, &mut sum, (*multiplier, *coefficient), *wanted);
    }
}

fn compares(rt: &impl Abort, left: Frac, right: Frac, wanted: Ordering) {
    same(rt, left.cmp(&right), wanted);
}

#[test]
fn order(rt: HostRuntime) {
    let high = fraction(&rt, (M, M - 1));
    let higher = fraction(&rt, (M - 1, M - 2));
    compares(&rt, high, higher, Ordering::Less);
    assert!(rt; high < higher);
    compares(&rt, high.neg(), higher.neg(), Ordering::Greater);
}

#[test]
fn equal_ones(rt: HostRuntime) {
    let half = fraction(&rt, (1, 2));
    let other = fraction(&rt, (2, 4));
    compares(&rt, other, half, Ordering::Equal);
    same(&rt, other, half);
    same(&rt, hash(other), hash(half));
}

fn rounds(rt: &impl Abort, (p, q): Parts, floor: i128, ceil: i128) {
    let f = fraction(rt, (p, q));
    let found = (f.floor(), f.ceil(), f.is_whole());
    same(rt, (p, q, found), (p, q, (floor, ceil, floor == ceil)));
}

#[test]
fn whole_numbers(rt: HostRuntime) {
    for (p, q, floor, ceil) in [(-1, 2, -1, 0), (7, 2, 3, 4), (-M, M, -1, -1), (8, 2, 4, 4)] {
        rounds(&rt, (p, q), floor, ceil);
    }
}

fn is_read(rt: &impl Abort, text: &str, wanted: Result<Parts, NumberError>) {
    let found = Frac::parse(text.as_bytes());
    same(rt, (text, found), (text, answer(rt, wanted)));
}

const TEXTS: [(&str, Result<Parts, NumberError>); 21] = [
    ("-006/4", Ok((-3, 2))),
    ("+17", Ok((17, 1))),
    ("0/7", Ok((0, 1))),
    ("999999999999999999", Ok((999_999_999_999_999_999, 1))),
    (
        "0000000000000000000000000000000000000000000012",
        Ok((12, 1)),
    ),
    ("-170141183460469231731687303715884105727", Ok((-M, 1))),
    ("1/170141183460469231731687303715884105727", Ok((1, M))),
    ("", Err(NumberError::Bad)),
    ("-", Err(NumberError::Bad)),
    ("+-1", Err(NumberError::Bad)),
    ("1/", Err(NumberError::Bad)),
    ("/2", Err(NumberError::Bad)),
    ("1/-2", Err(NumberError::Bad)),
    ("1/2/3", Err(NumberError::Bad)),
    ("1.5", Err(NumberError::Bad)),
    (
        "170141183460469231731687303715884105728x",
        Err(NumberError::Bad),
    ),
    (
        "170141183460469231731687303715884105728",
        Err(NumberError::TooLarge),
    ),
    (
        "170141183460469231731687303715884105728/0",
        Err(NumberError::TooLarge),
    ),
    (
        "1/340282366920938463463374607431768211457",
        Err(NumberError::TooLarge),
    ),
    ("1/0", Err(NumberError::ZeroDenominator)),
    ("0/0", Err(NumberError::ZeroDenominator)),
];

#[test]
fn read(rt: HostRuntime) {
    for (text, wanted) in &TEXTS {
        is_read(&rt, text, *wanted);
    }
}

fn append(rt: &impl Abort, out: &mut Vec<u8>, parts: Parts) {
    same(rt, fraction(rt, parts).write_to(out), Ok(()));
    out.push(b' ').expect(rt, "a space");
}

#[test]
fn written(rt: HostRuntime) {
    let mut out = Vec::new(rt.alloc());
    for parts in [(-6, 4), (0, 1), (-M, 1), (1, M)] {
        append(&rt, &mut out, parts);
    }
    same(
        &rt,
        out.as_slice(),
        b"-3/2 0 -170141183460469231731687303715884105727 1/170141183460469231731687303715884105727 ".as_slice(),
    );
}
