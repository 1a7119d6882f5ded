//! Each constructor once within its limits, and past those that are cheap to reach.
use super::{lengths, row_of, same};
use bstr::BString;
use std::alloc::Global;
use std::process::Abort;
use vipr_cert::{BadShape, Certificate, Claim, Derivation, Goal, Name, Named, Problem, Reason};
use vipr_frac::Frac;
use vipr_linear::{Constraint, Ints, Row, Sense, Solution};

fn name(rt: &impl Abort, alloc: Global, bytes: &[u8]) -> Name {
    let bytes = BString::from_slice(alloc, bytes).expect(rt, "bytes");
    Name::new(bytes).expect(rt, "a name")
}

// The row with the coefficient 1 at a variable.
fn row(rt: &impl Abort, alloc: Global, variable: u32) -> Row {
    row_of(rt, alloc, only(rt, alloc, (variable, Frac::one())))
}

// That the variable is at least 1.
fn at_least_one(rt: &impl Abort, alloc: Global, variable: u32) -> Constraint {
    Constraint {
        row: row(rt, alloc, variable),
        sense: Sense::G,
        rhs: Frac::one(),
    }
}

fn named<T: Drop>(rt: &impl Abort, alloc: Global, bytes: &[u8], item: T) -> Named<T> {
    Named {
        name: name(rt, alloc, bytes),
        item,
    }
}

fn only<T: Drop>(rt: &impl Abort, alloc: Global, item: T) -> Vec<T> {
    let mut list = Vec::new(alloc);
    list.push(item).expect(rt, "a list");
    list
}

fn two_names(rt: &impl Abort, alloc: Global) -> Vec<Name> {
    let mut names = only(rt, alloc, name(rt, alloc, b"x"));
    names.push(name(rt, alloc, b"y")).expect(rt, "names");
    names
}

fn one_constraint(rt: &impl Abort, alloc: Global, variable: u32) -> Vec<Named<Constraint>> {
    let stated = at_least_one(rt, alloc, variable);
    only(rt, alloc, named(rt, alloc, b"C0", stated))
}

// A problem over two variables.
fn problem(
    rt: &impl Abort,
    alloc: Global,
    integer: u32,
    objective: u32,
    constrained: u32,
) -> Result<Problem, BadShape> {
    let ints = Ints::from_indices(alloc, only(rt, alloc, integer)).expect(rt, "indices");
    let objective = row(rt, alloc, objective);
    let names = two_names(rt, alloc);
    let cons = one_constraint(rt, alloc, constrained);
    let claim = Claim::Range(None, Some(Frac::one()));
    Problem::new(names, ints, Goal::Max, objective, cons, 1, claim)
}

// The problem whose variables are all the same.
fn problem_at(rt: &impl Abort, alloc: Global, variable: u32) -> Problem {
    problem(rt, alloc, variable, variable, variable).expect(rt, "a problem")
}

fn is_made<T: Drop, E: Drop>(made: Result<T, E>) -> bool {
    made.is_ok()
}

fn fits(rt: &impl Abort, alloc: Global, integer: u32, objective: u32, constrained: u32) -> bool {
    is_made(problem(rt, alloc, integer, objective, constrained))
}

fn one_solution(rt: &impl Abort, alloc: Global, variable: u32) -> Vec<Named<Solution>> {
    let solution = Solution(row(rt, alloc, variable));
    only(rt, alloc, named(rt, alloc, b"S", solution))
}

fn one_derivation(
    rt: &impl Abort,
    alloc: Global,
    variable: u32,
    reason: Reason,
) -> Vec<Derivation> {
    let derivation = Derivation {
        name: name(rt, alloc, b"C1"),
        constraint: at_least_one(rt, alloc, variable),
        reason,
        last: None,
    };
    only(rt, alloc, derivation)
}

// A certificate over two variables, with one constraint and one derivation.
fn certificate(
    rt: &impl Abort,
    alloc: Global,
    solved: u32,
    derived: u32,
    reason: Reason,
) -> Result<Certificate, BadShape> {
    let derivations = one_derivation(rt, alloc, derived, reason);
    let solutions = one_solution(rt, alloc, solved);
    let problem = problem_at(rt, alloc, 0);
    Certificate::new(problem, solutions, derivations)
}

// The certificate whose solution and derivation are of the second variable.
fn certificate_by(rt: &impl Abort, alloc: Global, reason: Reason) -> Certificate {
    certificate(rt, alloc, 1, 1, reason).expect(rt, "a certificate")
}

fn has_shape(rt: &impl Abort, alloc: Global, solved: u32, derived: u32) -> bool {
    is_made(certificate(rt, alloc, solved, derived, Reason::Asm))
}

fn is_name(bytes: Vec<u8>) -> bool {
    is_made(Name::new(BString::new(bytes)))
}

fn has_length(rt: &impl Abort, alloc: Global, len: usize) -> bool {
    is_name(vec![in alloc; b'x'; len].expect(rt, "bytes"))
}

fn may_have(rt: &impl Abort, alloc: Global, byte: u8) -> bool {
    is_name(vec![in alloc; b'x', byte].expect(rt, "bytes"))
}

fn is_kept(rt: &impl Abort, alloc: Global) {
    let token = name(rt, alloc, b"x#1");
    same(rt, token.as_bytes(), b"x#1".as_slice());
    let again = Name::of_token(alloc, token.as_bytes()).expect(rt, "a name");
    same(rt, again.as_bytes(), b"x#1".as_slice());
    drop((token, again));
}

#[test]
fn names(rt: HostRuntime) {
    let alloc = rt.alloc();
    for (len, fits) in [(0, false), (1, true), (65_535, true), (65_536, false)] {
        same(&rt, (len, has_length(&rt, alloc, len)), (len, fits));
    }
    for (byte, fits) in [
        (0, true),
        (8, true),
        (9, false),
        (13, false),
        (14, true),
        (32, false),
        (33, true),
        (255, true),
    ] {
        same(&rt, (byte, may_have(&rt, alloc, byte)), (byte, fits));
    }
    is_kept(&rt, alloc);
}

#[test]
fn problems(rt: HostRuntime) {
    for (integer, objective, constrained, wanted) in [
        (2, 1, 1, false),
        (1, 2, 1, false),
        (1, 1, 2, false),
        (1, 1, 1, true),
    ] {
        let fit = fits(&rt, rt.alloc(), integer, objective, constrained);
        same(&rt, fit, wanted);
    }
}

// The parts of the problem whose variables are all the second.
fn has_its_lists(rt: &impl Abort, found: &Problem) {
    same(rt, found.names().len(), 2);
    same(rt, found.ints().indices(), [1].as_slice());
    same(rt, found.cons().len(), 1);
    same(rt, found.bound_count(), 1);
}

fn has_its_aim(rt: &impl Abort, found: &Problem) {
    same(rt, found.sense(), Goal::Max);
    same(
        rt,
        found.objective().entries(),
        [(1, Frac::one())].as_slice(),
    );
    let claim = found.claim();
    assert!(rt; matches!(claim, Claim::Range(None, Some(upper)) if upper == Frac::one()));
}

#[test]
fn problems_have_their_parts(rt: HostRuntime) {
    let found = problem_at(&rt, rt.alloc(), 1);
    has_its_lists(&rt, &found);
    has_its_aim(&rt, &found);
    drop(found);
}

#[test]
fn certificates(rt: HostRuntime) {
    for (solved, derived, wanted) in [(2, 1, false), (1, 2, false), (1, 1, true)] {
        same(&rt, has_shape(&rt, rt.alloc(), solved, derived), wanted);
    }
}

#[test]
fn certificates_have_their_parts(rt: HostRuntime) {
    let found = certificate_by(&rt, rt.alloc(), Reason::Asm);
    same(&rt, lengths(&found), [2, 1, 1, 1, 1]);
    drop(found);
}

// Whether all that the only derivation refers to comes before it.
fn refers_back(rt: &impl Abort, alloc: Global, reason: Reason) -> bool {
    let certificate = certificate_by(rt, alloc, reason);
    let back = certificate.refers_back();
    drop(certificate);
    back
}

fn sum_refers_back(rt: &impl Abort, alloc: Global, index: u32) -> bool {
    let of_sum = Reason::Lin(only(rt, alloc, (index, Frac::one())));
    refers_back(rt, alloc, of_sum)
}

fn united_refers_back(rt: &impl Abort, alloc: Global, index: u32) -> bool {
    let united = Reason::Uns {
        i1: 0,
        l1: 0,
        i2: 0,
        l2: index,
    };
    refers_back(rt, alloc, united)
}

#[test]
fn references(rt: HostRuntime) {
    let alloc = rt.alloc();
    assert!(rt; refers_back(&rt, alloc, Reason::Asm));
    for (index, back) in [(0, true), (1, false)] {
        let of_sum = sum_refers_back(&rt, alloc, index);
        let united = united_refers_back(&rt, alloc, index);
        same(&rt, (index, of_sum, united), (index, back, back));
    }
}
