//! Values from outside: which constraints dominate, which split or cover, and each call once with
//! ample memory.
ghost use Rattle.std.specs.Prelude.{◌≡◌, length};

use self::Asked::{Covers, Dominates, DominatesRounded, Splits};
use super::{fraction, row_of, same};
use std::alloc::Global;
use std::process::Abort;
use vipr_frac::Frac;
use vipr_linear::Sense::{E, G, L};
use vipr_linear::{
    CombError, Combination, Constraint, Ints, Rounded, Row, RowError, Sense, Solution, covers,
    holds_at, is_split, is_whole_row, value_at,
};

const MOST: i128 = i128::MAX;

fn row(rt: &impl Abort, alloc: Global, pairs: &[(u32, i128)]) -> Row {
    let mut entries = Vec::new(alloc);
    for (variable, coefficient) in pairs {
        let entry = (*variable, fraction(rt, (*coefficient, 1)));
        entries.push(entry).expect(rt, "entries");
    }
    row_of(rt, alloc, entries)
}

// A constraint of the first variable: its coefficient, the sense, and the right-hand side `p` over
// `q`.
type Bound = (i128, Sense, i128, i128);

fn bound(rt: &impl Abort, alloc: Global, stated: Bound) -> Constraint {
    let (coefficient, sense, p, q) = stated;
    Constraint {
        row: row(rt, alloc, &[(0, coefficient)]),
        sense,
        rhs: fraction(rt, (p, q)),
    }
}

// What is asked of two constraints.
#[derive(Clone, Copy)]
enum Asked {
    Dominates,
    DominatesRounded,
    Splits,
    Covers,
}

fn answer(asked: Asked, left: &Constraint, right: &Constraint, ints: &Ints) -> bool {
    match asked {
        Dominates => left.dominates(right),
        DominatesRounded => left.dominates_rounded(right),
        Splits => is_split(left, right, ints),
        Covers => covers(left, right, ints),
    }
}

fn ask(
    rt: &impl Abort,
    alloc: Global,
    ints: &Ints,
    asked: Asked,
    left: Bound,
    right: Bound,
) -> bool {
    let left = bound(rt, alloc, left);
    let right = bound(rt, alloc, right);
    let answer = answer(asked, &left, &right, ints);
    drop((left, right));
    answer
}

const ANSWERS: [(Asked, Bound, Bound, bool); 22] = [
    (Dominates, (0, G, 1, 1), (1, L, -5, 1), true),
    (Dominates, (1, E, 3, 1), (1, G, 3, 1), true),
    (Dominates, (1, E, 3, 1), (1, L, 2, 1), false),
    (Dominates, (0, E, 0, 1), (0, G, -1, 1), true),
    (Dominates, (2, G, 6, 1), (1, G, 3, 1), false),
    (DominatesRounded, (1, G, 1, 2), (1, G, 1, 1), true),
    (DominatesRounded, (1, G, 1, 2), (1, G, 2, 1), false),
    (DominatesRounded, (1, E, 1, 2), (1, L, -7, 1), true),
    (Splits, (1, L, 0, 1), (1, G, 1, 1), true),
    (Splits, (1, G, 1, 1), (1, L, 0, 1), true),
    (Splits, (1, L, 0, 1), (1, G, 2, 1), false),
    (Splits, (1, L, MOST, 1), (1, G, MOST, 1), false),
    (Covers, (1, L, 1, 1), (1, G, 0, 1), true),
    (Covers, (1, G, 0, 1), (1, L, 1, 1), true),
    (Covers, (1, L, MOST, 1), (1, G, MOST, 1), true),
    (Covers, (1, L, -MOST, 1), (1, G, -MOST, 1), true),
    (Covers, (1, L, -1, 2), (1, G, -1, 2), true),
    (Covers, (1, L, 1, 4), (1, G, 3, 4), true),
    (Covers, (1, L, 1, 2), (1, G, 3, 2), false),
    (Covers, (1, L, 0, 1), (1, G, 2, 1), false),
    (Covers, (1, L, 0, 1), (1, L, 1, 1), false),
    (Covers, (1, L, -MOST, 1), (1, G, MOST, 1), false),
];

fn whole(rt: &impl Abort, alloc: Global, indices: &[u32]) -> Ints {
    let indices = indices.to_vec(alloc).expect(rt, "indices");
    Ints::from_indices(alloc, indices).expect(rt, "whole variables")
}

#[test]
fn two_constraints(rt: HostRuntime) {
    let ints = whole(&rt, rt.alloc(), &[0, 0]);
    for (asked, left, right, wanted) in &ANSWERS {
        let found = ask(&rt, rt.alloc(), &ints, *asked, *left, *right);
        same(&rt, found, *wanted);
    }
    drop(ints);
}

#[test]
fn not_covered_unless_whole(rt: HostRuntime) {
    let ints = whole(&rt, rt.alloc(), &[]);
    let (left, right) = ((1, L, 1, 1), (1, G, 0, 1));
    let found = ask(&rt, rt.alloc(), &ints, Covers, left, right);
    drop(ints);
    same(&rt, found, false);
}

fn is_absurd(rt: &impl Abort, alloc: Global, stated: Bound) -> bool {
    let bound = bound(rt, alloc, stated);
    let absurd = bound.is_absurd();
    drop(bound);
    absurd
}

#[test]
fn absurd_ones(rt: HostRuntime) {
    for (sense, rhs, wanted) in [(G, 1, true), (E, 0, false)] {
        same(&rt, is_absurd(&rt, rt.alloc(), (0, sense, rhs, 1)), wanted);
    }
}

#[test]
fn whole_variables(rt: HostRuntime) {
    let ints = whole(&rt, rt.alloc(), &[0, 0]);
    assert!(rt; ints.contains(0));
    same(&rt, ints.indices(), [0].as_slice());
    drop(ints);
}

fn is_whole(rt: &impl Abort, alloc: Global, ints: &Ints, variable: u32) -> bool {
    let row = row(rt, alloc, &[(variable, 1)]);
    let whole = is_whole_row(&row, ints);
    drop(row);
    whole
}

#[test]
fn whole_rows(rt: HostRuntime) {
    let ints = whole(&rt, rt.alloc(), &[0, 0]);
    for (variable, wanted) in [(0, true), (1, false)] {
        same(&rt, is_whole(&rt, rt.alloc(), &ints, variable), wanted);
    }
    drop(ints);
}

#[test]
fn a_whole_row_is_remembered(rt: HostRuntime) {
    let alloc = rt.alloc();
    let mut ints = whole(&rt, alloc, &[0, 0]);
    let shared = row(&rt, alloc, &[(0, 1)]).shared(alloc);
    let shared = shared.expect(&rt, "a shared row");
    ints.remember(&shared).expect(&rt, "a row that is kept");
    let clone = shared.clone().expect(&rt, "a clone");
    assert!(rt; is_whole_row(&clone, &ints));
    assert!(rt; !is_whole(&rt, alloc, &ints, 1));
    drop((shared, clone, ints));
}

#[test]
fn rows(rt: HostRuntime) {
    let one = Frac::one();
    let sorted = row(&rt, rt.alloc(), &[(7, 1), (2, 0), (3, 1)]);
    same(&rt, sorted.entries(), [(3, one), (7, one)].as_slice());
    drop(sorted);
}

#[test]
fn repeated(rt: HostRuntime) {
    let alloc = rt.alloc();
    let one = Frac::one();
    let pairs = [(4, one), (1, one), (4, Frac::zero()), (1, one)];
    let pairs = Vec::from_array(alloc, pairs).expect(&rt, "pairs");
    let error = Row::from_pairs(alloc, pairs).err();
    same(&rt, error, Some(RowError::Repeated(4)));
}

// Adds to a sum over three variables, and compares the answer.
fn adds(
    rt: &impl Abort,
    sum: &mut Combination,
    constraint: &Constraint,
    multiplier: Frac,
    wanted: Result<(), CombError>,
)
    requires { length sum.old.sums ≡ 3 }
    ensures { length sum.new.sums ≡ 3 }
{
    assert!(rt; constraint.row.names_below(3), "a variable past the third");
    same(rt, sum.add(constraint, multiplier), wanted);
}

// Adds a constraint of the first variable to such a sum.
fn adds_bound(
    rt: &impl Abort,
    alloc: Global,
    sum: &mut Combination,
    stated: Bound,
    multiplier: Frac,
    wanted: Result<(), CombError>,
)
    requires { length sum.old.sums ≡ 3 }
    ensures { length sum.new.sums ≡ 3 }
{
    let added = bound(rt, alloc, stated);
    adds(rt, sum, &added, multiplier, wanted);
    drop(added);
}

// 2 times the third variable and 4 times the first are at least 3.
fn two_variables(rt: &impl Abort, alloc: Global) -> Constraint {
    Constraint {
        row: row(rt, alloc, &[(2, 2), (0, 4)]),
        sense: G,
        rhs: fraction(rt, (3, 1)),
    }
}

// The third variable is at least 1/2, as a sum of two constraints.
fn at_least_half(rt: &impl Abort, alloc: Global) -> Constraint {
    let mut sum = Combination::new(alloc, 3).expect(rt, "a sum");
    let half = fraction(rt, (1, 2));
    let first = two_variables(rt, alloc);
    adds(rt, &mut sum, &first, half, Ok(()));
    drop(first);
    let second = (2, L, 1, 1);
    adds_bound(rt, alloc, &mut sum, second, Frac::one().neg(), Ok(()));
    sum.finish(alloc).expect(rt, "a sum")
}

fn is_at_least_half(rt: &impl Abort, found: &Constraint, half: Frac) {
    same(rt, found.row.entries(), [(2, Frac::one())].as_slice());
    same(rt, found.sense, G);
    same(rt, found.rhs, half);
}

#[test]
fn sums(rt: HostRuntime) {
    let found = at_least_half(&rt, rt.alloc());
    is_at_least_half(&rt, &found, fraction(&rt, (1, 2)));
    drop(found);
}

// What a constraint is at a solution.
fn at(rt: &impl Abort, found: &Constraint, solution: &Solution) -> (Frac, bool) {
    let value = value_at(&found.row, solution).expect(rt, "a value");
    (value, holds_at(found, solution).expect(rt, "a value"))
}

#[test]
fn values_of_sums(rt: HostRuntime) {
    let found = at_least_half(&rt, rt.alloc());
    let solution = Solution(row(&rt, rt.alloc(), &[(2, 5)]));
    let five = fraction(&rt, (5, 1));
    same(&rt, at(&rt, &found, &solution), (five, true));
    drop((found, solution));
}

fn side(rounded: Rounded) -> Option<Frac> {
    match rounded {
        Rounded::Row(rounded) => Some(rounded.rhs),
        _ => None,
    }
}

fn rounded_side(rt: &impl Abort, alloc: Global, found: Constraint) -> Option<Frac> {
    let ints = whole(rt, alloc, &[2]);
    side(found.round(&ints).expect(rt, "a rounded one"))
}

#[test]
fn sums_are_rounded(rt: HostRuntime) {
    let found = at_least_half(&rt, rt.alloc());
    let side = rounded_side(&rt, rt.alloc(), found);
    same(&rt, side, Some(Frac::one()));
}

#[test]
fn mixed_signs(rt: HostRuntime) {
    let alloc = rt.alloc();
    let one = Frac::one();
    let mut sum = Combination::new(alloc, 3).expect(&rt, "a sum");
    adds_bound(&rt, alloc, &mut sum, (1, L, 0, 1), one, Ok(()));
    let least = (1, G, 1, 1);
    let mixed = Err(CombError::MixedSigns);
    adds_bound(&rt, alloc, &mut sum, least, one, mixed);
    let spent = Err(CombError::Spent);
    adds_bound(&rt, alloc, &mut sum, least, Frac::zero(), spent);
    sum.clear();
    let empty = sum.finish(alloc).expect(&rt, "no sum");
    assert!(rt; empty.row.is_empty());
    drop(empty);
}
