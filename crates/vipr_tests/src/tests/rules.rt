use super::check::problem_of;
use super::{fraction, row_of, same, spelled};
use std::alloc::Global;
use std::process::Abort;
use vipr_cert::Problem;
use vipr_frac::Frac;
use vipr_linear::{Combination, Constraint, Sense, Solution};
use vipr_rules::{
    Assumptions, Columns, Entry, KeepAll, LiveOnly, Rows, SolutionError, apply, test_solution,
    test_solution_by_columns,
};

fn entry(rt: &impl Abort, alloc: Global, last: Option<u32>, is_assumption: bool) -> Entry {
    Entry {
        constraint: Constraint {
            row: row_of(rt, alloc, Vec::new(alloc)),
            sense: Sense::G,
            rhs: Frac::one(),
        },
        assumptions: Assumptions::empty(alloc),
        is_assumption,
        last,
    }
}

/// A derivation: its last reference, whether it is an assumption, and how many entries are held
/// once it is placed.
type Placed = (Option<u32>, bool, usize);

fn place<S: Rows>(
    rt: &impl Abort,
    alloc: Global,
    rows: &mut S,
    last: Option<u32>,
    is_assumption: bool,
) {
    rows.advance();
    assert!(rt; rows.next() < 100);
    let put = rows.put(entry(rt, alloc, last, is_assumption));
    put.ok().expect(rt, "out of memory");
}

// The table after these derivations, the first with the index 2.
fn placed<S: Rows>(rt: &impl Abort, alloc: Global, derivations: &[Placed]) -> S {
    let mut rows = S::new(alloc, 2);
    for (last, is_assumption, held) in derivations {
        place(rt, alloc, &mut rows, *last, *is_assumption);
        same(rt, rows.held(), *held);
    }
    rows
}

fn has<S: Rows>(rt: &impl Abort, rows: &S, index: u32, wanted: bool) {
    same(rt, rows.get(index).is_some(), wanted);
}

const BOTH_BRANCHES: [Placed; 5] = [
    (Some(6), true, 1),
    (Some(6), true, 2),
    (Some(6), false, 3),
    (Some(6), false, 4),
    (None, false, 3),
];

// Two assumptions, a constraint from each, and one that rests on neither.
fn both_branches<S: Rows>(rt: &impl Abort, alloc: Global) {
    let rows = placed::<S>(rt, alloc, &BOTH_BRANCHES);
    for (index, wanted) in [(2, true), (4, false), (6, true)] {
        has(rt, &rows, index, wanted);
    }
    drop(rows);
}

const DROPPED: [Placed; 3] = [
    (Some(4), false, 1),
    (Some(4), false, 2),
    (Some(4), false, 1),
];

// Constraints that the third derivation may refer to and the next one may not, the third itself
// among them.
fn dropped<S: Rows>(rt: &impl Abort, alloc: Global) {
    let rows = placed::<S>(rt, alloc, &DROPPED);
    for index in [2, 4, 5] {
        has(rt, &rows, index, false);
    }
    drop(rows);
}

#[test]
fn live_only(rt: HostRuntime) {
    both_branches::<LiveOnly>(&rt, rt.alloc());
    dropped::<LiveOnly>(&rt, rt.alloc());
}

#[test]
fn keep_all(rt: HostRuntime) {
    both_branches::<KeepAll>(&rt, rt.alloc());
    dropped::<KeepAll>(&rt, rt.alloc());
}

fn single(rt: &impl Abort, alloc: Global, index: u32) -> Assumptions {
    Assumptions::single(alloc, index).expect(rt, "one index")
}

fn union(rt: &impl Abort, alloc: Global, left: &Assumptions, right: &Assumptions) -> Assumptions {
    left.union(alloc, right).expect(rt, "a union")
}

fn without(rt: &impl Abort, alloc: Global, set: &Assumptions, index: u32) -> Assumptions {
    set.without(alloc, index).expect(rt, "what is left")
}

fn united(rt: &impl Abort, alloc: Global) -> Assumptions {
    let (two, five) = (single(rt, alloc, 2), single(rt, alloc, 5));
    let both = union(rt, alloc, &five, &two);
    let none = Assumptions::empty(alloc);
    let united = union(rt, alloc, &both, &none);
    drop((two, five, both, none));
    united
}

fn without_five(rt: &impl Abort, alloc: Global) -> Assumptions {
    let both = united(rt, alloc);
    let twice = union(rt, alloc, &both, &both);
    let left = without(rt, alloc, &twice, 5);
    drop((both, twice));
    left
}

fn without_both(rt: &impl Abort, alloc: Global) -> Assumptions {
    let two = without_five(rt, alloc);
    let left = without(rt, alloc, &two, 2);
    drop(two);
    left
}

// Which of 2, 3 and 5 it contains, and whether it is empty.
fn seen(set: &Assumptions) -> ([bool; 3], bool) {
    (
        [set.contains(2), set.contains(3), set.contains(5)],
        set.is_empty(),
    )
}

fn sees(rt: &impl Abort, set: Assumptions, wanted: ([bool; 3], bool)) {
    same(rt, seen(&set), wanted);
    drop(set);
}

#[test]
fn sets(rt: HostRuntime) {
    let alloc = rt.alloc();
    let none = ([false, false, false], true);
    sees(&rt, Assumptions::empty(alloc), none);
    sees(&rt, united(&rt, alloc), ([true, false, true], false));
    sees(&rt, without_five(&rt, alloc), ([true, false, false], false));
    sees(&rt, without_both(&rt, alloc), none);
}

// What is found of the solution with these two values.
fn found(
    rt: &impl Abort,
    alloc: Global,
    problem: &Problem,
    x: Frac,
    y: Frac,
) -> Result<Frac, SolutionError> {
    let mut scratch = Combination::new(alloc, problem.names().len() as u32).expect(rt, "a sum");
    let values = vec![in alloc; (0, x), (1, y)].expect(rt, "values");
    let solution = Solution(row_of(rt, alloc, values));
    let found = test_solution(problem, &mut scratch, &solution);
    drop((scratch, solution));
    found
}

fn not_whole(value: Frac) -> SolutionError {
    SolutionError::NotWhole { variable: 0, value }
}

fn breaks(left: Frac) -> SolutionError {
    SolutionError::Breaks {
        constraint: 0,
        left,
        sense: Sense::G,
        right: Frac::one(),
    }
}

// Of two variables the first is to be whole and at least 1, and their sum is to be small.
const SMALL_SUM: &[u8] = b"VER 1.0 VAR 2 x y INT 1 0 OBJ min 2 0 1 1 1 CON 1 0 a G 1 1 0 1
    RTP infeas SOL 0 DER 0";

#[test]
fn solutions(rt: HostRuntime) {
    let alloc = rt.alloc();
    let one = Frac::one();
    let half = fraction(&rt, (1, 2));
    let sum = fraction(&rt, (3, 2));
    let large = fraction(&rt, (i128::MAX, 1));
    let problem = problem_of(&rt, alloc, SMALL_SUM);
    for (x, y, wanted) in [
        (one, half, Ok(sum)),
        (half, half, Err(not_whole(half))),
        (Frac::zero(), half, Err(breaks(Frac::zero()))),
        (one, large, Err(SolutionError::Overflow(None))),
    ] {
        same(&rt, found(&rt, alloc, &problem, x, y), wanted);
    }
    drop(problem);
}

// Rows and columns give the same answer, also columns that were used before.
fn agree_at(rt: &impl Abort, alloc: Global, problem: &Problem, solution: &Solution) {
    let mut scratch = Combination::new(alloc, problem.names().len() as u32).expect(rt, "a sum");
    let mut columns = Columns::of(alloc, problem).expect(rt, "out of memory");
    let by_rows = test_solution(problem, &mut scratch, solution);
    let first = test_solution_by_columns(problem, &mut columns, &mut scratch, solution);
    let second = test_solution_by_columns(problem, &mut columns, &mut scratch, solution);
    assert!(rt; first == by_rows);
    assert!(rt; second == by_rows);
    drop((scratch, columns));
}

// Numerators, and the denominator of all.
const POINTS: [([i128; 3], i128); 9] = [
    ([0, 0, 0], 1),
    ([1, 0, 0], 1),
    ([0, 0, 1], 1),
    ([1, 0, 1], 1),
    ([2, 2, 0], 2),
    ([1, 1, 1], 2),
    ([2, -1, 1], 1),
    ([0, 2, -1], 1),
    ([-1, 1, 3], 1),
];

fn point(rt: &impl Abort, alloc: Global, numbers: [i128; 3], denominator: i128) -> Solution {
    let [x, y, z] = numbers;
    let values = [
        (0, fraction(rt, (x, denominator))),
        (1, fraction(rt, (y, denominator))),
        (2, fraction(rt, (z, denominator))),
    ];
    let values = Vec::from_array(alloc, values).expect(rt, "values");
    Solution(row_of(rt, alloc, values))
}

fn agree(rt: &impl Abort, alloc: Global, text: &[u8]) {
    let problem = problem_of(rt, alloc, text);
    for (numbers, denominator) in &POINTS {
        let solution = point(rt, alloc, *numbers, *denominator);
        agree_at(rt, alloc, &problem, &solution);
        drop(solution);
    }
    drop(problem);
}

// Of three variables the first is to be whole, and the sum of the others small.
const PROBLEMS: [&[u8]; 5] = [
    b"VER 1.0 VAR 3 x y z INT 1 0 OBJ min 2 1 1 2 1 CON 0 0 RTP infeas SOL 0 DER 0",
    b"VER 1.0 VAR 3 x y z INT 1 0 OBJ min 2 1 1 2 1 CON 1 0 a G 1 1 0 1 RTP infeas SOL 0 DER 0",
    b"VER 1.0 VAR 3 x y z INT 1 0 OBJ min 2 1 1 2 1
    CON 3 0 a L 2 2 1 1 2 1 b G 0 2 0 1 2 -1 c L 0 0 RTP infeas SOL 0 DER 0",
    b"VER 1.0 VAR 3 x y z INT 1 0 OBJ min 2 1 1 2 1
    CON 2 0 a G 0 3 0 170141183460469231731687303715884105727 1 1
    2 -170141183460469231731687303715884105727 b E 1 0 RTP infeas SOL 0 DER 0",
    b"VER 1.0 VAR 3 x y z INT 1 0 OBJ min 2 1 1 2 1
    CON 3 0 a L 1 1 0 1 b G -5 2 0 170141183460469231731687303715884105727
    1 170141183460469231731687303715884105727 c E 1 1 2 1 RTP infeas SOL 0 DER 0",
];

#[test]
fn columns_and_rows_agree(rt: HostRuntime) {
    for text in &PROBLEMS {
        agree(&rt, rt.alloc(), text);
    }
}

// Twice a constraint, and a stronger one.
const TWICE: &[u8] = b"VER 1.0 VAR 1 x INT 0 OBJ min 0 CON 1 0 a G 1 1 0 1 RTP range -inf inf
    SOL 0 DER 1 b G 2 1 0 2 { lin 1 0 2 } -1";

const MORE_THAN_TWICE: &[u8] = b"VER 1.0 VAR 1 x INT 0 OBJ min 0 CON 1 0 a G 1 1 0 1
    RTP range -inf inf SOL 0 DER 1 b G 3 1 0 2 { lin 1 0 2 } -1";

// Whether the first derivation of a text follows from its problem.
fn follows(rt: &impl Abort, alloc: Global, text: &[u8]) -> bool {
    let certificate = spelled(rt, alloc, text);
    let problem = certificate.problem();
    let mut scratch = Combination::new(alloc, problem.names().len() as u32).expect(rt, "a sum");
    let rows = KeepAll::new(alloc, problem.cons().len() as u32);
    let step = certificate.derivations().first().expect(rt, "a step");
    let answer = apply(alloc, problem, None, &rows, &mut scratch, step);
    let follows = answer.is_ok();
    drop((answer, certificate, scratch, rows));
    follows
}

#[test]
fn a_derivation_from_the_problem(rt: HostRuntime) {
    for (text, wanted) in [(TWICE, true), (MORE_THAN_TWICE, false)] {
        same(&rt, follows(&rt, rt.alloc(), text), wanted);
    }
}
