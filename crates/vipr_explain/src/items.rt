//! The problem of a text, its solutions and its derivations, which are read again.
ghost use Rattle.std.specs.Prelude.{◌≡◌, ◌≤◌, ◌+◌, OnOk};

use crate::text::Reread;
use std::alloc::Global;
use vipr_bytes::Bytes;
use vipr_cert::{Named, Problem};
use vipr_linear::Solution;
use vipr_read::{CertReader, Derivations, Solutions};
use vipr_scan::TextError;

/// The problem of a text, and a reader of what is behind it.
type Opened<L> = Reread<(Problem, L)>;

/// The problem, and a reader of the solutions.
pub(crate) fn open_problem(alloc: Global, text: &[u8]) -> Opened<Solutions<Bytes<'_>>> {
    let reader = CertReader::new(alloc, Bytes::new(text))?;
    Ok(reader.read_problem(alloc)?)
}

/// The problem, and a reader of the derivations.
pub(crate) fn open_derivations(alloc: Global, text: &[u8]) -> Opened<Derivations<Bytes<'_>>> {
    let (problem, mut solutions) = open_problem(alloc, text)?;
    let left = solutions.left();
    or_drop!(
        pass_solutions(alloc, &mut solutions, left),
        solutions,
        problem
    );
    let derivations = or_drop!(solutions.finish(), problem);
    Ok((problem, derivations))
}

// Reads so many solutions.
fn pass_solutions(alloc: Global, solutions: &mut Solutions<Bytes<'_>>, count: u32) -> Reread<()>
    requires { count ≤ solutions.old.left }
    ensures { OnOk result (solutions.new.left + count ≡ solutions.old.left) }
{
    for _ in 0..count {
        drop(solutions.next(alloc)?);
    }
    Ok(())
}

/// The problem, and the listed solution of this number.
pub(crate) fn read_solution(
    alloc: Global,
    text: &[u8],
    number: u32,
) -> Reread<(Problem, Named<Solution>)> {
    let (problem, mut solutions) = open_problem(alloc, text)?;
    let found = nth_solution(alloc, &mut solutions, number);
    drop(solutions);
    let solution = or_drop!(found, problem);
    Ok((problem, solution))
}

// The solution behind so many others.
fn nth_solution(
    alloc: Global,
    solutions: &mut Solutions<Bytes<'_>>,
    number: u32,
) -> Reread<Named<Solution>> {
    if number >= solutions.left() {
        return Err(TextError::Read);
    }
    pass_solutions(alloc, solutions, number)?;
    match solutions.next(alloc)? {
        Some(solution) => Ok(solution),
        None => Err(TextError::Read),
    }
}
