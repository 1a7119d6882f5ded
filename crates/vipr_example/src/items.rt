//! Reads a certificate item by item.
ghost use Rattle.std.specs.Prelude.{◌≢◌, IfErr};

use std::alloc::Global;
use vipr_lib::{Bytes, CertReader, Problem, Reason, TextError};

/// The items of a certificate.
#[derive(Clone, Copy, Debug, Default, PartialEq, Eq)]
pub struct Counts {
    pub variables: usize,
    pub constraints: usize,
    pub solutions: u64,
    pub assumptions: u64,
    /// Derivations by `lin` and by `rnd`, and the entries of both.
    pub sums: u64,
    pub entries: u64,
    /// Derivations by `uns`.
    pub branchings: u64,
    /// Derivations by `sol`.
    pub cutoffs: u64,
}

/// Counts the items of a certificate. No more of it is held than one item and the problem, and
/// whether it is a proof isn't tested.
///
/// # Errors
///
/// Those of the readers, but `Spent`: no reader is asked again after an error.
pub fn count_items(alloc: Global, text: &[u8]) -> Result<Counts, TextError>
    ensures { IfErr result (λ error. error ≢ TextError.Spent) }
{
    let reader = CertReader::new(alloc, Bytes::new(text))?;
    let (problem, mut solutions) = reader.read_problem(alloc)?;
    let mut counts = Counts::of_problem(&problem);
    drop(problem);
    while let Some(_solution) = solutions.next(alloc)? {
        counts.solutions = counts.solutions.saturating_add(1);
    }
    let mut derivations = solutions.finish()?;
    while let Some(derivation) = derivations.next(alloc)? {
        counts.count(&derivation.reason);
    }
    Ok(counts)
}

impl Counts {
    // The counts before any item is read.
    fn of_problem(problem: &Problem) -> Counts {
        Counts {
            variables: problem.names().len(),
            constraints: problem.cons().len(),
            ..Counts::default()
        }
    }

    // Counts a derivation with this reason.
    fn count(&mut self, reason: &Reason) {
        let counter = match reason {
            Reason::Asm => &mut self.assumptions,
            Reason::Lin(entries) | Reason::Rnd(entries) => {
                self.entries = self.entries.saturating_add(entries.len() as u64);
                &mut self.sums
            }
            Reason::Uns { .. } => &mut self.branchings,
            Reason::Sol => &mut self.cutoffs,
        };
        *counter = counter.saturating_add(1);
    }
}
