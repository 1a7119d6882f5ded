//! The parts of certificates.
ghost use Rattle.std.specs.Prelude.{◌≡◌, ◌≤◌, length};
ghost use Rattle.vipr_spec.specs.{Certificate.reason_references, Reading.most_bytes};
ghost use Rattle.vipr_cert.specs.Items.{reason_of, derivation_of, blank};
ghost use Rattle.vipr_cert.specs.Reasons.{reason_word, references_of};

use crate::name::Name;
use std::alloc::Global;
use vipr_frac::Frac;
use vipr_linear::{Constraint, Row, Sense};

/// Something with its name.
#[derive(Debug, Drop)]
pub struct Named<T> {
    pub name: Name,
    pub item: T,
}

/// What a certificate claims.
#[derive(Clone, Copy, Debug)]
pub enum Claim {
    /// No point is feasible.
    Infeas,
    /// A lower and an upper bound of the objective, `None` if it is infinite. Under `Goal::Min`
    /// the lower one is the dual bound and the upper one the primal bound, under `Goal::Max` the
    /// other way round.
    Range(Option<Frac>, Option<Frac>),
}

/// Whether the objective is to be small or large.
#[derive(Clone, Copy, Debug, PartialEq, Eq)]
pub enum Goal {
    Min,
    Max,
}

/// Why a derived constraint holds.
#[derive(Clone, Debug, Drop)]
pub enum Reason {
    /// It is an assumption.
    Asm,
    /// The sum of constraints by index, each times its multiplier, dominates it.
    Lin(Vec<(u32, Frac)>),
    /// That sum, rounded, dominates it.
    Rnd(Vec<(u32, Frac)>),
    /// The constraints `i1` and `i2` dominate it, and the assumptions `l1` and `l2` split.
    Uns { i1: u32, l1: u32, i2: u32, l2: u32 },
    /// The cutoff at the best listed solution dominates it.
    Sol,
}

/// What a reason names, in the order of its text.
#[derive(Clone, Copy, Debug)]
pub enum References<'a> {
    Nothing,
    /// The entries of a sum, those with multiplier 0 included.
    Entries(&'a [(u32, Frac)]),
    /// The conclusions of two branches, each with its assumption behind it.
    Branches { i1: u32, l1: u32, i2: u32, l2: u32 },
}

impl Reason {
    /// The word of its rule, as a text has it behind `{`.
    pub fn word(&self) -> &'static str
        ensures word { result.now ≡ reason_word (reason_of self.now) }
        ensures short { length result.now ≤ most_bytes }
    {
        match self {
            Reason::Asm => "asm",
            Reason::Lin(_) => "lin",
            Reason::Rnd(_) => "rnd",
            Reason::Uns { .. } => "uns",
            Reason::Sol => "sol",
        }
    }

    /// What it names.
    pub fn references(&self) -> References<'_>
        ensures { references_of result ≡ reason_references (reason_of self.now) }
    {
        match self {
            Reason::Asm | Reason::Sol => References::Nothing,
            Reason::Lin(entries) | Reason::Rnd(entries) => References::Entries(entries),
            Reason::Uns { i1, l1, i2, l2 } => References::Branches {
                i1: *i1,
                l1: *l1,
                i2: *i2,
                l2: *l2,
            },
        }
    }
}

/// A constraint that is derived from earlier ones.
#[derive(Debug, Drop)]
pub struct Derivation {
    pub name: Name,
    pub constraint: Constraint,
    pub reason: Reason,
    /// The last derivation that refers to it by index, `None` if it is never dropped.
    pub last: Option<u32>,
}

impl Derivation {
    /// The assumption 0 = 0 by the name `-`, in whose place others can be read. It takes no memory.
    pub fn blank(alloc: Global) -> Derivation
        ensures { derivation_of result ≡ blank }
    {
        Derivation {
            name: Name::blank(),
            constraint: Constraint {
                row: Row::of_one(alloc, 0, Frac::zero()),
                sense: Sense::E,
                rhs: Frac::zero(),
            },
            reason: Reason::Asm,
            last: None,
        }
    }
}
