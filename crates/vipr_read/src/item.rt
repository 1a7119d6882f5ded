//! The items of a certificate whose problem is known: its listed solutions and its derivations.
ghost use Rattle.std.specs.Prelude.{◌≡◌, ℕ, map, length, All, IfOk};
ghost use Rattle.vipr_spec.specs.Constraint.{Row as RowMeant};
ghost use Rattle.vipr_spec.specs.Certificate.{Problem as ProblemMeant, variables as variables_in};
ghost use Rattle.vipr_spec.specs.Certificate.{Named as NamedMeant, Derivation as DerivationMeant};
ghost use Rattle.vipr_spec.specs.Reading.{Rest, Read, read_each, solution_read, derivation_read};
ghost use Rattle.vipr_spec.specs.Shape.{RowFits, SolutionShape, DerivationShape, DerivationFits};
ghost use Rattle.vipr_cert.specs.Items.{solution_of, derivation_of};
ghost use Rattle.vipr_read.specs.{Limits.CanWriteRow, Parsing.Parses, Parsing.Retains};

use crate::parser::Parser;
use crate::repeat::push_among;
use std::alloc::Global;
use vipr_cert::{Derivation, Named};
use vipr_linear::{Row, Solution};
use vipr_scan::{Scan, ScanError};

/// A kind of item, as a parser reads it if the problem is known.
pub(crate) trait ItemKind {
    type Value: Drop;

    /// What the definitions say that such an item is.
    ghost Meant: { Type 0 };

    ghost view: { Self.Value → Meant };

    ghost reading: { ProblemMeant → Rest → Read Meant };

    /// Each is within the limits, over so many variables.
    ghost shape: { ℕ → Meant → Type 0 };

    /// The numbers of each can be written.
    ghost fits: { Meant → Type 0 };

    fn parse<S: Scan>(
        &self,
        parser: &mut Parser<S>,
        alloc: Global,
        objective: &Row,
    ) -> Result<Self::Value, ScanError>
        requires objective { CanWriteRow parser.old.variables objective.now }
        ensures read { (p : ProblemMeant) → parser.old.variables ≡ variables_in p
            → objective.now ≡ p.objective → Parses view (reading p) parser.old parser.new result }
        ensures kept { Retains parser.old parser.new }
        ensures item { IfOk result
            (λ x. shape parser.old.variables (view x) × fits (view x)) };
}

/// Listed solutions.
pub(crate) struct Listed;

impl ItemKind for Listed {
    type Value = Named<Solution>;

    ghost Meant = { NamedMeant RowMeant };

    ghost view = { solution_of };

    ghost reading = { solution_read };

    ghost shape = { SolutionShape };

    ghost fits = { λ s. RowFits s.item };

    fn parse<S: Scan>(
        &self,
        parser: &mut Parser<S>,
        alloc: Global,
        _objective: &Row,
    ) -> Result<Named<Solution>, ScanError> {
        parser.solution(alloc)
    }
}

/// Derivations.
pub(crate) struct Derived;

impl ItemKind for Derived {
    type Value = Derivation;

    ghost Meant = { DerivationMeant };

    ghost view = { derivation_of };

    ghost reading = { derivation_read };

    ghost shape = { DerivationShape };

    ghost fits = { DerivationFits };

    fn parse<S: Scan>(
        &self,
        parser: &mut Parser<S>,
        alloc: Global,
        objective: &Row,
    ) -> Result<Derivation, ScanError> {
        parser.derivation(alloc, objective)
    }
}

/// So many items in a row.
pub(crate) fn all<S: Scan, I: ItemKind>(
    parser: &mut Parser<S>,
    alloc: Global,
    item: &I,
    objective: &Row,
    count: u32,
) -> Result<Vec<I::Value>, ScanError>
    requires objective { CanWriteRow parser.old.variables objective.now }
    ensures read { (p : ProblemMeant) → parser.old.variables ≡ variables_in p
        → objective.now ≡ p.objective → Parses (λ v. map I.view v.items)
        (read_each (I.reading p) count) parser.old parser.new result }
    ensures kept { Retains parser.old parser.new }
    ensures count { IfOk result (λ v. length v.items ≡ count) }
    ensures items { IfOk result (λ v. All (I.shape parser.old.variables) (map I.view v.items)
        × All I.fits (map I.view v.items)) }
{
    let mut items = Vec::new(alloc);
    for _ in 0..count {
        let next = item.parse(parser, alloc, objective)?;
        push_among(&mut items, next, count)?;
    }
    Ok(items)
}
