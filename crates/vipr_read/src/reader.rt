//! Readers of the items of a certificate, one by one.
//!
//! [`Solutions`] and [`Derivations`] read an item a call and keep none. Their contracts say that
//! the items are those of the text, and that an error is the text's first fault. After an error a
//! reader answers nothing but that it is spent.
ghost use Rattle.std.specs.Prelude.{◌≡◌, ◌↔◌, ◌^◌, ◌+◌, ◌<◌, true, false, Ok, IfOk, IfSome};
ghost use Rattle.std.specs.Prelude.{IsErrOf, IsSome, None, if◌then◌else◌};
ghost use Rattle.vipr_spec.specs.Certificate.{Problem as ProblemMeant};
ghost use Rattle.vipr_spec.specs.Reading.{solution_read, derivations_read, derivation_read};
ghost use Rattle.vipr_spec.specs.Reading.{end_read};
ghost use Rattle.vipr_spec.specs.Shape.{RowFits, SolutionShape, DerivationShape, DerivationFits};
ghost use Rattle.vipr_cert.specs.Items.{solution_of, derivation_of};
ghost use Rattle.vipr_scan.specs.Giving.{rest_of};
ghost use Rattle.vipr_read.specs.Items.{Items, Knows, Remembers, HasNone, HasEnded, Moves};
ghost use Rattle.vipr_read.specs.Items.{NextItem, GivesFrom, item_in};
ghost use Rattle.vipr_read.specs.{ItemsCode.items_code, Limits.CanWriteRow};

use crate::item::{ItemKind, Listed};
use crate::parser::{Parser, likely_bytes};
use std::alloc::Global;
use std::marker::Model;
use vipr_bytes::Source;
use vipr_cert::{Derivation, Named};
use vipr_linear::{Row, Solution};
use vipr_scan::{Scanner, TextError};

/// Reads items of either kind, if the problem is known.
#[derive(Drop)]
struct ItemReader<R: Source> {
    parser: Parser<Scanner<R>>,
    left: u32,
    constraints: u32,
    objective: Row,
    /// How many bytes at hand are worth a try to read a derivation from them alone.
    wanted: usize,
    /// Whether an error came.
    failed: bool,
}

impl<R: Source> Model for ItemReader<R> {
    ghost Value = { Items };

    ghost coded = { items_code };

    ghost view = { λ r. record {
      failed = r.failed;
      rest = if r.failed then None else r.parser.rest;
      left = r.left;
      variables = r.parser.variables;
      constraints = r.constraints;
      objective = r.objective;
    } };

    ghost invariant = { λ r. CanWriteRow r.parser.variables r.objective };
}

impl<R: Source> ItemReader<R> {
    /// The next item, or `None` if no item is to come; nothing is read then.
    fn next<I: ItemKind>(&mut self, alloc: Global, item: &I) -> Result<Option<I::Value>, TextError>
        ensures spent { IsErrOf result TextError.Spent ↔ (self.old.failed ≡ true) }
        ensures moves { Moves HasNone self.old self.new result }
        ensures item { IfOk result (λ o. IfSome o
            (λ x. I.shape self.old.variables (I.view x) × I.fits (I.view x))) }
        ensures read { (p : ProblemMeant) → Knows self.old p
            → NextItem I.view (I.reading p) (λ _. Ok tt) self.old self.new result }
    {
        if self.failed {
            return Err(TextError::Spent);
        }
        if self.left == 0 {
            return Ok(None);
        }
        match item.parse(&mut self.parser, alloc, &self.objective) {
            Ok(next) => {
                self.left -= 1;
                Ok(Some(next))
            }
            Err(stop) => {
                self.failed = true;
                Err(TextError::from(stop))
            }
        }
    }
}

impl<R: Source> ItemReader<R> {
    /// Reads the next derivation in place of another one, or answers `false` if none is to come;
    /// nothing is read then.
    #[inline(always)]
    fn next_into(&mut self, alloc: Global, step: &mut Derivation) -> Result<bool, TextError>
        ensures spent { IsErrOf result TextError.Spent ↔ (self.old.failed ≡ true) }
        ensures moves { Moves HasNone self.old self.new (item_in step.new result) }
        ensures item { IfOk (item_in step.new result) (λ o. IfSome o
            (λ d. DerivationShape self.old.variables (derivation_of d)
            × DerivationFits (derivation_of d))) }
        ensures read { (p : ProblemMeant) → Knows self.old p
            → NextItem derivation_of (derivation_read p) (λ _. Ok tt) self.old self.new
            (item_in step.new result) }
        ensures kept { result ≡ Ok false → step.new ≡ step.old }
    {
        let (spent, left) = (self.failed, self.left);
        if spent {
            return Err(TextError::Spent);
        }
        if left == 0 {
            return Ok(false);
        }
        match self
            .parser
            .next_derivation(alloc, &self.objective, step, &mut self.wanted)
        {
            Ok(()) => {
                self.left = left - 1;
                Ok(true)
            }
            Err(stop) => {
                self.failed = true;
                Err(TextError::from(stop))
            }
        }
    }
}

/// Reads the solutions of a certificate whose problem was read.
#[derive(Drop)]
pub struct Solutions<R: Source> {
    items: ItemReader<R>,
}

impl<R: Source> Model for Solutions<R> {
    ghost Value = { Items };

    ghost coded = { items_code };

    ghost view = { λ r. r.items };
}

impl<R: Source> Solutions<R> {
    /// The solutions of which so many are to come, if so much is known of the problem.
    pub(crate) fn new(
        parser: Parser<Scanner<R>>,
        left: u32,
        constraints: u32,
        objective: Row,
    ) -> Solutions<R>
        requires { CanWriteRow parser.variables objective }
        ensures { result ≡ record {
          failed = false;
          rest = parser.rest;
          left = left;
          variables = parser.variables;
          constraints = constraints;
          objective = objective;
        } }
    {
        Solutions {
            items: ItemReader {
                parser,
                left,
                constraints,
                objective,
                wanted: likely_bytes(0),
                failed: false,
            },
        }
    }

    /// How many solutions are still to come.
    pub fn left(&self) -> u32
        ensures { result ≡ self.now.left }
    {
        self.items.left
    }

    /// The next solution, or `None` if all were read; nothing is read then.
    ///
    /// # Errors
    ///
    /// `Refused` if the text is at fault, `Read` if a read failed, and `Memory` if a
    /// growth was refused; after an error `Spent`.
    pub fn next(&mut self, alloc: Global) -> Result<Option<Named<Solution>>, TextError>
        ensures spent { IsErrOf result TextError.Spent ↔ (self.old.failed ≡ true) }
        ensures moves { Moves HasNone self.old self.new result }
        ensures shape { IfOk result (λ o.
            IfSome o (λ s. SolutionShape self.old.variables (solution_of s))) }
        ensures fits { IfOk result (λ o. IfSome o (λ s. RowFits (solution_of s).item)) }
        ensures read { (p : ProblemMeant) → Knows self.old p
            → NextItem solution_of (solution_read p) (λ _. Ok tt) self.old self.new result }
    {
        self.items.next(alloc, &Listed)
    }

    /// What follows the solutions: the number of derivations.
    ///
    /// # Errors
    ///
    /// Those of `next`.
    pub fn finish(self) -> Result<Derivations<R>, TextError>
    where
        R: Drop,
        requires { self.left ≡ 0 }
        ensures spent { IsErrOf result TextError.Spent ↔ (self.failed ≡ true) }
        ensures remembers { IfOk result (λ d. Remembers self d) }
        ensures working { IfOk result (λ d. d.failed ≡ false) }
        ensures counted { IfOk result (λ d. d.constraints + d.left < 2 ^ 32) }
        ensures read { (p : ProblemMeant) → Knows self p → IsSome self.rest
            → GivesFrom (λ d. d.left) (λ d. d.rest) result
            (derivations_read p (rest_of self.rest)) }
    {
        let mut items = self.items;
        if items.failed {
            drop(items);
            return Err(TextError::Spent);
        }
        match items.parser.derivation_count(items.constraints) {
            Ok(left) => {
                items.left = left;
                Ok(Derivations { items })
            }
            Err(stop) => {
                drop(items);
                Err(TextError::from(stop))
            }
        }
    }
}

/// The derivation that was read in place of another one, if one was.
fn item_read(
    step: Derivation,
    read: Result<bool, TextError>,
) -> Result<Option<Derivation>, TextError>
    ensures { result ≡ item_in step read }
{
    match read {
        Ok(true) => Ok(Some(step)),
        Ok(false) => {
            drop(step);
            Ok(None)
        }
        Err(error) => {
            drop(step);
            Err(error)
        }
    }
}

/// Reads the derivations of a certificate whose solutions were read.
#[derive(Drop)]
pub struct Derivations<R: Source> {
    items: ItemReader<R>,
}

impl<R: Source> Model for Derivations<R> {
    ghost Value = { Items };

    ghost coded = { items_code };

    ghost view = { λ r. r.items };
}

impl<R: Source> Derivations<R> {
    /// How many derivations are still to come.
    pub fn left(&self) -> u32
        ensures { result ≡ self.now.left }
    {
        let items = &self.items;
        items.left
    }

    /// Reads the next derivation in place of `step`, whose room is used again. `false` if all were
    /// read and only white space followed; `step` stays as it was then. After an error it may be
    /// any derivation.
    ///
    /// # Errors
    ///
    /// Those of `next`.
    pub fn next_into(&mut self, alloc: Global, step: &mut Derivation) -> Result<bool, TextError>
        ensures spent { IsErrOf result TextError.Spent ↔ (self.old.failed ≡ true) }
        ensures moves { Moves HasEnded self.old self.new (item_in step.new result) }
        ensures shape { IfOk (item_in step.new result) (λ o.
            IfSome o (λ d. DerivationShape self.old.variables (derivation_of d))) }
        ensures fits { IfOk (item_in step.new result) (λ o.
            IfSome o (λ d. DerivationFits (derivation_of d))) }
        ensures read { (p : ProblemMeant) → Knows self.old p
            → NextItem derivation_of (derivation_read p) end_read self.old self.new
            (item_in step.new result) }
        ensures kept { result ≡ Ok false → step.new ≡ step.old }
    {
        match self.items.next_into(alloc, step) {
            Ok(false) => match self.items.parser.end() {
                Ok(()) => Ok(false),
                Err(stop) => {
                    self.items.failed = true;
                    Err(TextError::from(stop))
                }
            },
            next => next,
        }
    }

    /// The next derivation, or `None` if all were read and only white space followed.
    ///
    /// # Errors
    ///
    /// `Refused` if the text is at fault, `Read` if a read failed, and `Memory` if a
    /// growth was refused; after an error `Spent`.
    pub fn next(&mut self, alloc: Global) -> Result<Option<Derivation>, TextError>
        ensures spent { IsErrOf result TextError.Spent ↔ (self.old.failed ≡ true) }
        ensures moves { Moves HasEnded self.old self.new result }
        ensures shape { IfOk result (λ o.
            IfSome o (λ d. DerivationShape self.old.variables (derivation_of d))) }
        ensures fits { IfOk result (λ o. IfSome o (λ d. DerivationFits (derivation_of d))) }
        ensures read { (p : ProblemMeant) → Knows self.old p
            → NextItem derivation_of (derivation_read p) end_read self.old self.new result }
    {
        let mut step = Derivation::blank(alloc);
        let read = self.next_into(alloc, &mut step);
        item_read(step, read)
    }
}
