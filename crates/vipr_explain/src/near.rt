//! Finds the constraints that come nearest to a claim, and the assumptions that they rest on.
ghost use Rattle.std.specs.Prelude.{◌≡◌, ◌≤◌, IfOk, OnOk, length, unsigned_abs};
ghost use Rattle.vipr_spec.specs.{Certificate.variables, Fraction.most};
ghost use Rattle.vipr_table.specs.Table.{step as table_step};
ghost use Rattle.vipr_explain.specs.Replays.{IsReplayOf};

use crate::algebra::size_of;
use crate::changes::Replay;
use crate::items::open_derivations;
use crate::text::{Reread, Subject};
use std::alloc::AllocError;
use std::cmp::Reverse;
use std::fmt::{self, Display, Formatter, Write};
use vipr_bytes::Bytes;
use vipr_cert::{Derivation, Problem, Reason, References};
use vipr_check::Table;
use vipr_frac::Frac;
use vipr_linear::{Constraint, Sense};
use vipr_read::Derivations;
use vipr_rules::{
    Assumptions, Context, Entry, Rows, RuleError, Target, assumptions_by_reason, take_entry,
};
use vipr_scan::TextError;

/// How many constraints are shown.
const MOST_SHOWN: usize = 3;

/// A constraint that comes near to the goal.
#[derive(Drop)]
pub(crate) struct Near {
    pub(crate) index: u32,
    pub(crate) constraint: Constraint,
    /// Whether it says what is wanted by the rules of the profile.
    pub(crate) is_strong: bool,
    /// How far its right-hand side is off, if that fits.
    pub(crate) gap: Option<Frac>,
    /// The assumptions that it rests on.
    pub(crate) assumptions: Assumptions,
    /// Whether it rests on none.
    pub(crate) is_free: bool,
}

/// What `uns i1 l1 i2 l2` names.
#[derive(Clone, Copy)]
pub struct Join {
    pub i1: u32,
    pub l1: u32,
    pub i2: u32,
    pub l2: u32,
}

impl Display for Join {
    fn fmt<W: Write>(&self, f: &mut Formatter<W>) -> fmt::Result {
        let Join { i1, l1, i2, l2 } = *self;
        write!(f, "`uns {i1} {l1} {i2} {l2}`")
    }
}

/// A derivation that joins two branches, and whether it still rests on the assumption of each.
#[derive(Clone, Copy)]
pub(crate) struct OpenJoin {
    pub(crate) index: u32,
    pub(crate) join: Join,
    pub(crate) first: bool,
    pub(crate) second: bool,
}

/// A search for the three constraints that come nearest to a claim. Those that are strong enough
/// come first, then those that miss it by less. If two are alike, the one that rests on nothing
/// comes first, or else the later one.
#[derive(Drop)]
pub(crate) struct NearSearch {
    pub(crate) target: Target,
    pub(crate) near: Vec<Near>,
    /// The derivations that join two branches and still rest on an assumption of theirs.
    pub(crate) joins: Vec<OpenJoin>,
    /// The assumptions that derivations take away.
    pub(crate) removed: Vec<u32>,
    pub(crate) replay: Replay,
}

/// The problem of a text; a search among its constraints and the derivations before that of one, or
/// all; and that one, if the text has it.
pub(crate) fn search_to(
    subject: Subject<'_>,
    end: Option<u32>,
) -> Reread<(Problem, NearSearch, Option<Derivation>)>
    ensures { IfOk result (λ x. IsReplayOf (variables x.0) x.1.replay) }
{
    let (problem, mut derivations) = open_derivations(subject.alloc, subject.text)?;
    let found = search_in(subject, &problem, &mut derivations, end);
    drop(derivations);
    let (search, step) = or_drop!(found, problem);
    Ok((problem, search, step))
}

// The same if the problem was read, and none of the derivations.
fn search_in(
    subject: Subject<'_>,
    problem: &Problem,
    derivations: &mut Derivations<Bytes<'_>>,
    end: Option<u32>,
) -> Reread<(NearSearch, Option<Derivation>)>
    ensures { IfOk result (λ x. IsReplayOf (variables problem.now) x.0.replay) }
{
    let search = NearSearch::up_to(subject, problem, derivations, end)?;
    match end {
        Some(index) if search.replay.rows.next() == index && derivations.left() > 0 => {
            let step = or_drop!(derivations.next(subject.alloc), search);
            Ok((search, step))
        }
        _ => Ok((search, None)),
    }
}

/// How many derivations are before that of a constraint, or all of them, if a problem has so many
/// constraints.
pub(crate) fn passed_to(end: Option<u32>, given: u32, derivations: u32) -> u32 {
    match end {
        Some(index) => index.saturating_sub(given).min(derivations),
        None => derivations,
    }
}

impl NearSearch {
    // A search that passed the constraints of the problem, which rest on no assumption.
    fn new(subject: Subject<'_>, problem: &Problem) -> Result<NearSearch, AllocError>
        ensures { IfOk result (λ s. IsReplayOf (variables problem.now) s.replay) }
    {
        let target = Target::of_claim_in(subject.profile, problem)?;
        let replay = or_drop!(Replay::new(subject.alloc, problem), target);
        let mut search = NearSearch {
            target,
            near: Vec::new(subject.alloc),
            joins: Vec::new(subject.alloc),
            removed: Vec::new(subject.alloc),
            replay,
        };
        let given = problem.cons();
        let nothing = Assumptions::empty(subject.alloc);
        for (index, named) in given.iter().enumerate() {
            let kept = search.keep(index as u32, None, &named.item, &nothing);
            or_drop!(kept, search);
        }
        Ok(search)
    }

    // A search that passed the derivations before that of a constraint, or all, too.
    fn up_to(
        subject: Subject<'_>,
        problem: &Problem,
        derivations: &mut Derivations<Bytes<'_>>,
        end: Option<u32>,
    ) -> Reread<NearSearch>
        ensures { IfOk result (λ s. IsReplayOf (variables problem.now) s.replay) }
    {
        let mut found = NearSearch::new(subject, problem)?;
        let count = passed_to(end, problem.cons().len() as u32, derivations.left());
        let mut step = Derivation::blank(subject.alloc);
        for passed in 0..count {
            if or_drop!(derivations.next_into(subject.alloc, &mut step), step, found) {
                or_drop!(found.pass(subject, problem, &mut step), step, found);
            }
        }
        drop(step);
        Ok(found)
    }

    // Passes a derivation, whose constraint moves to the table.
    fn pass(&mut self, subject: Subject<'_>, problem: &Problem, step: &mut Derivation) -> Reread<()>
        requires { IsReplayOf (variables problem.now) self.old.replay }
        ensures { OnOk result (IsReplayOf (variables problem.now) self.new.replay) }
    {
        if !step
            .constraint
            .row
            .names_below(problem.names().len() as u32)
        {
            return Err(TextError::Read);
        }
        let index = self.replay.rows.next();
        let join = join_of(&step.reason);
        let entry = self.replay.next_entry(subject, problem, step)?;
        match self.keep(index, join, &entry.constraint, &entry.assumptions) {
            Ok(()) => place(&mut self.replay.rows, entry),
            Err(error) => {
                drop(entry);
                Err(error.into())
            }
        }
    }

    // Keeps a constraint that rests on these assumptions, if it is one of the nearest so far, and
    // what joins it.
    fn keep(
        &mut self,
        index: u32,
        join: Option<Join>,
        constraint: &Constraint,
        assumptions: &Assumptions,
    ) -> Result<(), AllocError>
        ensures { self.new.replay ≡ self.old.replay }
    {
        keep_join(&mut self.joins, index, join, assumptions)?;
        keep_removed(&mut self.removed, join)?;
        if !is_like(&self.target, constraint) {
            return Ok(());
        }
        let shown = constraint.clone()?;
        let assumptions = or_drop!(assumptions.clone(), shown);
        let near = Near {
            index,
            is_strong: self.target.is_met_by(&shown),
            gap: gap_of(&self.target, &shown),
            constraint: shown,
            is_free: assumptions.is_empty(),
            assumptions,
        };
        insert(&mut self.near, near)
    }
}

impl Replay {
    // What is kept of the next derivation. The check has tested it by its rule, so only its
    // references are tested again.
    fn next_entry<'a>(
        &'a self,
        subject: Subject<'_>,
        problem: &'a Problem,
        step: &mut Derivation,
    ) -> Reread<Entry>
        ensures { IfOk result (λ e. e.constraint ≡ step.old.constraint) }
    {
        let context = Context {
            profile: subject.profile,
            problem,
            best: None,
            rows: &self.rows,
        };
        match assumptions_by_reason(subject.alloc, &context, &step.reason) {
            Ok(assumptions) => Ok(take_entry(subject.alloc, step, assumptions)),
            Err(error) => Err(missing_by(error)),
        }
    }
}

// Why a derivation isn't kept, which is refused so.
fn missing_by(error: RuleError) -> TextError {
    match error {
        RuleError::Memory => TextError::Memory,
        error => {
            drop(error);
            TextError::Read
        }
    }
}

// Places what is kept of a derivation, until its last reference.
fn place(rows: &mut Table, entry: Entry) -> Reread<()>
    ensures { OnOk result (rows.new ≡ table_step rows.old entry) }
{
    if rows.next() == u32::MAX {
        drop(entry);
        return Err(TextError::Read);
    }
    rows.advance();
    match rows.put(entry) {
        Ok(()) => Ok(()),
        Err((entry, error)) => {
            drop(entry);
            Err(error.into())
        }
    }
}

/// What a reason joins.
pub(crate) fn join_of(reason: &Reason) -> Option<Join> {
    match reason.references() {
        References::Branches { i1, l1, i2, l2 } => Some(Join { i1, l1, i2, l2 }),
        _ => None,
    }
}

// Keeps a derivation that joins this, if it still rests on an assumption of that.
fn keep_join(
    joins: &mut Vec<OpenJoin>,
    index: u32,
    join: Option<Join>,
    assumptions: &Assumptions,
) -> Result<(), AllocError> {
    if let Some(join) = join {
        let first = assumptions.contains(join.l1);
        let second = assumptions.contains(join.l2);
        if first || second {
            joins.push(OpenJoin {
                index,
                join,
                first,
                second,
            })?;
        }
    }
    Ok(())
}

// Keeps the assumptions that a derivation takes away by a join.
fn keep_removed(removed: &mut Vec<u32>, join: Option<Join>) -> Result<(), AllocError> {
    if let Some(join) = join {
        removed.push(join.l1)?;
        removed.push(join.l2)?;
    }
    Ok(())
}

// Keeps a constraint at its place among the nearest, behind those that are as near.
fn insert(all: &mut Vec<Near>, near: Near) -> Result<(), AllocError> {
    let place = place_of(&near, all.as_slice());
    all.insert(place, near)?;
    all.truncate(MOST_SHOWN);
    Ok(())
}

// How many constraints are in front of the first one that another one comes before.
fn place_of(near: &Near, others: &[Near]) -> usize
    ensures { result ≤ length others.now }
{
    others
        .iter()
        .take_while(|other| !is_nearer(near, other))
        .count()
}

// Whether a constraint has the row of what is wanted, or is absurd, if that is wanted.
fn is_like(target: &Target, constraint: &Constraint) -> bool {
    match target {
        Target::Bound(bound) | Target::WholeBound(bound) => constraint.row.is_same(&bound.row),
        Target::Absurdity => constraint.is_absurd(),
        Target::Nothing => false,
    }
}

// How far a right-hand side is off, rounded if it may be; that of the other sense isn't.
fn gap_of(target: &Target, constraint: &Constraint) -> Option<Frac> {
    match target {
        Target::Bound(bound) => gap_to(bound, constraint.sense, constraint.rhs),
        Target::WholeBound(bound) => gap_to(bound, constraint.sense, rounded(constraint)),
        Target::Absurdity | Target::Nothing => None,
    }
}

// What a constraint of this sense and side misses a bound by, if that fits.
fn gap_to(bound: &Constraint, sense: Sense, side: Frac) -> Option<Frac> {
    if is_turned(sense, bound.sense) {
        return None;
    }
    bound.rhs.add(side.neg()).ok()
}

/// Whether one sense is `>=` and the other one `<=`.
pub(crate) fn is_turned(sense: Sense, other: Sense) -> bool {
    matches!((sense, other), (Sense::G, Sense::L) | (Sense::L, Sense::G))
}

// The right-hand side, rounded the way that its sense allows.
fn rounded(constraint: &Constraint) -> Frac {
    match constraint.sense {
        Sense::G => whole(constraint.rhs.ceil()),
        Sense::L => whole(constraint.rhs.floor()),
        Sense::E => constraint.rhs,
    }
}

// A whole number.
fn whole(k: i128) -> Frac
    requires { unsigned_abs k ≤ most }
{
    Frac::new(k, 1).unwrap()
}

// Whether a constraint comes nearer than another.
fn is_nearer(near: &Near, other: &Near) -> bool {
    near.key().cmp(&other.key()).is_gt()
}

impl Near {
    // What constraints are compared by: whether it is strong enough; if it isn't, how far it misses
    // the goal; whether it rests on no assumption; and its index. The nearest one has the greatest
    // key: less to miss makes it greater, and no known gap makes it smallest.
    fn key(&self) -> (bool, Option<Reverse<Frac>>, bool, u32) {
        let gap = match self.gap {
            Some(gap) if !self.is_strong => Some(Reverse(size_of(gap))),
            _ => None,
        };
        (self.is_strong, gap, self.is_free, self.index)
    }
}
