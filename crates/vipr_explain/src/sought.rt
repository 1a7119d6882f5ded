//! Changes of a sum or a join that may mend it. Whether one does, the rule decides.
ghost use Rattle.std.specs.Prelude.{◌≡◌, length};
ghost use Rattle.vipr_spec.specs.Certificate.{variables};

use crate::changes::{Change, is_moved};
use crate::doubts::is_other_absurdity;
use crate::joins::add_joins;
use crate::near::Join;
use crate::sketch::{Residue, Sketches, sketch_of};
use crate::slips::{add_factor, add_shifted_joins, add_shifts};
use crate::text::Subject;
use std::alloc::AllocError;
use std::mem::replace;
use vipr_cert::{Derivation, Problem, Reason, References};
use vipr_check::Table;
use vipr_frac::Frac;
use vipr_linear::{CombError, Combination, Constraint, Row, Sense, compares};
use vipr_rules::Rows;

/// How many pairs of an entry and a constraint with the wanted row are compared, if a sixteenth of
/// the text's bytes isn't more.
const MOST_PAIRS: usize = 1_000;

/// For how many entries another constraint is sought, if a fiftieth of the text's bytes isn't more.
const MOST_REPLACED: usize = 1_000;

/// How many changes of a kind are tried.
const MOST_TRIED: usize = 8;

/// The rank of a change with which the sides are the same, too: the least that sides give.
const LEAST_RANK: u64 = 1;

/// A derivation that is refused, and what is before it.
#[derive(Clone, Copy)]
pub struct Refused<'a> {
    pub subject: Subject<'a>,
    pub problem: &'a Problem,
    /// The derived constraints that are live.
    pub rows: &'a Table,
    pub step: &'a Derivation,
}

/// Changes of each kind.
#[derive(Clone, Copy)]
pub(crate) struct Candidates {
    pub(crate) multipliers: Ranking,
    pub(crate) exchanges: Ranking,
    pub(crate) slips: Ranking,
    pub(crate) additions: Ranking,
}

/// Changes with what each is ranked by, the least first. The last place is for one that is tried
/// after all others.
#[derive(Clone, Copy)]
pub(crate) struct Ranking(pub(crate) [(u64, Option<Change>); MOST_TRIED + 1]);

/// What a sum lacks of what is stated, and the sketch of its row.
#[derive(Drop)]
pub(crate) struct Missing {
    pub(crate) constraint: Constraint,
    pub(crate) sketch: Residue,
}

// An entry, and the row of the constraint that would be right in its place with its multiplier.
#[derive(Clone, Copy)]
struct Replacement {
    position: usize,
    index: u32,
    multiplier: Frac,
    row: Residue,
}

impl Candidates {
    /// Finds changes with which the rows look the same, and the sides, too.
    pub(crate) fn find(
        refused: Refused<'_>,
        scratch: &mut Combination,
    ) -> Result<Candidates, AllocError>
        requires { length scratch.old.sums ≡ variables refused.problem.now }
        ensures { length scratch.new.sums ≡ length scratch.old.sums }
    {
        let mut found = Candidates {
            multipliers: Ranking::new(),
            exchanges: Ranking::new(),
            slips: Ranking::new(),
            additions: Ranking::new(),
        };
        match refused.step.reason.references() {
            References::Entries(entries) => found.add_changes(refused, entries, scratch)?,
            References::Branches { i1, l1, i2, l2 } => {
                let sketches = Sketches::find(refused)?;
                let join = Join { i1, l1, i2, l2 };
                add_joins(&mut found.exchanges, refused, &sketches, join);
                add_shifted_joins(&mut found.slips, refused, &sketches, join);
                drop(sketches);
            }
            References::Nothing => {}
        }
        Ok(found)
    }

    // Adds those of a sum of these entries.
    fn add_changes(
        &mut self,
        refused: Refused<'_>,
        entries: &[(u32, Frac)],
        scratch: &mut Combination,
    ) -> Result<(), AllocError>
        requires { length scratch.old.sums ≡ variables refused.problem.now }
        ensures { length scratch.new.sums ≡ length scratch.old.sums }
    {
        if let Some(missing) = missing_of(refused, scratch, entries)? {
            let sketches = or_drop!(Sketches::find(refused), missing);
            let added = self.add_all(refused, &sketches, entries, &missing);
            drop(sketches);
            drop(missing);
            added?;
        }
        Ok(())
    }

    // Adds those of a sum that lacks this.
    fn add_all(
        &mut self,
        refused: Refused<'_>,
        sketches: &Sketches,
        entries: &[(u32, Frac)],
        missing: &Missing,
    ) -> Result<(), AllocError> {
        add_multipliers(&mut self.multipliers, refused, sketches, entries, missing);
        let replacements = replacements(refused, sketches, entries, missing)?;
        let named = named_by(refused, entries)?;
        self.add_others(
            refused,
            sketches,
            entries.len(),
            named.as_slice(),
            missing,
            &replacements,
        );
        self.exchanges.0[MOST_TRIED].1 = Some(Change::Word);
        add_factor(&mut self.slips, refused, sketches, entries, missing);
        add_shifts(&mut self.slips, refused, sketches, entries, missing)
    }

    // Adds other constraints in the place of an entry, the nearest ones first, and those for one
    // more entry behind so many. What would be right in the place of each entry comes by its row.
    fn add_others(
        &mut self,
        refused: Refused<'_>,
        sketches: &Sketches,
        count: usize,
        named: &[bool],
        missing: &Missing,
        replacements: &[Replacement],
    ) {
        let mut pairs = MOST_PAIRS.max(refused.subject.text.len() / 16);
        for index in 0..refused.rows.next() {
            if let Some(sketch) = sketches.get(index) {
                for replacement in with_row(replacements, sketch, pairs) {
                    if replacement.row != sketch {
                        break;
                    }
                    pairs = pairs.saturating_sub(1);
                    if replacement.index != index {
                        add_exchange(&mut self.exchanges, refused, index, replacement, missing);
                    }
                }
            }
            let is_other = matches!(named.get(index as usize), Some(false));
            if is_other && self.additions.keeps(LEAST_RANK) {
                self.add_addition(refused, sketches, count, index, missing);
            }
        }
    }

    // Adds one more entry behind so many, of this constraint.
    fn add_addition(
        &mut self,
        refused: Refused<'_>,
        sketches: &Sketches,
        count: usize,
        index: u32,
        missing: &Missing,
    ) {
        if let Some((multiplier, off)) = factor_for(refused, sketches, index, missing) {
            if let Some(rank) = rank_of(refused, off) {
                let change = Change::Entry(count, index, multiplier);
                let last = of_weak(is_assumption(refused, index));
                self.additions.add(rank.saturating_add(last), change);
            }
        }
    }
}

impl Ranking {
    /// No change.
    pub(crate) fn new() -> Ranking {
        Ranking([(u64::MAX, None); MOST_TRIED + 1])
    }

    // Whether a change of this rank is kept.
    fn keeps(&self, rank: u64) -> bool {
        rank < self.0[MOST_TRIED - 1].0
    }

    /// Keeps a change at its place among the first ones.
    pub(crate) fn add(&mut self, rank: u64, change: Change) {
        if !self.keeps(rank) {
            return;
        }
        let mut kept = (rank, Some(change));
        for place in 0..MOST_TRIED {
            if kept.0 < self.0[place].0 {
                kept = replace(&mut self.0[place], kept);
            }
        }
    }
}

// What a sum of these entries lacks; none past the limit.
fn missing_of(
    refused: Refused<'_>,
    scratch: &mut Combination,
    entries: &[(u32, Frac)],
) -> Result<Option<Missing>, AllocError>
    requires { length scratch.old.sums ≡ variables refused.problem.now }
    ensures { length scratch.new.sums ≡ length scratch.old.sums }
{
    let stated = &refused.step.constraint;
    match less_sum(refused, scratch, stated, Frac::one(), entries)? {
        Some(constraint) => Ok(Some(Missing {
            sketch: sketch_of(&constraint.row),
            constraint,
        })),
        None => Ok(None),
    }
}

/// A multiple of a constraint less the sum of these entries, whatever their senses; none past the
/// limit.
pub(crate) fn less_sum(
    refused: Refused<'_>,
    scratch: &mut Combination,
    constraint: &Constraint,
    factor: Frac,
    entries: &[(u32, Frac)],
) -> Result<Option<Constraint>, AllocError>
    requires { length scratch.old.sums ≡ variables refused.problem.now }
    ensures { length scratch.new.sums ≡ length scratch.old.sums }
{
    scratch.clear();
    add_both_sides(refused, scratch, constraint, factor)?;
    for entry in entries {
        if let Some(constraint) = constraint_at(refused, entry.0) {
            add_both_sides(refused, scratch, constraint, entry.1.neg())?;
        }
    }
    match scratch.finish(refused.subject.alloc) {
        Ok(left) => Ok(Some(left)),
        Err(CombError::Memory) => Err(AllocError),
        Err(_) => Ok(None),
    }
}

// Adds the multiple of a constraint as if it were an equation.
fn add_both_sides(
    refused: Refused<'_>,
    scratch: &mut Combination,
    constraint: &Constraint,
    multiplier: Frac,
) -> Result<(), AllocError>
    requires { length scratch.old.sums ≡ variables refused.problem.now }
    ensures { length scratch.new.sums ≡ length scratch.old.sums }
{
    if constraint
        .row
        .names_below(refused.problem.names().len() as u32)
    {
        let equation = Constraint {
            row: constraint.row.clone()?,
            sense: Sense::E,
            rhs: constraint.rhs,
        };
        let _ = scratch.add(&equation, multiplier);
        drop(equation);
    }
    Ok(())
}

// Whether a constraint is an assumption.
fn is_assumption(refused: Refused<'_>, index: u32) -> bool {
    match refused.rows.get(index) {
        Some(entry) => entry.is_assumption,
        None => false,
    }
}

// What a change is ranked behind for that brings another assumption, or a contradiction.
fn of_weak(is_weak: bool) -> u64 {
    if is_weak { 1 << 33 } else { 0 }
}

/// The constraint of an index that a derivation may refer to.
pub(crate) fn constraint_at(refused: Refused<'_>, index: u32) -> Option<&Constraint> {
    match refused.problem.cons().get(index as usize) {
        Some(named) => Some(&named.item),
        None => Some(&refused.rows.get(index)?.constraint),
    }
}

// Of each constraint, whether an entry is of it.
fn named_by(refused: Refused<'_>, entries: &[(u32, Frac)]) -> Result<Vec<bool>, AllocError> {
    let mut named = Vec::new(refused.subject.alloc);
    for _ in 0..refused.rows.next() {
        named.push(false)?;
    }
    for entry in entries {
        if let Some(mark) = named.get_mut(entry.0 as usize) {
            *mark = true;
        }
    }
    Ok(named)
}

// Other multipliers of the entries: that with the other sign comes first, if it gives the stated
// sense.
fn add_multipliers(
    ranking: &mut Ranking,
    refused: Refused<'_>,
    sketches: &Sketches,
    entries: &[(u32, Frac)],
    missing: &Missing,
) {
    for (position, entry) in entries.iter().enumerate() {
        let (index, present) = *entry;
        if let (Some(constraint), Some((factor, off))) = (
            constraint_at(refused, index),
            factor_for(refused, sketches, index, missing),
        ) {
            if let (Some(rank), Ok(multiplier)) = (rank_of(refused, off), present.add(factor)) {
                let sense = constraint.sense;
                let is_stated = sense == refused.step.constraint.sense;
                let is_right = sense == Sense::E || is_stated == (factor.numer() > 0);
                let is_first = is_right && multiplier == present.neg();
                let change = Change::Entry(position, index, multiplier);
                ranking.add(if is_first { 0 } else { rank }, change);
            }
        }
    }
}

// Those from the first one with this row on, so many at most.
fn with_row(replacements: &[Replacement], row: Residue, most: usize) -> &[Replacement] {
    if most == 0 {
        return &[];
    }
    let first = replacements.partition_point(|other| other.row.number() < row.number());
    let behind = &replacements[first..];
    &behind[..behind.len().min(most)]
}

// For each entry what would be right in its place, in the order of the rows.
fn replacements(
    refused: Refused<'_>,
    sketches: &Sketches,
    entries: &[(u32, Frac)],
    missing: &Missing,
) -> Result<Vec<Replacement>, AllocError> {
    let most = MOST_REPLACED.max(refused.subject.text.len() / 50);
    let mut found = Vec::new(refused.subject.alloc);
    // (entries in a row often have one multiplier)
    let (mut known, mut lacking) = (Frac::zero(), None);
    for (position, entry) in entries[..entries.len().min(most)].iter().enumerate() {
        let (index, multiplier) = *entry;
        if multiplier != known {
            known = multiplier;
            lacking = lacking_with(multiplier, missing);
        }
        if let Some(lacking) = lacking {
            found.push(Replacement {
                position,
                index,
                multiplier,
                row: sketches.get_or_zero(index).plus(lacking),
            })?;
        }
    }
    found.sort_by_key(|replacement| replacement.row.number())?;
    Ok(found)
}

// What the row of an entry with this multiplier has to have more, none if that is 0.
fn lacking_with(multiplier: Frac, missing: &Missing) -> Option<Residue> {
    let factor = inverse(multiplier)?;
    Some(missing.sketch.times(Residue::of(factor)))
}

// Adds a constraint in the place of an entry, which has the row that is wanted there.
fn add_exchange(
    exchanges: &mut Ranking,
    refused: Refused<'_>,
    index: u32,
    replacement: &Replacement,
    missing: &Missing,
) {
    let given = refused.problem.cons().len() as u32;
    let least = match index.abs_diff(replacement.index) {
        _ if is_moved(replacement.index, index, given) => 0,
        distance => u64::from(distance),
    };
    if !exchanges.keeps(least) {
        return;
    }
    let multiplier = replacement.multiplier;
    if let Some(off) = gap_with(refused, index, replacement, missing) {
        if let Some(rank) = rank_of(refused, off) {
            let distance = if least == 0 {
                0
            } else {
                least.saturating_add(rank)
            };
            let change = Change::Entry(replacement.position, index, multiplier);
            let is_same = is_assumption(refused, replacement.index);
            let is_more = is_assumption(refused, index) && !is_same && distance > 0;
            let is_weak = is_more || is_other_absurdity(refused, index);
            exchanges.add(distance.saturating_add(of_weak(is_weak)), change);
        }
    }
}

// How far the side of a sum that lacks this is behind the stated one, if a constraint is in the
// place of an entry.
fn gap_with(
    refused: Refused<'_>,
    index: u32,
    replacement: &Replacement,
    missing: &Missing,
) -> Option<Frac> {
    let own = match constraint_at(refused, replacement.index) {
        Some(constraint) => constraint.rhs,
        None => Frac::zero(),
    };
    let more = constraint_at(refused, index)?.rhs.add(own.neg()).ok()?;
    let gain = replacement.multiplier.mul(more).ok()?;
    gain.add(missing.constraint.rhs.neg()).ok()
}

// The factor with which a constraint's row is what a sum lacks, and how far the side of the sum is
// behind the stated one then.
fn factor_for(
    refused: Refused<'_>,
    sketches: &Sketches,
    index: u32,
    missing: &Missing,
) -> Option<(Frac, Frac)> {
    let constraint = constraint_at(refused, index)?;
    let factor = factor_between(&constraint.row, sketches.get(index)?, missing)?;
    let side = factor.mul(constraint.rhs).ok()?;
    Some((factor, side.add(missing.constraint.rhs.neg()).ok()?))
}

/// The number by which a row with this sketch has to be multiplied for one that is missing and
/// isn't empty.
pub(crate) fn factor_between(row: &Row, sketch: Residue, missing: &Missing) -> Option<Frac> {
    let (given, wanted) = (row.entries(), missing.constraint.row.entries());
    let (first, wanted_first) = (given.first()?, wanted.first()?);
    if given.len() != wanted.len() || first.0 != wanted_first.0 {
        return None;
    }
    let factor = wanted_first.1.mul(inverse(first.1)?).ok()?;
    (sketch.times(Residue::of(factor)) == missing.sketch).then_some(factor)
}

/// 1 divided by a number.
pub(crate) fn inverse(number: Frac) -> Option<Frac> {
    if number.numer() < 0 {
        Frac::new(-number.denom(), -number.numer()).ok()
    } else {
        Frac::new(number.denom(), number.numer()).ok()
    }
}

// How likely a change is whose side is so far from the stated one: less is likelier, and none is no
// change.
fn rank_of(refused: Refused<'_>, off: Frac) -> Option<u64> {
    let stated = &refused.step.constraint;
    let is_enough = stated.is_absurd()
        || match (&refused.step.reason, stated.sense) {
            (_, Sense::E) => off.is_zero(),
            (Reason::Rnd(_), Sense::G) => compares(Sense::G, off, Frac::one().neg()),
            (Reason::Rnd(_), Sense::L) => compares(Sense::L, off, Frac::one()),
            (_, sense) => compares(sense, off, Frac::zero()),
        };
    is_enough.then_some(if off.is_zero() { LEAST_RANK } else { 1 << 32 })
}
