//! Other sums in place of a refused one: the problem's constraints are counted in another order, or
//! all multipliers are other ones. Each was tried by the rule.
ghost use Rattle.std.specs.Prelude.{◌≡◌, length};
ghost use Rattle.vipr_spec.specs.Certificate.{variables};
ghost use Rattle.vipr_table.specs.Table.{DerivedBelow};

use crate::bounds::bounds_for;
use crate::page::Page;
use crate::shown::PlacedItems;
use crate::sketch::{Residue, Sketches};
use crate::solved::solved_entries;
use crate::sought::Refused;
use std::alloc::{AllocError, Global};
use vipr_cert::{Derivation, Reason, References};
use vipr_frac::Frac;
use vipr_linear::{Combination, Sense};
use vipr_rules::{Rows, RuleError, apply_in};

/// How many entries of another sum are shown.
const MOST_SHOWN: usize = 12;

/// How many indices are looked up for sums in which constraints are counted in another order, if a
/// sixteenth of the text's bytes isn't more.
const MOST_LOOKED_UP: usize = 1_000;

/// How many sums with other indices are tried.
const MOST_TRIED: usize = 4;

/// How many entries have another index at least: another one in the place of one is no slip of all.
const LEAST: usize = 2;

/// What is likely if a sum with all entries changed follows.
#[derive(Clone, Copy, PartialEq, Eq)]
pub(crate) enum SumSlip {
    /// The problem's constraints from the first one on, so many, are counted after the others.
    Turned(u32),
    /// Each of so many equations of the problem is counted twice.
    Equations(u32),
    /// The constraints of two entries are exchanged.
    Exchanged(u32, u32),
    /// Multipliers are other ones, which have this in common.
    Multipliers(Relation),
    /// So many bounds of variables are left out.
    Bounds(usize),
}

/// What multipliers that are found have in common with those that are written.
#[derive(Clone, Copy, PartialEq, Eq)]
pub(crate) enum Relation {
    /// Those of equations have the other sign.
    SignsOfEquations,
    /// Some have the other sign.
    Signs,
    /// Each is 1 divided by the one that is written.
    Inverses,
    /// They are rounded, or cut.
    Rounded,
    Nothing,
}

/// A sum with which a refused derivation follows: its first entries, and how it differs.
#[derive(Clone, Copy)]
pub(crate) struct OtherSum {
    front: [(u32, Frac); MOST_SHOWN],
    pub(crate) slip: SumSlip,
}

// The slips that are tried, in their order.
#[derive(Clone, Copy)]
struct Slips([Option<SumSlip>; MOST_TRIED]);

// A search for sums in which the indices are other ones.
#[derive(Clone, Copy)]
struct IndexSearch<'a> {
    refused: Refused<'a>,
    sketches: &'a Sketches,
    entries: &'a [(u32, Frac)],
    /// For each index of a program that counts each equation twice, the one that is meant.
    twice: &'a [u32],
}

impl OtherSum {
    /// The first sum with which a derivation follows that has all entries changed: those of which
    /// the problem's bounds and equations are counted otherwise come first.
    pub(crate) fn find(
        refused: Refused<'_>,
        scratch: &mut Combination,
    ) -> Result<Option<OtherSum>, AllocError>
        requires rows { DerivedBelow (variables refused.problem.now) refused.rows.now }
        requires variables { length scratch.old.sums ≡ variables refused.problem.now }
        ensures { length scratch.new.sums ≡ length scratch.old.sums }
    {
        let References::Entries(entries) = refused.step.reason.references() else {
            return Ok(None);
        };
        let sketches = Sketches::find(refused)?;
        let twice = or_drop!(counted_twice(refused), sketches);
        let search = IndexSearch {
            refused,
            sketches: &sketches,
            entries,
            twice: twice.as_slice(),
        };
        let found = search.find(scratch);
        drop(twice);
        drop(sketches);
        let found = found?;
        if found.is_some() {
            return Ok(found);
        }
        if let Some((others, slip)) = solved_entries(refused, entries)? {
            let found = tried(refused, scratch, others, slip)?;
            if found.is_some() {
                return Ok(found);
            }
        }
        OtherSum::with_bounds(refused, scratch, entries)
    }

    // The sum with the bounds of variables that it lacks, if a derivation follows with it.
    fn with_bounds(
        refused: Refused<'_>,
        scratch: &mut Combination,
        entries: &[(u32, Frac)],
    ) -> Result<Option<OtherSum>, AllocError>
        requires rows { DerivedBelow (variables refused.problem.now) refused.rows.now }
        requires variables { length scratch.old.sums ≡ variables refused.problem.now }
        ensures { length scratch.new.sums ≡ length scratch.old.sums }
    {
        let Some(more) = bounds_for(refused, scratch, entries)? else {
            return Ok(None);
        };
        let slip = SumSlip::Bounds(more.len());
        let found = OtherSum::of(more.as_slice(), slip);
        let mut others = or_drop!(entries.to_vec(refused.subject.alloc), more);
        for entry in &more {
            others.push(*entry)?;
        }
        drop(more);
        let follows = follows_by(refused, scratch, others)?;
        Ok(follows.then_some(found))
    }

    // One with these entries.
    fn of(entries: &[(u32, Frac)], slip: SumSlip) -> OtherSum {
        let mut front = [(0, Frac::zero()); MOST_SHOWN];
        for (position, entry) in entries.iter().enumerate() {
            if position < MOST_SHOWN {
                front[position] = *entry;
            }
        }
        OtherSum { front, slip }
    }

    /// Writes that a derivation by this reason follows with it, and asks what is likely then.
    pub(crate) fn write(&self, page: &mut Page, known: &PlacedItems<'_>, reason: &Reason) {
        let References::Entries(entries) = reason.references() else {
            return;
        };
        let (word, count) = (reason.word(), entries.len());
        page.put("  = help: with ");
        if let SumSlip::Bounds(more) = self.slip {
            write!(page, "{more} more entries,");
            self.write_more(page, known, more);
        } else {
            write!(page, "`{word} {count}");
            self.write_entries(page, count);
        }
        page.put(" the derivation follows");
        self.slip.write(page, known.problem.cons().len() as u32);
        page.put("\n");
    }

    // Writes the first of so many entries.
    fn write_entries(&self, page: &mut Page, count: usize) {
        for entry in &self.front[..count.min(MOST_SHOWN)] {
            let (index, multiplier) = *entry;
            write!(page, " {index} {multiplier}");
        }
        page.put(if count > MOST_SHOWN { " ..`" } else { "`" });
    }

    // Writes so many entries that are added.
    fn write_more(&self, page: &mut Page, known: &PlacedItems<'_>, count: usize) {
        for entry in &self.front[..count.min(MOST_SHOWN)] {
            let (index, multiplier) = *entry;
            write!(page, " {multiplier} x ");
            known.write_name(page, index);
            page.put(",");
        }
    }
}

impl SumSlip {
    /// Whether it is one of a program that counts the problem's bounds or equations otherwise.
    pub(crate) fn is_of_count(self, refused: Refused<'_>) -> bool {
        let given = refused.problem.cons().len() as u32;
        let bounds = refused.problem.bound_count();
        match self {
            SumSlip::Equations(_) => true,
            SumSlip::Turned(front) => front == bounds || front == given.saturating_sub(bounds),
            _ => false,
        }
    }

    // Asks whether it is what is wrong.
    fn write(self, page: &mut Page, given: u32) {
        match self {
            SumSlip::Turned(front) => {
                let rest = given.saturating_sub(front);
                if front == 1 {
                    page.put(": is the first constraint");
                } else {
                    write!(page, ": are the first {front} constraints");
                }
                write!(page, " counted after the other {rest}?");
            }
            SumSlip::Equations(count) => {
                write!(
                    page,
                    ": is each of the {count} equations of the problem counted twice?"
                );
            }
            SumSlip::Exchanged(one, other) => {
                write!(page, ": are [{one}] and [{other}] exchanged?");
            }
            SumSlip::Multipliers(relation) => page.put(relation.question()),
            SumSlip::Bounds(_) => page.put(
                ": are bounds of variables left out? Variables are free",
            ),
        }
    }
}

impl Relation {
    // What is asked if multipliers have it.
    fn question(self) -> &'static str {
        match self {
            Relation::SignsOfEquations => {
                ": do the multipliers of all equations have the other sign?"
            }
            Relation::Signs => ": do these multipliers have the other sign?",
            Relation::Inverses => ": are fractions written upside down?",
            Relation::Rounded => {
                ": are the multipliers rounded, or cut to whole numbers or fewer digits?"
            }
            Relation::Nothing => "",
        }
    }
}

// For each index of a program that counts each equation of the problem twice, the one that is
// meant.
fn counted_twice(refused: Refused<'_>) -> Result<Vec<u32>, AllocError> {
    let mut meant = Vec::new(refused.subject.alloc);
    for (index, named) in refused.problem.cons().iter().enumerate() {
        meant.push(index as u32)?;
        if named.item.sense == Sense::E {
            meant.push(index as u32)?;
        }
    }
    Ok(meant)
}

impl Slips {
    // Adds one, if there is room for it.
    fn add(&mut self, slip: SumSlip) {
        for place in 0..MOST_TRIED {
            if self.0[place].is_none() {
                self.0[place] = Some(slip);
                return;
            }
        }
    }

    // Whether there is no room for another one.
    fn is_full(&self) -> bool {
        self.0[MOST_TRIED - 1].is_some()
    }
}

impl IndexSearch<'_> {
    // The first sum with other indices with which the derivation follows.
    fn find(self, scratch: &mut Combination) -> Result<Option<OtherSum>, AllocError>
        requires rows { DerivedBelow (variables self.refused.problem.now) self.refused.rows.now }
        requires variables { length scratch.old.sums ≡ variables self.refused.problem.now }
        ensures { length scratch.new.sums ≡ length scratch.old.sums }
    {
        let slips = self.slips();
        for known in &slips.0 {
            if let Some(slip) = known {
                let found = self.try_slip(scratch, *slip)?;
                if found.is_some() {
                    return Ok(found);
                }
            }
        }
        Ok(None)
    }

    // The slips that look as if the sum had the stated row without them.
    fn slips(&self) -> Slips {
        let mut slips = Slips([None; MOST_TRIED]);
        let equations = self.equations();
        if equations > 1 && self.is_likely(SumSlip::Equations(equations)) {
            slips.add(SumSlip::Equations(equations));
        }
        self.add_turned_by_bounds(&mut slips);
        self.add_exchanged(&mut slips);
        self.add_turned(&mut slips);
        slips
    }

    // How many equations the problem has, 0 for more than an index can count.
    fn equations(&self) -> u32 {
        match u32::try_from(self.twice.len()) {
            Ok(count) => count.saturating_sub(self.given()),
            Err(_) => 0,
        }
    }

    // How many constraints the problem has.
    fn given(&self) -> u32 {
        self.refused.problem.cons().len() as u32
    }

    // Adds those in which the problem's bounds are counted after the other constraints, or before
    // them, in place of the other way round.
    fn add_turned_by_bounds(&self, slips: &mut Slips) {
        let bounds = self.refused.problem.bound_count();
        for front in [bounds, self.given().saturating_sub(bounds)] {
            if self.is_likely(SumSlip::Turned(front)) {
                slips.add(SumSlip::Turned(front));
            }
        }
    }

    // Adds those in which the problem's constraints are counted from any other one on.
    fn add_turned(&self, slips: &mut Slips) {
        let given = self.given();
        let most = MOST_LOOKED_UP.max(self.refused.subject.text.len() / 16);
        let turns = most / self.entries.len().max(1);
        for front in 1..given {
            if front as usize > turns || slips.is_full() {
                break;
            }
            if self.is_likely(SumSlip::Turned(front)) {
                slips.add(SumSlip::Turned(front));
            }
        }
    }

    // Adds those in which the constraints of two entries are exchanged.
    fn add_exchanged(&self, slips: &mut Slips) {
        let mut pairs = MOST_LOOKED_UP.max(self.refused.subject.text.len() / 16);
        let sum = self.sum(SumSlip::Multipliers(Relation::Nothing));
        for (position, entry) in self.entries.iter().enumerate() {
            for other in &self.entries[..position] {
                if pairs == 0 || slips.is_full() {
                    return;
                }
                pairs -= 1;
                if self.has_stated_row(sum, *entry, *other) {
                    slips.add(SumSlip::Exchanged(other.0, entry.0));
                }
            }
        }
    }

    // Whether a sum with this sketch looks as if it had the stated row with the constraints of two
    // entries exchanged.
    fn has_stated_row(&self, sum: Option<Residue>, one: (u32, Frac), other: (u32, Frac)) -> bool {
        let (Some(sum), Some(first), Some(second)) = (
            sum,
            self.sketches.get(one.0),
            self.sketches.get(other.0),
        ) else {
            return false;
        };
        let more = Residue::of(one.1).minus(Residue::of(other.1));
        let gain = more.times(second.minus(first));
        one.0 != other.0 && sum.plus(gain) == self.sketches.stated()
    }

    // Whether a sum with a slip undone looks as if it had the stated row, and enough indices are
    // other ones then.
    fn is_likely(&self, slip: SumSlip) -> bool {
        let mut changed: usize = 0;
        for entry in self.entries {
            if self.meant(slip, entry.0) != entry.0 {
                changed = changed.saturating_add(1);
            }
        }
        changed >= LEAST && self.sum(slip) == Some(self.sketches.stated())
    }

    // The sketch of the sum with a slip undone, if all its constraints are known.
    fn sum(&self, slip: SumSlip) -> Option<Residue> {
        let mut sum = Residue::zero();
        for entry in self.entries {
            let sketch = self.sketches.get(self.meant(slip, entry.0))?;
            sum = sum.plus(Residue::of(entry.1).times(sketch));
        }
        Some(sum)
    }

    // The index that is meant by one if a slip is undone.
    fn meant(&self, slip: SumSlip, index: u32) -> u32 {
        let given = self.given();
        match slip {
            SumSlip::Turned(front) if index < given => {
                let rest = given.saturating_sub(front);
                if index < rest {
                    index.saturating_add(front)
                } else {
                    index.saturating_sub(rest)
                }
            }
            SumSlip::Equations(count) => match self.twice.get(index as usize) {
                Some(meant) => *meant,
                None => index.saturating_sub(count),
            },
            SumSlip::Exchanged(one, other) if index == one => other,
            SumSlip::Exchanged(one, other) if index == other => one,
            _ => index,
        }
    }

    // The sum with a slip undone, if the derivation follows with it.
    fn try_slip(
        self,
        scratch: &mut Combination,
        slip: SumSlip,
    ) -> Result<Option<OtherSum>, AllocError>
        requires rows { DerivedBelow (variables self.refused.problem.now) self.refused.rows.now }
        requires variables { length scratch.old.sums ≡ variables self.refused.problem.now }
        ensures { length scratch.new.sums ≡ length scratch.old.sums }
    {
        let mut others = Vec::new(self.refused.subject.alloc);
        for entry in self.entries {
            others.push((self.meant(slip, entry.0), entry.1))?;
        }
        tried(self.refused, scratch, others, slip)
    }
}

// A sum of these entries, if a derivation follows with it, by the rule.
fn tried(
    refused: Refused<'_>,
    scratch: &mut Combination,
    entries: Vec<(u32, Frac)>,
    slip: SumSlip,
) -> Result<Option<OtherSum>, AllocError>
    requires rows { DerivedBelow (variables refused.problem.now) refused.rows.now }
    requires variables { length scratch.old.sums ≡ variables refused.problem.now }
    ensures { length scratch.new.sums ≡ length scratch.old.sums }
{
    let found = OtherSum::of(entries.as_slice(), slip);
    let follows = follows_by(refused, scratch, entries)?;
    Ok(follows.then_some(found))
}

// Whether a derivation follows from the sum of these entries, by the rule.
fn follows_by(
    refused: Refused<'_>,
    scratch: &mut Combination,
    entries: Vec<(u32, Frac)>,
) -> Result<bool, AllocError>
    requires rows { DerivedBelow (variables refused.problem.now) refused.rows.now }
    requires variables { length scratch.old.sums ≡ variables refused.problem.now }
    ensures { length scratch.new.sums ≡ length scratch.old.sums }
{
    let alloc = refused.subject.alloc;
    let step = step_by(alloc, refused.step, entries)?;
    let kept = apply_in(
        alloc,
        refused.subject.profile,
        refused.problem,
        None,
        refused.rows,
        scratch,
        &step,
    );
    drop(step);
    match kept {
        Ok(entry) => {
            drop(entry);
            Ok(true)
        }
        Err(RuleError::Memory) => Err(AllocError),
        Err(error) => {
            drop(error);
            Ok(false)
        }
    }
}

// A derivation by the sum of these entries, by its own word.
fn step_by(
    alloc: Global,
    step: &Derivation,
    entries: Vec<(u32, Frac)>,
) -> Result<Derivation, AllocError> {
    let constraint = or_drop!(step.constraint.clone(), entries);
    let mut other = Derivation::blank(alloc);
    other.constraint = constraint;
    other.reason = match step.reason {
        Reason::Rnd(_) => Reason::Rnd(entries),
        _ => Reason::Lin(entries),
    };
    Ok(other)
}
