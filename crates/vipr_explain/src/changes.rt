//! Changes of a reason with which a refused derivation follows, each tried by the rule.
ghost use Rattle.std.specs.Prelude.{◌≡◌, ◌++◌, ◌∷◌, [], false, IfOk, IfSome, IsTrue};
ghost use Rattle.std.specs.Prelude.{if◌then◌else◌, length, map, nat_lt, set};
ghost use Rattle.vipr_spec.specs.Certificate.{variables};
ghost use Rattle.vipr_cert.specs.Items.{reason_of};
ghost use Rattle.vipr_table.specs.Table.{DerivedBelow};
ghost use Rattle.vipr_explain.specs.Changes.{FollowEach, FollowsWith, changed, changed_entries};
ghost use Rattle.vipr_explain.specs.Changes.{multiplied, shifted as shifted_index, shifted_entry};
ghost use Rattle.vipr_explain.specs.Replays.{IsReplayOf};

use crate::near::Join;
use crate::page::Page;
use crate::rounded::may_be_rounded;
use crate::shown::{PlacedItems, write_line};
use crate::slips::{MOST_LEFT_OUT, ONE_LESS, ONE_MORE};
use crate::sought::{Candidates, Ranking, Refused};
use std::alloc::{AllocError, Global};
use vipr_cert::{Derivation, Problem, Reason, References};
use vipr_check::Table;
use vipr_frac::Frac;
use vipr_linear::Combination;
use vipr_rules::{Rows, RuleError, apply_in};

/// How many changes of a reason are written.
const MOST_WRITTEN: usize = 2;

/// A change of a reason.
#[derive(Clone, Copy)]
pub enum Change {
    /// At this position of a sum an entry of a constraint with a multiplier, in place of another
    /// one, or behind the last one.
    Entry(usize, u32, Frac),
    /// What is joined.
    Join(Join),
    /// `rnd` in place of `lin`, or `lin` in place of `rnd`.
    Word,
    /// Each index from this one on is so much more, modulo 2^32.
    Shift(u32, u32),
    /// Each multiplier is multiplied by this.
    Factor(Frac),
}

/// Changes with which a refused derivation follows: another multiplier, another constraint with the
/// same one or another join, a change of all indices or all multipliers, and one more entry.
#[derive(Clone, Copy)]
pub struct Changes {
    pub multiplier: Option<Change>,
    pub exchange: Option<Change>,
    /// If there is a change of one part, it is one of all indices.
    pub slip: Option<Change>,
    pub addition: Option<Change>,
}

/// The derivations before one that is refused, as the rules keep them.
#[derive(Drop)]
pub(crate) struct Replay {
    pub(crate) rows: Table,
    pub(crate) scratch: Combination,
}

impl Change {
    // Writes that a derivation by this reason follows with it.
    fn write(&self, page: &mut Page, known: &PlacedItems<'_>, reason: &Reason) {
        if let Change::Shift(from, by) = *self {
            return write_shift(page, known, from, by);
        }
        page.put("  = help: with ");
        match *self {
            Change::Entry(position, index, multiplier) => {
                if let References::Entries(entries) = reason.references() {
                    write_entry(page, known, entries, position, index, multiplier);
                }
            }
            Change::Join(join) => write!(page, "{join}"),
            Change::Word => {
                let (other, word) = (other_word(reason), reason.word());
                write!(page, "`{other}` in place of `{word}`");
            }
            Change::Factor(factor) => write!(page, "every multiplier times {factor}"),
            Change::Shift(..) => {}
        }
        page.put(" the derivation follows");
        let given = known.problem.cons().len() as u32;
        if self.counts_from_zero(given, reason) {
            write_first_index(page, given);
        }
        page.put("\n");
    }

    /// Whether it takes a derivation in place of the index that it would have if derivations
    /// counted from 0, in a problem of so many constraints.
    pub(crate) fn counts_from_zero(&self, given: u32, reason: &Reason) -> bool {
        match (*self, reason.references()) {
            (Change::Entry(position, index, _), References::Entries(entries)) => {
                match entries.get(position) {
                    Some(entry) => is_moved(entry.0, index, given),
                    None => false,
                }
            }
            (Change::Join(join), References::Branches { i1, l1, i2, l2 }) => {
                let indices = [(i1, join.i1), (l1, join.l1), (i2, join.i2), (l2, join.l2)];
                let mut moved: usize = 0;
                for (old, index) in indices {
                    if is_moved(old, index, given) {
                        moved = moved.saturating_add(1);
                    } else if old != index {
                        return false;
                    }
                }
                moved == 1
            }
            _ => false,
        }
    }

    // Writes the multiplier, the index or the word that is new.
    fn write_token(&self, page: &mut Page, is_multiplier: bool, reason: &Reason) {
        match *self {
            Change::Entry(_, _, multiplier) if is_multiplier => write!(page, "{multiplier}"),
            Change::Entry(_, index, _) => write!(page, "{index}"),
            _ => page.put(other_word(reason)),
        }
    }
}

impl Changes {
    /// No change.
    pub(crate) fn none() -> Changes {
        Changes {
            multiplier: None,
            exchange: None,
            slip: None,
            addition: None,
        }
    }

    /// Whether there is none.
    pub(crate) fn is_empty(&self) -> bool {
        let has_none = self.multiplier.is_none() && self.exchange.is_none();
        has_none && self.slip.is_none() && self.addition.is_none()
    }

    /// Whether nothing but another multiplier would do, which looks like a rounded number.
    pub(crate) fn has_rounded_alone(&self) -> bool {
        if let Some(Change::Entry(_, _, multiplier)) = self.multiplier {
            self.exchange.is_none() && self.slip.is_none() && may_be_rounded(multiplier)
        } else {
            false
        }
    }

    /// Writes a line for each change of a reason, at most two.
    pub(crate) fn write(&self, page: &mut Page, known: &PlacedItems<'_>, reason: &Reason) {
        let mut count: usize = 0;
        for change in [self.slip, self.multiplier, self.exchange, self.addition] {
            if let (Some(change), true) = (change, count < MOST_WRITTEN) {
                change.write(page, known, reason);
                count = count.saturating_add(1);
            }
        }
    }

    /// Whether the first one is a change of all parts.
    pub(crate) fn begin_with_slip(&self) -> bool {
        self.slip.is_some()
    }

    /// Whether the first change is one of a token of a sum.
    pub(crate) fn has_token(&self) -> bool {
        self.multiplier.is_some() || matches!(self.exchange, Some(Change::Entry(..) | Change::Word))
    }

    /// Writes that token as it is with the change.
    pub(crate) fn write_token(&self, page: &mut Page, reason: &Reason) {
        if let Some(change) = self.multiplier {
            change.write_token(page, true, reason);
        } else if let Some(change) = self.exchange {
            change.write_token(page, false, reason);
        }
    }
}

// Writes that a derivation follows with a shift of its indices, and what is likely then.
fn write_shift(page: &mut Page, known: &PlacedItems<'_>, from: u32, by: u32) {
    let given = known.problem.cons().len() as u32;
    page.put("  = help: with every index ");
    if from > 0 {
        write!(page, "from {from} on ");
    }
    let less = 0_u32.wrapping_sub(by);
    match by {
        ONE_LESS => page.put("one less"),
        ONE_MORE => page.put("one more"),
        _ if less <= MOST_LEFT_OUT => write!(page, "{less} less"),
        more => write!(page, "{more} more"),
    }
    page.put(" the derivation follows");
    if from == 0 || from == given {
        write_first_index(page, given);
        page.put("\n");
    } else {
        let moved = shifted(from, from, by);
        match by {
            ONE_LESS => page.put(": is a line left out before "),
            ONE_MORE => page.put(": is there a line too many before "),
            _ if less <= MOST_LEFT_OUT => write!(page, ": are {less} lines left out before "),
            more => write!(page, ": are there {more} lines too many before "),
        }
        known.write_name(page, moved);
        write_line(page, known.marks.place(moved));
        page.put("?\n");
    }
}

/// Whether an index is another one with the number of the problem's constraints added, which there
/// are.
pub(crate) fn is_moved(old: u32, index: u32, given: u32) -> bool {
    given > 0 && old < given && old.checked_add(given) == Some(index)
}

// Writes which index the first derivation has.
fn write_first_index(page: &mut Page, given: u32) {
    let plural = if given == 1 { "" } else { "s" };
    write!(
        page,
        " (indices count from 0: the problem has {given} constraint{plural}, "
    );
    write!(page, "so the first derivation is {given})");
}

// The word of the other sum with these entries.
fn other_word(reason: &Reason) -> &'static str {
    match reason {
        Reason::Lin(_) => "rnd",
        _ => "lin",
    }
}

// Writes an entry of a constraint with a multiplier, and the one in whose place it is.
fn write_entry(
    page: &mut Page,
    known: &PlacedItems<'_>,
    entries: &[(u32, Frac)],
    position: usize,
    index: u32,
    multiplier: Frac,
) {
    match entries.get(position) {
        None => {
            write!(page, "one more entry, {multiplier} x ");
            known.write_name(page, index);
            page.put(",");
        }
        Some(entry) if entry.0 == index => {
            let old = entry.1;
            write!(page, "the multiplier {multiplier} in place of {old} at ");
            known.write_name(page, index);
        }
        Some(entry) => {
            known.write_name(page, index);
            page.put(" in place of ");
            known.write_name(page, entry.0);
            write!(page, " at entry {position}");
        }
    }
}

impl Replay {
    /// No derivation was passed.
    pub(crate) fn new(alloc: Global, problem: &Problem) -> Result<Replay, AllocError>
        ensures { IfOk result (IsReplayOf (variables problem.now)) }
    {
        match Combination::new(alloc, problem.names().len() as u32) {
            Ok(scratch) => Ok(Replay {
                rows: Table::new(alloc, problem.cons().len() as u32),
                scratch,
            }),
            Err(error) => Err(error),
        }
    }
}

/// Changes with which a refused derivation follows, at most one of each kind. Each was tried by the
/// rule.
///
/// `scratch` is made for the problem's number of variables; what it holds doesn't matter.
///
/// # Errors
///
/// A growth that was refused.
pub fn changes_of(refused: Refused<'_>, scratch: &mut Combination) -> Result<Changes, AllocError>
    requires rows { DerivedBelow (variables refused.problem.now) refused.rows.now }
    requires variables { length scratch.old.sums ≡ variables refused.problem.now }
    ensures { IfOk result (FollowEach refused.entry) }
{
    let mut candidates = Candidates::find(refused, scratch)?;
    let multiplier = first_that_follows(refused, scratch, &candidates.multipliers)?;
    let exchange = first_that_follows(refused, scratch, &candidates.exchanges)?;
    if multiplier.is_some() || exchange.is_some() {
        keep_those_of_all(&mut candidates.slips, refused.problem.cons().len() as u32);
    }
    let slip = first_that_follows(refused, scratch, &candidates.slips)?;
    let addition = first_that_follows(refused, scratch, &candidates.additions)?;
    Ok(Changes {
        multiplier,
        exchange,
        slip,
        addition,
    })
}

// Keeps the shifts of all indices, or of those of all derivations, if the problem has so many
// constraints.
fn keep_those_of_all(slips: &mut Ranking, given: u32) {
    for place in 0..slips.0.len() {
        let is_of_all = match slips.0[place].1 {
            Some(Change::Shift(from, _)) => from == 0 || from == given,
            _ => false,
        };
        if !is_of_all {
            slips.0[place].1 = None;
        }
    }
}

/// The first change with which a derivation follows.
pub(crate) fn first_that_follows(
    refused: Refused<'_>,
    scratch: &mut Combination,
    candidates: &Ranking,
) -> Result<Option<Change>, AllocError>
    requires rows { DerivedBelow (variables refused.problem.now) refused.rows.now }
    requires variables { length scratch.old.sums ≡ variables refused.problem.now }
    ensures variables { length scratch.new.sums ≡ length scratch.old.sums }
    ensures follows { IfOk result (λ found. IfSome found (FollowsWith refused.entry)) }
{
    for known in &candidates.0 {
        if let Some(change) = known.1 {
            if follows(refused, scratch, &change)? {
                return Ok(Some(change));
            }
        }
    }
    Ok(None)
}

// Whether a derivation follows with a change, by the rule.
fn follows(
    refused: Refused<'_>,
    scratch: &mut Combination,
    change: &Change,
) -> Result<bool, AllocError>
    requires rows { DerivedBelow (variables refused.problem.now) refused.rows.now }
    requires variables { length scratch.old.sums ≡ variables refused.problem.now }
    ensures variables { length scratch.new.sums ≡ length scratch.old.sums }
    ensures follows { IfOk result (λ is. IsTrue is → FollowsWith refused.entry change.now) }
{
    let alloc = refused.subject.alloc;
    let profile = refused.subject.profile;
    let step = match changed_step(alloc, refused.step, change) {
        Ok(step) => step,
        Err(error) => return is_none(error),
    };
    let kept = apply_in(
        alloc,
        profile,
        refused.problem,
        None,
        refused.rows,
        scratch,
        &step,
    );
    drop(step);
    match kept {
        Ok(entry) => {
            drop(entry);
            Ok(true)
        }
        Err(error) => is_none(error),
    }
}

// That a derivation doesn't follow, unless a growth was refused.
fn is_none(error: RuleError) -> Result<bool, AllocError>
    ensures { IfOk result (λ is. is ≡ false) }
{
    match error {
        RuleError::Memory => Err(AllocError),
        error => {
            drop(error);
            Ok(false)
        }
    }
}

// A derivation with its reason changed.
fn changed_step(alloc: Global, step: &Derivation, change: &Change) -> Result<Derivation, RuleError>
    ensures stated { IfOk result (λ d. d.constraint ≡ step.now.constraint) }
    ensures reason { IfOk result
        (λ d. reason_of d.reason ≡ changed change.now (reason_of step.now.reason)) }
{
    let constraint = step.constraint.clone()?;
    let reason = or_drop!(changed_reason(alloc, &step.reason, change), constraint);
    let mut changed = Derivation::blank(alloc);
    changed.constraint = constraint;
    changed.reason = reason;
    Ok(changed)
}

// A reason with a change.
fn changed_reason(alloc: Global, reason: &Reason, change: &Change) -> Result<Reason, RuleError>
    ensures { IfOk result (λ r. reason_of r ≡ changed change.now (reason_of reason.now)) }
{
    match (reason, *change) {
        (Reason::Lin(entries), Change::Word) => {
            Ok(Reason::Rnd(changed_entries(alloc, entries, change)?))
        }
        (Reason::Rnd(entries), Change::Word) | (Reason::Lin(entries), _) => {
            Ok(Reason::Lin(changed_entries(alloc, entries, change)?))
        }
        (Reason::Rnd(entries), _) => Ok(Reason::Rnd(changed_entries(alloc, entries, change)?)),
        (Reason::Uns { .. }, Change::Join(Join { i1, l1, i2, l2 })) => {
            Ok(Reason::Uns { i1, l1, i2, l2 })
        }
        (Reason::Uns { i1, l1, i2, l2 }, Change::Shift(from, by)) => Ok(Reason::Uns {
            i1: shifted(*i1, from, by),
            l1: shifted(*l1, from, by),
            i2: shifted(*i2, from, by),
            l2: shifted(*l2, from, by),
        }),
        _ => Ok(reason.clone()?),
    }
}

// Entries with a change.
fn changed_entries(
    alloc: Global,
    entries: &[(u32, Frac)],
    change: &Change,
) -> Result<Vec<(u32, Frac)>, RuleError>
    ensures { IfOk result (λ es. es.items ≡ changed_entries change.now entries.now) }
{
    match *change {
        Change::Shift(from, by) => Ok(shifted_entries(alloc, entries, from, by)?),
        Change::Factor(factor) => multiplied_entries(alloc, entries, factor),
        Change::Entry(position, index, multiplier) => {
            Ok(replaced_entry(alloc, entries, position, (index, multiplier))?)
        }
        Change::Join(_) | Change::Word => Ok(entries.to_vec(alloc)?),
    }
}

// Entries with another one at this position, or behind the last one.
fn replaced_entry(
    alloc: Global,
    entries: &[(u32, Frac)],
    position: usize,
    entry: (u32, Frac),
) -> Result<Vec<(u32, Frac)>, AllocError>
    ensures { IfOk result (λ es. es.items ≡ if nat_lt position (length entries.now)
        then set entries.now position entry else entries.now ++ entry ∷ []) }
{
    let mut changed = entries.to_vec(alloc)?;
    if position < changed.len() {
        changed[position] = entry;
    } else {
        changed.push(entry)?;
    }
    Ok(changed)
}

// Entries with their indices shifted.
fn shifted_entries(
    alloc: Global,
    entries: &[(u32, Frac)],
    from: u32,
    by: u32,
) -> Result<Vec<(u32, Frac)>, AllocError>
    ensures { IfOk result (λ es. es.items ≡ map (shifted_entry from by) entries.now) }
{
    entries
        .iter()
        .map(|entry| (shifted(entry.0, from, by), entry.1))
        .collect(alloc)
}

// Entries with their multipliers multiplied by a factor, if all fit.
#[tactic(auto, using(std::proofs::lemmas::List::map_more))]
fn multiplied_entries(
    alloc: Global,
    entries: &[(u32, Frac)],
    factor: Frac,
) -> Result<Vec<(u32, Frac)>, RuleError>
    ensures { IfOk result (λ es. es.items ≡ map (multiplied factor) entries.now) }
{
    let mut changed = Vec::new(alloc);
    for (position, entry) in entries.iter().enumerate() {
        match entry.1.mul(factor) {
            Ok(multiplier) => {
                if changed.push((entry.0, multiplier)).is_err() {
                    return Err(RuleError::Memory);
                }
            }
            Err(_) => return Err(RuleError::Overflow(position)),
        }
    }
    Ok(changed)
}

/// An index with a shift of all from one on by so much, modulo 2^32.
pub(crate) fn shifted(index: u32, from: u32, by: u32) -> u32
    ensures { result ≡ shifted_index from by index }
{
    if index < from {
        index
    } else {
        index.wrapping_add(by)
    }
}
