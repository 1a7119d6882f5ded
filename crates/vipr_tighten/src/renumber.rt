//! New indices and last references: one pass from the front.
ghost use Rattle.std.specs.Prelude.{◌≡◌, ◌+◌, ◌<◌, ◌≤◌, ◌&&◌, nat_eq, OnOk, map, ◌∷◌, [], length};
ghost use Rattle.std.specs.Prelude.{take, drop, slice_index_or};
ghost use Rattle.std.specs.List.{list_any};
ghost use Rattle.vipr_spec.specs.Tightened.{include, refers_to, renumbered_entries};
ghost use Rattle.vipr_spec.specs.Tightened.{renumbered_reason, with_new_indices, kept_derivations};
ghost use Rattle.vipr_spec.specs.Tightened.{referred_by};
ghost use Rattle.vipr_spec.specs.{Certificate.lin, Reading.is_nonzero, Reading.most_count};
ghost use Rattle.vipr_cert.specs.Items.{reason_of};
ghost use Rattle.vipr_write.specs.StepReasons.{entry_of, kept_reason_of, kept_references_of};
ghost use Rattle.vipr_tighten.specs.Passes.{NameEarlier, kept_by, index_by, TakesOver};

use crate::derived::Tightenable;
use std::alloc::{AllocError, Global};
use vipr_cert::{Reason, References};
use vipr_write::{ShortEntry, StepReason, StepReferences, SumEntry};

/// Keeps the derivations with a mark, in their order, under their new indices and with their last
/// references. The first one has the index `first`.
pub(crate) fn renumber<D: Tightenable>(
    alloc: Global,
    steps: &mut Vec<D>,
    marks: &[bool],
    first: u32,
) -> Result<(), AllocError>
    requires size { length marks.now ≡ length steps.old.items }
    requires few { first + length steps.old.items ≤ most_count }
    ensures { OnOk result ((view : D.View)
        → NameEarlier first (map (D.derived view) steps.old.items)
        → map (D.derived view) steps.new.items
        ≡ kept_derivations (kept_by first marks.now) first (map (D.derived view) steps.old.items)) }
{
    let mut table = Vec::with_capacity(alloc, steps.len())?;
    let mut kept = 0;
    for place in 0..steps.len() {
        let index = first + kept as u32;
        if marks[place] {
            take_over(steps, kept, place, first, &table);
            kept += 1;
        }
        table.push(index)?;
    }
    steps.truncate(kept);
    Ok(())
}

// Takes the one at a place over, behind the first `kept`: under its new indices, and as the last
// reference of those that it refers to.
fn take_over<D: Tightenable>(steps: &mut [D], kept: usize, place: usize, first: u32, table: &[u32])
    requires behind { kept ≤ place }
    requires there { place < length steps.old }
    requires few { first + kept ≤ most_count }
    ensures left { drop (place + 1) steps.new ≡ drop (place + 1) steps.old }
    ensures kept { (view : D.View) (x : D) → x ≡ slice_index_or steps.old place x
        → TakesOver (with_new_indices (index_by first table.now) (D.derived view x)) (first + kept)
        first (map (D.derived view) (take kept steps.old))
        (map (D.derived view) (take (kept + 1) steps.new)) }
{
    steps.swap(kept, place);
    let (front, back) = steps.split_at_mut(kept);
    let moved = &mut back[0];
    moved.renumber(first, table);
    moved.set_last(None);
    set_last_by(front, first, &*moved, first + kept as u32);
}

// The new index of a constraint. The table has those of the derivations; past them it is 0.
fn index_of(index: u32, first: u32, table: &[u32]) -> u32
    ensures { result ≡ index_by first table.now index }
{
    if index < first {
        return index;
    }
    let place = (index - first) as usize;
    if place < table.len() {
        return table[place];
    }
    0
}

// Takes out the entries with multiplier 0, and gives the others their new indices.
fn renumber_entries<E: SumEntry>(entries: &mut Vec<E>, first: u32, table: &[u32])
    ensures { map E.pair entries.new.items
        ≡ renumbered_entries (index_by first table.now) (map E.pair entries.old.items) }
{
    entries.retain(|entry| !entry.is_zero());
    for i in 0..entries.len() {
        let moved = index_of(entries[i].index(), first, table);
        entries[i].set_index(moved);
    }
}

// The reason of one entry under its new index, unless its multiplier is 0.
fn renumbered_one(entry: ShortEntry, first: u32, table: &[u32]) -> StepReason
    ensures { kept_reason_of result
        ≡ lin (renumbered_entries (index_by first table.now) (entry_of entry ∷ [])) }
{
    if entry.is_zero() {
        StepReason::Empty
    } else {
        let mut moved = entry;
        moved.index = index_of(entry.index, first, table);
        StepReason::One(moved)
    }
}

/// Gives a reason the new indices.
pub(crate) fn renumber_reason(reason: &mut Reason, first: u32, table: &[u32])
    ensures { reason_of reason.new
        ≡ renumbered_reason (index_by first table.now) (reason_of reason.old) }
{
    match reason {
        Reason::Asm | Reason::Sol => {}
        Reason::Lin(entries) => renumber_entries(entries, first, table),
        Reason::Rnd(entries) => renumber_entries(entries, first, table),
        Reason::Uns { i1, l1, i2, l2 } => {
            *i1 = index_of(*i1, first, table);
            *l1 = index_of(*l1, first, table);
            *i2 = index_of(*i2, first, table);
            *l2 = index_of(*l2, first, table);
        }
    }
}

/// Gives the reason of a step the new indices.
pub(crate) fn renumber_step_reason(reason: &mut StepReason, first: u32, table: &[u32])
    ensures { kept_reason_of reason.new
        ≡ renumbered_reason (index_by first table.now) (kept_reason_of reason.old) }
{
    match reason {
        StepReason::Asm | StepReason::Empty => {}
        StepReason::One(entry) => *reason = renumbered_one(*entry, first, table),
        StepReason::Lin(entries) => renumber_entries(entries, first, table),
        StepReason::Rnd(entries) => renumber_entries(entries, first, table),
        StepReason::Whole(reason) => renumber_reason(reason, first, table),
    }
}

// Gives those that a later one refers to this last reference.
fn set_last_by<D: Tightenable>(kept: &mut [D], first: u32, later: &D, last: u32)
    ensures { (view : D.View) → map (D.derived view) kept.new
        ≡ referred_by (refers_to (D.derived view later.now).reason) last first
        (map (D.derived view) kept.old) }
{
    set_lasts(kept, first, later.references(), last);
}

// Gives those that a later reason refers to that names these this last reference.
fn set_lasts<D: Tightenable>(kept: &mut [D], first: u32, references: StepReferences<'_>, last: u32)
    ensures { (view : D.View) → map (D.derived view) kept.new
        ≡ referred_by (include (kept_references_of references.entry)) last first
        (map (D.derived view) kept.old) }
{
    match references {
        StepReferences::Whole(References::Nothing) => {}
        StepReferences::Whole(References::Entries(entries)) => {
            set_last_named(kept, first, entries, last);
        }
        StepReferences::Whole(References::Branches { i1, l1, i2, l2 }) => {
            set_last_at(kept, first, i1, last);
            set_last_at(kept, first, l1, last);
            set_last_at(kept, first, i2, last);
            set_last_at(kept, first, l2, last);
        }
        StepReferences::Short(entries) => set_last_named(kept, first, entries, last),
    }
}

// Gives those that entries with a nonzero multiplier name this last reference.
fn set_last_named<D: Tightenable, E: SumEntry>(kept: &mut [D], first: u32, entries: &[E], last: u32)
    ensures { (view : D.View) → map (D.derived view) kept.new
        ≡ referred_by
        (λ i. list_any (λ e. nat_eq i e.0 && is_nonzero e) (map E.pair entries.now)) last first
        (map (D.derived view) kept.old) }
{
    for entry in entries {
        if !entry.is_zero() {
            set_last_at(kept, first, entry.index(), last);
        }
    }
}

// Gives the one of this index, if it is there, this last reference.
fn set_last_at<D: Tightenable>(kept: &mut [D], first: u32, index: u32, last: u32)
    ensures { (view : D.View) → map (D.derived view) kept.new
        ≡ referred_by (λ i. nat_eq i index) last first (map (D.derived view) kept.old) }
{
    if first <= index {
        let place = (index - first) as usize;
        if place < kept.len() {
            kept[place].set_last(Some(last));
        }
    }
}
