//! What the goal needs: one pass from the end.
ghost use Rattle.std.specs.Prelude.{◌≡◌, ◌&&◌, nat_eq, length, map, IfOk};
ghost use Rattle.std.specs.List.{list_any};
ghost use Rattle.vipr_spec.specs.{Reading.is_nonzero, Tightened.include};
ghost use Rattle.vipr_write.specs.StepReasons.{kept_references_of};
ghost use Rattle.vipr_tighten.specs.Passes.{MarksAlso, AreMarks};

use crate::derived::Tightenable;
use std::alloc::{AllocError, Global};
use vipr_cert::References;
use vipr_write::{StepReferences, SumEntry};

/// For each derivation whether the goal needs it. The first one has the index `first`.
pub(crate) fn needed<D: Tightenable>(
    alloc: Global,
    steps: &[D],
    first: usize,
    goal: Option<u32>,
) -> Result<Vec<bool>, AllocError>
    ensures size { IfOk result (λ marks. length marks.items ≡ length steps.now) }
    ensures marks { IfOk result (λ marks. (view : D.View)
        → AreMarks goal first (map (D.derived view) steps.now) marks.items) }
{
    let mut marks = vec![in alloc; false; steps.len()]?;
    if let Some(index) = goal {
        mark(&mut marks, first, index);
    }
    for i in (0..steps.len()).rev() {
        if marks[i] {
            mark_references(&mut marks, first, steps[i].references());
        }
    }
    Ok(marks)
}

// Marks what a reason refers to that names these.
fn mark_references(marks: &mut [bool], first: usize, references: StepReferences<'_>)
    ensures { MarksAlso first (include (kept_references_of references.entry)) marks.old marks.new }
{
    match references {
        StepReferences::Whole(References::Nothing) => {}
        StepReferences::Whole(References::Entries(entries)) => mark_entries(marks, first, entries),
        StepReferences::Whole(References::Branches { i1, l1, i2, l2 }) => {
            mark(marks, first, i1);
            mark(marks, first, l1);
            mark(marks, first, i2);
            mark(marks, first, l2);
        }
        StepReferences::Short(entries) => mark_entries(marks, first, entries),
    }
}

// Marks what the entries with a nonzero multiplier name.
fn mark_entries<E: SumEntry>(marks: &mut [bool], first: usize, entries: &[E])
    ensures { MarksAlso first
        (λ i. list_any (λ e. nat_eq i e.0 && is_nonzero e) (map E.pair entries.now))
        marks.old marks.new }
{
    for entry in entries {
        if !entry.is_zero() {
            mark(marks, first, entry.index());
        }
    }
}

// Marks the derivation of this index, if there is one.
fn mark(marks: &mut [bool], first: usize, index: u32)
    ensures { MarksAlso first (λ i. nat_eq i index) marks.old marks.new }
{
    let index = index as usize;
    if first <= index && index - first < marks.len() {
        marks[index - first] = true;
    }
}
