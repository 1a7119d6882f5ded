//! Derivations that a refused one names, though they come later in the text.

use crate::marks::{Marks, Sought};
use crate::page::Page;
use crate::shown::{PlacedItems, find_names, write_line};
use crate::text::Subject;
use std::alloc::{AllocError, Global};
use vipr_cert::{Reason, References};

/// How many of them are looked for.
const MOST_LATER: usize = 10;

/// Finds what is looked for in a text, and the names of the later derivations that the derivation
/// of this index names.
pub(crate) fn marks_with_later(
    subject: Subject<'_>,
    sought: Sought<'_>,
    own: u32,
    reason: &Reason,
) -> Result<Marks, AllocError> {
    let mut marks = Marks::find(subject.alloc, subject.text, sought)?;
    let later = or_drop!(later_indices(subject.alloc, own, reason), marks);
    if later.is_empty() {
        return Ok(marks);
    }
    let found = or_drop!(find_names(subject, later.as_slice()), marks);
    for place in &found.places {
        marks.places.push(*place)?;
    }
    drop(found);
    Ok(marks)
}

// The first constraints that a reason names and that aren't before its derivation.
fn later_indices(alloc: Global, own: u32, reason: &Reason) -> Result<Vec<u32>, AllocError> {
    let mut later = Vec::new(alloc);
    match reason.references() {
        References::Nothing => {}
        References::Entries(entries) => {
            for entry in &entries[..entries.len().min(MOST_LATER)] {
                if entry.0 > own {
                    later.push(entry.0)?;
                }
            }
        }
        References::Branches { i1, l1, i2, l2 } => {
            for index in [i1, l1, i2, l2] {
                if index > own {
                    later.push(index)?;
                }
            }
        }
    }
    Ok(later)
}

/// Writes what is likely if a derivation names this one, which isn't earlier.
pub(crate) fn write_not_earlier(page: &mut Page, known: &PlacedItems<'_>, own: u32, index: u32) {
    if let (true, Some(place)) = (index > own, known.marks.place(index)) {
        page.put("  = help: ");
        known.write_name(page, index);
        write_line(page, Some(place));
        page.put(" comes later: a derivation comes after all that it names, so a `uns` ");
        page.put("comes after its cases. Was a tree written from its root on?\n");
    }
    let count = known.problem.cons().len();
    let plural = if count == 1 { "" } else { "s" };
    page.put("  = help: indices count from 0: the problem has ");
    write!(page, "{count} constraint{plural}, ");
    write!(page, "so the first derivation is {count}\n");
}
