//! The constraints that an explanation names, and how each is shown.

use crate::algebra::{Algebra, ShownName};
use crate::excerpt::{Excerpt, part_of};
use crate::lasts::{ask_about_last, write_dropped};
use crate::marks::{ItemPart, ItemPlace, ItemSort, Marks, Sought};
use crate::page::Page;
use crate::text::Subject;
use std::alloc::AllocError;
use vipr_cert::Problem;
use vipr_linear::Constraint;

/// A text, its problem, and the places of some constraints.
#[derive(Drop)]
pub(crate) struct PlacedItems<'a> {
    pub(crate) text: &'a [u8],
    pub(crate) problem: Problem,
    pub(crate) marks: Marks,
}

impl<'a> PlacedItems<'a> {
    /// The name of a constraint, if it is of the problem or its place is known.
    pub(crate) fn name(&self, index: u32) -> Option<&[u8]> {
        match self.problem.cons().get(index as usize) {
            Some(named) => Some(named.name.as_bytes()),
            None => Some(part_of(self.text, self.marks.place(index)?.name)),
        }
    }

    /// The place of the part of a constraint that was looked for.
    pub(crate) fn part(&self, index: u32) -> Option<Excerpt<'a>> {
        Some(Excerpt::of(self.text, self.marks.place(index)?.part))
    }

    /// Writes a constraint's index and name.
    pub(crate) fn write_name(&self, page: &mut Page, index: u32) {
        write!(page, "[{index}]");
        if let Some(name) = self.name(index) {
            write!(page, " {}", ShownName(name));
        }
    }

    /// Writes a constraint as it is listed: its index, its name, its algebra and its line.
    pub(crate) fn write_constraint(
        &self,
        page: &mut Page,
        index: u32,
        constraint: Option<&Constraint>,
    ) {
        self.write_name(page, index);
        match constraint {
            Some(constraint) => write!(page, "  {}", Algebra(&self.problem, constraint)),
            None => page.put(", which was dropped"),
        }
        write_line(page, self.marks.place(index));
    }
}

/// The places of the constraints of these indices.
pub(crate) fn find_names(subject: Subject<'_>, wanted: &[u32]) -> Result<Marks, AllocError> {
    let sought = Sought {
        kind: ItemSort::Constraints,
        items: wanted,
        part: ItemPart::Name,
        used: None,
    };
    Marks::find(subject.alloc, subject.text, sought)
}

/// Writes the place of the last reference of a constraint that was dropped, and what would do
/// there.
pub(crate) fn write_last_use(page: &mut Page, known: &PlacedItems<'_>, index: u32, file: &[u8]) {
    write_dropped(page, known, index);
    if let Some(place) = known.part(index) {
        let last = known.marks.user;
        place.write(page, file, format_args!("write {last} or -1 here"));
        if let Some(place) = known.marks.place(index) {
            ask_about_last(page, known, place, last);
        }
        write!(page, "  = help: is a constraint other than ");
        write!(page, "[{index}] meant?\n");
    }
}

/// Writes the line of a constraint, if its place is known.
pub(crate) fn write_line(page: &mut Page, place: Option<ItemPlace>) {
    if let Some(place) = place {
        let line = place.line;
        write!(page, "  (line {line})");
    }
}
