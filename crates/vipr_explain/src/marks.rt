//! The places of items' names in a text, and of one more token of each.

use crate::excerpt::line_at;
use crate::text::{Span, Subject};
use crate::wanted::{Section, TextProgress, Wanted, count_of};
use crate::words::Words;
use std::alloc::{AllocError, Global};

/// The items that are looked for: constraints, of the problem or derived, solutions, or the claim,
/// whose index is 0.
#[derive(Clone, Copy)]
pub(crate) enum ItemSort {
    Constraints,
    Claim,
    Solutions,
}

impl ItemSort {
    // Whether the items of a section are of this kind.
    fn is_of(self, section: Section) -> bool {
        match (self, section) {
            (ItemSort::Constraints, Section::Constraints | Section::Derivations) => true,
            (ItemSort::Claim, Section::Claim) => true,
            (ItemSort::Solutions, Section::Solutions) => true,
            _ => false,
        }
    }

    // Whether a section is behind all items of this kind.
    fn is_behind(self, section: Section) -> bool {
        match (self, section) {
            (ItemSort::Claim, Section::Solutions | Section::Derivations) => true,
            (ItemSort::Solutions, Section::Derivations) => true,
            _ => false,
        }
    }
}

/// A token of an item. The first one is its name, or what is claimed.
#[derive(Clone, Copy)]
pub(crate) enum ItemPart {
    Name,
    LowerBound,
    UpperBound,
    Sense,
    RightHandSide,
    /// The number of coefficients or values.
    RowCount,
    /// The value or the coefficient of this variable.
    Value(u32),
    /// The constraint of this position that the reason refers to.
    Reference(usize),
    /// The multiplier of the entry of this position.
    Multiplier(usize),
    Reason,
    LastReference,
}

impl ItemPart {
    // Whether the next token of an item is this.
    fn is_at(self, progress: &TextProgress) -> bool {
        match (self, progress.wanted) {
            (ItemPart::Name, Wanted::Name | Wanted::Claim)
            | (ItemPart::LowerBound, Wanted::LowerBound)
            | (ItemPart::UpperBound, Wanted::UpperBound)
            | (ItemPart::Sense, Wanted::Sense)
            | (ItemPart::RightHandSide, Wanted::RightHandSide)
            | (ItemPart::RowCount, Wanted::RowCount)
            | (ItemPart::Reason, Wanted::Reason)
            | (ItemPart::LastReference, Wanted::LastReference) => true,
            (ItemPart::Value(variable), Wanted::RowCoefficient) => progress.variable == variable,
            (ItemPart::Reference(position), Wanted::EntryIndex | Wanted::Branch)
            | (ItemPart::Multiplier(position), Wanted::EntryMultiplier) => {
                progress.part as usize == position
            }
            _ => false,
        }
    }
}

/// What is looked for in a text: the names of items of a kind by their indices, and a part of the
/// last one of them. In the others that part is the reason.
#[derive(Clone, Copy)]
pub(crate) struct Sought<'a> {
    pub(crate) kind: ItemSort,
    pub(crate) items: &'a [u32],
    pub(crate) part: ItemPart,
    /// A constraint, whose last use is looked for, too, and its last reference.
    pub(crate) used: Option<u32>,
}

impl Sought<'_> {
    // The part of an item that is looked for, if this is the last item.
    fn part_of(self, end: u32, index: u32) -> ItemPart {
        match self.used {
            _ if index == end => self.part,
            Some(used) if used == index => ItemPart::LastReference,
            _ => ItemPart::Reason,
        }
    }

    // Whether nothing is looked for in a derivation of which the name was passed. Its only braces
    // are then those around its reason.
    fn leaves_out(self, progress: &TextProgress) -> bool {
        matches!(
            (progress.section, progress.wanted),
            (Section::Derivations, Wanted::Sense)
        ) && self.used.is_none()
            && !self.items.contains(&progress.index())
    }

    // Whether nothing is to come that is looked for, if this is the last item.
    fn is_past(self, progress: &TextProgress, end: u32) -> bool {
        self.used.is_none()
            && match progress.wanted {
                Wanted::Name => self.kind.is_of(progress.section) && progress.index() > end,
                Wanted::Keyword => self.kind.is_behind(progress.section),
                _ => false,
            }
    }
}

/// The place of an item's name, its line, and the place of the part of it that is looked for;
/// without one, that of the name again.
#[derive(Clone, Copy)]
pub(crate) struct ItemPlace {
    pub(crate) index: u32,
    pub(crate) name: Span,
    pub(crate) line: u64,
    pub(crate) part: Span,
}

impl ItemPlace {
    /// Whether the part that is looked for was found.
    pub(crate) fn has_part(&self) -> bool {
        self.part.offset != self.name.offset
    }
}

/// The places of items, and the last derivation that refers to a constraint, 0 if none does.
#[derive(Drop)]
pub(crate) struct Marks {
    pub(crate) places: Vec<ItemPlace>,
    pub(crate) user: u32,
}

impl Marks {
    /// Finds what is looked for in a text.
    pub(crate) fn find(
        alloc: Global,
        text: &[u8],
        sought: Sought<'_>,
    ) -> Result<Marks, AllocError> {
        let mut words = Words::of(text);
        let mut progress = TextProgress::start();
        let mut places = Vec::new(alloc);
        let mut user = 0;
        let end = greatest(sought.items);
        while !sought.is_past(&progress, end) {
            let Some(word) = words.next() else {
                break;
            };
            mark(&mut places, text, sought, &progress, end, word.span)?;
            user = later_user(user, sought.used, &progress, word.bytes);
            progress.pass(word.bytes);
            if sought.leaves_out(&progress) {
                words.pass_to(b'}');
                progress.pass_to_brace();
            }
        }
        Ok(Marks { places, user })
    }

    /// The place of an item, if it was found.
    pub(crate) fn place(&self, index: u32) -> Option<ItemPlace> {
        find_place(self.places.as_slice(), index).copied()
    }
}

/// The place of an item, and of this part of it.
pub(crate) fn find_item(
    subject: Subject<'_>,
    kind: ItemSort,
    index: u32,
    part: ItemPart,
) -> Result<Option<ItemPlace>, AllocError> {
    let items = [index];
    let sought = Sought {
        kind,
        items: items.as_slice(),
        part,
        used: None,
    };
    let marks = Marks::find(subject.alloc, subject.text, sought)?;
    let place = marks.place(index);
    drop(marks);
    Ok(place)
}

// A reference to the place of an item.
fn find_place(places: &[ItemPlace], index: u32) -> Option<&ItemPlace> {
    places.iter().find(|place| place.index == index)
}

// Marks a name, and what is looked for in the item that was marked last, if the item is one of
// those that are looked for.
fn mark(
    places: &mut Vec<ItemPlace>,
    text: &[u8],
    sought: Sought<'_>,
    progress: &TextProgress,
    end: u32,
    span: Span,
) -> Result<(), AllocError> {
    let is_name = ItemPart::Name.is_at(progress);
    // (most tokens are in rows and sums, and not what is looked for)
    if !is_name
        && !sought.part.is_at(progress)
        && !matches!(progress.wanted, Wanted::Reason | Wanted::LastReference)
    {
        return Ok(());
    }
    let index = progress.index();
    if (is_name || sought.part_of(end, index).is_at(progress))
        && sought.kind.is_of(progress.section)
        && sought.items.contains(&index)
    {
        if is_name {
            places.push(ItemPlace {
                index,
                name: span,
                line: line_at(text, span.offset),
                part: span,
            })?;
        } else {
            mark_part(places, span);
        }
    }
    Ok(())
}

// Marks a part of the item that was marked last.
fn mark_part(places: &mut Vec<ItemPlace>, span: Span) {
    if let Some(place) = places.last_mut() {
        place.part = span;
    }
}

// The last derivation that refers to a constraint, with the one at the next token.
fn later_user(user: u32, used: Option<u32>, progress: &TextProgress, word: &[u8]) -> u32 {
    match (used, progress.wanted) {
        (Some(used), Wanted::EntryIndex | Wanted::Branch) if count_of(word) == used => {
            progress.index()
        }
        _ => user,
    }
}

// The greatest of indices, 0 if there is none.
fn greatest(indices: &[u32]) -> u32 {
    indices.iter().copied().fold(0, u32::max)
}
