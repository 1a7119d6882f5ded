//! What a last reference may mean that is too small.

use crate::excerpt::part_of;
use crate::marks::ItemPlace;
use crate::page::Page;
use crate::shown::PlacedItems;
use crate::token::{DIGITS, are_all};
use crate::wanted::{Section, TextProgress, Wanted, count_of};
use crate::words::Words;

/// From so many last references on it is asked what they count.
const LEAST_REFERENCES: u64 = 2;

/// How many digits an index has at most.
const MOST_DIGITS: usize = 9;

/// How a text names one constraint, and what its last references are.
#[derive(Clone, Copy)]
struct Uses {
    /// How often the constraint is named.
    count: u32,
    /// The first and the last derivation that name it.
    first: u32,
    last: u32,
    /// How many last references there are but -1, and how many of them are above the index of
    /// their own derivation.
    references: u64,
    above: u64,
}

impl Uses {
    // Finds them in a text.
    fn find(text: &[u8], index: u32) -> Uses {
        let mut words = Words::of(text);
        let mut progress = TextProgress::start();
        let mut uses = Uses {
            count: 0,
            first: 0,
            last: 0,
            references: 0,
            above: 0,
        };
        for _ in 0..text.len() {
            let Some(word) = words.next() else {
                break;
            };
            uses.take(&progress, word.bytes, index);
            progress.pass(word.bytes);
        }
        uses
    }

    // Takes the next token.
    fn take(&mut self, progress: &TextProgress, word: &[u8], index: u32) {
        match progress.wanted {
            Wanted::EntryIndex | Wanted::Branch if count_of(word) == index => {
                if self.count == 0 {
                    self.first = progress.index();
                }
                self.last = progress.index();
                self.count = self.count.saturating_add(1);
            }
            Wanted::LastReference if are_all(word, DIGITS) => {
                self.references = self.references.saturating_add(1);
                if count_of(word) > progress.index() {
                    self.above = self.above.saturating_add(1);
                }
            }
            _ => {}
        }
    }
}

/// Writes why a constraint may not be named, by its last reference at this place.
pub(crate) fn write_dropped(page: &mut Page, known: &PlacedItems<'_>, index: u32) {
    if let Some(stated) = stated_last(known, index) {
        if stated <= index {
            write!(page, "  the last reference of [{index}], {stated}, ");
            write!(
                page,
                "is not above {index} itself, so nothing may name [{index}]\n"
            );
            return;
        }
    }
    write!(
        page,
        "  constraint {index} was dropped after its stated last reference\n"
    );
}

// The last reference of a constraint, if it is a number that fits.
fn stated_last(known: &PlacedItems<'_>, index: u32) -> Option<u32> {
    let place = known.marks.place(index)?;
    let word = part_of(known.text, place.part);
    if place.has_part() && are_all(word, DIGITS) && word.len() <= MOST_DIGITS {
        Some(count_of(word))
    } else {
        None
    }
}

/// Asks what a last reference means, if a later derivation is the last one that names the
/// constraint at this place.
pub(crate) fn ask_about_last(
    page: &mut Page,
    known: &PlacedItems<'_>,
    place: ItemPlace,
    user: u32,
) {
    let own = place.index;
    let Some(stated) = stated_last(known, own) else {
        return;
    };
    let given = known.problem.cons().len() as u32;
    let meant = stated.saturating_add(given);
    if stated <= own && meant >= user && count_from_zero(known.text) {
        write!(page, "  = help: {stated} is not above {own}: ");
        page.put("do last references count derivations from 0? ");
        write!(page, "Then add {given} to each: {meant} here\n");
    } else if has_same_digits(stated, user) {
        page.put("  = help: are digits exchanged? The last derivation that names it ");
        write!(page, "is {user}, and {stated} is written\n");
    } else {
        ask_about_uses(page, &Uses::find(known.text, own), own, stated);
    }
}

// Asks whether a last reference counts something, or is the first one.
fn ask_about_uses(page: &mut Page, uses: &Uses, own: u32, stated: u32) {
    let Uses {
        count,
        first,
        last,
        ..
    } = *uses;
    if stated == first && first < last {
        write!(
            page,
            "  = help: {first} is the first derivation that names [{own}], "
        );
        write!(page, "and {last} the last one: write the last one\n");
    } else if stated <= own && stated == count {
        write!(page, "  = help: [{own}] is named ");
        match count {
            1 => page.put("once: "),
            _ => write!(page, "{count} times: "),
        }
        write_no_number(page, uses, "is the last reference a count of that?");
    } else if stated <= own && own.checked_add(stated) == Some(last) {
        write!(
            page,
            "  = help: derivation {last} is {stated} below [{own}]: "
        );
        write_no_number(
            page,
            uses,
            "is the last reference counted from its own line?",
        );
    } else if uses.references >= LEAST_REFERENCES && uses.above == 0 {
        page.put("  = help: no last reference in DER is above the index of its own line: ");
        page.put("each is the index of the last derivation that names it, or -1\n");
    }
}

// Asks what a last reference counts, and says what it is.
fn write_no_number(page: &mut Page, uses: &Uses, question: &str) {
    page.put(question);
    page.put(" It is the index of the last derivation that names the constraint");
    if uses.references >= LEAST_REFERENCES && uses.above == 0 {
        page.put("; here none is above the index of its own line");
    }
    page.put("\n");
}

// Whether each last reference but -1 is the number of a later derivation, counted from 0, if the
// text is whole.
fn count_from_zero(text: &[u8]) -> bool {
    let mut words = Words::of(text);
    let mut progress = TextProgress::start();
    let mut count: u64 = 0;
    for _ in 0..text.len() {
        let Some(word) = words.next() else {
            break;
        };
        if let Wanted::LastReference = progress.wanted {
            if are_all(word.bytes, DIGITS) {
                let number = count_of(word.bytes);
                if number <= progress.item || progress.items <= number {
                    return false;
                }
                count = count.saturating_add(1);
            }
        }
        progress.pass(word.bytes);
        if let (Wanted::Sense, Section::Derivations) = (progress.wanted, progress.section) {
            words.pass_to(b'}');
            progress.pass_to_brace();
        }
    }
    count >= LEAST_REFERENCES && matches!(progress.wanted, Wanted::Nothing)
}

/// Whether two numbers that differ have the same digits.
pub(crate) fn has_same_digits(one: u32, other: u32) -> bool {
    let are_same = (0..10).all(|digit| count_digit(one, digit) == count_digit(other, digit));
    one != other && are_same
}

// How often a digit is in a number.
fn count_digit(number: u32, digit: u32) -> u32 {
    let mut rest = number;
    let mut count: u32 = 0;
    for _ in 0..10 {
        if rest > 0 && rest % 10 == digit {
            count = count.saturating_add(1);
        }
        rest /= 10;
    }
    count
}
