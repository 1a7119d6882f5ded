//! Whether the names of constraints or derivations carry numbers that aren't in the order of the
//! lines, as those of lines that were sorted by name.

use crate::text::Span;
use crate::token::DIGITS;
use crate::wanted::{Section, TextProgress, Wanted, count_of};
use crate::words::{TextWord, Words};

/// How many names there are at least whose numbers have an order.
const LEAST_NAMES: u64 = 3;

/// How many digits a number in a name has at most.
const MOST_DIGITS: usize = 9;

/// Two constraints in a row of which the second one's name has the smaller number.
#[derive(Clone, Copy)]
pub(crate) struct NameOrder {
    /// The index of the first one.
    pub(crate) index: u32,
    pub(crate) first: Span,
    pub(crate) second: Span,
}

// The numbers at the ends of the names of a section.
#[derive(Clone, Copy)]
struct NumberedNames {
    count: u64,
    sum: u64,
    least: u64,
    most: u64,
    /// The last name with its index and its number.
    last: Option<(u32, u64, Span)>,
    /// The first two in a row of which the second one has the smaller number.
    turn: Option<NameOrder>,
    /// Whether each name ends with a number.
    are_numbered: bool,
}

impl NameOrder {
    /// The first two among the derivations, or else among the problem's constraints, if the names
    /// of these have all numbers from the least one to the greatest.
    pub(crate) fn find(text: &[u8]) -> Option<NameOrder> {
        let mut words = Words::of(text);
        let mut progress = TextProgress::start();
        let mut given = NumberedNames::none();
        let mut derived = NumberedNames::none();
        for _ in 0..text.len() {
            let Some(word) = words.next() else {
                break;
            };
            let is_name = matches!(progress.wanted, Wanted::Name);
            let index = progress.index();
            progress.pass(word.bytes);
            match progress.section {
                Section::Constraints if is_name => given.add(index, word),
                Section::Derivations if is_name => {
                    derived.add(index, word);
                    if !derived.are_numbered {
                        break;
                    }
                    words.pass_to(b'}');
                    progress.pass_to_brace();
                }
                _ => {}
            }
        }
        // (what is after a refused derivation need not be a certificate's)
        let is_whole = matches!(progress.wanted, Wanted::Nothing);
        match derived.order() {
            Some(order) if is_whole => Some(order),
            _ => given.order(),
        }
    }
}

impl NumberedNames {
    // No name.
    fn none() -> NumberedNames {
        NumberedNames {
            count: 0,
            sum: 0,
            least: u64::MAX,
            most: 0,
            last: None,
            turn: None,
            are_numbered: true,
        }
    }

    // Adds the name of the next constraint, whose index this is.
    fn add(&mut self, index: u32, name: TextWord<'_>) {
        let Some(number) = number_of(name.bytes) else {
            self.are_numbered = false;
            return;
        };
        let second = name.span;
        if let (Some((index, before, first)), None) = (self.last, self.turn) {
            if number < before {
                self.turn = Some(NameOrder {
                    index,
                    first,
                    second,
                });
            }
        }
        self.last = Some((index, number, second));
        self.count = self.count.saturating_add(1);
        self.sum = self.sum.saturating_add(number);
        self.least = self.least.min(number);
        self.most = self.most.max(number);
    }

    // The first two that aren't in order, if the numbers look like all from the least one to the
    // greatest.
    fn order(&self) -> Option<NameOrder> {
        let ends = self.least.saturating_add(self.most);
        let has_all = self.are_numbered
            && self.count >= LEAST_NAMES
            && self.most.saturating_sub(self.least).saturating_add(1) == self.count
            && ends.saturating_mul(self.count) == self.sum.saturating_mul(2);
        if has_all { self.turn } else { None }
    }
}

// The number that a name ends with.
fn number_of(name: &[u8]) -> Option<u64> {
    let digits = name
        .iter()
        .rev()
        .take_while(|byte| DIGITS.contains(*byte))
        .count();
    let is_number = 0 < digits && digits <= MOST_DIGITS;
    let number = &name[name.len().saturating_sub(digits)..];
    is_number.then_some(u64::from(count_of(number)))
}
