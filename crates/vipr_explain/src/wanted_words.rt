//! What a certificate's text has to have at a token, in words.

use crate::page::Page;
use crate::wanted::{Section, TextProgress, Wanted};

// What is wanted, in the order of `Wanted`, in front of what else is said of it.
const WORDS: [&str; 24] = [
    "the keyword",
    "the version `1.0`",
    "the number of",
    "the number of bounds among the constraints, a count in digits",
    "the name of",
    "the index of a variable",
    "`min` or `max`",
    "the sense `E`, `L` or `G`",
    "the right-hand side, a number",
    "the number of coefficients, a count in digits",
    "the index of a variable",
    "the coefficient of pair",
    "`infeas` or `range`",
    "the lower bound, a number or `-inf`",
    "the upper bound, a number or `inf`",
    "`{`, a token of its own",
    "a reason: `asm`, `lin`, `rnd`, `uns` or `sol`",
    "the number of entries, a count in digits",
    "the constraint's index in entry",
    "the multiplier of entry",
    "",
    "`}`, a token of its own",
    "the last reference: a constraint's index or -1",
    "the end of the text: the last derivation is before this",
];

/// Writes what is wanted.
pub(crate) fn write_wanted(page: &mut Page, progress: &TextProgress) {
    let (part, parts) = (progress.part, progress.parts);
    page.put(match (progress.wanted, progress.section) {
        (Wanted::RowCount, Section::Solutions) => "the number of values, a count in digits",
        (Wanted::RowCoefficient, Section::Solutions) => "the value of pair",
        (wanted, _) => WORDS[wanted as usize],
    });
    match progress.wanted {
        Wanted::Keyword => write!(page, " `{}`", progress.section.keyword()),
        Wanted::Count => write!(page, " {}s, a count in digits", progress.section.words().0),
        Wanted::Name => write!(page, " {} {}", progress.section.words().0, progress.index()),
        Wanted::IntegerIndex | Wanted::RowIndex => match progress.variables.checked_sub(1) {
            Some(last) => write!(page, ", 0 to {last}"),
            None => page.put(", but there is none"),
        },
        Wanted::RowCoefficient | Wanted::EntryIndex | Wanted::EntryMultiplier => {
            write!(page, " {part} (of {parts}, counted from 0)")
        }
        Wanted::Branch => page.put(match part {
            0 => "i1 of `uns`: the constraint that holds in the first case",
            1 => "l1 of `uns`: the assumption of the first case",
            2 => "i2 of `uns`: the constraint that holds in the second case",
            _ => "l2 of `uns`: the assumption of the second case",
        }),
        _ => {}
    }
}
