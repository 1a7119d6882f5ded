//! Whether the indices after `INT` are all one too large or too small, as those of a program that
//! counts variables from 1.

use crate::page::Page;
use crate::slips::{ONE_LESS, ONE_MORE};
use vipr_cert::Problem;
use vipr_linear::{Ints, Row};

/// By how much the indices of the integer variables have to change, modulo 2^32, so that all
/// variables of a row are integer ones.
pub(crate) fn shift_for_row(ints: &Ints, row: &Row) -> Option<u32> {
    for by in [ONE_LESS, ONE_MORE] {
        let are_integer = row
            .entries()
            .iter()
            .all(|entry| ints.contains(entry.0.wrapping_sub(by)));
        if may_shift(ints, by) && are_integer {
            return Some(by);
        }
    }
    None
}

/// By how much they have to change so that the values of integer variables are whole.
pub(crate) fn shift_for_values(ints: &Ints, values: &Row) -> Option<u32> {
    for by in [ONE_LESS, ONE_MORE] {
        let are_whole = values.entries().iter().all(|entry| entry.1.is_whole()
            || !ints.contains(entry.0.wrapping_sub(by)));
        if may_shift(ints, by) && are_whole {
            return Some(by);
        }
    }
    None
}

// Whether the indices may be less: 0 isn't one of them.
fn may_shift(ints: &Ints, by: u32) -> bool {
    by != ONE_LESS || !ints.contains(0)
}

/// Asks whether the indices after `INT` have to change by so much, with which this is so.
pub(crate) fn write_shift(page: &mut Page, problem: &Problem, by: u32, what: &str) {
    let last = (problem.names().len() as u32).saturating_sub(1);
    if by == ONE_LESS {
        page.put("  = help: does INT count variables from 1? With each of its indices 1 less");
        write!(page, " {what}\n");
    } else if !problem.ints().contains(last) {
        page.put("  = help: is each index after INT 1 too small? With each of them 1 more");
        write!(page, " {what}\n");
    }
}
