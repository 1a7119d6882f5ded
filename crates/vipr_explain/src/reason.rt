//! The reason of a derivation, with the constraints that it refers to.

use crate::algebra::{ShownName, VariableName};
use crate::changes::{Change, shifted};
use crate::excerpt::part_of;
use crate::marks::ItemPart;
use crate::page::Page;
use crate::shown::write_line;
use crate::step::{RefusedStep, StepAdvice, StepFault};
use std::alloc::{AllocError, Global};
use vipr_cert::{Reason, References};
use vipr_check::{StepDetail, cause};
use vipr_frac::Frac;
use vipr_linear::Sense;

/// How many entries of a sum are shown.
const MOST_ENTRIES: usize = 10;

/// How many entries are shown that a coefficient comes from.
const MOST_SOURCES: usize = 6;

/// The derivation's own constraint, and those before it that are shown of its reason.
pub(crate) fn step_indices(
    alloc: Global,
    fault: StepFault<'_>,
    reason: &Reason,
    advice: &StepAdvice,
) -> Result<Vec<u32>, AllocError> {
    let StepAdvice {
        doubts,
        changes,
        side,
        ..
    } = advice;
    let mut wanted = Vec::new(alloc);
    wanted.push(fault.index)?;
    match reason.references() {
        References::Nothing => {}
        References::Entries(entries) => {
            for entry in &entries[..entries.len().min(MOST_ENTRIES)] {
                add_earlier(&mut wanted, fault.index, entry.0)?;
            }
            match marked_position(fault, entries, advice) {
                Some(at) if at < entries.len() => {
                    add_earlier(&mut wanted, fault.index, entries[at].0)?;
                }
                _ => {}
            }
        }
        References::Branches { i1, l1, i2, l2 } => {
            for index in [i1, l1, i2, l2] {
                add_earlier(&mut wanted, fault.index, index)?;
            }
        }
    }
    for change in [changes.multiplier, changes.exchange, changes.addition] {
        if let Some(Change::Entry(_, index, _)) = change {
            add_earlier(&mut wanted, fault.index, index)?;
        }
    }
    if let Some(slip) = side {
        add_earlier(&mut wanted, fault.index, slip.index())?;
    }
    for doubtful in doubts.indices() {
        if let Some(index) = doubtful {
            add_earlier(&mut wanted, fault.index, index)?;
        }
    }
    if let Some(Change::Shift(from, by)) = changes.slip {
        add_earlier(&mut wanted, fault.index, shifted(from, from, by))?;
    }
    Ok(wanted)
}

// Adds a constraint that is before the derivation: of another one nothing is shown.
fn add_earlier(wanted: &mut Vec<u32>, own: u32, index: u32) -> Result<(), AllocError> {
    if index < own {
        wanted.push(index)?;
    }
    Ok(())
}

// The first entry of a sum that is at fault: a multiplier of 0 refers to nothing that can be
// dropped.
fn position_at_fault(fault: StepFault<'_>, entries: &[(u32, Frac)]) -> Option<usize> {
    match fault.what {
        StepDetail::Entry(entry) => Some(*entry as usize),
        StepDetail::Index(index) => {
            let is_any = fault.cause != cause::DROPPED;
            for (position, entry) in entries.iter().enumerate() {
                if entry.0 == *index && (is_any || !entry.1.is_zero()) {
                    return Some(position);
                }
            }
            None
        }
        _ => None,
    }
}

// The entry of a sum that is marked.
fn marked_position(
    fault: StepFault<'_>,
    entries: &[(u32, Frac)],
    advice: &StepAdvice,
) -> Option<usize> {
    let (multiplier, exchange) = advice.marked();
    match (fault.what, multiplier, exchange) {
        (StepDetail::Entry(_), Some(Change::Entry(position, ..)), _)
        | (StepDetail::Entry(_), None, Some(Change::Entry(position, ..))) => Some(position),
        (StepDetail::Entry(_), ..) if advice.entry.is_some() => advice.entry,
        _ => position_at_fault(fault, entries),
    }
}

/// The part of a derivation that is at fault, or that a change with which it follows is of.
pub(crate) fn part_at_fault(
    fault: StepFault<'_>,
    reason: &Reason,
    advice: &StepAdvice,
) -> ItemPart {
    let (multiplier, exchange) = advice.marked();
    match (multiplier, exchange) {
        (Some(Change::Entry(position, ..)), _) => return ItemPart::Multiplier(position),
        (None, Some(Change::Entry(position, ..))) => return ItemPart::Reference(position),
        (None, Some(Change::Word)) => return ItemPart::Reason,
        _ => {}
    }
    match (fault.what, reason.references(), exchange) {
        (StepDetail::Entry(position), ..) => {
            ItemPart::Multiplier(advice.entry.unwrap_or(*position as usize))
        }
        (StepDetail::Index(_), References::Entries(entries), _) => {
            match position_at_fault(fault, entries) {
                Some(position) => ItemPart::Reference(position),
                None => ItemPart::Name,
            }
        }
        (StepDetail::Index(index), References::Branches { i1, l1, i2, .. }, _) => {
            let is_assumption = fault.cause == cause::NOT_ASSUMPTION;
            ItemPart::Reference(match *index {
                index if index == i1 && !is_assumption => 0,
                index if index == l1 => 1,
                index if index == i2 && !is_assumption => 2,
                _ => 3,
            })
        }
        (_, References::Branches { i1, l1, i2, .. }, Some(Change::Join(join))) => {
            ItemPart::Reference(match join {
                _ if join.i1 != i1 => 0,
                _ if join.l1 != l1 => 1,
                _ if join.i2 != i2 => 2,
                _ => 3,
            })
        }
        (StepDetail::Pair(..), ..) => ItemPart::Reference(1),
        (StepDetail::Sum(_) | StepDetail::Nothing, ..) => ItemPart::Reason,
        (StepDetail::Rows { computed, stated }, ..) if !computed.row.is_same(&stated.row) => {
            ItemPart::Name
        }
        (StepDetail::Rows { stated, .. }, ..) if stated.is_absurd() => ItemPart::Reason,
        (StepDetail::Rows { computed, stated }, ..)
            if computed.sense == Sense::E || computed.sense == stated.sense => {
            ItemPart::RightHandSide
        }
        (StepDetail::Rows { .. }, ..) => ItemPart::Sense,
        _ => ItemPart::Name,
    }
}

/// What is said below this part of a derivation.
pub(crate) fn label_of(fault: StepFault<'_>, part: ItemPart, advice: &StepAdvice) -> &'static str {
    match part {
        _ if advice.has_no_mark() && matches!(fault.what, StepDetail::Pair(..)) => {
            "this assumption, and that of case 2"
        }
        ItemPart::Sense => "this sense",
        ItemPart::RightHandSide => "this right-hand side",
        ItemPart::Reference(_) => "this index",
        ItemPart::Multiplier(_) => "this multiplier",
        ItemPart::Reason => "this reason",
        _ => "this derivation",
    }
}

/// Writes the reason of a derivation: the first entries of a sum, and the one at fault.
pub(crate) fn write_reason(
    page: &mut Page,
    refused: &RefusedStep<'_>,
    fault: StepFault<'_>,
    reason: &Reason,
) {
    let own = fault.index;
    let word = reason.word();
    match reason.references() {
        References::Nothing => {
            let note = match reason {
                Reason::Sol => ", the cutoff at the best listed solution",
                _ => "",
            };
            write!(page, "  its reason   {word}{note}\n");
        }
        References::Entries(entries) => {
            let count = entries.len();
            write!(page, "  its reason   {word} of {count}:\n");
            let marked = marked_position(fault, entries, refused.advice());
            for (position, entry) in entries.iter().enumerate() {
                let (index, multiplier) = *entry;
                let is_marked = marked == Some(position);
                if position == MOST_ENTRIES {
                    write!(page, "      .. ({count} entries)\n");
                }
                if position < MOST_ENTRIES || is_marked {
                    write!(page, "      {multiplier} x ");
                    write_constraint(page, refused, own, index);
                    if let (true, StepDetail::Entry(_)) = (is_marked, fault.what) {
                        write!(page, " <-- entry {position}");
                        if refused.advice().entry == Some(position) {
                            write_other_sense(page, refused.stated().sense);
                        }
                    }
                    page.put("\n");
                }
            }
        }
        References::Branches { i1, l1, i2, l2 } => {
            let labels = [
                ("  case 1 gives ", i1),
                ("     assuming  ", l1),
                ("  case 2 gives ", i2),
                ("     assuming  ", l2),
            ];
            for (label, index) in labels {
                page.put(label);
                write_constraint(page, refused, own, index);
                if index < own {
                    write_word(page, refused, index);
                }
                page.put("\n");
            }
        }
    }
}

// Writes that an entry gives the other sense than the stated one.
fn write_other_sense(page: &mut Page, stated: Sense) {
    page.put(match stated {
        Sense::L => " gives >=, and <= is stated",
        _ => " gives <=, and >= is stated",
    });
}

// Writes the word of a constraint's reason, `given` if it is of the problem.
fn write_word(page: &mut Page, refused: &RefusedStep<'_>, index: u32) {
    let known = &refused.known;
    if (index as usize) < known.problem.cons().len() {
        page.put(" given");
    } else if let (Some(_), Some(place)) = (refused.constraint(index), known.marks.place(index)) {
        write!(page, " {}", ShownName(part_of(known.text, place.part)));
    }
}

// Writes a constraint that a derivation refers to.
fn write_constraint(page: &mut Page, refused: &RefusedStep<'_>, own: u32, index: u32) {
    if index < own {
        let constraint = refused.constraint(index);
        refused.known.write_constraint(page, index, constraint);
    } else if index == own {
        write!(page, "[{index}], this derivation itself");
    } else if let Some(place) = refused.known.marks.place(index) {
        refused.known.write_name(page, index);
        page.put(", which comes later");
        write_line(page, Some(place));
    } else {
        write!(page, "[{index}], which is not before this derivation");
    }
}

/// Writes which entries of a sum bring the coefficient of a variable.
pub(crate) fn write_sources(
    page: &mut Page,
    refused: &RefusedStep<'_>,
    entries: &[(u32, Frac)],
    variable: u32,
) {
    let name = VariableName(&refused.known.problem, variable);
    write!(page, "      {name} comes from");
    let mut count: usize = 0;
    for entry in entries {
        let (index, multiplier) = *entry;
        // (what has the multiplier 0 brings nothing, and may have been dropped)
        let coefficient = match refused.constraint(index) {
            Some(constraint) if !multiplier.is_zero() => constraint.row.coefficient(variable),
            _ => Frac::zero(),
        };
        if !coefficient.is_zero() {
            if count < MOST_SOURCES {
                page.put(if count == 0 { " " } else { ", " });
                write!(page, "{multiplier} x {coefficient} of [{index}]");
            }
            count = count.saturating_add(1);
        }
    }
    page.put(if count > MOST_SOURCES {
        " ..\n"
    } else if count == 0 {
        " no entry\n"
    } else {
        "\n"
    });
}
