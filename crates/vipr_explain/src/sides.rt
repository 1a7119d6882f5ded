//! The right-hand side or the sense of a constraint that is likely to be wrong if a sum has the
//! stated row, and doesn't say what is stated.
ghost use Rattle.std.specs.Prelude.{◌≡◌, length};
ghost use Rattle.vipr_spec.specs.Certificate.{variables};

use crate::algebra::{sign_of, size_of};
use crate::page::Page;
use crate::shown::{PlacedItems, write_line};
use crate::sought::{Refused, constraint_at, inverse, less_sum};
use std::alloc::AllocError;
use vipr_cert::{Reason, References};
use vipr_frac::Frac;
use vipr_linear::{Combination, Sense, compares};
use vipr_rules::Rows;

/// In a sum of more entries than these no side is sought.
const MOST_ENTRIES: usize = 100;

/// From this size on a number may be one that was cut to 32 bits.
const LEAST_CUT: i128 = 0x10_0000;

// 2 to the power of 32.
const CUT: i128 = 0x1_0000_0000;

/// A change of one constraint with which a sum of it and others says what is stated.
#[derive(Clone, Copy)]
pub(crate) enum SideSlip {
    /// Another right-hand side of the constraint.
    Side(u32, Frac),
    /// The right-hand side that was cut to 32 bits.
    Cut(u32, Frac),
    /// The other sense.
    Sense(u32),
}

// A sum that has the stated row: its right-hand side.
#[derive(Clone, Copy)]
struct SideSum<'a> {
    refused: Refused<'a>,
    entries: &'a [(u32, Frac)],
    side: Frac,
}

impl SideSlip {
    /// The one change of a constraint that was written, and doesn't follow from others, with which
    /// a derivation follows.
    pub(crate) fn find(
        refused: Refused<'_>,
        scratch: &mut Combination,
    ) -> Result<Option<SideSlip>, AllocError>
        requires { length scratch.old.sums ≡ variables refused.problem.now }
        ensures { length scratch.new.sums ≡ length scratch.old.sums }
    {
        let References::Entries(entries) = refused.step.reason.references() else {
            return Ok(None);
        };
        if entries.len() > MOST_ENTRIES {
            return Ok(None);
        }
        let stated = &refused.step.constraint;
        let Some(missing) = less_sum(refused, scratch, stated, Frac::one(), entries)? else {
            return Ok(None);
        };
        let has_row = missing.row.is_empty();
        let side = stated.rhs.add(missing.rhs.neg());
        drop(missing);
        match side {
            Ok(side) if has_row => {
                let sum = SideSum {
                    refused,
                    entries,
                    side,
                };
                Ok(sum.slip())
            }
            _ => Ok(None),
        }
    }

    /// The constraint that it changes.
    pub(crate) fn index(&self) -> u32 {
        match self {
            SideSlip::Side(index, _) | SideSlip::Cut(index, _) | SideSlip::Sense(index) => *index,
        }
    }

    /// Asks whether it is what is wrong, of a constraint with this right-hand side and sense.
    pub(crate) fn write(&self, page: &mut Page, known: &PlacedItems<'_>, side: Frac, sense: Sense) {
        page.put("  = help: with ");
        match self {
            SideSlip::Side(_, meant) => write!(page, "{meant} in place of {side}"),
            SideSlip::Cut(_, meant) => {
                let way = if meant.numer() < 0 { "less" } else { "more" };
                write!(page, "{meant}, which is 2^32 {way}, in place of {side}");
            }
            SideSlip::Sense(_) => {
                let (present, meant) = (sign_of(sense), sign_of(turned(sense)));
                write!(page, "{meant} in place of {present}");
            }
        }
        page.put(" in ");
        known.write_name(page, self.index());
        write_line(page, known.marks.place(self.index()));
        page.put(" the derivation follows: ");
        page.put(match self {
            SideSlip::Cut(..) => "was a number cut to 32 bits?\n",
            _ => "is that meant?\n",
        });
    }
}

// The sense of a constraint times -1.
fn turned(sense: Sense) -> Sense {
    match sense {
        Sense::L => Sense::G,
        Sense::G => Sense::L,
        Sense::E => Sense::E,
    }
}

// The sense that a constraint of this sense gives a sum with a multiplier.
fn given_sense(sense: Sense, multiplier: Frac) -> Sense {
    match sense {
        _ if multiplier.is_zero() => Sense::E,
        sense if multiplier.numer() < 0 => turned(sense),
        sense => sense,
    }
}

impl SideSum<'_> {
    // The one change of a constraint with which it says what is stated.
    fn slip(&self) -> Option<SideSlip> {
        let (at_most, at_least) = self.senses();
        match (at_most, at_least) {
            (0, 0) => self.side_slip(self.refused.step.constraint.sense),
            (0, _) => self.side_slip(Sense::G),
            (_, 0) => self.side_slip(Sense::L),
            (1, _) if self.says(Sense::G, self.side) => self.sense_slip(Sense::L),
            (_, 1) if self.says(Sense::L, self.side) => self.sense_slip(Sense::G),
            _ => None,
        }
    }

    // How many entries give `<=`, and how many `>=`.
    fn senses(&self) -> (usize, usize) {
        let mut at_most: usize = 0;
        let mut at_least: usize = 0;
        for entry in self.entries {
            match self.sense_of(*entry) {
                Sense::L => at_most = at_most.saturating_add(1),
                Sense::G => at_least = at_least.saturating_add(1),
                Sense::E => {}
            }
        }
        (at_most, at_least)
    }

    // The sense that an entry gives.
    fn sense_of(&self, entry: (u32, Frac)) -> Sense {
        match constraint_at(self.refused, entry.0) {
            Some(constraint) => given_sense(constraint.sense, entry.1),
            None => Sense::E,
        }
    }

    // Whether a sum with the stated row says what is stated, if it has this sense and side.
    fn says(&self, sense: Sense, side: Frac) -> bool {
        let stated = &self.refused.step.constraint;
        let side = match (&self.refused.step.reason, sense) {
            (Reason::Rnd(_), Sense::G) => Frac::new(side.ceil(), 1).unwrap_or(side),
            (Reason::Rnd(_), Sense::L) => Frac::new(side.floor(), 1).unwrap_or(side),
            _ => side,
        };
        if stated.row.is_empty() && !compares(sense, Frac::zero(), side) {
            return true;
        }
        sense == stated.sense && compares(sense, side, stated.rhs)
    }

    // That the one constraint whose entry gives this sense has the other one.
    fn sense_slip(&self, other: Sense) -> Option<SideSlip> {
        for entry in self.entries {
            if self.sense_of(*entry) == other && self.is_written(entry.0) {
                return Some(SideSlip::Sense(entry.0));
            }
        }
        None
    }

    // The one other right-hand side with which the sum, which has this sense, says what is stated.
    fn side_slip(&self, sense: Sense) -> Option<SideSlip> {
        let mut found = None;
        for entry in self.entries {
            if let (Some(slip), true) = (self.slip_at(*entry, sense), self.is_written(entry.0)) {
                if found.is_some() {
                    return None;
                }
                found = Some(slip);
            }
        }
        found
    }

    // The whole right-hand side, or the one that was cut, with which a sum of this sense says what
    // is stated.
    fn slip_at(&self, entry: (u32, Frac), sense: Sense) -> Option<SideSlip> {
        let (index, multiplier) = entry;
        let present = constraint_at(self.refused, index)?.rhs;
        if let Some(meant) = uncut(present) {
            if self.follows_with(present, meant, multiplier, sense) == Some(true) {
                return Some(SideSlip::Cut(index, meant));
            }
        }
        let stated = &self.refused.step.constraint;
        if stated.row.is_empty() {
            return None;
        }
        let gap = stated.rhs.add(self.side.neg()).ok()?;
        let meant = present.add(gap.mul(inverse(multiplier)?).ok()?).ok()?;
        let is_plain = meant != present && meant.is_whole() && present.is_whole();
        if is_plain && self.follows_with(present, meant, multiplier, sense)? {
            return Some(SideSlip::Side(index, meant));
        }
        None
    }

    // Whether the sum says what is stated with another right-hand side at an entry.
    fn follows_with(
        &self,
        present: Frac,
        meant: Frac,
        multiplier: Frac,
        sense: Sense,
    ) -> Option<bool> {
        let more = meant.add(present.neg()).ok()?.mul(multiplier).ok()?;
        Some(self.says(sense, self.side.add(more).ok()?))
    }

    // Whether a constraint was written, and doesn't follow from others, and one entry alone is of
    // it.
    fn is_written(&self, index: u32) -> bool {
        let is_derived = match self.refused.rows.get(index) {
            Some(entry) => !entry.is_assumption,
            None => false,
        };
        let mut count: usize = 0;
        for entry in self.entries {
            if entry.0 == index {
                count = count.saturating_add(1);
            }
        }
        count == 1 && !is_derived
    }
}

// The number that may have been cut to 32 bits.
fn uncut(present: Frac) -> Option<Frac> {
    let size = size_of(present);
    if !present.is_whole() || size.numer() < LEAST_CUT || size.numer() >= CUT {
        return None;
    }
    let step = if present.numer() < 0 { CUT } else { -CUT };
    present.add(Frac::new(step, 1).ok()?).ok()
}
