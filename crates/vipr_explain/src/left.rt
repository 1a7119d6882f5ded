//! Why a constraint that is strong enough for a claim still rests on an assumption.
ghost use Rattle.vipr_spec.specs.Certificate.{variables};
ghost use Rattle.vipr_explain.specs.Replays.{IsReplayOf};

use crate::changes::{Change, Replay, first_that_follows};
use crate::items::open_derivations;
use crate::near::{Join, Near, NearSearch, is_turned, join_of, search_to};
use crate::page::Page;
use crate::shown::{PlacedItems, write_line};
use crate::sought::{Ranking, Refused};
use crate::text::{Reread, Subject};
use crate::unjoined::missing_join;
use std::alloc::AllocError;
use vipr_bytes::Bytes;
use vipr_cert::{Derivation, Problem, Reason, References};
use vipr_check::Table;
use vipr_frac::Frac;
use vipr_linear::Constraint;
use vipr_read::Derivations;
use vipr_rules::{Rows, Target};

/// How many bounds are tried in the place of an assumption.
const MOST_BOUNDS: usize = 8;

/// An assumption that a constraint rests on, which is strong enough for the claim but for that.
#[derive(Clone, Copy)]
pub(crate) struct LeftAssumption {
    index: u32,
    /// The first derivation on the way down from the constraint that names the assumption itself.
    user: u32,
    why: Why,
    /// Another bound with the same row, with which that derivation follows, too.
    bound: Option<u32>,
}

/// Why an assumption is left.
#[derive(Clone, Copy)]
enum Why {
    /// `join` takes it away from `case`, and `user` names the case in place of the join.
    Passed { join: u32, case: u32, user: u32 },
    /// `join` takes it away from its one case, and its other one, `case`, rests on it, too.
    OtherCase { join: u32, case: u32 },
    /// `join` takes it away from `case`, and it comes from elsewhere.
    Elsewhere { join: u32, case: u32 },
    /// `join` takes away `twin`, which says the same, so `meant` may be meant.
    Twin { join: u32, twin: u32, meant: Join },
    /// No derivation takes it away, and this join proves the claim.
    Missing(Join),
    /// No derivation takes it away; whether it bounds the objective.
    Never(bool),
}

/// The derivations of a text: what each of them joins, and by which constraint that it names each
/// one rests on an assumption.
#[derive(Drop)]
struct Trail {
    given: u32,
    assumption: u32,
    joins: Vec<Option<Join>>,
    ways: Vec<Option<u32>>,
}

/// The way from a constraint down to an assumption: the derivations on it, and the last one, which
/// names the assumption itself.
#[derive(Drop)]
struct WayDown {
    marks: Vec<bool>,
    user: u32,
}

impl Trail {
    // Reads how the derivations rest on an assumption.
    fn read(subject: Subject<'_>, assumption: u32) -> Reread<Trail> {
        let (problem, mut derivations) = open_derivations(subject.alloc, subject.text)?;
        let mut trail = Trail {
            given: problem.cons().len() as u32,
            assumption,
            joins: Vec::new(subject.alloc),
            ways: Vec::new(subject.alloc),
        };
        drop(problem);
        let passed = trail.pass_all(subject, &mut derivations);
        drop(derivations);
        or_drop!(passed, trail);
        Ok(trail)
    }

    // Passes all derivations.
    fn pass_all(
        &mut self,
        subject: Subject<'_>,
        derivations: &mut Derivations<Bytes<'_>>,
    ) -> Reread<()> {
        let count = derivations.left();
        let mut step = Derivation::blank(subject.alloc);
        for _ in 0..count {
            if or_drop!(derivations.next_into(subject.alloc, &mut step), step) {
                or_drop!(self.pass(&step.reason), step);
            }
        }
        drop(step);
        Ok(())
    }

    // Passes a derivation by this reason.
    fn pass(&mut self, reason: &Reason) -> Reread<()> {
        let way = self.way_of(reason);
        self.joins.push(join_of(reason))?;
        self.ways.push(way)?;
        Ok(())
    }

    // The first constraint by which a derivation by this reason rests on the assumption.
    fn way_of(&self, reason: &Reason) -> Option<u32> {
        match reason.references() {
            References::Nothing => None,
            References::Entries(entries) => self.way_of_sum(entries),
            References::Branches { i1, l1, i2, l2 } => {
                if l1 != self.assumption && self.rests(i1) {
                    Some(i1)
                } else if l2 != self.assumption && self.rests(i2) {
                    Some(i2)
                } else {
                    None
                }
            }
        }
    }

    // The first constraint of a sum that rests on the assumption.
    fn way_of_sum(&self, entries: &[(u32, Frac)]) -> Option<u32> {
        for entry in entries {
            if !entry.1.is_zero() && self.rests(entry.0) {
                return Some(entry.0);
            }
        }
        None
    }

    // Whether a constraint rests on the assumption.
    fn rests(&self, index: u32) -> bool {
        index == self.assumption || self.way(index).is_some()
    }

    // By which constraint one rests on the assumption that isn't the assumption itself.
    fn way(&self, index: u32) -> Option<u32> {
        let position = index.checked_sub(self.given)?;
        self.ways.get(position as usize).copied()?
    }

    // The index of the derivation at a position.
    fn index_at(&self, position: usize) -> u32 {
        match u32::try_from(position) {
            Ok(position) => self.given.saturating_add(position),
            Err(_) => u32::MAX,
        }
    }

    // The way down from a constraint.
    fn way_down(&self, subject: Subject<'_>, index: u32) -> Reread<WayDown> {
        let mut marks = Vec::new(subject.alloc);
        for _ in 0..self.ways.len() {
            marks.push(false)?;
        }
        let mut user = index;
        for _ in 0..self.ways.len() {
            if let Some(position) = user.checked_sub(self.given) {
                if let Some(mark) = marks.get_mut(position as usize) {
                    *mark = true;
                }
            }
            match self.way(user) {
                Some(next) if next != self.assumption => user = next,
                _ => break,
            }
        }
        Ok(WayDown { marks, user })
    }

    // What takes the assumption away, and why it is left all the same; none if nothing does. The
    // derivation that names a case in place of what joins it comes first, then a join on the way.
    fn why_joined(&self, way: &WayDown) -> Option<Why> {
        let mut found = None;
        let mut is_on_way = false;
        for (position, join) in self.joins.iter().enumerate() {
            if let Some((case, other)) = self.cases_of(*join) {
                let join = self.index_at(position);
                let is_there = way.has(self.given, join);
                if let (false, Some(user)) = (is_there, self.user_of(way, case)) {
                    if join < user {
                        return Some(Why::Passed { join, case, user });
                    }
                }
                if is_there {
                    found = Some(Why::OtherCase { join, case: other });
                    is_on_way = true;
                } else if !is_on_way {
                    found = Some(Why::Elsewhere { join, case });
                }
            }
        }
        found
    }

    // The case from which a join takes the assumption away, and the other one.
    fn cases_of(&self, join: Option<Join>) -> Option<(u32, u32)> {
        let Join { i1, l1, i2, l2 } = join?;
        if l1 == self.assumption {
            Some((i1, i2))
        } else if l2 == self.assumption {
            Some((i2, i1))
        } else {
            None
        }
    }

    // The derivation on the way that names this one there.
    fn user_of(&self, way: &WayDown, index: u32) -> Option<u32> {
        if !way.has(self.given, index) {
            return None;
        }
        for (position, mark) in way.marks.iter().enumerate() {
            let user = self.index_at(position);
            if *mark && self.way(user) == Some(index) {
                return Some(user);
            }
        }
        None
    }

    // A join on the way that takes away another assumption that says the same.
    fn twin(&self, way: &WayDown, rows: &Table, room: usize) -> Option<Why> {
        let own = &rows.get(self.assumption)?.constraint;
        let mut room = room;
        for (position, mark) in way.marks.iter().enumerate() {
            if let (true, Some((twin, meant))) = (*mark, self.twin_at(position)) {
                if let Some(entry) = rows.get(twin) {
                    let other = &entry.constraint;
                    room = room.checked_sub(other.row.entries().len())?;
                    if is_same(own, other) {
                        let join = self.index_at(position);
                        return Some(Why::Twin { join, twin, meant });
                    }
                }
            }
        }
        None
    }

    // The assumption that a join on the way takes away there, and the join with this one's in its
    // place.
    fn twin_at(&self, position: usize) -> Option<(u32, Join)> {
        let join = self.joins.get(position).copied()??;
        let assumption = self.assumption;
        if self.way(self.index_at(position)) == Some(join.i1) {
            Some((
                join.l1,
                Join {
                    l1: assumption,
                    ..join
                },
            ))
        } else {
            Some((
                join.l2,
                Join {
                    l2: assumption,
                    ..join
                },
            ))
        }
    }

    // The assumptions that joins on the way take away, those of the innermost branches first, and
    // then the problem's constraints: the first ones that bound the same row on the same side.
    fn bounds(
        &self,
        subject: Subject<'_>,
        way: &WayDown,
        problem: &Problem,
        rows: &Table,
    ) -> Result<Vec<u32>, AllocError> {
        let mut found = Vec::new(subject.alloc);
        let mut room = subject.text.len();
        let Some(own) = rows.get(self.assumption) else {
            return Ok(found);
        };
        let own = &own.constraint;
        for (position, mark) in way.marks.iter().enumerate() {
            if let (true, Some((index, _))) = (*mark, self.twin_at(position)) {
                if let Some(entry) = rows.get(index) {
                    let is_other = index != self.assumption;
                    if is_other && is_in_place(own, &entry.constraint, &mut room) {
                        add_bound(&mut found, index)?;
                    }
                }
            }
        }
        for (index, named) in problem.cons().iter().enumerate() {
            if is_in_place(own, &named.item, &mut room) {
                add_bound(&mut found, index as u32)?;
            }
        }
        Ok(found)
    }
}

impl WayDown {
    // Whether a derivation is on the way, in a problem of so many constraints.
    fn has(&self, given: u32, index: u32) -> bool {
        match index.checked_sub(given) {
            Some(position) => self.marks.get(position as usize).copied() == Some(true),
            None => false,
        }
    }
}

// Adds a bound, if there is room for it.
fn add_bound(found: &mut Vec<u32>, index: u32) -> Result<(), AllocError> {
    if found.len() < MOST_BOUNDS {
        found.push(index)?;
    }
    Ok(())
}

// Whether two constraints say the same.
fn is_same(own: &Constraint, other: &Constraint) -> bool {
    own.sense == other.sense && own.rhs == other.rhs && own.row.is_same(&other.row)
}

// Whether a constraint may be in the place of another one: it has the same row, and not the other
// sense. There is room for so many coefficients to be compared.
fn is_in_place(own: &Constraint, other: &Constraint, room: &mut usize) -> bool {
    let size = other.row.entries().len();
    if *room < size || is_turned(own.sense, other.sense) {
        return false;
    }
    *room -= size;
    own.row.is_same(&other.row)
}

impl LeftAssumption {
    /// Finds an assumption that a constraint rests on, and why: one that nothing takes away, or
    /// else the first one. None if it rests on itself.
    pub(crate) fn find(
        subject: Subject<'_>,
        problem: &Problem,
        search: &NearSearch,
    ) -> Reread<Option<LeftAssumption>> {
        let Some(strong) = first_strong(search) else {
            return Ok(None);
        };
        let Some(assumption) = left_of(subject, search, strong)? else {
            return Ok(None);
        };
        let rows = &search.replay.rows;
        let trail = Trail::read(subject, assumption)?;
        let way = or_drop!(trail.way_down(subject, strong.index), trail);
        let why = why_left(&trail, &way, problem, rows, subject.text.len());
        let user = way.user;
        let bounds = trail.bounds(subject, &way, problem, rows);
        drop(way);
        drop(trail);
        let bounds = bounds?;
        let mut why = why;
        if let Why::Never(_) = why {
            if let Some(join) = missing_join(subject, problem, search, strong, assumption)? {
                why = Why::Missing(join);
            }
        }
        let bound = match why {
            Why::OtherCase { .. } | Why::Elsewhere { .. } => {
                bound_for(subject, user, assumption, &bounds)?
            }
            _ => None,
        };
        Ok(Some(LeftAssumption {
            index: assumption,
            user,
            why,
            bound,
        }))
    }

    /// The constraints that are shown.
    pub(crate) fn indices(&self) -> [Option<u32>; 5] {
        let (first, second) = match self.why {
            Why::Passed { join, user, .. } => (Some(join), Some(user)),
            Why::OtherCase { join, .. } | Why::Elsewhere { join, .. } | Why::Twin { join, .. } => {
                (Some(join), None)
            }
            Why::Missing(_) | Why::Never(_) => (None, None),
        };
        [Some(self.index), Some(self.user), first, second, self.bound]
    }

    /// Writes which assumption it is, the derivation that names it, and why it is left.
    pub(crate) fn write(&self, page: &mut Page, known: &PlacedItems<'_>, search: &NearSearch) {
        let LeftAssumption { index, user, .. } = *self;
        page.put("  still assumed: ");
        let constraint = match search.replay.rows.get(index) {
            Some(entry) => Some(&entry.constraint),
            None => None,
        };
        known.write_constraint(page, index, constraint);
        page.put("\n");
        if user != index {
            page.put("  it comes in at ");
            write_place(page, known, user);
            page.put("\n");
        }
        page.put("  = help: ");
        self.write_why(page, known, &search.target);
        if let Some(bound) = self.bound {
            write!(page, "  = help: [{user}] follows with ");
            known.write_name(page, bound);
            write!(page, " in place of [{index}], too: ");
            write!(page, "is [{index}] a bound of another branch?\n");
        }
    }

    // Writes why it is left.
    fn write_why(&self, page: &mut Page, known: &PlacedItems<'_>, target: &Target) {
        let index = self.index;
        match self.why {
            Why::Passed { join, case, user } => {
                write_place(page, known, user);
                write!(page, " names [{case}], from which ");
                write_place(page, known, join);
                write!(
                    page,
                    " takes [{index}] away: is [{join}] meant in place of [{case}]?\n"
                );
            }
            Why::OtherCase { join, case } => {
                write_place(page, known, join);
                write!(page, " should take [{index}] away, ");
                write!(
                    page,
                    "but its other case, [{case}], rests on [{index}], too\n"
                );
            }
            Why::Elsewhere { join, case } => {
                write_place(page, known, join);
                write!(page, " takes [{index}] away from [{case}] alone\n");
            }
            Why::Twin { join, twin, meant } => {
                write_place(page, known, join);
                write!(page, " takes [{twin}] away, ");
                write!(
                    page,
                    "which says the same as [{index}]: is {meant} meant?\n"
                );
            }
            Why::Missing(join) => write_missing(page, index, join, target),
            Why::Never(true) => {
                write!(
                    page,
                    "no `uns` takes [{index}] away, and it bounds the objective: "
                );
                page.put("is a node still open? Then its bound has to be derived\n");
            }
            Why::Never(false) => {
                write!(page, "no `uns` takes [{index}] away: ");
                page.put("is one left out, or is a reason left out in place of `asm`?\n");
            }
        }
    }
}

// Writes that a join of two branches proves the claim, and is missing.
fn write_missing(page: &mut Page, index: u32, join: Join, target: &Target) {
    let Join { i1, l1, i2, l2 } = join;
    write!(page, "no `uns` takes [{index}] away: ");
    page.put("add the derivation `NAME ");
    match target {
        Target::Bound(Constraint { sense, rhs, .. })
        | Target::WholeBound(Constraint { sense, rhs, .. }) => write!(page, "{sense} {rhs} OBJ "),
        _ => page.put("G 1 0 "),
    }
    page.put("{ ");
    write!(page, "uns {i1} {l1} {i2} {l2} ");
    page.put("} -1`, and 1 to the count after DER\n");
}

// Writes a derivation's index, name and line.
fn write_place(page: &mut Page, known: &PlacedItems<'_>, index: u32) {
    known.write_name(page, index);
    write_line(page, known.marks.place(index));
}

// The first constraint that is strong enough.
fn first_strong(search: &NearSearch) -> Option<&Near> {
    search.near.iter().find(|near| near.is_strong)
}

// The first assumption of a constraint that nothing takes away, or else the first one; none if the
// constraint is an assumption itself.
fn left_of(
    subject: Subject<'_>,
    search: &NearSearch,
    strong: &Near,
) -> Result<Option<u32>, AllocError> {
    if strong.assumptions.contains(strong.index) {
        return Ok(None);
    }
    let mut is_removed = Vec::new(subject.alloc);
    for _ in 0..strong.index {
        is_removed.push(false)?;
    }
    for index in &search.removed {
        if let Some(mark) = is_removed.get_mut(*index as usize) {
            *mark = true;
        }
    }
    let mut first = None;
    for index in 0..strong.index {
        if strong.assumptions.contains(index) {
            if is_removed.get(index as usize).copied() == Some(false) {
                return Ok(Some(index));
            }
            if first.is_none() {
                first = Some(index);
            }
        }
    }
    Ok(first)
}

// Why an assumption is left, if there is room for so many coefficients to be compared.
fn why_left(trail: &Trail, way: &WayDown, problem: &Problem, rows: &Table, room: usize) -> Why {
    if let Some(why) = trail.why_joined(way) {
        return why;
    }
    if let Some(why) = trail.twin(way, rows, room) {
        return why;
    }
    let objective = problem.objective();
    match rows.get(trail.assumption) {
        Some(entry) => {
            Why::Never(!objective.is_empty() && entry.constraint.row.is_same(objective))
        }
        None => Why::Never(false),
    }
}

// The first of these bounds with which a derivation follows in place of an assumption that it
// names.
fn bound_for(
    subject: Subject<'_>,
    user: u32,
    assumption: u32,
    bounds: &[u32],
) -> Reread<Option<u32>> {
    let (problem, mut search, step) = search_to(subject, Some(user))?;
    let found = match &step {
        Some(step) => {
            let replay = &mut search.replay;
            try_bounds(subject, &problem, replay, step, assumption, bounds)
        }
        None => Ok(None),
    };
    drop(step);
    drop(search);
    drop(problem);
    Ok(found?)
}

// The same with the derivation, and what is before it.
fn try_bounds(
    subject: Subject<'_>,
    problem: &Problem,
    replay: &mut Replay,
    step: &Derivation,
    assumption: u32,
    bounds: &[u32],
) -> Result<Option<u32>, AllocError>
    requires { IsReplayOf (variables problem.now) replay.old }
{
    let refused = Refused {
        subject,
        problem,
        rows: &replay.rows,
        step,
    };
    let mut ranking = Ranking::new();
    if let References::Entries(entries) = step.reason.references() {
        for (position, entry) in entries.iter().enumerate() {
            if entry.0 == assumption {
                add_changes(&mut ranking, position, entry.1, bounds);
            }
        }
    }
    let found = first_that_follows(refused, &mut replay.scratch, &ranking)?;
    let Some(Change::Entry(_, index, _)) = found else {
        return Ok(None);
    };
    Ok(Some(index))
}

// Adds each bound in the place of an entry, the first ones first.
fn add_changes(ranking: &mut Ranking, position: usize, multiplier: Frac, bounds: &[u32]) {
    for (rank, bound) in bounds.iter().enumerate() {
        ranking.add(rank as u64, Change::Entry(position, *bound, multiplier));
    }
}
