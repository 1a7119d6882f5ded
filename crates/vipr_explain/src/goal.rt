//! What proves the claim, and which constraints come nearest to it if none does.

use crate::algebra::{Algebra, sign_of, size_of};
use crate::decimal::{About, Measured, exact_decimal};
use crate::excerpt::Excerpt;
use crate::items::open_problem;
use crate::left::LeftAssumption;
use crate::marks::Marks;
use crate::near::{Join, Near, NearSearch, OpenJoin, is_turned, search_to};
use crate::page::Page;
use crate::scaled::{Scaled, find_scaled};
use crate::shown::{PlacedItems, find_names, write_line};
use crate::solution::{ListedValues, is_exchanged};
use crate::text::{Reread, Subject};
use crate::understated::Understated;
use std::alloc::AllocError;
use vipr_cert::{Claim, Derivation, Goal, Problem};
use vipr_check::{Report, Table};
use vipr_frac::Frac;
use vipr_linear::{Constraint, Sense, compares};
use vipr_rules::{Rows, Target};

/// How many assumptions of a constraint are shown.
const MOST_ASSUMPTIONS: u32 = 4;

/// The constraint that proves the dual side of a claim: its index, and its derivation, if it isn't
/// of the problem.
#[derive(Drop)]
pub(crate) struct ProvedGoal<'a> {
    index: u32,
    known: PlacedItems<'a>,
    step: Option<Derivation>,
}

/// What proves a claim: the constraint that proves the dual side, if one has to, and the solutions.
#[derive(Drop)]
pub(crate) struct ProvedClaim<'a> {
    goal: Option<ProvedGoal<'a>>,
    values: ListedValues,
}

impl<'a> ProvedGoal<'a> {
    // Reads the constraint of this index.
    fn find(subject: Subject<'a>, index: u32) -> Reread<ProvedGoal<'a>> {
        let marks = find_names(subject, [index].as_slice())?;
        let (problem, search, step) = or_drop!(search_to(subject, Some(index)), marks);
        drop(search);
        let text = subject.text;
        let known = PlacedItems {
            text,
            problem,
            marks,
        };
        Ok(ProvedGoal { index, known, step })
    }

    // Writes it.
    fn write(&self, page: &mut Page) {
        let given = self.known.problem.cons().get(self.index as usize);
        let constraint = match (&self.step, given) {
            (Some(step), _) => Some(&step.constraint),
            (None, Some(named)) => Some(&named.item),
            (None, None) => None,
        };
        page.put("  goal   ");
        self.known.write_constraint(page, self.index, constraint);
        page.put("\n");
    }
}

impl<'a> ProvedClaim<'a> {
    /// Reads what proves the claim of a report.
    pub(crate) fn find(subject: Subject<'a>, report: &Report) -> Reread<ProvedClaim<'a>> {
        let goal = match report.goal {
            Some(goal) => Some(ProvedGoal::find(subject, goal)?),
            None => None,
        };
        let values = or_drop!(ListedValues::find(subject), goal);
        Ok(ProvedClaim { goal, values })
    }

    /// Writes the page of a verified certificate: what proves each side of its claim.
    pub(crate) fn write(&self, page: &mut Page, report: &Report) {
        let claim = &report.claim;
        write!(page, "proved: {claim}\n");
        if let Claim::Range(lower, upper) = *claim {
            write_decimal(page, lower);
            if upper != lower {
                write_decimal(page, upper);
            }
        }
        match &self.goal {
            Some(goal) => goal.write(page),
            None => page.put("  nothing has to be proved of the dual side\n"),
        }
        if !matches!(claim, Claim::Infeas) {
            page.put("  primal ");
            self.values.write_best(page);
        }
    }
}

// Writes a bound that isn't whole as a decimal: the one that it is, or one that is close.
fn write_decimal(page: &mut Page, bound: Option<Frac>) {
    match bound {
        Some(bound) if !bound.is_whole() => {
            write!(page, "  {bound} ");
            match exact_decimal(bound) {
                Some(decimal) => write!(page, "= {decimal}\n"),
                None => write!(page, "is about {}\n", About(bound)),
            }
        }
        _ => {}
    }
}

/// What is known if no constraint proves the claim: what is wanted, and the nearest constraints.
#[derive(Drop)]
pub(crate) struct UnprovedClaim<'a> {
    search: NearSearch,
    known: PlacedItems<'a>,
    /// Whether a solution is listed, which is feasible then.
    has_solution: bool,
    /// The strongest bound on the objective that is proved, if infeasibility is claimed.
    proved: Option<ProvedBound>,
    advice: UnprovedAdvice,
}

/// What was found out of a claim that no constraint proves.
#[derive(Clone, Copy)]
struct UnprovedAdvice {
    /// A join whose cases rest on each other's assumptions.
    crossed: Option<OpenJoin>,
    /// The assumption that is left of a constraint that is strong enough.
    left: Option<LeftAssumption>,
    /// A constraint of which a multiple proves the claim.
    scaled: Option<Scaled>,
    /// A sum that is absurd and states less, if no constraint is.
    understated: Option<Understated>,
}

impl UnprovedAdvice {
    // Finds it out.
    fn find(
        subject: Subject<'_>,
        problem: &Problem,
        search: &NearSearch,
    ) -> Reread<UnprovedAdvice> {
        let mut advice = UnprovedAdvice {
            crossed: crossed_join(search),
            left: None,
            scaled: None,
            understated: None,
        };
        if advice.crossed.is_none() {
            advice.left = LeftAssumption::find(subject, problem, search)?;
        }
        match &search.target {
            Target::Bound(bound) | Target::WholeBound(bound) => {
                advice.scaled = find_scaled(problem, &search.replay.rows, bound);
            }
            Target::Absurdity if search.near.is_empty() => {
                advice.understated = Understated::find(subject)?;
            }
            _ => {}
        }
        Ok(advice)
    }

    // The constraints that are shown.
    fn indices(&self) -> [Option<u32>; 8] {
        let crossed = match &self.crossed {
            Some(open) => Some(open.index),
            None => None,
        };
        let [first, second, third, fourth, fifth] = match &self.left {
            Some(left) => left.indices(),
            None => [None; 5],
        };
        let scaled = match &self.scaled {
            Some(scaled) => Some(scaled.index),
            None => None,
        };
        let understated = match &self.understated {
            Some(known) => Some(known.index),
            None => None,
        };
        [
            crossed,
            first,
            second,
            third,
            fourth,
            fifth,
            scaled,
            understated,
        ]
    }
}

/// A bound on the objective that a constraint states which rests on no assumption.
#[derive(Clone, Copy)]
struct ProvedBound {
    index: u32,
    sense: Sense,
    side: Frac,
    /// Whether a listed solution attains it.
    is_attained: bool,
}

impl<'a> UnprovedClaim<'a> {
    /// Reads the constraints that come nearest.
    pub(crate) fn find(subject: Subject<'a>) -> Reread<UnprovedClaim<'a>> {
        let (problem, solutions) = open_problem(subject.alloc, subject.text)?;
        let has_solution = solutions.left() > 0;
        drop(solutions);
        drop(problem);
        let best = if has_solution {
            best_value(subject)?
        } else {
            None
        };
        let (problem, search, step) = search_to(subject, None)?;
        drop(step);
        let proved = match search.target {
            Target::Absurdity => strongest_bound(&problem, &search.replay.rows, best),
            _ => None,
        };
        let advice = or_drop!(
            UnprovedAdvice::find(subject, &problem, &search),
            search,
            problem
        );
        match near_names(subject, search.near.as_slice(), &advice) {
            Ok(marks) => Ok(UnprovedClaim {
                search,
                known: PlacedItems {
                    text: subject.text,
                    problem,
                    marks,
                },
                has_solution,
                proved,
                advice,
            }),
            Err(missing) => {
                drop(search);
                drop(problem);
                Err(missing.into())
            }
        }
    }

    // What a constraint has to dominate; none is the absurdity.
    fn bound(&self) -> Option<&Constraint> {
        match &self.search.target {
            Target::Bound(bound) | Target::WholeBound(bound) => Some(bound),
            Target::Absurdity | Target::Nothing => None,
        }
    }

    // Whether a constraint has the other sense than what is wanted.
    fn is_turned(&self, near: &Near) -> bool {
        match self.bound() {
            Some(bound) => is_turned(near.constraint.sense, bound.sense),
            None => false,
        }
    }

    // Whether a constraint without assumptions has the very bound that is wanted, and the other
    // sense.
    fn has_turned_bound(&self, near: &Near) -> bool {
        match self.bound() {
            Some(bound) => {
                near.is_free
                    && !bound.row.is_empty()
                    && self.is_turned(near)
                    && near.constraint.rhs == bound.rhs
            }
            None => false,
        }
    }

    // Whether a constraint's right-hand side is rounded when it is compared.
    fn is_rounded(&self, near: &Near) -> bool {
        matches!(&self.search.target, Target::WholeBound(_)) && !near.constraint.rhs.is_whole()
    }

    /// Writes the page of a claim that no constraint proves, whose dual bound is at this place.
    pub(crate) fn write(&self, page: &mut Page, place: Option<Excerpt<'_>>, file: &[u8]) {
        page.put("error: no constraint proves the claim\n");
        if let Some(place) = place {
            place.write(page, file, "this isn't proved");
        }
        page.put("  wanted: a constraint that rests on no assumption and ");
        match self.bound() {
            Some(constraint) => {
                let algebra = Algebra(&self.known.problem, constraint);
                write!(page, "says {algebra} or stronger\n");
            }
            None => page.put("is absurd, as 0 >= 1\n"),
        }
        page.put(match (self.search.near.is_empty(), self.bound()) {
            (true, Some(_)) => "  no constraint has this row\n",
            (true, None) => "  no constraint is absurd\n",
            (false, _) => "  nearest:\n",
        });
        for near in &self.search.near {
            write_near(page, self, near);
        }
        if let Some(proved) = self.proved {
            write_proved(page, proved);
        }
        if let (Some(left), false) = (&self.advice.left, self.is_false()) {
            left.write(page, &self.known, &self.search);
            return;
        }
        if let (Some(scaled), Some(bound)) = (&self.advice.scaled, self.bound()) {
            scaled.write(page, &self.known, bound);
            return;
        }
        if let (Some(understated), false) = (&self.advice.understated, self.is_false()) {
            understated.write(page, &self.known);
            return;
        }
        page.put("  = help: ");
        write_advice(page, self);
        page.put("\n");
    }

    // Whether the claim can't be true.
    fn is_false(&self) -> bool {
        let is_refuted = self.bound().is_none() && self.has_solution;
        is_refuted || is_exchanged(self.known.problem.claim())
    }
}

// The first join of which each case rests on the assumption of the other one, and so does a
// constraint that is strong enough.
fn crossed_join(search: &NearSearch) -> Option<OpenJoin> {
    let strong = search.near.iter().find(|near| near.is_strong)?;
    let assumptions = &strong.assumptions;
    for open in &search.joins {
        let Join { l1, l2, .. } = open.join;
        let is_crossed = open.first && open.second;
        if is_crossed && assumptions.contains(l1) && assumptions.contains(l2) {
            return Some(*open);
        }
    }
    None
}

// The best objective of the listed solutions.
fn best_value(subject: Subject<'_>) -> Reread<Option<Frac>> {
    let values = ListedValues::find(subject)?;
    let best = values.best_value();
    drop(values);
    Ok(best)
}

// The strongest of the derived constraints that bound the objective from the dual side, are kept to
// the end, and rest on no assumption, if this is the best objective of a listed solution.
fn strongest_bound(problem: &Problem, rows: &Table, best: Option<Frac>) -> Option<ProvedBound> {
    let objective = problem.objective();
    let (sense, other) = match problem.sense() {
        Goal::Min => (Sense::G, Sense::L),
        Goal::Max => (Sense::L, Sense::G),
    };
    let mut found: Option<ProvedBound> = None;
    for index in 0..rows.next() {
        if let (Some(entry), false) = (rows.get(index), objective.is_empty()) {
            let Constraint {
                row,
                sense: stated,
                rhs,
            } = &entry.constraint;
            let is_bound = *stated != other && entry.assumptions.is_empty();
            if is_bound && row.is_same(objective) && is_stronger(&found, sense, *rhs) {
                found = Some(ProvedBound {
                    index,
                    sense,
                    side: *rhs,
                    is_attained: best == Some(*rhs),
                });
            }
        }
    }
    found
}

// Whether a right-hand side is stronger than that of a bound of this sense, if there is one.
fn is_stronger(bound: &Option<ProvedBound>, sense: Sense, side: Frac) -> bool {
    match bound {
        Some(bound) => !compares(sense, bound.side, side),
        None => true,
    }
}

// Asks whether a bound that is proved is what is to be claimed, in place of infeasibility.
fn write_proved(page: &mut Page, proved: ProvedBound) {
    let ProvedBound {
        index,
        sense,
        side,
        ..
    } = proved;
    let sign = sign_of(sense);
    write!(
        page,
        "  = help: [{index}] says objective {sign} {side} and rests on no assumption"
    );
    if proved.is_attained {
        page.put(", and a listed solution attains it");
    }
    page.put(": ");
    match sense {
        _ if proved.is_attained => write!(page, "is `RTP range {side} {side}` meant?\n"),
        Sense::L => write!(page, "is `RTP range -inf {side}` meant?\n"),
        _ => write!(page, "is `RTP range {side} inf` meant?\n"),
    }
}

// The places of constraints that come near, and of those of which more is said.
fn near_names(
    subject: Subject<'_>,
    near: &[Near],
    advice: &UnprovedAdvice,
) -> Result<Marks, AllocError> {
    let mut wanted: Vec<u32> = near.iter().map(|near| near.index).collect(subject.alloc)?;
    for shown in advice.indices() {
        if let Some(index) = shown {
            wanted.push(index)?;
        }
    }
    find_names(subject, wanted.as_slice())
}

// Writes what to do, by the first of the nearest constraints that leads to a step. Those that are
// strong enough come first, then those that miss the bound by less, then those that are turned.
fn write_advice(page: &mut Page, known: &UnprovedClaim<'_>) {
    let problem = &known.known.problem;
    let near = &known.search.near;
    if is_exchanged(problem.claim()) {
        page.put("the lower bound of the claim is above the upper one: are they exchanged?");
        return;
    }
    if known.bound().is_none() && known.has_solution {
        page.put(
            "the text lists a solution that is feasible, so `infeas` is false: claim `range` and \
             two bounds",
        );
        return;
    }
    for near in near {
        if near.is_strong {
            match &known.advice.crossed {
                Some(crossed) => write_crossed(page, known, crossed),
                None => write_assumed(page, near.index),
            }
            return;
        }
    }
    for near in near {
        if known.has_turned_bound(near) {
            write_turned(page, near.index, problem.sense());
            return;
        }
    }
    for near in near {
        if let (true, Some(bound)) = (near.is_free, known.bound()) {
            if near.gap.is_some() {
                write_weak(page, near, bound);
                return;
            }
            if known.is_turned(near) && !bound.row.is_empty() {
                write_turned(page, near.index, problem.sense());
                return;
            }
        }
    }
    match known.bound() {
        Some(Constraint { row, sense, rhs })
            if near.is_empty() && row.is_empty() && compares(*sense, Frac::zero(), *rhs) => {
            write!(page, "add the derivation `NAME {sense} {rhs} ");
            page.put("0 { lin 0 } -1`, and 1 to the count after DER");
        }
        _ => page.put("is its derivation left out, or does RTP claim more than is proved?"),
    }
}

// Writes what is likely if a constraint without assumptions is weaker than this bound.
fn write_weak(page: &mut Page, weak: &Near, bound: &Constraint) {
    let index = weak.index;
    if weak.constraint.rhs == bound.rhs.neg() {
        write!(page, "[{index}] has this bound with the other sign: ");
        page.put("is the sign in the claim wrong?");
    } else {
        write!(page, "does RTP claim more than [{index}] proves, ");
        page.put("or is a constant of the objective in the claim? The format has none");
    }
}

// Writes what is likely if the sense of a constraint is the other one.
fn write_turned(page: &mut Page, index: u32, goal: Goal) {
    let other = match goal {
        Goal::Min => "max",
        Goal::Max => "min",
    };
    write!(page, "[{index}] is the other way round: ");
    write!(page, "is `OBJ {other}` meant?");
}

// Writes that a constraint that is strong enough is an assumption.
fn write_assumed(page: &mut Page, index: u32) {
    write!(page, "[{index}] is an assumption itself: ");
    page.put("is its reason left out?");
}

// Writes that the assumptions of a join are exchanged.
fn write_crossed(page: &mut Page, known: &UnprovedClaim<'_>, crossed: &OpenJoin) {
    let index = crossed.index;
    let Join { i1, l1, i2, l2 } = crossed.join;
    let exchanged = Join {
        i1,
        l1: l2,
        i2,
        l2: l1,
    };
    page.put("in ");
    known.known.write_name(page, index);
    write_line(page, known.known.marks.place(index));
    write!(page, " [{i1}] rests on [{l2}], and [{i2}] on [{l1}]: ");
    write!(page, "are l1 and l2 exchanged? {exchanged}");
}

// Writes a constraint that comes near, and why it isn't enough.
fn write_near(page: &mut Page, known: &UnprovedClaim<'_>, near: &Near) {
    page.put("    ");
    let (items, constraint) = (&known.known, &near.constraint);
    if known.bound().is_some() {
        let (sign, side) = (sign_of(constraint.sense), constraint.rhs);
        items.write_name(page, near.index);
        write!(page, "  objective {sign} {side}");
        write_line(page, items.marks.place(near.index));
        if near.is_strong {
            page.put(", strong enough");
        } else if let Some(gap) = near.gap {
            let size = Measured(size_of(gap));
            write!(page, ", too weak by {size}");
            if known.is_rounded(near) {
                page.put(" when it is rounded");
            }
        } else if known.is_turned(near) {
            page.put(", the other way round");
        }
    } else {
        items.write_constraint(page, near.index, Some(constraint));
    }
    write_assumptions(page, near);
}

// Writes the first assumptions that a constraint rests on, and how many others there are.
fn write_assumptions(page: &mut Page, near: &Near) {
    if near.is_free {
        page.put(", rests on no assumption\n");
        return;
    }
    page.put(", rests on");
    let mut count: u32 = 0;
    for index in 0..=near.index {
        if near.assumptions.contains(index) {
            if count < MOST_ASSUMPTIONS {
                write!(page, " [{index}]");
            }
            count = count.saturating_add(1);
        }
    }
    if count > MOST_ASSUMPTIONS {
        let more = count - MOST_ASSUMPTIONS;
        write!(page, " and {more} more");
    }
    page.put("\n");
}
