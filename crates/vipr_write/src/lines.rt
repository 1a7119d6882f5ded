//! The lines of a certificate.
ghost use Rattle.std.specs.Prelude.{◌∷◌, [], codes};
ghost use Rattle.vipr_spec.specs.Certificate.{range, by_branches};
ghost use Rattle.vipr_linear.specs.Constraint.{constraint_of};
ghost use Rattle.vipr_write.specs.Canonical.{reference_words, claim_words, solution_words};
ghost use Rattle.vipr_write.specs.Canonical.{heading, words_after_spaces, line_text};
ghost use Rattle.vipr_write.specs.Canonical.{direction_word, vector_words};
ghost use Rattle.vipr_write.specs.Forms.{constraint_words_in, given_words_in, derivation_words_in};
ghost use Rattle.vipr_cert.specs.{Items.named_of, Items.solution_of, Items.claim_of};
ghost use Rattle.vipr_cert.specs.{Items.derivation_of, Items.direction_of, Reasons.references_of};
ghost use Rattle.vipr_write.specs.Lines.{words_text, constraints_heading};
ghost use Rattle.vipr_write.specs.Folded.{stated_words};
ghost use Rattle.vipr_bytes.specs.Puts.{Puts};

use crate::form::Form;
use crate::rows::PutRow;
use crate::words::{
    put_bound, put_counted, put_decimal, put_index, put_last, put_number, put_pairs, put_sense,
    put_word,
};
use vipr_bytes::Out;
use vipr_cert::{Claim, Derivation, Goal, Name, Named, References};
use vipr_frac::Frac;
use vipr_linear::{Constraint, Row, Solution};

/// A keyword and a count.
pub fn put_heading<O: Out>(out: &mut O, keyword: &[u8], n: usize)
    ensures { Puts O.carries out.old out.new
        (line_text (heading keyword.now n)) }
{
    out.put(keyword);
    put_index(out, n);
    out.push(b'\n');
}

/// A name.
pub(crate) fn put_name<O: Out>(out: &mut O, name: &Name)
    ensures { Puts O.carries out.old out.new name.now }
{
    out.put(name.as_bytes());
}

/// The line of the objective's direction.
pub(crate) fn put_goal<O: Out>(out: &mut O, sense: Goal)
    ensures { Puts O.carries out.old out.new
        (line_text (codes "OBJ" ∷ direction_word (direction_of sense) ∷ [])) }
{
    match sense {
        Goal::Min => out.put(b"OBJ min\n"),
        Goal::Max => out.put(b"OBJ max\n"),
    }
}

/// The coefficients of the objective.
pub(crate) fn put_coefficients<O: Out>(out: &mut O, row: &Row)
    ensures { Puts O.carries out.old out.new
        (line_text (vector_words row.now)) }
{
    let entries = row.entries();
    put_decimal(out, entries.len());
    put_pairs(out, entries);
    out.push(b'\n');
}

/// How many constraints there are, and how many of them are bounds.
pub(crate) fn put_counts<O: Out>(out: &mut O, count: usize, bound_count: usize)
    ensures { Puts O.carries out.old out.new
        (line_text (constraints_heading bound_count count)) }
{
    out.put(b"CON");
    put_index(out, count);
    put_index(out, bound_count);
    out.push(b'\n');
}

/// The words of a constraint up to its row.
pub(crate) fn put_start<O: Out>(out: &mut O, name: &Name, constraint: &Constraint)
    ensures { Puts O.carries out.old out.new
        (words_text (stated_words name.now (constraint_of constraint.now))) }
{
    put_name(out, name);
    put_sense(out, constraint.sense);
    put_number(out, &constraint.rhs);
}

// The words of a constraint, with no line feed.
fn put_stated<O: PutRow>(
    out: &mut O,
    form: Form,
    objective: &Row,
    name: &Name,
    constraint: &Constraint,
)
    ensures { Puts O.carries out.old out.new
        (words_text (constraint_words_in form objective.now name.now
        (constraint_of constraint.now))) }
{
    put_start(out, name, constraint);
    out.put_row(form, objective, &constraint.row);
}

/// A constraint, unless it has failed.
pub(crate) fn put_constraint<O: PutRow>(
    out: &mut O,
    form: Form,
    objective: &Row,
    constraint: &Named<Constraint>,
)
    ensures { Puts O.carries out.old out.new
        (line_text (given_words_in form objective.now (named_of constraint_of constraint.now))) }
{
    if out.has_failed() {
        return;
    }
    put_stated(out, form, objective, &constraint.name, &constraint.item);
    out.push(b'\n');
}

// A claim of two bounds.
fn put_range<O: Out>(out: &mut O, lower: Option<Frac>, upper: Option<Frac>)
    ensures { Puts O.carries out.old out.new
        (line_text (claim_words (range lower upper))) }
{
    out.put(b"RTP range");
    put_bound(out, b"-inf", lower);
    put_bound(out, b"inf", upper);
    out.push(b'\n');
}

/// What is claimed.
pub(crate) fn put_claim<O: Out>(out: &mut O, claim: Claim)
    ensures { Puts O.carries out.old out.new
        (line_text (claim_words (claim_of claim))) }
{
    match claim {
        Claim::Infeas => out.put(b"RTP infeas\n"),
        Claim::Range(lower, upper) => put_range(out, lower, upper),
    }
}

/// A listed solution, unless it has failed.
pub fn put_solution<O: Out>(out: &mut O, solution: &Named<Solution>)
    ensures { Puts O.carries out.old out.new
        (line_text (solution_words (solution_of solution.now))) }
{
    if out.has_failed() {
        return;
    }
    put_name(out, &solution.name);
    put_counted(out, solution.item.0.entries());
    out.push(b'\n');
}

// The conclusions of two branches, each with its assumption behind it.
fn put_branches<O: Out>(out: &mut O, i1: u32, l1: u32, i2: u32, l2: u32)
    ensures { Puts O.carries out.old out.new
        (words_after_spaces (reference_words (by_branches i1 l1 i2 l2))) }
{
    put_index(out, i1 as usize);
    put_index(out, l1 as usize);
    put_index(out, i2 as usize);
    put_index(out, l2 as usize);
}

/// What a reason names.
pub(crate) fn put_references<O: Out>(out: &mut O, references: References<'_>)
    ensures { Puts O.carries out.old out.new
        (words_after_spaces (reference_words (references_of references.entry))) }
{
    match references {
        References::Nothing => {}
        References::Entries(entries) => put_counted(out, entries),
        References::Branches { i1, l1, i2, l2 } => put_branches(out, i1, l1, i2, l2),
    }
}

/// A derivation, unless it has failed.
pub(crate) fn put_derivation<O: PutRow>(
    out: &mut O,
    form: Form,
    objective: &Row,
    derivation: &Derivation,
)
    ensures { Puts O.carries out.old out.new
        (line_text (derivation_words_in form objective.now (derivation_of derivation.now))) }
{
    if out.has_failed() {
        return;
    }
    put_stated(
        out,
        form,
        objective,
        &derivation.name,
        &derivation.constraint,
    );
    put_word(out, b"{");
    put_word(out, derivation.reason.word().as_bytes());
    put_references(out, derivation.reason.references());
    put_word(out, b"}");
    put_last(out, derivation.last);
    out.push(b'\n');
}
