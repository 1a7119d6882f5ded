//! The sections of a certificate.
ghost use Rattle.std.specs.{Fmt.decimal, Prelude.◌∷◌, Prelude.[], Prelude.map};
ghost use Rattle.vipr_linear.specs.Constraint.{constraint_of};
ghost use Rattle.vipr_write.specs.Canonical.{variables_lines, solutions_lines, lines_text};
ghost use Rattle.vipr_write.specs.Forms.{problem_lines_in, derivations_lines_in, text_in};
ghost use Rattle.vipr_cert.specs.Items.{named_of, solution_of, derivation_of};
ghost use Rattle.vipr_write.specs.Lines.{integers_lines, constraints_lines_in};
ghost use Rattle.vipr_bytes.specs.Puts.{Puts};

use crate::form::Form;
use crate::lines::{
    put_claim, put_coefficients, put_constraint, put_counts, put_derivation, put_goal, put_heading,
    put_name, put_solution,
};
use crate::rows::PutRow;
use crate::words::put_decimal;
use vipr_bytes::Out;
use vipr_cert::{Certificate, Derivation, Name, Named, Problem};
use vipr_linear::{Constraint, Row, Solution};

// The names, each on its line.
fn put_names<O: Out>(out: &mut O, names: &[Name])
    ensures { Puts O.carries out.old out.new
        (lines_text (map (λ name. name ∷ []) names.now)) }
{
    for name in names {
        put_name(out, name);
        out.push(b'\n');
    }
}

// The indices, each on its line.
fn put_indices<O: Out>(out: &mut O, indices: &[u32])
    ensures { Puts O.carries out.old out.new
        (lines_text (map (λ j. decimal j ∷ []) indices.now)) }
{
    for index in indices {
        put_decimal(out, *index as usize);
        out.push(b'\n');
    }
}

// How many integer variables there are, and each of them.
fn put_integers<O: Out>(out: &mut O, indices: &[u32])
    ensures { Puts O.carries out.old out.new
        (lines_text (integers_lines indices.now)) }
{
    put_heading(out, b"INT", indices.len());
    put_indices(out, indices);
}

// The version, the variables, and which of them are integer.
fn put_variables<O: Out>(out: &mut O, problem: &Problem)
    ensures { Puts O.carries out.old out.new
        (lines_text (variables_lines problem.now)) }
{
    let names = problem.names();
    out.put(b"VER 1.0\n");
    put_heading(out, b"VAR", names.len());
    put_names(out, names);
    put_integers(out, problem.integer_variables());
}

// The constraints, with how many of them are bounds.
fn put_constraints<O: PutRow>(
    out: &mut O,
    form: Form,
    objective: &Row,
    cons: &[Named<Constraint>],
    bound_count: u32,
)
    ensures { Puts O.carries out.old out.new
        (lines_text (constraints_lines_in form objective.now
        (map (named_of constraint_of) cons.now) bound_count)) }
{
    put_counts(out, cons.len(), bound_count as usize);
    for constraint in cons {
        put_constraint(out, form, objective, constraint);
    }
}

/// What a certificate is about.
pub(crate) fn put_problem<O: PutRow>(out: &mut O, form: Form, problem: &Problem)
    ensures { Puts O.carries out.old out.new
        (lines_text (problem_lines_in form problem.now)) }
{
    let objective = problem.objective();
    put_variables(out, problem);
    put_goal(out, problem.sense());
    put_coefficients(out, objective);
    put_constraints(out, form, objective, problem.cons(), problem.bound_count());
    put_claim(out, problem.claim());
}

/// The listed solutions.
pub(crate) fn put_solutions<O: Out>(out: &mut O, solutions: &[Named<Solution>])
    ensures { Puts O.carries out.old out.new
        (lines_text (solutions_lines (map solution_of solutions.now))) }
{
    put_heading(out, b"SOL", solutions.len());
    for solution in solutions {
        put_solution(out, solution);
    }
}

// The derivations.
fn put_derivations<O: PutRow>(out: &mut O, form: Form, objective: &Row, derivations: &[Derivation])
    ensures { Puts O.carries out.old out.new
        (lines_text (derivations_lines_in form objective.now
        (map derivation_of derivations.now))) }
{
    put_heading(out, b"DER", derivations.len());
    for derivation in derivations {
        put_derivation(out, form, objective, derivation);
    }
}

/// The text of a certificate in a form.
pub(crate) fn put_certificate<O: PutRow>(out: &mut O, form: Form, certificate: &Certificate)
    ensures { Puts O.carries out.old out.new
        (text_in form certificate.now) }
{
    let problem = certificate.problem();
    put_problem(out, form, problem);
    put_solutions(out, certificate.solutions());
    put_derivations(out, form, problem.objective(), certificate.derivations());
}
