//! The table of causes: the number of each cause, the place that goes with it, and what is shown.

ghost use Rattle.std.specs.Prelude.{◌≡◌, ℕ, List, ◌-◌, ◌<◌, length, Option, Some, None, Ok, Err};
ghost use Rattle.std.specs.Prelude.{Contains};
ghost use Rattle.vipr_spec.specs.Causes as cause;
ghost use Rattle.vipr_spec.specs.{ℚ, Row, at, Condition, at_least, at_most, value, Name, minimum};
ghost use Rattle.vipr_spec.specs.{maximum, infeasible, range, Problem, variables, constraint_at};
ghost use Rattle.vipr_spec.specs.{objective_constraint, natural_of, number_read, not_a_number};
ghost use Rattle.vipr_spec.specs.{too_large, zero_denominator, refused, unread, most_count};
ghost use Rattle.vipr_spec.specs.{count_of, last_of, rule_of, derivation_count_of, number_of};
ghost use Rattle.vipr_spec.specs.{variable_of, new_variable_of, spelled_sense, spelled_direction};
ghost use Rattle.vipr_spec.specs.{has_range_of, reference_of, earlier, live, assumed, suitable};
ghost use Rattle.vipr_spec.specs.{fitting, roundable, split, listed, by_sum, by_rounding};
ghost use Rattle.vipr_spec.specs.{by_constraint, by_cutoff, StepTest, step_cause, Shows, IsSum};
ghost use Rattle.vipr_spec.specs.{index, position, sum, both, compared, nothing, whole_at};
ghost use Rattle.vipr_spec.specs.{value_fits, holds, objective_fits, SolutionTest, given_at};
ghost use Rattle.vipr_spec.specs.{spelled, of_solution, meets_primal, of_step, meets_dual};
ghost use Rattle.vipr_spec.specs.{not_whole, breaks, overflows, no_proof, name_at, names_of};
ghost use Rattle.vipr_spec.specs.{solution_detail, solution_cause, goal_needed_by, finite_primal};
ghost use Rattle.vipr_spec.specs.{Explains, none, at_byte, at_solution, at_derivation, at_end};
ghost use Rattle.vipr_spec.specs.{refuses, cut_short, answer_of_test, Certificate.Certificate};

/// The numbers of the causes that a token has.
pub fn causes_of_tokens()
    ensures truncated { cause.truncated ≡ 1 }
    ensures keyword { cause.wrong_keyword ≡ 2 }
    ensures version { cause.unsupported_version ≡ 3 }
    ensures number { cause.bad_number ≡ 4 }
    ensures number_size { cause.number_too_large ≡ 5 }
    ensures denominator { cause.zero_denominator ≡ 6 }
    ensures count { cause.bad_count ≡ 7 }
    ensures count_size { cause.count_too_large ≡ 8 }
    ensures index { cause.bad_index ≡ 9 }
    ensures repeated { cause.repeated_index ≡ 10 }
    ensures sense { cause.bad_sense ≡ 11 }
    ensures direction { cause.bad_objective_sense ≡ 12 }
    ensures claim { cause.bad_claim ≡ 13 }
    ensures reason { cause.bad_reason ≡ 14 }
    ensures brace { cause.bad_brace ≡ 15 }
    ensures reference { cause.bad_reference ≡ 16 }
    ensures token_size { cause.token_too_long ≡ 17 }
    ensures trailing { cause.trailing_text ≡ 18 }
{}

/// The cause of each token that isn't what its place asks for.
pub fn causes_by_token()
    ensures count { (bs : List ℕ) → natural_of bs ≡ None → count_of bs ≡ Err 7 }
    ensures count_size { (bs : List ℕ) (n : ℕ) → natural_of bs ≡ Some n → most_count < n
        → count_of bs ≡ Err 8 }
    ensures derivations { (m : ℕ) (bs : List ℕ) → natural_of bs ≡ None
        → derivation_count_of m bs ≡ Err 7 }
    ensures derivations_size { (m n : ℕ) (bs : List ℕ) → natural_of bs ≡ Some n
        → most_count - m < n → derivation_count_of m bs ≡ Err 8 }
    ensures number { (bs : List ℕ) → number_read bs ≡ Err not_a_number → number_of bs ≡ Err 4 }
    ensures number_size { (bs : List ℕ) → number_read bs ≡ Err too_large → number_of bs ≡ Err 5 }
    ensures denominator { (bs : List ℕ) → number_read bs ≡ Err zero_denominator
        → number_of bs ≡ Err 6 }
    ensures variable { (n c : ℕ) (bs : List ℕ) → variable_of n bs ≡ Err c → c ≡ 9 }
    ensures repeated { (n i : ℕ) (before bs : List ℕ) → variable_of n bs ≡ Ok i
        → Contains before i → new_variable_of n before bs ≡ Err 10 }
    ensures sense { (bs : List ℕ) (c : ℕ) → spelled_sense bs ≡ Err c → c ≡ 11 }
    ensures direction { (bs : List ℕ) (c : ℕ) → spelled_direction bs ≡ Err c → c ≡ 12 }
    ensures claim { (bs : List ℕ) (c : ℕ) → has_range_of bs ≡ Err c → c ≡ 13 }
    ensures reason { (bs : List ℕ) (c : ℕ) → rule_of bs ≡ Err c → c ≡ 14 }
    ensures reference { (bs : List ℕ) (c : ℕ) → reference_of bs ≡ Err c → c ≡ 16 }
    ensures last { (bs : List ℕ) (c : ℕ) → last_of bs ≡ Err c → c ≡ 16 }
{}

/// The numbers of the causes that a listed solution, a derivation and a side of the claim have.
pub fn causes_of_items()
    ensures not_whole { (j : ℕ) → solution_cause (whole_at j) ≡ 21 }
    ensures breaks { (i : ℕ) → solution_cause (holds i) ≡ 22 }
    ensures value { (i : ℕ) → solution_cause (value_fits i) ≡ 23 }
    ensures objective { solution_cause objective_fits ≡ 23 }
    ensures earlier { (i : ℕ) → step_cause (earlier i) ≡ 31 }
    ensures dropped { (i : ℕ) → step_cause (live i) ≡ 32 }
    ensures assumption { (l : ℕ) → step_cause (assumed l) ≡ 33 }
    ensures signs { (es : List (ℕ × ℚ)) → step_cause (suitable es) ≡ 34 }
    ensures overflow { (es : List (ℕ × ℚ)) → step_cause (fitting es) ≡ 35 }
    ensures roundable { (es : List (ℕ × ℚ)) → step_cause (roundable es) ≡ 36 }
    ensures split { (l m : ℕ) → step_cause (split l m) ≡ 37 }
    ensures summed { (es : List (ℕ × ℚ)) → step_cause (by_sum es) ≡ 38 }
    ensures rounded { (es : List (ℕ × ℚ)) → step_cause (by_rounding es) ≡ 38 }
    ensures concluded { (i : ℕ) → step_cause (by_constraint i) ≡ 38 }
    ensures cut_off { step_cause by_cutoff ≡ 38 }
    ensures no_solution { step_cause listed ≡ 39 }
    ensures no_proof { cause.no_proof ≡ 51 }
    ensures no_primal { cause.no_primal ≡ 52 }
{}

/// The place of each cause: the token, the solution, the derivation, or the end. A failed read is
/// no refusal.
pub fn places_of_causes()
    ensures token { (c offset : ℕ) → answer_of_test (spelled (refused c offset))
        ≡ refuses (record { cause = c; place = at_byte offset }) }
    ensures unread { answer_of_test (spelled unread) ≡ cut_short }
    ensures solution { (i : ℕ) (s : Row) (t : SolutionTest) → answer_of_test (of_solution i s t)
        ≡ refuses (record { cause = solution_cause t; place = at_solution i }) }
    ensures derivation { (k : ℕ) (t : StepTest) → answer_of_test (of_step k t)
        ≡ refuses (record { cause = step_cause t; place = at_derivation k }) }
    ensures dual { answer_of_test meets_dual ≡ refuses (record { cause = 51; place = at_end }) }
    ensures primal { answer_of_test meets_primal ≡ refuses (record { cause = 52; place = at_end }) }
{}

/// What is shown of a listed solution that is refused: the variable and its value, or the
/// constraint with the value of its row and its right-hand side.
pub fn shown_of_solutions()
    ensures not_whole { (p : Problem) (name : Name) (s : Row) (j : ℕ)
        → solution_detail p name s (whole_at j) ≡ not_whole name j (name_at p.names j) (at s j) }
    ensures breaks { (p : Problem) (name : Name) (s : Row) (i : ℕ)
        → solution_detail p name s (holds i)
        ≡ breaks name i (name_at (names_of p.constraints) i)
        (value (variables p) (at (given_at p i).row) (at s))
        (given_at p i).sense (given_at p i).bound }
    ensures value { (p : Problem) (name : Name) (s : Row) (i : ℕ)
        → solution_detail p name s (value_fits i)
        ≡ overflows name (Some (i, name_at (names_of p.constraints) i)) }
    ensures objective { (p : Problem) (name : Name) (s : Row)
        → solution_detail p name s objective_fits ≡ overflows name None }
{}

/// What is shown of a derivation that is refused: the constraint that its reason names, the
/// position of the entry, the sum, both assumptions, or the computed and the stated constraint.
pub fn shown_of_derivations()
    ensures earlier { (c : Certificate) (d : Condition) (i : ℕ) → Shows c d (earlier i) (index i) }
    ensures dropped { (c : Certificate) (d : Condition) (i : ℕ) → Shows c d (live i) (index i) }
    ensures assumption { (c : Certificate) (d : Condition) (l : ℕ)
        → Shows c d (assumed l) (index l) }
    ensures signs { (c : Certificate) (d : Condition) (es : List (ℕ × ℚ))
        → Shows c d (suitable es) (position (length es - 1)) }
    ensures overflow { (c : Certificate) (d : Condition) (es : List (ℕ × ℚ))
        → Shows c d (fitting es) (position (length es - 1)) }
    ensures roundable { (c : Certificate) (d x : Condition) (es : List (ℕ × ℚ)) → IsSum c es x
        → Shows c d (roundable es) (sum x) }
    ensures split { (c : Certificate) (d : Condition) (l m : ℕ)
        → Shows c d (split l m) (both (constraint_at c l) (constraint_at c m)) }
    ensures summed { (c : Certificate) (d x : Condition) (es : List (ℕ × ℚ)) → IsSum c es x
        → Shows c d (by_sum es) (compared x d) }
    ensures concluded { (c : Certificate) (d : Condition) (i : ℕ)
        → Shows c d (by_constraint i) (compared (constraint_at c i) d) }
    ensures no_solution { (c : Certificate) (d : Condition) → Shows c d listed nothing }
{}

/// What is shown if a side of the claim isn't met. For the dual side it is the constraint that the
/// goal must dominate, or no constraint under `infeas`; for the primal side it is the bound.
/// Nothing is shown for a text that isn't spelled as it must be.
pub fn shown_of_claims()
    ensures spelled { (c : Certificate) (why offset : ℕ)
        → Explains c (spelled (refused why offset)) none }
    ensures absurd { (p : Problem) → goal_needed_by p infeasible ≡ None }
    ensures at_least { (p : Problem) (l u : Option ℚ) (b : ℚ) → p.direction ≡ minimum → l ≡ Some b
        → goal_needed_by p (range l u) ≡ Some (objective_constraint p at_least b) }
    ensures at_most { (p : Problem) (l u : Option ℚ) (b : ℚ) → p.direction ≡ maximum → u ≡ Some b
        → goal_needed_by p (range l u) ≡ Some (objective_constraint p at_most b) }
    ensures dual { (c : Certificate)
        → Explains c meets_dual (no_proof (goal_needed_by c.problem c.problem.claim)) }
    ensures upper { (p : Problem) (l u : Option ℚ) → p.direction ≡ minimum
        → finite_primal p (range l u) ≡ u }
    ensures lower { (p : Problem) (l u : Option ℚ) → p.direction ≡ maximum
        → finite_primal p (range l u) ≡ l }
{}
