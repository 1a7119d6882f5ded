//! One pass from the end marks what the goal needs.

ghost use Rattle.std.specs.Prelude.{◌↔◌, ℕ, ◌<◌, ◌≤◌, ◌⊎◌, IsTrue, [], length, Option};
ghost use Rattle.vipr_spec.specs.{reason_at, RefersTo, RefersBack, is_marked, is_kept, IsNeededFor};
ghost use Rattle.vipr_spec.specs.Certificate.{Certificate};

/// Among the derived constraints those that are marked are those that the goal needs.
/// What is kept is these and the constraints of the problem, and all that it refers to.
pub fn marks()
    ensures needed { (c : Certificate) (goal : Option ℕ) (i : ℕ)
        → RefersBack c → length c.problem.constraints ≤ i
        → IsTrue (is_marked goal (length c.problem.constraints) c.derivations i)
        ↔ IsNeededFor c goal i }
    ensures kept { (c : Certificate) (goal : Option ℕ) (i : ℕ) → RefersBack c
        → IsTrue (is_kept c goal i) ↔ ((i < length c.problem.constraints) ⊎ IsNeededFor c goal i) }
    ensures closed { (c : Certificate) (goal : Option ℕ) (k i : ℕ) → RefersBack c
        → IsTrue (is_kept c goal k) → RefersTo (reason_at c k) i → IsTrue (is_kept c goal i) }
{}
