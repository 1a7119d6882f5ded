//! What the tightened certificate of a proof is.

ghost use Rattle.std.specs.Prelude.{◌≡◌, ℕ, ◌+◌, ◌<◌, ◌≤◌, not, IsTrue, [], length};
ghost use Rattle.std.specs.Prelude.{count_by, Option, Some, None};
ghost use Rattle.std.specs.List.{range_with_len};
ghost use Rattle.vipr_spec.specs.{Profile, count, count_held, peak, IsProof, GoalIs, NeedsGoal};
ghost use Rattle.vipr_spec.specs.{RefersBack, CanWrite, is_kept, tightened_index};
ghost use Rattle.vipr_spec.specs.{tightened_certificate, new_goal, IsNeededFor};
ghost use Rattle.vipr_spec.specs.Certificate.{Certificate};

/// Under each profile of the rules: tightened for its goal, a proof is a proof of the same problem,
/// with the same claim and the same listed solutions.
pub fn stays_a_proof()
    ensures proof { (P : Profile) (c : Certificate) (goal : Option ℕ)
        → IsProof P c → GoalIs P c goal → IsProof P (tightened_certificate c goal) }
    ensures problem { (c : Certificate) (goal : Option ℕ)
        → (tightened_certificate c goal).problem ≡ c.problem }
    ensures solutions { (c : Certificate) (goal : Option ℕ)
        → (tightened_certificate c goal).solutions ≡ c.solutions }
{}

/// Its goal is the image of the goal. A proof has no goal exactly if its dual side needs none.
pub fn goal_stays()
    ensures goal { (P : Profile) (c : Certificate) (goal : Option ℕ)
        → RefersBack c → GoalIs P c goal
        → GoalIs P (tightened_certificate c goal) (new_goal c goal) }
    ensures none { (P : Profile) (c : Certificate)
        → IsProof P c → GoalIs P c None → ¬ NeedsGoal c.problem c.problem.claim }
    ensures unneeded { (P : Profile) (c : Certificate)
        → ¬ NeedsGoal c.problem c.problem.claim → GoalIs P c None }
{}

/// Each derivation of it is needed in it for its goal. So there are none if there is no goal,
/// and if the goal is a constraint of the problem.
pub fn each_is_needed()
    ensures needed { (c : Certificate) (goal : Option ℕ) (k : ℕ)
        → RefersBack c → length c.problem.constraints ≤ k → k < count (tightened_certificate c goal)
        → IsNeededFor (tightened_certificate c goal) (new_goal c goal) k }
    ensures no_goal { (c : Certificate) → RefersBack c
        → (tightened_certificate c None).derivations ≡ [] }
    ensures given_goal { (c : Certificate) (goal : ℕ)
        → RefersBack c → goal < length c.problem.constraints
        → (tightened_certificate c (Some goal)).derivations ≡ [] }
{}

/// Tightening it for its goal gives it again.
pub fn once_more()
    ensures back { (c : Certificate) (goal : Option ℕ)
        → RefersBack c → RefersBack (tightened_certificate c goal) }
    ensures again { (c : Certificate) (goal : Option ℕ) → RefersBack c
        → tightened_certificate (tightened_certificate c goal) (new_goal c goal)
        ≡ tightened_certificate c goal }
{}

/// It can be written if the certificate can.
pub fn can_be_written()
    ensures { (c : Certificate) (goal : Option ℕ) → CanWrite c
        → CanWrite (tightened_certificate c goal) }
{}

/// After a derivation that is kept no more is held than was, so the peak is no higher. What is
/// kept and what is removed are all derivations.
pub fn how_much_stays()
    ensures held { (P : Profile) (c : Certificate) (goal k : ℕ)
        → IsProof P c → length c.problem.constraints ≤ k → IsTrue (is_kept c (Some goal) k)
        → count_held (tightened_certificate c (Some goal)) (tightened_index c (Some goal) k)
        ≤ count_held c k }
    ensures peak { (P : Profile) (c : Certificate) (goal : Option ℕ)
        → IsProof P c → peak (tightened_certificate c goal) ≤ peak c }
    ensures counts { (c : Certificate) (goal : Option ℕ)
        → (let derived = range_with_len (length c.problem.constraints) (length c.derivations) in
        length (tightened_certificate c goal).derivations
        + count_by (λ i. not (is_kept c goal i)) derived
        ≡ length c.derivations) }
{}
