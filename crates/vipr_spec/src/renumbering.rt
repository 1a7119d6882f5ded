//! The new indices of what is kept, and what is said of it in the tightened certificate.

ghost use Rattle.std.specs.Prelude.{◌≡◌, ◌↔◌, ℕ, ◌<◌, ◌≤◌, IsTrue, [], map, length, Option, Some};
ghost use Rattle.std.specs.Prelude.{None};
ghost use Rattle.vipr_spec.specs.{constraint_at, reason_at, last_at, RefersTo, count, RefersBack};
ghost use Rattle.vipr_spec.specs.{is_kept, kept_of, tightened_index, renumbered_at};
ghost use Rattle.vipr_spec.specs.{tightened_certificate, new_goal, Certificate.Certificate};

/// New indices rise, leave no gap, and are the old ones for the constraints of the problem.
pub fn new_indices()
    ensures given { (c : Certificate) (goal : Option ℕ) (i : ℕ)
        → i ≤ length c.problem.constraints → tightened_index c goal i ≡ i }
    ensures rise { (c : Certificate) (goal : Option ℕ) (i j : ℕ)
        → IsTrue (is_kept c goal i) → i < j
        → tightened_index c goal i < tightened_index c goal j }
    ensures count { (c : Certificate) (goal : Option ℕ)
        → count (tightened_certificate c goal) ≡ tightened_index c goal (count c) }
    ensures no_gap { (c : Certificate) (goal : Option ℕ) (k : ℕ)
        → k < count (tightened_certificate c goal)
        → (i : ℕ) × (i < count c) × IsTrue (is_kept c goal i) × (tightened_index c goal i ≡ k) }
{}

/// Names and constraints are as they were, and reasons are renumbered.
pub fn names_and_constraints()
    ensures names { (c : Certificate) (goal : Option ℕ)
        → map (λ d. d.name) (tightened_certificate c goal).derivations
        ≡ kept_of (is_kept c goal) (length c.problem.constraints)
        (map (λ d. d.name) c.derivations) }
    ensures stated { (c : Certificate) (goal : Option ℕ)
        → map (λ d. d.stated) (tightened_certificate c goal).derivations
        ≡ kept_of (is_kept c goal) (length c.problem.constraints)
        (map (λ d. d.stated) c.derivations) }
    ensures constraint { (c : Certificate) (goal : Option ℕ) (i : ℕ) → IsTrue (is_kept c goal i)
        → constraint_at (tightened_certificate c goal) (tightened_index c goal i)
        ≡ constraint_at c i }
    ensures reason { (c : Certificate) (goal : Option ℕ) (i : ℕ) → IsTrue (is_kept c goal i)
        → reason_at (tightened_certificate c goal) (tightened_index c goal i)
        ≡ renumbered_at (tightened_index c goal) (reason_at c i) }
{}

/// The last reference of a derivation is the greatest index that refers to it. The goal alone has
/// none.
pub fn last_references()
    ensures one { (c : Certificate) (goal : Option ℕ) (i last : ℕ)
        → length c.problem.constraints ≤ i → last_at (tightened_certificate c goal) i ≡ Some last
        → RefersTo (reason_at (tightened_certificate c goal) last) i }
    ensures greatest { (c : Certificate) (goal : Option ℕ) (k i : ℕ)
        → RefersBack c → length c.problem.constraints ≤ i
        → RefersTo (reason_at (tightened_certificate c goal) k) i
        → (last : ℕ) × (last_at (tightened_certificate c goal) i ≡ Some last) × (k ≤ last) }
    ensures goal { (c : Certificate) (goal : Option ℕ) (i : ℕ)
        → RefersBack c → length c.problem.constraints ≤ i → i < count (tightened_certificate c goal)
        → (last_at (tightened_certificate c goal) i ≡ None) ↔ (new_goal c goal ≡ Some i) }
{}
