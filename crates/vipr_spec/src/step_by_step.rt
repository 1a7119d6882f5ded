//! A step, tested in the certificate before it.

ghost use Rattle.std.specs.Prelude.{◌≡◌, ◌↔◌, ℕ, ◌+◌, ◌<◌, List, [], ◌∷◌, ◌++◌, map};
ghost use Rattle.std.specs.Prelude.{slice_index_or, Option, Some, None};
ghost use Rattle.vipr_spec.specs.{zero_ℚ, equal, Profile, Condition, condition, Reason, Derivation};
ghost use Rattle.vipr_spec.specs.{constraint_at, reason_at, last_at, count, IsGoodStep};
ghost use Rattle.vipr_spec.specs.{HasGoodSteps, StepTest, PassesStep, step_tests, FirstFailing};
ghost use Rattle.vipr_spec.specs.{with_more, before, IsGoodNext, PassesSteps};
ghost use Rattle.vipr_spec.specs.Certificate.{Certificate};

/// What is known of a constraint, field by field: first the problem's constraints, and then the
/// derivations.
pub fn field_by_field()
    ensures stated { (c : Certificate) (i : ℕ) → constraint_at c i
        ≡ slice_index_or (map (λ n. condition n.item) c.problem.constraints
        ++ map (λ d. condition d.stated) c.derivations) i
        (record { row = λ j. zero_ℚ; sense = equal; bound = zero_ℚ }) }
    ensures reason { (c : Certificate) (i : ℕ) → reason_at c i
        ≡ slice_index_or (map (λ a. None) c.problem.constraints
        ++ map (λ d. Some d.reason) c.derivations) i None }
    ensures last { (c : Certificate) (i : ℕ) → last_at c i
        ≡ slice_index_or (map (λ a. None) c.problem.constraints
        ++ map (λ d. d.last) c.derivations) i None }
{}

/// A step passes all its tests if and only if it names what is there, is valid, fits, and refers to
/// live constraints alone. Each step passes them in the certificate before it if and only if all
/// this is so in the whole certificate.
pub fn tests_are_the_rules()
    ensures step { (P : Profile) (c : Certificate) (d : Condition) (r : Reason)
        → FirstFailing (PassesStep P c d) (step_tests r) None ↔ IsGoodStep P c (count c) r d }
    ensures next { (P : Profile) (c : Certificate) (d : Derivation)
        → FirstFailing (PassesStep P c (condition d.stated)) (step_tests d.reason) None
        ↔ IsGoodNext P c d }
    ensures each { (P : Profile) (c : Certificate) (k : ℕ) (r : Reason) → reason_at c k ≡ Some r
        → FirstFailing (PassesStep P (before c k) (constraint_at c k)) (step_tests r) None
        ↔ IsGoodStep P c k r (constraint_at c k) }
    ensures certificate { (P : Profile) (c : Certificate) → PassesSteps P c ↔ HasGoodSteps P c }
{}

/// With more derivations the first test that fails is the same, and for the next derivation it can
/// be read off the certificate before it.
pub fn tests_look_back()
    ensures stay { (P : Profile) (c : Certificate) (ds : List Derivation) (k : ℕ) (r : Reason)
        (f : Option StepTest) → k < count c
        → FirstFailing (PassesStep P (before (with_more c ds) k) (constraint_at (with_more c ds) k))
        (step_tests r) f
        ↔ FirstFailing (PassesStep P (before c k) (constraint_at c k)) (step_tests r) f }
    ensures next { (P : Profile) (c : Certificate) (d : Derivation) (ds : List Derivation)
        (f : Option StepTest)
        → FirstFailing (PassesStep P (before (with_more c (d ∷ ds)) (count c))
        (constraint_at (with_more c (d ∷ ds)) (count c))) (step_tests d.reason) f
        ↔ FirstFailing (PassesStep P c (condition d.stated)) (step_tests d.reason) f }
{}
