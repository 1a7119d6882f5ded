//! Tests, causes and answers, computed.

ghost use Rattle.std.specs.Prelude.{Err, Ok, Some, [], codes, pos, ◌∷◌, ◌≡◌};
ghost use Rattle.vipr_spec.specs.Certificate.{range, sol};
ghost use Rattle.vipr_spec.specs.Fraction.{over, whole, zero_ℚ};
ghost use Rattle.vipr_spec.specs.Reading.{entry_read, refused, unread};
ghost use Rattle.vipr_spec.specs.Steps.{by_cutoff, earlier, listed, live, reference_tests};
ghost use Rattle.vipr_spec.specs.Steps.{step_cause, step_tests};
ghost use Rattle.vipr_spec.specs.Tests.{finite_primal, meets_dual, name_at, of_step};
ghost use Rattle.vipr_spec.specs.Tests.{solution_cause, spelled, whole_at};
ghost use Rattle.vipr_spec.specs.Verdict.{at_derivation, found_in, items_read, last_tests, refuses};
ghost use Rattle.vipr_spec.specs.Verdict.{answer_of_test};
ghost use Rattle.vipr_spec.specs.{Examples.apart, GrammarLaws.whole_text};

/// The tests of an item.
pub fn tests()
    ensures reference_tests_is { (reference_tests (4, whole (pos 3)) ≡ earlier 4 ∷ live 4 ∷ [])
        × (reference_tests (4, zero_ℚ) ≡ earlier 4 ∷ []) }
    ensures step_tests_is { step_tests sol ≡ listed ∷ by_cutoff ∷ [] }
    ensures step_cause_is { (step_cause (earlier 3) ≡ 31) × (step_cause (live 3) ≡ 32) }
    ensures solution_cause_is { solution_cause (whole_at 0) ≡ 21 }
{}

/// What is answered.
pub fn answers_of_tests()
    ensures answer_of_test_is { answer_of_test (of_step 6 (live 4))
        ≡ refuses (record { cause = 32; place = at_derivation 6 }) }
    ensures last_tests_is { (last_tests (Ok tt) ≡ meets_dual ∷ []) × (last_tests (Err unread)
        ≡ spelled unread ∷ []) }
    ensures items_read_is { items_read entry_read 2 (whole_text (codes "0 1 x"))
        ≡ ((0, over (pos 1) 1) ∷ [], Err (refused 16 4)) }
    ensures found_in_is { (found_in (whole_text (codes "VER 2.0"))).tests ≡ spelled (refused 3 4)
        ∷ [] }
    ensures name_at_is { (name_at (codes "x" ∷ codes "y" ∷ []) 1 ≡ codes "y") × (name_at [] 1
        ≡ []) }
    ensures finite_primal_is { finite_primal apart (range (Some (whole (pos 1))) (Some (whole
        (pos 3)))) ≡ Some (whole (pos 3)) }
{}
