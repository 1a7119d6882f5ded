//! One pass over the derivations: what a checker keeps stays so, and decides the answer at the end.

ghost use Rattle.std.specs.Prelude.{◌≡◌, ℕ, max, List, Option, None, IsSome, Ok};
ghost use Rattle.vipr_spec.specs.{Profile, Row, Named, Problem, Derivation, NeedsGoal, count_held};
ghost use Rattle.vipr_spec.specs.{count, Rest, end_read, with_next, IsGoodNext, meets_dual};
ghost use Rattle.vipr_spec.specs.{verified, answer_of_test, Answers, derivations_from, start};
ghost use Rattle.vipr_spec.specs.{IsChecked, IsFirstMet, NextGoal, report_from};
ghost use Rattle.vipr_spec.specs.Certificate.{Certificate};

/// The goal of the problem's constraints is there at the start; the next derivation, if it can come
/// next, may be the goal, and raises the peak to what is held after it.
pub fn kept()
    ensures start { (P : Profile) (p : Problem) (ss : List (Named Row)) (goal : Option ℕ)
        → IsFirstMet P p goal → IsChecked P (start p ss) goal 0 }
    ensures next { (P : Profile) (c : Certificate) (d : Derivation) (goal next : Option ℕ)
        (most_held : ℕ) → IsChecked P c goal most_held → IsGoodNext P c d → NextGoal P c d goal next
        → IsChecked P (with_next c d) next (max most_held (count_held (with_next c d) (count c))) }
{}

/// At the end the text is verified if there is a goal or none is needed, and else it is no proof.
pub fn answered()
    ensures verified { (P : Profile) (c : Certificate) (goal : Option ℕ) (most_held : ℕ) (r : Rest)
        → IsChecked P c goal most_held → end_read r ≡ Ok tt
        → (NeedsGoal c.problem c.problem.claim → IsSome goal)
        → Answers P (derivations_from c 0 r) (verified (report_from c goal most_held)) }
    ensures unproved { (P : Profile) (c : Certificate) (most_held : ℕ) (r : Rest)
        → IsChecked P c None most_held → end_read r ≡ Ok tt → NeedsGoal c.problem c.problem.claim
        → Answers P (derivations_from c 0 r) (answer_of_test meets_dual) }
{}
