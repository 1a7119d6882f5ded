//! What certificates become, tightened, computed.

ghost use Rattle.std.specs.Prelude.{List, None, Some, ◌≡◌};
ghost use Rattle.vipr_spec.specs.Certificate.{Named, Problem, RefersTo, by_entries, lin};
ghost use Rattle.vipr_spec.specs.Certificate.{reason_references, uns};
ghost use Rattle.vipr_spec.specs.Constraint.{Constraint, Row};
ghost use Rattle.vipr_spec.specs.Examples.{both, example};
ghost use Rattle.vipr_spec.specs.Tightened.{new_goal, tightened_certificate};
ghost use Rattle.vipr_worked.specs.Tightened.{underived, with_branch, with_cutoff, with_split};
ghost use Rattle.vipr_worked.specs.Tightened.{with_unused, without_cutoff, without_unused};

/// What a reason refers to.
pub fn references()
    ensures reason_references_is { reason_references (lin both) ≡ by_entries both }
    ensures RefersTo_is { RefersTo (Some (uns 4 2 5 3)) 5 }
    ensures new_goal_is { new_goal example (Some 2) ≡ Some 2 }
{}

/// A cutoff that an entry with multiplier 0 names goes, and so does the entry. Once more nothing
/// changes.
pub fn a_cutoff_goes()
    ensures goes { (p : Problem) (ss : List (Named Row)) (a x y : Constraint)
        → tightened_certificate (with_cutoff p ss a x y) (Some 2) ≡ without_cutoff p ss a y }
    ensures again { (p : Problem) (ss : List (Named Row)) (a y : Constraint)
        → tightened_certificate (without_cutoff p ss a y) (Some 1) ≡ without_cutoff p ss a y }
{}

/// An assumption that nothing uses goes, all indices follow, and the last references are set. For
/// the first branch of the split alone the rest goes, too.
pub fn an_assumption_goes()
    ensures goes { (p : Problem) (a b z x1 x2 x3 x4 x5 : Constraint)
        → tightened_certificate (with_unused p a b z x1 x2 x3 x4 x5) (Some 7)
        ≡ without_unused p a b x1 x2 x3 x4 x5 }
    ensures branch { (p : Problem) (a b z x1 x2 x3 x4 x5 : Constraint)
        → tightened_certificate (with_unused p a b z x1 x2 x3 x4 x5) (Some 5)
        ≡ with_branch p a b x1 x3 }
{}

/// Assumptions that are needed through a split alone stay.
pub fn split_assumptions_stay()
    ensures { (p : Problem) (a x1 x2 x3 : Constraint)
        → tightened_certificate (with_split p a x1 x2 x3 None) (Some 3)
        ≡ with_split p a x1 x2 x3 (Some 3) }
{}

/// Nothing is derived for a constraint of the problem, nor if there is no goal.
pub fn nothing_is_derived()
    ensures given_goal { (p : Problem) (a b z x1 x2 x3 x4 x5 : Constraint)
        → tightened_certificate (with_unused p a b z x1 x2 x3 x4 x5) (Some 1)
        ≡ underived (with_unused p a b z x1 x2 x3 x4 x5) }
    ensures no_goal { (p : Problem) (a b z x1 x2 x3 x4 x5 : Constraint)
        → tightened_certificate (with_unused p a b z x1 x2 x3 x4 x5) None
        ≡ underived (with_unused p a b z x1 x2 x3 x4 x5) }
{}
