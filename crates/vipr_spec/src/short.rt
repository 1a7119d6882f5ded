//! What `verified` promises of a text, in a statement of its own.

ghost use Rattle.std.specs.Prelude.{ℕ, List, ◌≡◌};
ghost use Rattle.vipr_spec.specs.Certificate.{Certificate, IsProof};
ghost use Rattle.vipr_spec.specs.{Constraint.Profile, Grammar.Spells};
ghost use Rattle.vipr_spec.specs.Short.{Means, Problem, Row, States};

/// A text that spells a proof states a problem and solutions of which the claim is true.
pub fn proofs_mean()
    ensures { (P : Profile) (bytes : List ℕ) (c : Certificate) → Spells bytes c → IsProof P c
        → Means bytes }
{}

/// A text states at most one problem, and at most one list of solutions.
pub fn states_one()
    ensures { (bytes : List ℕ) (p q : Problem) (ss others : List Row) → States bytes p ss
        → States bytes q others → (p ≡ q) × (ss ≡ others) }
{}
