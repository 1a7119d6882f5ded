//! The answer for a text, and which texts are verified.

ghost use Rattle.std.specs.Prelude.{◌≡◌, ◌≢◌, ◌↔◌, ℕ, List, Ok};
ghost use Rattle.vipr_spec.specs.{Profile, IsProof, Rest, certificate_read, whole_text, IsShown};
ghost use Rattle.vipr_spec.specs.{Detail, found_in, Report, Reports, Refusal, Answer, refuses};
ghost use Rattle.vipr_spec.specs.{verified, IsAnswer, IsExplained, EndsAt, IsRefusedBy};
ghost use Rattle.vipr_spec.specs.{Certificate.Certificate, Grammar.Spells};
ghost use Rattle.vipr_spec.specs.Causes as cause;

/// What is refused before the end of the text is refused by the tokens up to the place, whatever
/// follows them. They end with the token at the place, with the solution or derivation there, or,
/// if the primal bound isn't met, with the last solution.
pub fn refusals_remain()
    ensures { (P : Profile) (r : Rest) (x : Refusal) → IsAnswer P r (refuses x)
        → x.cause ≢ cause.truncated → x.cause ≢ cause.no_proof
        → IsRefusedBy P found_in EndsAt r x }
{}

/// Each text has an answer: it can't be that it has none.
pub fn texts_are_answered()
    ensures { (P : Profile) (r : Rest) → ¬ ¬ ((a : Answer) × IsAnswer P r a) }
{}

/// A text has one answer at most, and one detail with it.
pub fn one_answer()
    ensures answer { (P : Profile) (r : Rest) (a b : Answer) → IsAnswer P r a → IsAnswer P r b
        → a ≡ b }
    ensures detail { (P : Profile) (r : Rest) (a b : Answer) (x y : Detail) → IsExplained P r a x
        → IsExplained P r b y → (a ≡ b) × (x ≡ y) }
{}

/// A text is verified exactly if it spells a certificate that is a proof, and what is reported
/// is that of the certificate. So whatever is answered for such a text is that it is verified. What
/// the certificate claims is then true, over all points.
pub fn verified_texts()
    ensures read { (P : Profile) (r : Rest) (report : Report) → IsAnswer P r (verified report)
        ↔ ((c : Certificate) × (certificate_read r ≡ Ok c) × IsProof P c × Reports P c report) }
    ensures spelled { (P : Profile) (bytes : List ℕ) (report : Report)
        → IsAnswer P (whole_text bytes) (verified report)
        ↔ ((c : Certificate) × Spells bytes c × IsProof P c × Reports P c report) }
    ensures proved { (P : Profile) (r : Rest) (c : Certificate) (a : Answer)
        → certificate_read r ≡ Ok c → IsProof P c → IsAnswer P r a
        → (report : Report) × Reports P c report × (a ≡ verified report) }
    ensures shown { (P : Profile) (bytes : List ℕ) (report : Report)
        → IsAnswer P (whole_text bytes) (verified report)
        → (c : Certificate) × Spells bytes c × IsShown c.problem c.solutions c.problem.claim }
{}
