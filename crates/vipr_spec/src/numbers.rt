//! Laws of numbers as they are written.
ghost use Rattle.std.specs.Prelude.{◌≡◌, ◌↔◌, ℕ, ◌≤◌, List, length, Ok};
ghost use Rattle.vipr_spec.specs.{ℚ, IsBounded, SpellsNumber, number_read, number_text};

/// What is read as a number is what the bytes spell, no bytes spell two numbers, and what is
/// written spells the number.
pub fn spelled_numbers()
    ensures read { (bs : List ℕ) (x : ℚ) → (number_read bs ≡ Ok x) ↔ SpellsNumber bs x }
    ensures one { (bs : List ℕ) (x y : ℚ) → SpellsNumber bs x → SpellsNumber bs y → x ≡ y }
    ensures text { (x : ℚ) → IsBounded x → SpellsNumber (number_text x) x }
    ensures short { (x : ℚ) → IsBounded x → length (number_text x) ≤ 80 }
{}
