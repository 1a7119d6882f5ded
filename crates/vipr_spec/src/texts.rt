//! A text has one way to be split into tokens.

ghost use Rattle.std.specs.Prelude.{◌≡◌, ℕ, List};
ghost use Rattle.vipr_spec.specs.{Token, text_tokens, AreTokens};

/// A text is a front and its tokens, and no other list of tokens makes it up.
pub fn tokens_are_one()
    ensures split { (text : List ℕ) → AreTokens text (text_tokens text) }
    ensures one { (text : List ℕ) (ts : List Token) → AreTokens text ts → ts ≡ text_tokens text }
{}
