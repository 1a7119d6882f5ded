//! Tokens of a text, computed.

ghost use Rattle.std.specs.Prelude.{[], codes, false, true, ◌∷◌, ◌≡◌};
ghost use Rattle.vipr_spec.specs.Tokens.{is_cut, is_white, run, text_tokens};
ghost use Rattle.vipr_spec.specs.Tokens.{token_here, tokens, tokens_after_front, tokens_from};

/// One text and its tokens.
#[tactic(auto, unfolding(vipr_spec::specs::Tokens::tokens_from, vipr_spec::specs::Tokens::tokens_after_front, vipr_spec::specs::Tokens::is_white, vipr_spec::specs::Tokens::token_here, vipr_spec::specs::Tokens::is_cut))]
pub fn split()
    ensures is_white_is { (is_white 32 ≡ true) × (is_white 86 ≡ false) }
    ensures run_is { run (codes "VER 1.0") ≡ codes "VER" }
    ensures is_cut_is { is_cut true (codes "VE") (codes "VE") ≡ true }
    ensures token_here_is { token_here false 0 (codes "VER 1.0")
        ≡ record { bytes = codes "VER"; offset = 0 } ∷ [] }
    ensures tokens_from_is { tokens_from false true 0 (codes "VER 1.0")
        ≡ record { bytes = codes "1.0"; offset = 4 } ∷ [] }
    ensures tokens_after_front_is { tokens_after_front false false 0 (codes "% a\nVER")
        ≡ record { bytes = codes "VER"; offset = 4 } ∷ [] }
    ensures tokens_is { tokens (record { bytes = codes "VER 1.0"; fails = true })
        ≡ record { bytes = codes "VER"; offset = 0 } ∷ [] }
    ensures text_tokens_is { text_tokens (codes "% made by hand\nVER 1.0")
        ≡ record { bytes = codes "VER"; offset = 15 }
        ∷ record { bytes = codes "1.0"; offset = 19 } ∷ [] }
{}
