//! Shapes of tokens.

ghost use Rattle.std.specs.Prelude.{None, [], codes, ◌∷◌};
ghost use Rattle.vipr_spec.specs.Certificate.{asm, infeasible, minimum};
ghost use Rattle.vipr_spec.specs.Constraint.{at_least};
ghost use Rattle.vipr_spec.specs.Grammar.{SpellsBound, SpellsDirection, SpellsLast, SpellsSense};
ghost use Rattle.vipr_spec.specs.Grammar.{claim, reason, version, word};

/// Which tokens have a shape.
pub fn shapes()
    ensures word_is { word (codes "VER") (codes "VER" ∷ []) }
    ensures version_is { version (codes "VER" ∷ codes "1.0" ∷ []) }
    ensures claim_is { claim infeasible (codes "RTP" ∷ codes "infeas" ∷ []) }
    ensures SpellsSense_is { SpellsSense (codes "G") at_least }
    ensures SpellsDirection_is { SpellsDirection (codes "min") minimum }
    ensures SpellsBound_is { SpellsBound (codes "-inf") (codes "-inf") None }
    ensures SpellsLast_is { SpellsLast (codes "-1") None }
    ensures reason_is { reason asm (codes "asm" ∷ []) }
{}
