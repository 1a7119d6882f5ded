//! The texts of certificates, and what they spell: laws without code.
ghost use Rattle.std.specs.Prelude.{◌≡◌};
ghost use Rattle.vipr_write.specs.Example.{sample, sample_text, sample_compact};
ghost use Rattle.vipr_write.specs.Laws.{SpellsItself, CompactSpellsItself, IsCanonical};
ghost use Rattle.vipr_write.specs.Laws.{CanWriteSpelled};
ghost use Rattle.vipr_write.specs.{Canonical.canonical_text, Forms.compact_text};

/// The canonical text of a certificate within the limits of the format spells that certificate and
/// no other.
pub fn canonical_texts()
    ensures { SpellsItself }
{}

/// So does its compact text.
pub fn compact_texts()
    ensures { CompactSpellsItself }
{}

/// The text in the canonical form is the canonical text.
pub fn canonical_form()
    ensures { IsCanonical }
{}

/// What a text spells is within the limits of the format, so it has a canonical text.
pub fn spelled_ones()
    ensures { CanWriteSpelled }
{}

/// A certificate, and its texts byte by byte.
pub fn worked_example()
    ensures canonical { canonical_text sample ≡ sample_text }
    ensures compact { compact_text sample ≡ sample_compact }
{}
