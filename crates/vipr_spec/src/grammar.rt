//! Laws of the format: what is read from a text is what the grammar says that it spells.

ghost use Rattle.std.specs.Prelude.{ℕ, List};
ghost use Rattle.vipr_spec.specs.{StatesOnly, ReadsNaturals, KindsOfToken, KindsOfNumber};
ghost use Rattle.vipr_spec.specs.{ItemReadings, ReadsCertificates, ReadsTexts, OneCertificate};
ghost use Rattle.vipr_spec.specs.ExampleText.{example_text, example_certificate};
ghost use Rattle.vipr_spec.specs.{Certificate.Certificate, Grammar.Spells};

/// Digits write the number that they spell, and nothing else writes one.
pub fn naturals()
    ensures { ReadsNaturals }
{}

/// A token of a kind means what the grammar says that it spells, and other tokens are none of that
/// kind.
pub fn kinds_of_token()
    ensures words { KindsOfToken }
    ensures numbers { KindsOfNumber }
{}

/// An item is read exactly if the next tokens spell it, whatever follows them.
pub fn items()
    ensures { ItemReadings }
{}

/// A certificate is read exactly if the tokens of the text spell it: so it was read only if the
/// text spells it, and what a text spells is read.
pub fn reading_is_the_grammar()
    ensures tokens { ReadsCertificates }
    ensures texts { ReadsTexts }
{}

/// No text spells two certificates.
pub fn one_certificate()
    ensures { OneCertificate }
{}

/// A text and what it spells.
pub fn example()
    ensures { Spells example_text example_certificate }
{}

/// A text that spells a certificate states its problem and its listed solutions, and no others.
pub fn one_problem()
    ensures { (bytes : List ℕ) (c : Certificate) → Spells bytes c
        → StatesOnly bytes c.problem c.solutions }
{}
