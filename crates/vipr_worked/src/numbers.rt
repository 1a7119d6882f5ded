//! Numbers in a text, computed.

ghost use Rattle.std.specs.Prelude.{Err, None, Ok, Some, [], codes, false, negsuc, pos, true, ◌≡◌};
ghost use Rattle.vipr_spec.specs.Digits.{is_digit, natural_after, natural_of};
ghost use Rattle.vipr_spec.specs.Fraction.{over};
ghost use Rattle.vipr_spec.specs.Number.{IsSign, SpellsNumber, bottom_of, denominator, is_slash};
ghost use Rattle.vipr_spec.specs.Number.{not_a_number, number_read, of_parts, signed_integer};
ghost use Rattle.vipr_spec.specs.Number.{slash_place};
ghost use Rattle.vipr_spec.specs.Number.{top_of, under, written_fraction, zero_denominator};

/// Digits and the parts of a number.
pub fn digits()
    ensures is_digit_is { (is_digit 55 ≡ true) × (is_digit 47 ≡ false) }
    ensures natural_after_is { natural_after 12 (codes "34") ≡ Some 1234 }
    ensures natural_of_is { (natural_of (codes "007") ≡ Some 7) × (natural_of (codes "7x") ≡ None)
        × (natural_of [] ≡ None) }
    ensures is_slash_is { is_slash 47 ≡ true }
    ensures slash_place_is { (slash_place (codes "12/5") ≡ 2) × (slash_place (codes "12") ≡ 2) }
    ensures top_of_is { top_of (codes "12/5") ≡ codes "12" }
    ensures bottom_of_is { (bottom_of (codes "12/5") ≡ codes "5") × (bottom_of (codes "12")
        ≡ codes "1") }
    ensures signed_integer_is { (signed_integer true 7 ≡ negsuc 6)
        × (signed_integer false 7 ≡ pos 7) }
    ensures under_is { (under (Some (codes "2")) ≡ codes "/2") × (under None ≡ []) }
    ensures denominator_is { (denominator (Some (codes "2")) ≡ 2) × (denominator None ≡ 1) }
    ensures IsSign_is { IsSign (codes "-") true × IsSign [] false }
{}

/// Fractions.
pub fn fractions_read()
    ensures written_fraction_is { (written_fraction true 2 6 ≡ Ok (over (negsuc 1) 6))
        × (written_fraction false 1 0
        ≡ Err zero_denominator) }
    ensures of_parts_is { of_parts false None (Some 2) ≡ Err not_a_number }
    ensures number_read_is { (number_read (codes "-03/6") ≡ Ok (over (negsuc 2) 6))
        × (number_read (codes "1/0") ≡ Err zero_denominator) × (number_read (codes "1.5")
        ≡ Err not_a_number) }
    ensures SpellsNumber_is { SpellsNumber (codes "-03/6") (over (negsuc 2) 6) }
{}
