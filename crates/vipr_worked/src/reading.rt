//! What is read from the front of a text, computed. `whole_text` are the tokens of a text that
//! no failed read cuts short.

ghost use Rattle.std.specs.Prelude.{Err, Ok, [], codes, false, pos, true, ◌∷◌, ◌≡◌};
ghost use Rattle.std.specs.{FinMap.empty, FinSet.from_list};
ghost use Rattle.vipr_spec.specs.Certificate.{infeasible, uns};
ghost use Rattle.vipr_spec.specs.Reading.{by_read, by_uns, claim_read, constraint_read};
ghost use Rattle.vipr_spec.specs.Reading.{constraints_read, count_of, counted_read};
ghost use Rattle.vipr_spec.specs.Reading.{derivation_read, derivations_read, end_read};
ghost use Rattle.vipr_spec.specs.Reading.{entries_read, entry_read, first_token, integers_read};
ghost use Rattle.vipr_spec.specs.Reading.{keyword_read, names_read, objective_read, pair_read};
ghost use Rattle.vipr_spec.specs.Reading.{pairs_read, problem_read, range_read, reason_read};
ghost use Rattle.vipr_spec.specs.Reading.{refused, row_read, solution_read, token_of, vector_read};
ghost use Rattle.vipr_spec.specs.Reading.{version_read};
ghost use Rattle.vipr_spec.specs.{Examples.apart, Fraction.over, GrammarLaws.whole_text};

/// The sections of a problem.
pub fn heads()
    ensures first_token_is { first_token [] (record { tokens = []; fails = false; length = 9 })
        ≡ Err (refused 1 9) }
    ensures keyword_read_is { keyword_read (codes "DER") (whole_text (codes "SOL"))
        ≡ Err (refused 2 0) }
    ensures token_of_is { token_of count_of (whole_text (codes "x")) ≡ Err (refused 7 0) }
    ensures version_read_is { version_read (whole_text (codes "VER 1.1")) ≡ Err (refused 3 4) }
    ensures names_read_is { names_read (whole_text (codes "VAR 2 x")) ≡ Err (refused 1 7) }
    ensures integers_read_is { integers_read 1 (whole_text (codes "INT 2 0 0")) ≡ Ok (
      from_list (0
          ∷ 0 ∷ []),
      record { tokens = []; fails = false; length = 9 },
    ) }
    ensures objective_read_is { objective_read 1 (whole_text (codes "OBJ mini"))
        ≡ Err (refused 12 4) }
    ensures constraints_read_is { constraints_read 1 empty (whole_text (codes "CON 1"))
        ≡ Err (refused 1 5) }
    ensures range_read_is { range_read true (whole_text (codes "-inf -inf")) ≡ Err (refused 4 5) }
    ensures claim_read_is { claim_read (whole_text (codes "RTP infeas"))
        ≡ Ok (infeasible, record { tokens = []; fails = false; length = 10 }) }
    ensures problem_read_is { problem_read (whole_text (codes "VER 1.0 VAR"))
        ≡ Err (refused 1 11) }
{}

/// Vectors, constraints and solutions.
pub fn parts()
    ensures pair_read_is { pair_read 2 [] (whole_text (codes "0 1/2"))
        ≡ Ok ((0, over (pos 1) 2), record { tokens = []; fails = false; length = 5 }) }
    ensures pairs_read_is { pairs_read 2 [] 2 (whole_text (codes "0 1 0 3"))
        ≡ Err (refused 10 4) }
    ensures counted_read_is { counted_read 2 (1, whole_text (codes "2 5")) ≡ Err (refused 9 0) }
    ensures vector_read_is { vector_read 2 (whole_text (codes "1 2 5")) ≡ Err (refused 9 2) }
    ensures row_read_is { row_read 1 empty (whole_text (codes "OBJ"))
        ≡ Ok (empty, record { tokens = []; fails = false; length = 3 }) }
    ensures constraint_read_is { constraint_read 1 empty (whole_text (codes "a X 1 1 0 1"))
        ≡ Err (refused 11 2) }
    ensures solution_read_is { solution_read apart (whole_text (codes "s 1 1 2"))
        ≡ Err (refused 9 4) }
{}

/// Derivations and the end.
pub fn steps()
    ensures derivations_read_is { derivations_read apart (whole_text (codes "DER 4294967294"))
        ≡ Err (refused 8 4) }
    ensures entry_read_is { entry_read (whole_text (codes "x 1")) ≡ Err (refused 16 0) }
    ensures entries_read_is { entries_read (whole_text (codes "1 0")) ≡ Err (refused 1 3) }
    ensures by_read_is { by_read by_uns (whole_text (codes "4 2 5 3"))
        ≡ Ok (uns 4 2 5 3, record { tokens = []; fails = false; length = 7 }) }
    ensures reason_read_is { reason_read (whole_text (codes "{ lam }")) ≡ Err (refused 14 2) }
    ensures derivation_read_is { derivation_read apart (whole_text (codes "f G 1 0 { asm } x"))
        ≡ Err (refused 16 16) }
    ensures end_read_is { (end_read (whole_text (codes "x")) ≡ Err (refused 18 0))
        × (end_read (whole_text (codes " ")) ≡ Ok tt) }
{}
