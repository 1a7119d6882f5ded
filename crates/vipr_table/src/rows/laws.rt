//! Laws of the table of rows.

ghost use Rattle.std.specs.Prelude.{◌≡◌, ℕ, ◌+◌, ◌≤◌, [], length};
ghost use Rattle.vipr_spec.specs.Certificate.{Certificate, Derivation, count};
ghost use Rattle.vipr_spec.specs.Certificate.{count_held as held_after};
ghost use Rattle.vipr_spec.specs.Steps.{with_next, RefersBack};
ghost use Rattle.vipr_spec.specs.Constraint.{at, NamesBelow};
ghost use Rattle.vipr_table.specs.Table.{DerivedBelow};
ghost use Rattle.vipr_table.specs.Table.{Table, empty_table, step, entry_at, held_count as held_in};
ghost use Rattle.vipr_table.specs.History.{IsEntryOf, IsTableOf, FindsLive};
ghost use Rattle.vipr_table.specs.declared.rows.Entry.{Entry as EntryValue};

/// The table holds the last derived constraint and the earlier ones that are live after it, as many
/// as are held, and a look-up answers exactly those that are live before the next derivation.
pub fn table_holds_what_is_live()
    ensures empty { (c : Certificate) → c.derivations ≡ []
        → IsTableOf c (empty_table (length c.problem.constraints)) }
    ensures step { (c : Certificate) (d : Derivation) (e : EntryValue) (t : Table) → IsTableOf c t
        → RefersBack c → IsEntryOf (with_next c d) (count c) e
        → IsTableOf (with_next c d) (step t e) }
    ensures found { (c : Certificate) (t : Table) → IsTableOf c t → (i : ℕ)
        → FindsLive c i (entry_at t i) }
    ensures counted { (c : Certificate) (t : Table) → IsTableOf c t → (k : ℕ) → k + 1 ≡ count c
        → length c.problem.constraints ≤ k → held_in t ≡ held_after c k }
{}

/// If no constraint of the problem and of the table has a variable from `n` on, that stays so
/// with an entry that has none either.
pub fn names_stay_below()
    ensures empty { (n first : ℕ) → DerivedBelow n (empty_table first) }
    ensures step { (n : ℕ) (t : Table) (e : EntryValue) → DerivedBelow n t
        → NamesBelow n (at e.constraint.row) → DerivedBelow n (step t e) }
{}
