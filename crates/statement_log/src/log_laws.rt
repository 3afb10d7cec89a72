ghost use Rattle.std.specs.Prelude.{◌≡◌, ◌≤◌, ◌+◌, ◌↔◌, ℕ, List, [], ◌∷◌, ◌++◌, Some, IsSome, length};
ghost use Rattle.statement_log.specs.declared.entries.Entry.{Entry};
ghost use Rattle.statement_log.specs.Positions.{entry_at};

/// A law: an appended entry stands at the new length, and the entries before it keep their positions.
pub fn an_appended_entry_is_the_last()
    ensures last { (entry : Entry) (entries : List Entry)
        → entry_at (length entries + 1) (entries ++ entry ∷ []) ≡ Some entry }
    ensures earlier { (position : ℕ) (entry : Entry) (entries : List Entry)
        → position ≤ length entries
        → entry_at position (entries ++ entry ∷ []) ≡ entry_at position entries }
{}

/// A law: the positions that have an entry are those from 1 to the length.
pub fn positions_run_from_one()
    ensures { (position : ℕ) (entries : List Entry)
        → IsSome (entry_at position entries) ↔ ((1 ≤ position) × (position ≤ length entries)) }
{}
