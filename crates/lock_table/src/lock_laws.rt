ghost use Rattle.std.specs.Prelude.{ℕ, ◌≡◌, ◌≢◌, ◌≤◌, ◌⊎◌, List, [], ◌∷◌, None, Some, pos, true, false};
ghost use Rattle.row_types.specs.declared.values.Value.{Value};
ghost use Rattle.row_types.specs.declared.values.Value.TheVariants.{Int};
ghost use Rattle.row_types.specs.declared.edges.Edge.{Edge};
ghost use Rattle.row_types.specs.declared.edges.Edge.TheVariants.{Before, After};
ghost use Rattle.row_types.specs.declared.edges.Span.{Span};
ghost use Rattle.row_types.specs.declared.lock_modes.LockMode.{LockMode};
ghost use Rattle.row_types.specs.declared.lock_modes.LockMode.TheVariants.{Shared, Exclusive};
ghost use Rattle.row_types.specs.Order.{has};
ghost use Rattle.lock_table.specs.declared.wants.Owner.{Owner};
ghost use Rattle.lock_table.specs.declared.wants.Want.{Want};
ghost use Rattle.lock_table.specs.declared.wants.Want.TheVariants.{OnKey, OnGap, InsertAt};
ghost use Rattle.lock_table.specs.declared.wants.Holding.{Holding};
ghost use Rattle.lock_table.specs.Locks.{excluder, is_excluded_by, with_want, released, Holds, IsLock, AreLocks, AreCompatible};
ghost use Rattle.lock_table.specs.Stops.{gap_round, IsAmong};

/// A law: the least excluder of a want is the least of the other owners that hold, on its table, what
/// excludes it; where there is none, no other owner holds such a thing.
#[tactic(auto, using(crate::proofs::ExcluderLemmas::excluder_excludes, crate::proofs::ExcluderLemmas::excluder_is_least, crate::proofs::HoldLemmas::not_excluded))]
pub fn the_least_excluder_is_exact()
    ensures excludes { (owner table by : ℕ) (want : Want) (held : List Holding)
        → excluder owner table want held ≡ Some by
        → (by ≢ owner) × (theirs : Want) × Holds by table theirs held × (is_excluded_by want theirs ≡ true) }
    ensures least { (owner table by other : ℕ) (want theirs : Want) (held : List Holding)
        → excluder owner table want held ≡ Some by
        → other ≢ owner → Holds other table theirs held → is_excluded_by want theirs ≡ true
        → by ≤ other }
    ensures none { (owner table other : ℕ) (want theirs : Want) (held : List Holding)
        → excluder owner table want held ≡ None
        → other ≢ owner → Holds other table theirs held
        → is_excluded_by want theirs ≡ false }
{}

/// A law: a want that is taken is held and nothing else comes or goes; a release takes all of its owner's
/// and nothing else.
#[tactic(auto, using(crate::proofs::HoldLemmas::holds_last, crate::proofs::HoldLemmas::holds_front, crate::proofs::HoldLemmas::holds_appended, crate::proofs::HoldLemmas::released_holds, crate::proofs::HoldLemmas::still_holds))]
pub fn what_is_held_is_what_was_taken()
    ensures taken { (owner : Owner) (table : ℕ) (want : Want) (held : List Holding)
        → Holds owner.0 table want (with_want owner table want held) }
    ensures kept { (owner : Owner) (other table number : ℕ) (want theirs : Want) (held : List Holding)
        → Holds other number theirs held
        → Holds other number theirs (with_want owner table want held) }
    ensures nothing_else { (owner : Owner) (other table number : ℕ) (want theirs : Want) (held : List Holding)
        → Holds other number theirs (with_want owner table want held)
        → ((owner.0 ≡ other) × (table ≡ number) × (want ≡ theirs)) ⊎ Holds other number theirs held }
    ensures released { (owner other table : ℕ) (want : Want) (held : List Holding)
        → Holds other table want (released owner held)
        → Holds other table want held × (other ≢ owner) }
    ensures stays { (owner other table : ℕ) (want : Want) (held : List Holding)
        → other ≢ owner → Holds other table want held
        → Holds other table want (released owner held) }
{}

/// A law: where each lock is taken while nobody excludes it, no owner ever holds what excludes what another
/// holds; so who has a key exclusively is alone on it.
#[tactic(auto, using(crate::proofs::ExcluderLemmas::empty_compatible, crate::proofs::ExcluderLemmas::taken_compatible, crate::proofs::ExcluderLemmas::released_compatible, crate::proofs::ExcluderLemmas::alone_on_key))]
pub fn holdings_go_together()
    ensures empty { AreCompatible [] }
    ensures taken { (owner : Owner) (table : ℕ) (want : Want) (held : List Holding)
        → AreLocks held → AreCompatible held
        → IsLock want → excluder owner.0 table want held ≡ None
        → AreCompatible (with_want owner table want held) }
    ensures released { (owner : ℕ) (held : List Holding)
        → AreCompatible held
        → AreCompatible (released owner held) }
    ensures alone { (a b table : ℕ) (key : List Value) (mode : LockMode) (held : List Holding)
        → AreCompatible held → a ≢ b
        → Holds a table (OnKey key Exclusive) held → Holds b table (OnKey key mode) held → ⊥ }
{}

/// A law: nothing excludes a gap lock; and where a row may be put in at a key, a lock on it may be taken.
#[tactic(auto, using(crate::proofs::HoldLemmas::gap_free, crate::proofs::HoldLemmas::lock_free))]
pub fn gap_locks_only_keep_rows_out()
    ensures gap { (owner table : ℕ) (span : Span) (held : List Holding)
        → excluder owner table (OnGap span) held ≡ None }
    ensures row { (owner table : ℕ) (key : List Value) (mode : LockMode) (held : List Holding)
        → excluder owner table (InsertAt key) held ≡ None
        → excluder owner table (OnKey key mode) held ≡ None }
{}

/// A law: no key lies in the gap round an edge.
#[tactic(auto, using(crate::proofs::GapLemmas::gap_is_free))]
pub fn a_gap_has_no_key()
    ensures { (edge : Edge) (keys : List (List Value)) (key : List Value)
        → IsAmong key keys → has (gap_round edge keys) key ≡ true → ⊥ }
{}
