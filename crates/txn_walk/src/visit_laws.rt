ghost use Rattle.std.specs.Prelude.{ℕ, ◌≡◌, ◌≢◌, ◌⊎◌, List, true};
ghost use Rattle.row_types.specs.declared.values.Value.{Value};
ghost use Rattle.row_types.specs.declared.lock_modes.LockMode.{LockMode};
ghost use Rattle.ordered_table.specs.TableView.{TableView};
ghost use Rattle.lock_table.specs.declared.wants.Holding.{Holding};
ghost use Rattle.lock_table.specs.declared.wants.Want.TheVariants.{OnKey};
ghost use Rattle.lock_table.specs.Locks.{Holds};
ghost use Rattle.lock_table.specs.Stops.{IsAmong};
ghost use Rattle.txn_walk.specs.StopsAt.{stops_at, is_live_in};

/// A law: the stops of an owner are the live keys, and those on which another owner has a lock.
#[tactic(auto, using(crate::proofs::StopLawLemmas::stop_is, crate::proofs::StopLawLemmas::live_is_stop, crate::proofs::StopLawLemmas::locked_is_stop))]
pub fn stops_are_live_or_locked_by_others()
    ensures stop { (owner number : ℕ) (table : TableView) (held : List Holding) (key : List Value)
        → IsAmong key (stops_at owner number table held)
        → (is_live_in table key ≡ true)
        ⊎ ((other : ℕ) × (mode : LockMode) × (other ≢ owner) × Holds other number (OnKey key mode) held) }
    ensures live { (owner number : ℕ) (table : TableView) (held : List Holding) (key : List Value)
        → is_live_in table key ≡ true
        → IsAmong key (stops_at owner number table held) }
    ensures locked { (owner number other : ℕ) (mode : LockMode) (table : TableView) (held : List Holding) (key : List Value)
        → other ≢ owner → Holds other number (OnKey key mode) held
        → IsAmong key (stops_at owner number table held) }
{}
