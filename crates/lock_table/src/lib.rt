//! Locks on keys and gaps: who holds what, and which of it excludes what another owner wants
//! (MySQL Reference Manual, "InnoDB Locking").
#![tactic(auto)]

mod exclusion;
mod foreign_keys;
mod holdings;
mod lock_laws;
mod strongest;
mod tables;
mod wants;

pub use lock_laws::{
    a_gap_has_no_key, gap_locks_only_keep_rows_out, holdings_go_together,
    the_least_excluder_is_exact, what_is_held_is_what_was_taken,
};
pub use tables::LockTable;
pub use wants::{Held, Holding, Owner, Owners, Want};
