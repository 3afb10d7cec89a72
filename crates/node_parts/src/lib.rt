//! What a node keeps: its live tables, its open transactions with what they hold, have to put back and have
//! read, its history and its check rows. A transaction begins here, a statement starts, a rollback puts rows
//! back; and rows, live and committed, are looked up.
#![tactic(auto)]

mod committed_rows;
mod makes;
mod notes;
mod parts;
mod rollbacks;
mod starts;
mod views;

pub use committed_rows::committed_in;
pub use makes::fresh_parts;
pub use notes::{Change, Note, Notes, change_noted};
pub use parts::Parts;
pub use rollbacks::rollback_parts;
pub use starts::{begin_parts, start_at, start_of, start_parts};
pub use views::{is_under_way, live_in, read_rows_in};
