//! A node on which transactions go row by row under record and gap locks: its history, its open
//! transactions and what they hold; which rows are live; what each call does; and what the locks keep.
#![tactic(auto)]

mod laws;
mod parts;
mod txns;

pub use laws::{a_commit_leaves_live_rows, locked_rows_stay, locks_keep_what_they_cover};
pub use parts::Part;
pub use txns::{Txn, Txns, Walk};
