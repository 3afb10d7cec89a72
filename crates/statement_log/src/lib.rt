//! Logs of transactions: who wrote an entry and its statements, entries by their position, and reserved
//! capacity for the next one.
#![tactic(auto)]

mod entries;
mod log_laws;
mod logs;
mod origins;

pub use entries::{Entries, Entry};
pub use log_laws::{an_appended_entry_is_the_last, positions_run_from_one};
pub use logs::Log;
pub use origins::Origin;

#[cfg(test)]
mod tests;
