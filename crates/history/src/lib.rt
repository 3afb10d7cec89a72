//! What a log says: what the replay of its entries leaves of tables and check rows, and what the
//! verdict on a replica's check row compares.
#![tactic(auto)]

mod laws;

pub use laws::{each_verdict_compares, equal_tables_stay_equal};
