//! What one piece more adds to a statement, and where its table is named.
#![tactic(auto)]

mod laws;

pub use laws::{names_of_tables, one_piece_more};
