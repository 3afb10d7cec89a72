//! What the DUPLICATE lines of a run's report mean.
#![tactic(auto)]

mod laws;

pub use laws::{each_duplicate_is_an_insert, each_duplicate_was_there};
