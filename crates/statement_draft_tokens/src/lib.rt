//! What a single token adds to what is known of a statement, and what is wrong with it.
#![tactic(auto)]

mod faults;
mod tokens;

pub use faults::fault_of_token;
pub use tokens::take_token;
