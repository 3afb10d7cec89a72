//! What is due in a statement behind a single token.
#![tactic(auto)]

mod keyword_spots;
mod numbers;
mod spots;

pub use spots::spot_behind;
