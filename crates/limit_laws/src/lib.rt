//! What the limit on the moves of a run decides: whether it has an end within the limit, or makes too many moves.
#![tactic(auto)]

mod laws;

pub use laws::{moves_only_grow, runs_end_within_their_limit_or_exceed_it};
