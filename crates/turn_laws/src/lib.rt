//! What each turn of a session, of an applier's worker and of the checksum tool comes to: the calls that it makes on
//! its node, and what it leaves of the actor.
#![tactic(auto)]

mod laws;

pub use laws::{actors_stay, sources_log_what_fits, stops_are_calls, turns_are_calls};
