//! A client's session: it goes through its script on a node, a move at a time, begins a transaction again
//! that was rolled back, and abandons it after so many times.
#![tactic(auto)]

mod lists;
mod moves;
mod parts;
mod places;
mod sessions;
mod stages;

pub use sessions::Session;
pub use stages::{SessionTurn, Stage};
