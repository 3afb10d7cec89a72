//! A replica's applier: its workers take the entries of the source's log in order, apply them side by side, a move
//! at a time, and commit them in order.
#![tactic(auto)]

mod appliers;
mod moves;
mod orders;
mod statements;
mod teams;
mod turns;
mod workers;

pub use appliers::Applier;
pub use turns::Turn;
pub use workers::Worker;
