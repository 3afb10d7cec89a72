//! Reads a statement from its text.
#![tactic(auto)]

mod ends;
mod reads;
mod starts;
mod tables;

pub use reads::read;
pub use tables::are_countable;
