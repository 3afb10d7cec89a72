//! The parts of a line of the workload file, one after another.
#![tactic(auto)]

mod cuttings;
mod parts;
mod token_ends;

pub use cuttings::{Cutting, LinePart};
pub use parts::next_part;
