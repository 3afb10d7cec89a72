//! What is open while an expression or a condition is read, and how it is closed.
#![tactic(auto)]

mod closes;
mod levels;
mod stacks;
mod tops;

pub use closes::{Closed, Held};
pub use stacks::Stack;
pub use tops::{Top, level, prefix_level, wants};
