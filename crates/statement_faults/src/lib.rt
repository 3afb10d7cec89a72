//! The first fault of what is read of an expression or a condition, from what is kept of it.
#![tactic(auto)]

mod tree_faults;

pub use tree_faults::{fault_of_tree, first_fault};
