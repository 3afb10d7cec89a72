//! Reads one expression or condition: how far its tokens begin one, and what is wrong with what is read.
#![tactic(auto)]

mod trees;

pub use trees::{OpenTree, TreeEnd, TreeStep};
