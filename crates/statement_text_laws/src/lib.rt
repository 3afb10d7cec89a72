//! Laws on statement text: it is read in one way, and what is written of a tree is that tree.
#![tactic(auto)]

mod laws;

pub use laws::{one_text, texts_are_spelled, trees_are_read_back};
