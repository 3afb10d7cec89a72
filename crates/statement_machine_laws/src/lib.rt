//! What the states that are read are, in the words of the grammar.
#![tactic(auto)]

mod laws;

pub use laws::machines_agree;
