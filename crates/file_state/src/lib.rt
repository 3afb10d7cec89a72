//! What a workload file's lines so far leave, and what one good line more makes of it.
#![tactic(auto)]

mod keeping;
mod states;

pub use states::FileState;
