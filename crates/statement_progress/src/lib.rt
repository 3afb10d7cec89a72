//! Reads a statement token by token, up to its first fault.
#![tactic(auto)]

mod progress;

pub use progress::{Inner, Progress};
