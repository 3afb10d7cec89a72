//! The end of a statement: what it says, or its first fault.
#![tactic(auto)]

mod checksums;
mod statements;

pub use checksums::{kind_of, xor_of};
pub use statements::statement_of;
