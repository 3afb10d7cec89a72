//! Laws on statement text: what is written of a statement is that statement.
#![tactic(auto)]

mod laws;

pub use laws::{tool_can_be_said, written_is_read};
