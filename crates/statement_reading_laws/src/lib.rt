//! How a statement is read, token by token, up to its end or to its first fault.
#![tactic(auto)]

mod laws;

pub use laws::a_statement_is_read;
