//! Reads expressions and conditions, token by token.
#![tactic(auto)]

mod finishes;
mod follows;
mod operand_states;
mod row_slots;
mod states;
mod steps;

pub use finishes::Finished;
pub use row_slots::Slot;
pub use states::{State, Stepped};
