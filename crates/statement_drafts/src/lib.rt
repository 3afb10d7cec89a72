//! What is known of a statement so far, token by token, and what is wrong with each.
#![tactic(auto)]

mod drafts;
mod literal_faults;
mod tables;
mod tokens;

pub use drafts::{Draft, Form};
pub use literal_faults::{assigned_fault, list_fault, literal_fault};
pub use tables::{columns_of, schema_of, table_named};
pub use tokens::form_by;
