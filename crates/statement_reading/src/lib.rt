//! Reads statements, token by token.
#![tactic(auto)]

mod readers;
mod trees;

pub use readers::Reader;
pub use trees::{end_tree, schema_or};
