//! The canonical text of statements, and of what they are made of: expressions, conditions, spans,
//! rows, the columns of tables. Its reader will stand beside it.
#![tactic(auto)]

mod condition_texts;
mod statement_texts;
mod texts;
mod writers;

pub use statement_texts::write;
pub use texts::{push_bytes, push_number};
pub use writers::Writer;
