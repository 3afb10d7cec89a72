//! What a statement does to a table: worked out first, with all its memory, and then done.
#![tactic(auto)]

mod row_changes;
mod table_changes;

pub use row_changes::{RowChange, RowChanges};
pub use table_changes::{TableChange, perform, planned};
