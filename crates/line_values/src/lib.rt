//! What the items of a whole line of the workload file give: a table's form, a row, a node, a replica, the words of a schedule.
#![tactic(auto)]

mod laws;
mod numbers;
mod row_texts;
mod table_texts;
mod words;

pub use laws::whole_lines_say;
pub use row_texts::{RowText, row_text};
pub use table_texts::table_text;
pub use words::{count_in, is_repeatable, replica_in, words_in};
