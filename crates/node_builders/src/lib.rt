//! A node of one table for tests and benchmarks, and its calls, made where what they require holds.
#![tactic(auto)]

mod calls;
mod nodes;
mod statement_fits;

pub use calls::{begin, commit, start, start_and_visit, visit, visit_and_start};
pub use nodes::{
    delete_rows, empty_node, insert_row, own_key_where, read_between, whole_check, whole_clear,
};
pub use statement_fits::fits;
