//! A line of a workload file whose form is known: the first rule on what it says that it breaks, or what it makes of
//! the state.
#![tactic(auto)]

mod plain_lines;
mod script_lines;
mod table_lines;

pub use plain_lines::{take_end, take_header, take_isolation, take_replicas};
pub use script_lines::{take_local, take_schedule, take_session};
pub use table_lines::{take_row, take_table};
