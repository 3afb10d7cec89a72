//! What holds of every run, whatever its workload and its schedule.
#![tactic(auto)]

mod laws;
mod report_laws;

pub use laws::{each_run_has_one_end, each_run_holds, moves_are_bounded};
pub use report_laws::equal_tables_have_the_same_rows;
