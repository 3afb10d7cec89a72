//! What the lines of a run's report mean: what each verdict compares, and where the tables of a replica are the source's.
#![tactic(auto)]

mod laws;

pub use laws::{
    each_printed_verdict_compares, each_table_has_its_line, each_world_began_from_its_workload,
    logs_are_written_as_they_write, runs_hold, same_tables_are_equal,
};
