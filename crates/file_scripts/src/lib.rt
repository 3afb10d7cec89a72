//! The scripts and the schedule of a workload file, as its lines are read, and who is declared.
#![tactic(auto)]

mod counting;
mod declarations;
mod laws;
mod schedules;
mod script_rules;
mod scripts;
mod splits;

pub use counting::{count_local, count_session, count_turns};
pub use declarations::{first_undeclared, is_declared, is_replica, node_is_declared};
pub use laws::{
    counts_of_lines, counts_within_limits, schedule_of_lines, scripts_of_lines,
    what_breaks_scripts, who_is_declared,
};
pub use schedules::FileSchedule;
pub use script_rules::{ends_script, step_may_come};
pub use scripts::{FileScripts, OwnScript, Owner};
pub use splits::{SplitScripts, split_scripts};
