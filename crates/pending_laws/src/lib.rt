//! Where no verdict of a run is left PENDING.
#![tactic(auto)]

mod laws;

pub use laws::finished_runs_leave_no_verdict_pending;
