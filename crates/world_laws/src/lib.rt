//! What holds of the nodes of a run, whatever turns its actors take: what the checksum tool tells of the source, that
//! each replica follows the source's log, and what each verdict compares.
#![tactic(auto)]

mod laws;

pub use laws::{
    replicas_follow, sessions_wrote_their_own_calls, sound_scripts_are_in_order,
    sound_workloads_can_run, sources_are_told, tools_are_no_victims, verdicts_compare,
};
