//! What holds at the end of a run: who has finished, what the replicas have applied and what the
//! sessions wrote.
#![tactic(auto)]

mod laws;

pub use laws::{
    finished_sessions_wrote_all_their_calls, runs_without_unfinished_lines, still_actors_are_told,
};
