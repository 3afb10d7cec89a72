//! The world of a run by moves: its nodes and actors, the turns of a schedule and of rounds, and what its report says.
#![tactic(auto)]

mod laws;
mod options;

pub use laws::{
    each_run_has_one_end, each_world_fits, rounds_have_one_order, still_rounds_change_nothing,
    still_turns_change_nothing, worlds_are_replays,
};
pub use options::RunOptions;
