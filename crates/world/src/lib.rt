//! The world of a run: its nodes and actors, a move at a time, with the journal of what was played; and the run to its end.
#![tactic(auto)]

mod begins;
mod journals;
mod note_copies;
mod orders;
mod parts;
mod replicas;
mod rounds;
mod runs;
mod sessions;
mod steps;
mod turns;
mod worlds;

pub use parts::WorldParts;
pub use replicas::Replica;
pub use runs::RunFault;
pub use worlds::World;
