//! What a session writes and where it stands, over every list of its turns and of others' calls.
#![tactic(auto)]

ghost use Rattle.session_laws.specs.OwnCalls.{WritesOwnCalls};
ghost use Rattle.session_laws.specs.Standing.{SessionsStand};

/// Whatever others do between its turns, a session writes its transactions in order, each once, without those that
/// were rolled back, abandoned, refused as duplicates or left unfinished.
pub fn sessions_write_their_own_calls()
    ensures { WritesOwnCalls }
{}

/// Whatever others do between its turns, a session between two transactions has none on its node, and one within a
/// transaction or with a statement in progress has a next line.
#[tactic(auto, using(crate::proofs::StandLemmas::sessions_stand))]
pub fn sessions_have_a_next_line()
    ensures { SessionsStand }
{}
