ghost use Rattle.std.specs.Prelude.{◌≡◌, ◌∷◌, MatchOption};
ghost use Rattle.line_words.specs.Actors.{IsActorWord, NoActor, BehindPoint, NothingBehindPoint};

use crate::numbers::{cut_decimal, decimal_of};

/// The word of an actor. A number past 128 bits is the greatest of 128 bits.
#[derive(Clone, Copy, Debug, PartialEq, Eq)]
pub enum ActorWord {
    Session(u128),
    Tool,
    Sync(u128),
    /// worker 1 of a replica
    Worker(u128),
    FurtherWorker { replica: u128, worker: u128 },
    Local { replica: u128, session: u128 },
}

/// The actor whose word a text is; None where it is no actor's.
#[tactic(auto, using(crate::proofs::ActorLemmas::no_letter))]
pub fn actor_of(text: &[u8]) -> Option<ActorWord>
    ensures { MatchOption result (NoActor text.now) (λ found. IsActorWord text.now found) }
{
    match text.split_first() {
        None => None,
        Some((byte, more)) => actor_behind(*byte, more),
    }
}

#[tactic(auto, using(crate::proofs::ActorLemmas::other_letter))]
fn actor_behind(byte: u8, more: &[u8]) -> Option<ActorWord>
    ensures { MatchOption result (NoActor (byte ∷ more.now)) (λ found. IsActorWord (byte ∷ more.now) found) }
{
    if byte == b's' {
        return session_behind(more);
    }
    if byte == b'c' {
        return tool_behind(more);
    }
    if byte == b'y' {
        return sync_behind(more);
    }
    if byte == b'r' {
        return replica_behind(more);
    }
    None
}

#[tactic(auto, using(crate::proofs::ActorLemmas::is_session, crate::proofs::ActorLemmas::no_session))]
fn session_behind(more: &[u8]) -> Option<ActorWord>
    ensures { MatchOption result (NoActor (115 ∷ more.now)) (λ found. IsActorWord (115 ∷ more.now) found) }
{
    match decimal_of(more) {
        None => None,
        Some(session) => Some(ActorWord::Session(session)),
    }
}

#[tactic(auto, using(crate::proofs::ActorLemmas::is_tool, crate::proofs::ActorLemmas::no_tool))]
fn tool_behind(more: &[u8]) -> Option<ActorWord>
    ensures { MatchOption result (NoActor (99 ∷ more.now)) (λ found. IsActorWord (99 ∷ more.now) found) }
{
    if more.len() == 0 {
        Some(ActorWord::Tool)
    } else {
        None
    }
}

#[tactic(auto, using(crate::proofs::ActorLemmas::is_sync, crate::proofs::ActorLemmas::no_sync))]
fn sync_behind(more: &[u8]) -> Option<ActorWord>
    ensures { MatchOption result (NoActor (121 ∷ more.now)) (λ found. IsActorWord (121 ∷ more.now) found) }
{
    match decimal_of(more) {
        None => None,
        Some(replica) => Some(ActorWord::Sync(replica)),
    }
}

#[tactic(auto, using(crate::proofs::ActorLemmas::no_replica, crate::proofs::ActorLemmas::is_worker, crate::proofs::ActorLemmas::other_point, crate::proofs::ActorLemmas::is_behind_point, crate::proofs::ActorLemmas::nothing_behind_point))]
fn replica_behind(more: &[u8]) -> Option<ActorWord>
    ensures { MatchOption result (NoActor (114 ∷ more.now)) (λ found. IsActorWord (114 ∷ more.now) found) }
{
    match cut_decimal(more) {
        None => None,
        Some((replica, rest)) => match rest.split_first() {
            None => Some(ActorWord::Worker(replica)),
            Some((byte, back)) => {
                if *byte == b'.' {
                    match behind_point(replica, back) {
                        None => None,
                        Some(word) => Some(word),
                    }
                } else {
                    None
                }
            }
        },
    }
}

/// What stands behind the point of a replica's word.
#[tactic(auto, using(crate::proofs::ActorLemmas::nothing_left, crate::proofs::ActorLemmas::is_local, crate::proofs::ActorLemmas::no_local, crate::proofs::ActorLemmas::is_further, crate::proofs::ActorLemmas::no_further))]
fn behind_point(replica: u128, back: &[u8]) -> Option<ActorWord>
    ensures { MatchOption result (NothingBehindPoint back.now) (λ found. BehindPoint replica back.now found) }
{
    match back.split_first() {
        None => None,
        Some((byte, more)) => {
            if *byte == b'l' {
                match decimal_of(more) {
                    None => None,
                    Some(session) => Some(ActorWord::Local { replica, session }),
                }
            } else {
                match decimal_of(back) {
                    None => None,
                    Some(worker) => Some(ActorWord::FurtherWorker { replica, worker }),
                }
            }
        }
    }
}
