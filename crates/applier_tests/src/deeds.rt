//! What turns did, and what appliers answer, in short.
use crate::steps::Did;
use applier::Turn;
use node_engine::Visit;

pub(crate) fn visited(visit: &Visit) -> Did {
    match visit {
        Visit::Stepped => Did::Stepped,
        Visit::Done => Did::Done,
        Visit::Duplicate { .. } => Did::Duplicate,
        Visit::Waits { by } => Did::Waits(by.0),
        Visit::Deadlock { victim, cycle } => Did::Deadlock(victim.0, cycle.len()),
    }
}

pub(crate) fn deed_of(turn: &Turn) -> Did {
    match turn {
        Turn::Took { entry } => Did::Took(*entry),
        Turn::Visited(visit) => visited(visit),
        Turn::Committed { entry } => Did::Committed(*entry),
        Turn::Nothing { applied } => Did::Nothing(*applied),
        Turn::OrderWait { entry } => Did::OrderWait(*entry),
        Turn::Stopped => Did::Stopped,
    }
}

pub(crate) fn yes_or_no(answer: bool) -> Did {
    if answer {
        return Did::Yes;
    }
    Did::No
}

pub(crate) fn number(answer: Option<u64>) -> Did {
    match answer {
        None => Did::Absent,
        Some(number) => Did::Is(number),
    }
}
