//! What turns did, and what sessions answer, in short.
use crate::steps::{Did, Question};
use node_engine::Visit;
use session::{Session, SessionTurn};

pub(crate) fn visited(visit: &Visit) -> Did {
    match visit {
        Visit::Stepped => Did::Stepped,
        Visit::Done => Did::Done,
        Visit::Duplicate { .. } => Did::Duplicate,
        Visit::Waits { by } => Did::Waits(by.0),
        Visit::Deadlock { victim, cycle } => Did::Deadlock(victim.0, cycle.len()),
    }
}

pub(crate) fn committed(position: Option<u64>) -> Did {
    match position {
        None => Did::CommittedNone,
        Some(position) => Did::Committed(position),
    }
}

pub(crate) fn deed_of(turn: &SessionTurn) -> Did {
    match turn {
        SessionTurn::Began => Did::Began,
        SessionTurn::Started => Did::Started,
        SessionTurn::Visited(visit) => visited(visit),
        SessionTurn::Committed { position } => committed(*position),
        SessionTurn::RolledBack => Did::RolledBack,
        SessionTurn::Victim => Did::Victim,
        SessionTurn::Finished => Did::Finished,
    }
}

fn yes_or_no(answer: bool) -> Did {
    if answer {
        return Did::Yes;
    }
    Did::No
}

fn number_at(numbers: &[u32], place: usize) -> Did {
    match numbers.get(place) {
        None => Did::Absent,
        Some(number) => Did::Is(*number),
    }
}

pub(crate) fn answer(session: &Session, question: Question) -> Did {
    match question {
        Question::IsInProgress => yes_or_no(session.in_progress()),
        Question::IsAtEnd => yes_or_no(session.at_end()),
        Question::Abandoned(place) => number_at(session.abandoned(), place),
        Question::Refused(place) => number_at(session.refused(), place),
    }
}
