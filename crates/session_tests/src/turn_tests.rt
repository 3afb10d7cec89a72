//! Turns of sessions, as a run's trace tells them.
use crate::plays::play;
use crate::steps::{Call, Did, Line, Question, Step};
use std::test::Fail;

const READER: [Line; 3] = [Line::Begin, Line::Read(100, 200), Line::Commit];

const WRITER: [Line; 1] = [Line::Insert(101)];

const READ_FIRST: [Step; 16] = [
    (1, Call::Turn, Did::Began),
    (1, Call::Turn, Did::Started),
    (1, Call::Ask(Question::IsInProgress), Did::Yes),
    (1, Call::Turn, Did::Done),
    (1, Call::Ask(Question::IsInProgress), Did::No),
    (2, Call::Turn, Did::Started),
    (2, Call::Turn, Did::Waits(1)),
    (2, Call::Ask(Question::IsInProgress), Did::Yes),
    (1, Call::Turn, Did::CommittedNone),
    (1, Call::Ask(Question::IsAtEnd), Did::Yes),
    (2, Call::Turn, Did::Done),
    (2, Call::Ask(Question::IsAtEnd), Did::No),
    (2, Call::Turn, Did::Committed(1)),
    (2, Call::Turn, Did::Finished),
    (1, Call::Turn, Did::Finished),
    (2, Call::Ask(Question::IsAtEnd), Did::Yes),
];

/// A locking read keeps a row out of what it read until it is committed.
#[test]
fn a_locking_read_keeps_rows_out(rt: HostRuntime) -> Result<(), Fail> {
    assert_eq!(rt; play(rt.alloc(), &READER, &WRITER, 2, &READ_FIRST)?, 16);
    Ok(())
}

const ONE: [Line; 4] = [
    Line::Begin,
    Line::Read(12, 18),
    Line::Insert(15),
    Line::Commit,
];

const TWO: [Line; 5] = [
    Line::Begin,
    Line::Read(12, 18),
    Line::Insert(16),
    Line::Commit,
    Line::Insert(30),
];

/// Both hold one gap, and each wants to put a row into it.
const AGAIN: [Step; 25] = [
    (1, Call::Turn, Did::Began),
    (1, Call::Turn, Did::Started),
    (1, Call::Turn, Did::Done),
    (2, Call::Turn, Did::Began),
    (2, Call::Turn, Did::Started),
    (2, Call::Turn, Did::Done),
    (1, Call::Turn, Did::Started),
    (1, Call::Turn, Did::Waits(2)),
    (2, Call::Turn, Did::Started),
    (2, Call::Turn, Did::Deadlock(2, 2)),
    (1, Call::Turn, Did::Done),
    (1, Call::Turn, Did::Committed(1)),
    (2, Call::Ask(Question::IsInProgress), Did::No),
    (2, Call::Turn, Did::Began),
    (2, Call::Turn, Did::Started),
    (2, Call::Turn, Did::Stepped),
    (2, Call::Turn, Did::Done),
    (2, Call::Turn, Did::Started),
    (2, Call::Turn, Did::Done),
    (2, Call::Turn, Did::Committed(2)),
    (2, Call::Turn, Did::Started),
    (2, Call::Turn, Did::Done),
    (2, Call::Turn, Did::Committed(3)),
    (2, Call::Turn, Did::Finished),
    (2, Call::Ask(Question::Abandoned(0)), Did::Absent),
];

/// The victim of a deadlock begins again, from its first line.
#[test]
fn a_victim_begins_again(rt: HostRuntime) -> Result<(), Fail> {
    assert_eq!(rt; play(rt.alloc(), &ONE, &TWO, 1, &AGAIN)?, 25);
    Ok(())
}

const ABANDONED: [Step; 18] = [
    (1, Call::Turn, Did::Began),
    (1, Call::Turn, Did::Started),
    (1, Call::Turn, Did::Done),
    (2, Call::Turn, Did::Began),
    (2, Call::Turn, Did::Started),
    (2, Call::Turn, Did::Done),
    (1, Call::Turn, Did::Started),
    (1, Call::Turn, Did::Waits(2)),
    (2, Call::Turn, Did::Started),
    (2, Call::Turn, Did::Deadlock(2, 2)),
    (1, Call::Turn, Did::Done),
    (1, Call::Turn, Did::Committed(1)),
    (2, Call::Ask(Question::Abandoned(0)), Did::Is(1)),
    (2, Call::Ask(Question::Abandoned(1)), Did::Absent),
    (2, Call::Turn, Did::Started),
    (2, Call::Turn, Did::Done),
    (2, Call::Turn, Did::Committed(2)),
    (2, Call::Turn, Did::Finished),
];

/// Without retries its transaction is abandoned, and the session goes on behind it.
#[test]
fn a_victim_is_abandoned(rt: HostRuntime) -> Result<(), Fail> {
    assert_eq!(rt; play(rt.alloc(), &ONE, &TWO, 0, &ABANDONED)?, 18);
    Ok(())
}

const TWICE: [Line; 7] = [
    Line::Insert(1),
    Line::Insert(1),
    Line::Begin,
    Line::Insert(1),
    Line::Insert(2),
    Line::Rollback,
    Line::Insert(1),
];

const NO_LINE: [Line; 0] = [];

const REFUSED: [Step; 23] = [
    (1, Call::Turn, Did::Started),
    (1, Call::Turn, Did::Done),
    (1, Call::Turn, Did::Committed(1)),
    (1, Call::Ask(Question::Refused(0)), Did::Absent),
    (1, Call::Turn, Did::Started),
    (1, Call::Turn, Did::Duplicate),
    (1, Call::Ask(Question::Refused(0)), Did::Absent),
    (1, Call::Turn, Did::CommittedNone),
    (1, Call::Ask(Question::Refused(0)), Did::Is(2)),
    (1, Call::Turn, Did::Began),
    (1, Call::Turn, Did::Started),
    (1, Call::Turn, Did::Duplicate),
    (1, Call::Turn, Did::Started),
    (1, Call::Turn, Did::Done),
    (1, Call::Turn, Did::RolledBack),
    (1, Call::Ask(Question::Refused(1)), Did::Absent),
    (1, Call::Turn, Did::Started),
    (1, Call::Turn, Did::Duplicate),
    (1, Call::Turn, Did::CommittedNone),
    (1, Call::Turn, Did::Finished),
    (1, Call::Ask(Question::Refused(1)), Did::Is(7)),
    (1, Call::Ask(Question::Refused(2)), Did::Absent),
    (2, Call::Turn, Did::Finished),
];

/// Duplicates are told where their transaction is committed, and dropped where it is rolled back.
#[test]
fn duplicates_of_committed_transactions(rt: HostRuntime) -> Result<(), Fail> {
    assert_eq!(rt; play(rt.alloc(), &TWICE, &NO_LINE, 2, &REFUSED)?, 23);
    Ok(())
}

const SAME: [Line; 4] = [Line::Begin, Line::Insert(1), Line::Insert(1), Line::Commit];

const WITHIN: [Step; 9] = [
    (1, Call::Turn, Did::Began),
    (1, Call::Turn, Did::Started),
    (1, Call::Turn, Did::Done),
    (1, Call::Turn, Did::Started),
    (1, Call::Turn, Did::Duplicate),
    (1, Call::Ask(Question::Refused(0)), Did::Absent),
    (1, Call::Turn, Did::Committed(1)),
    (1, Call::Ask(Question::Refused(0)), Did::Is(3)),
    (1, Call::Turn, Did::Finished),
];

/// A duplicate within a transaction leaves the statements before it, and is told once it is committed.
#[test]
fn a_duplicate_within_a_transaction(rt: HostRuntime) -> Result<(), Fail> {
    assert_eq!(rt; play(rt.alloc(), &SAME, &NO_LINE, 2, &WITHIN)?, 9);
    Ok(())
}

/// A worker is no victim: a session on the cycle is, which its next turn tells.
const BY_WORKER: [Step; 16] = [
    (1, Call::Turn, Did::Began),
    (1, Call::Turn, Did::Started),
    (1, Call::Turn, Did::Done),
    (201, Call::Apply(1), Did::Began),
    (201, Call::Work(Line::Read(12, 18)), Did::Done),
    (1, Call::Turn, Did::Started),
    (1, Call::Turn, Did::Waits(201)),
    (201, Call::Work(Line::Insert(16)), Did::Deadlock(1, 2)),
    (1, Call::Turn, Did::Victim),
    (1, Call::Turn, Did::Began),
    (1, Call::Turn, Did::Started),
    (1, Call::Turn, Did::Done),
    (1, Call::Turn, Did::Started),
    (1, Call::Turn, Did::Deadlock(1, 2)),
    (1, Call::Ask(Question::Abandoned(0)), Did::Is(1)),
    (1, Call::Turn, Did::Finished),
];

/// A worker's visit that closes a cycle rolls a session's transaction back, and then its own visit does.
#[test]
fn a_victim_of_another_turn(rt: HostRuntime) -> Result<(), Fail> {
    assert_eq!(rt; play(rt.alloc(), &ONE, &NO_LINE, 1, &BY_WORKER)?, 16);
    Ok(())
}
