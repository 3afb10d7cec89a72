//! Runs of one to three owners on one node.
use crate::plays::play;
use crate::samples::Sample;
use crate::steps::{Call, Came, Question, Step};
use std::test::Fail;

const MANUAL: [Step; 17] = [
    (3, Call::Begin, Came::Begun),
    (3, Call::Run(Sample::Insert(90, 0)), Came::Done),
    (3, Call::Run(Sample::Insert(102, 0)), Came::Done),
    (3, Call::Commit, Came::Written(1)),
    (1, Call::Begin, Came::Begun),
    (2, Call::Begin, Came::Begun),
    (1, Call::Run(Sample::ReadBehind(100)), Came::Done),
    (1, Call::Ask(Question::RowsRead), Came::Counts(1)),
    (2, Call::Run(Sample::Insert(101, 1)), Came::Waits(1)),
    (2, Call::Ask(Question::WaitsFor), Came::Waits(1)),
    (1, Call::Commit, Came::Unwritten),
    (2, Call::Ask(Question::WaitsFor), Came::Nobody),
    (2, Call::Go, Came::Done),
    (0, Call::Ask(Question::CommittedRows), Came::Counts(2)),
    (2, Call::Commit, Came::Written(2)),
    (0, Call::Ask(Question::LiveRows), Came::Counts(3)),
    (0, Call::Ask(Question::CommittedRows), Came::Counts(3)),
];

/// A read of the keys behind 100 lets no row in there.
/// Source: MySQL Reference Manual, "Phantom Rows".
#[test]
fn the_manuals_example(rt: HostRuntime) -> Result<(), Fail> {
    assert_eq!(rt; play(rt.alloc(), &MANUAL)?, 17);
    Ok(())
}

const DEADLOCK: [Step; 11] = [
    (3, Call::Fill(2), Came::Written(1)),
    (1, Call::Begin, Came::Begun),
    (2, Call::Begin, Came::Begun),
    (1, Call::Run(Sample::Read(12, 18)), Came::Done),
    (2, Call::Run(Sample::Read(12, 18)), Came::Done),
    (1, Call::Run(Sample::Insert(13, 1)), Came::Waits(2)),
    (2, Call::Run(Sample::Insert(14, 1)), Came::Deadlock(2, 2)),
    (2, Call::Ask(Question::IsBegun), Came::Ended),
    (1, Call::Ask(Question::IsBegun), Came::Begun),
    (1, Call::Go, Came::Done),
    (0, Call::Ask(Question::Value(13)), Came::Is(1)),
];

/// Two hold one gap; the second that wants to put a row in closes the cycle and is rolled back.
#[test]
fn coexisting_gaps_end_in_a_deadlock(rt: HostRuntime) -> Result<(), Fail> {
    assert_eq!(rt; play(rt.alloc(), &DEADLOCK)?, 11);
    Ok(())
}

const APPLIER: [Step; 11] = [
    (3, Call::Fill(2), Came::Written(1)),
    (1, Call::Begin, Came::Begun),
    (2, Call::Apply(7), Came::Begun),
    (1, Call::Run(Sample::Read(12, 18)), Came::Done),
    (2, Call::Run(Sample::Read(12, 18)), Came::Done),
    (1, Call::Run(Sample::Insert(13, 1)), Came::Waits(2)),
    (2, Call::Run(Sample::Insert(14, 1)), Came::Deadlock(1, 2)),
    (1, Call::Ask(Question::IsBegun), Came::Ended),
    (2, Call::Go, Came::Done),
    (2, Call::CommitApplied(7), Came::Written(2)),
    (0, Call::Ask(Question::Applied), Came::Counts(7)),
];

/// An applier is no victim: the client on the cycle is.
#[test]
fn a_deadlock_with_an_applier(rt: HostRuntime) -> Result<(), Fail> {
    assert_eq!(rt; play(rt.alloc(), &APPLIER)?, 11);
    Ok(())
}

const CHECKSUM: [Step; 18] = [
    (3, Call::Fill(3), Came::Written(1)),
    (2, Call::Begin, Came::Begun),
    (2, Call::Run(Sample::Clear), Came::Done),
    (2, Call::Start(Sample::Check), Came::Started),
    (2, Call::Visit, Came::Further),
    (1, Call::Begin, Came::Begun),
    (1, Call::Run(Sample::Insert(25, 9)), Came::Done),
    (1, Call::Commit, Came::Written(2)),
    (1, Call::Begin, Came::Begun),
    (1, Call::Run(Sample::Insert(5, 9)), Came::Waits(2)),
    (2, Call::Go, Came::Done),
    (2, Call::CommitChecks, Came::Written(3)),
    (0, Call::Ask(Question::CheckedRows(1)), Came::Counts(4)),
    (0, Call::Ask(Question::CheckedAt(1)), Came::Written(3)),
    (1, Call::Go, Came::Done),
    (1, Call::Commit, Came::Written(4)),
    (0, Call::Publish(1), Came::Written(5)),
    (0, Call::Publish(2), Came::NoCheck),
];

/// A commit ahead of a CHECKSUM's cursor is in its digest; a row behind it waits until the check row stands.
#[test]
fn a_commit_ahead_of_a_checksum(rt: HostRuntime) -> Result<(), Fail> {
    assert_eq!(rt; play(rt.alloc(), &CHECKSUM)?, 18);
    Ok(())
}

const DELETED: [Step; 20] = [
    (3, Call::Fill(3), Came::Written(1)),
    (1, Call::Begin, Came::Begun),
    (1, Call::Run(Sample::DeleteAt(20)), Came::Done),
    (0, Call::Ask(Question::Value(20)), Came::Absent),
    (0, Call::Ask(Question::CommittedRows), Came::Counts(3)),
    (2, Call::Begin, Came::Begun),
    (2, Call::Run(Sample::Check), Came::Waits(1)),
    (1, Call::Rollback, Came::Ended),
    (0, Call::Ask(Question::Value(20)), Came::Is(2)),
    (2, Call::Go, Came::Done),
    (2, Call::CommitChecks, Came::Written(2)),
    (0, Call::Ask(Question::CheckedRows(1)), Came::Counts(3)),
    (1, Call::Begin, Came::Begun),
    (1, Call::Run(Sample::DeleteAt(20)), Came::Done),
    (2, Call::Begin, Came::Begun),
    (2, Call::Run(Sample::Check), Came::Waits(1)),
    (1, Call::Commit, Came::Written(3)),
    (2, Call::Go, Came::Done),
    (2, Call::CommitChecks, Came::Written(4)),
    (0, Call::Ask(Question::CheckedRows(1)), Came::Counts(2)),
];

/// A CHECKSUM waits at a row that is deleted and not committed, and counts it where the deletion is rolled
/// back.
#[test]
fn a_deleted_row_beside_a_checksum(rt: HostRuntime) -> Result<(), Fail> {
    assert_eq!(rt; play(rt.alloc(), &DELETED)?, 20);
    Ok(())
}

const NULL: [Step; 12] = [
    (3, Call::Fill(2), Came::Written(1)),
    (3, Call::Begin, Came::Begun),
    (3, Call::Run(Sample::InsertNull(15)), Came::Done),
    (3, Call::Commit, Came::Written(2)),
    (1, Call::Begin, Came::Begun),
    (1, Call::Run(Sample::ReadBelow(5)), Came::Done),
    (1, Call::Ask(Question::RowsRead), Came::Counts(2)),
    (2, Call::Begin, Came::Begun),
    (2, Call::Run(Sample::DeleteAt(15)), Came::Waits(1)),
    (1, Call::Commit, Came::Unwritten),
    (2, Call::Go, Came::Done),
    (2, Call::Commit, Came::Written(3)),
];

/// NULL is locked by a read of what is less than a number, and is not less.
#[test]
fn null_is_locked_and_not_less(rt: HostRuntime) -> Result<(), Fail> {
    assert_eq!(rt; play(rt.alloc(), &NULL)?, 12);
    Ok(())
}

const DUPLICATE: [Step; 12] = [
    (3, Call::Fill(1), Came::Written(1)),
    (1, Call::Begin, Came::Begun),
    (1, Call::Run(Sample::Insert(10, 5)), Came::Duplicate),
    (0, Call::Ask(Question::Value(10)), Came::Is(1)),
    (2, Call::Begin, Came::Begun),
    (2, Call::Run(Sample::DeleteAt(10)), Came::Waits(1)),
    (1, Call::Commit, Came::Unwritten),
    (2, Call::Go, Came::Done),
    (2, Call::Commit, Came::Written(2)),
    (1, Call::Begin, Came::Begun),
    (1, Call::Run(Sample::Insert(10, 5)), Came::Done),
    (1, Call::Commit, Came::Written(3)),
];

/// A duplicate is not in the transaction, and its lock stays.
#[test]
fn a_duplicate(rt: HostRuntime) -> Result<(), Fail> {
    assert_eq!(rt; play(rt.alloc(), &DUPLICATE)?, 12);
    Ok(())
}

const UNDONE: [Step; 19] = [
    (3, Call::Fill(30), Came::Written(1)),
    (0, Call::Ask(Question::Logged(1)), Came::Counts(30)),
    (1, Call::Begin, Came::Begun),
    (1, Call::Run(Sample::Insert(405, 4)), Came::Done),
    (1, Call::Run(Sample::Replace(50, 55)), Came::Done),
    (1, Call::Run(Sample::Insert(70, 1)), Came::Duplicate),
    (1, Call::Run(Sample::UpdateAt(300, 9)), Came::Done),
    (0, Call::Ask(Question::Value(300)), Came::Is(9)),
    (1, Call::Run(Sample::Update(8)), Came::Done),
    (0, Call::Ask(Question::Value(405)), Came::Is(8)),
    (0, Call::Ask(Question::Value(50)), Came::Is(8)),
    (1, Call::Run(Sample::Delete), Came::Done),
    (0, Call::Ask(Question::LiveRows), Came::Counts(0)),
    (0, Call::Ask(Question::CommittedRows), Came::Counts(30)),
    (1, Call::Run(Sample::Insert(90, 99)), Came::Done),
    (1, Call::Rollback, Came::Ended),
    (0, Call::Ask(Question::LiveRows), Came::Counts(30)),
    (3, Call::Ask(Question::Value(50)), Came::Is(5)),
    (3, Call::Ask(Question::Value(300)), Came::Is(30)),
];

/// A rollback of INSERT, REPLACE, UPDATE and DELETE leaves what was committed, in a table filled from empty.
#[test]
fn a_rollback_of_many_rows(rt: HostRuntime) -> Result<(), Fail> {
    assert_eq!(rt; play(rt.alloc(), &UNDONE)?, 19);
    Ok(())
}

const RETURNED: [Step; 16] = [
    (3, Call::Fill(2), Came::Written(1)),
    (1, Call::Begin, Came::Begun),
    (1, Call::Run(Sample::DeleteAt(10)), Came::Done),
    (1, Call::Run(Sample::Insert(10, 7)), Came::Done),
    (0, Call::Ask(Question::Value(10)), Came::Is(7)),
    (2, Call::Begin, Came::Begun),
    (2, Call::Run(Sample::Check), Came::Waits(1)),
    (1, Call::Rollback, Came::Ended),
    (0, Call::Ask(Question::Value(10)), Came::Is(1)),
    (2, Call::Rollback, Came::Ended),
    (1, Call::Begin, Came::Begun),
    (1, Call::Run(Sample::DeleteAt(10)), Came::Done),
    (1, Call::Run(Sample::Insert(10, 7)), Came::Done),
    (1, Call::Commit, Came::Written(2)),
    (0, Call::Ask(Question::Value(10)), Came::Is(7)),
    (0, Call::Ask(Question::Logged(2)), Came::Counts(2)),
];

/// A transaction deletes a key and puts it back; its own deleted key is no duplicate to it.
#[test]
fn a_key_that_comes_back(rt: HostRuntime) -> Result<(), Fail> {
    assert_eq!(rt; play(rt.alloc(), &RETURNED)?, 16);
    Ok(())
}

const ALL_CALLS: [Step; 30] = [
    (3, Call::Fill(3), Came::Written(1)),
    (1, Call::Begin, Came::Begun),
    (2, Call::Apply(4), Came::Begun),
    (1, Call::Run(Sample::Read(12, 18)), Came::Done),
    (1, Call::Ask(Question::RowsRead), Came::Counts(0)),
    (2, Call::StartVisit(Sample::Insert(13, 1)), Came::Waits(1)),
    (2, Call::Ask(Question::WaitsFor), Came::Waits(1)),
    (1, Call::StartVisit(Sample::ReadBelow(5)), Came::Further),
    (1, Call::Go, Came::Done),
    (1, Call::Ask(Question::RowsRead), Came::Counts(3)),
    (2, Call::Go, Came::Waits(1)),
    (1, Call::Start(Sample::Insert(20, 9)), Came::Started),
    (1, Call::Visit, Came::Duplicate),
    (1, Call::Run(Sample::Replace(20, 9)), Came::Done),
    (1, Call::Start(Sample::DeleteAt(30)), Came::Started),
    (1, Call::VisitStart(Sample::Insert(30, 6)), Came::Done),
    (1, Call::VisitStart(Sample::Clear), Came::Done),
    (1, Call::Visit, Came::Done),
    (1, Call::Run(Sample::Check), Came::Done),
    (1, Call::Commit, Came::Written(2)),
    (2, Call::Go, Came::Done),
    (0, Call::Ask(Question::CommittedRows), Came::Counts(3)),
    (2, Call::CommitApplied(4), Came::Written(3)),
    (0, Call::Publish(1), Came::Written(4)),
    (1, Call::Begin, Came::Begun),
    (1, Call::Run(Sample::Update(8)), Came::Done),
    (1, Call::Rollback, Came::Ended),
    (0, Call::Ask(Question::CheckedAt(1)), Came::Written(2)),
    (0, Call::Ask(Question::Value(30)), Came::Is(6)),
    (0, Call::Ask(Question::CommittedRows), Came::Counts(4)),
];

/// Calls of all kinds. Each that memory refuses is made again, and comes to what it would have come to.
#[test]
fn all_calls(rt: HostRuntime) -> Result<(), Fail> {
    assert_eq!(rt; play(rt.alloc(), &ALL_CALLS)?, 30);
    Ok(())
}
