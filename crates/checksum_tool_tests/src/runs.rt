//! Runs of the tool beside one or two other owners.
use crate::plays::{play, play_on_two};
use crate::steps::{Call, Came, Step};
use std::test::Fail;

const EMPTY: [Step; 8] = [
    (100, Call::Turn, Came::Cleared(1)),
    (100, Call::Turn, Came::Chose(0, 1)),
    (100, Call::EndedAt, Came::Absent),
    (100, Call::Turn, Came::Done),
    (100, Call::Turn, Came::Written(2)),
    (100, Call::Turn, Came::Mastered(3)),
    (100, Call::Turn, Came::Finished),
    (100, Call::EndedAt, Came::Written(3)),
];

#[test]
fn an_empty_table(rt: HostRuntime) -> Result<(), Fail> {
    assert_eq!(rt; play(rt.alloc(), 0, &EMPTY)?, 8);
    Ok(())
}

const TWO: [Step; 12] = [
    (100, Call::Turn, Came::Cleared(1)),
    (100, Call::Turn, Came::Chose(0, 1)),
    (100, Call::Turn, Came::Done),
    (100, Call::Turn, Came::Written(2)),
    (100, Call::Turn, Came::Mastered(3)),
    (100, Call::Turn, Came::Cleared(4)),
    (100, Call::Turn, Came::Chose(1, 1)),
    (100, Call::Turn, Came::Done),
    (100, Call::Turn, Came::Written(5)),
    (100, Call::Turn, Came::Mastered(6)),
    (100, Call::Turn, Came::Finished),
    (100, Call::EndedAt, Came::Written(6)),
];

#[test]
fn one_table_after_the_other(rt: HostRuntime) -> Result<(), Fail> {
    assert_eq!(rt; play_on_two(rt.alloc(), &TWO)?, 12);
    Ok(())
}

const BESIDE_A_SESSION: [Step; 19] = [
    (1, Call::Fill(3), Came::Written(1)),
    (100, Call::Turn, Came::Cleared(2)),
    (100, Call::Turn, Came::Chose(0, 1)),
    (100, Call::Turn, Came::Further),
    (1, Call::Begin, Came::Begun),
    (1, Call::Insert(25), Came::Done),
    (1, Call::Commit, Came::Written(3)),
    (1, Call::Begin, Came::Begun),
    (1, Call::Insert(5), Came::Waits(100)),
    (100, Call::Turn, Came::Further),
    (100, Call::Turn, Came::Further),
    (100, Call::Turn, Came::Further),
    (100, Call::Turn, Came::Done),
    (100, Call::Turn, Came::Written(4)),
    (1, Call::Go, Came::Done),
    (100, Call::Counted, Came::Counts(4)),
    (100, Call::IsMastered, Came::Mastering(false)),
    (100, Call::Turn, Came::Mastered(5)),
    (100, Call::IsMastered, Came::Mastering(true)),
];

/// A commit ahead of the CHECKSUM is in its checksum; a row behind it waits until the check row stands.
#[test]
fn a_commit_ahead_of_the_tool(rt: HostRuntime) -> Result<(), Fail> {
    assert_eq!(rt; play(rt.alloc(), 0, &BESIDE_A_SESSION)?, 19);
    Ok(())
}

/// A session changes the second row and wants the first, on which the tool has a lock; the tool wants the second.
const DEADLOCKS: [Step; 21] = [
    (2, Call::Fill(2), Came::Written(1)),
    (100, Call::Turn, Came::Cleared(2)),
    (1, Call::Begin, Came::Begun),
    (1, Call::Update(20), Came::Done),
    (1, Call::Start(10), Came::Started),
    (100, Call::Turn, Came::Chose(0, 1)),
    (100, Call::Turn, Came::Further),
    (100, Call::Turn, Came::Deadlock(100, 2)),
    (1, Call::Go, Came::Done),
    (1, Call::Commit, Came::Written(3)),
    (1, Call::Begin, Came::Begun),
    (1, Call::Update(20), Came::Done),
    (1, Call::Start(10), Came::Started),
    (100, Call::Turn, Came::Chose(0, 1)),
    (100, Call::Turn, Came::Further),
    (100, Call::Turn, Came::Deadlock(100, 2)),
    (1, Call::Go, Came::Done),
    (1, Call::Commit, Came::Written(4)),
    (100, Call::Turn, Came::Used(2)),
    (100, Call::Turn, Came::Used(2)),
    (100, Call::EndedAt, Came::Absent),
];

/// A chunk that was rolled back once more than it is begun again is given up.
#[test]
fn retries_are_used_up(rt: HostRuntime) -> Result<(), Fail> {
    assert_eq!(rt; play(rt.alloc(), 1, &DEADLOCKS)?, 21);
    Ok(())
}

const AGAIN: [Step; 13] = [
    (2, Call::Fill(2), Came::Written(1)),
    (100, Call::Turn, Came::Cleared(2)),
    (1, Call::Begin, Came::Begun),
    (1, Call::Update(20), Came::Done),
    (1, Call::Start(10), Came::Started),
    (100, Call::Turn, Came::Chose(0, 1)),
    (100, Call::Turn, Came::Further),
    (100, Call::Turn, Came::Deadlock(100, 2)),
    (100, Call::Turn, Came::Chose(0, 1)),
    (1, Call::Go, Came::Done),
    (1, Call::Commit, Came::Written(3)),
    (100, Call::Turn, Came::Further),
    (100, Call::Counted, Came::Absent),
];

/// It is chosen again with the same number before that.
#[test]
fn a_chunk_is_chosen_again(rt: HostRuntime) -> Result<(), Fail> {
    assert_eq!(rt; play(rt.alloc(), 1, &AGAIN)?, 13);
    Ok(())
}

/// Somebody who applies entries is never the victim: the tool is, in that owner's visit.
const VICTIM: [Step; 12] = [
    (2, Call::Fill(2), Came::Written(1)),
    (100, Call::Turn, Came::Cleared(2)),
    (1, Call::Apply, Came::Begun),
    (1, Call::Update(20), Came::Done),
    (100, Call::Turn, Came::Chose(0, 1)),
    (100, Call::Turn, Came::Further),
    (100, Call::Turn, Came::Waits(1)),
    (1, Call::Update(10), Came::Deadlock(100, 2)),
    (100, Call::Turn, Came::Victim),
    (100, Call::Turn, Came::Chose(0, 1)),
    (1, Call::Go, Came::Done),
    (100, Call::Turn, Came::Waits(1)),
];

/// The tool's next turn tells that another's visit rolled its chunk back.
#[test]
fn a_victim_of_another_turn(rt: HostRuntime) -> Result<(), Fail> {
    assert_eq!(rt; play(rt.alloc(), 1, &VICTIM)?, 12);
    Ok(())
}
