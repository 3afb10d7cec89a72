//! Turns of an applier, as a run's trace tells them.
use crate::plays::play;
use crate::steps::{Act, Call, Did, Question, Sample, Step};
use std::test::Fail;

const ENTRIES: [&[Sample]; 4] = [
    &[Sample::Insert(1), Sample::Insert(2)],
    &[],
    &[Sample::Insert(1), Sample::Insert(3)],
    &[Sample::Clear],
];

const ALL: [Step; 26] = [
    (Call::Ask(Question::Entry(1)), Did::Absent),
    (Call::Turn(1), Did::Took(1)),
    (Call::Ask(Question::Entry(1)), Did::Is(1)),
    (Call::Turn(1), Did::Done),
    (Call::Turn(1), Did::Done),
    (Call::Ask(Question::Applied), Did::Is(0)),
    (Call::Turn(1), Did::Committed(1)),
    (Call::Ask(Question::Applied), Did::Is(1)),
    (Call::Ask(Question::Entry(1)), Did::Absent),
    (Call::Turn(1), Did::Took(2)),
    (Call::Ask(Question::Entry(1)), Did::Is(2)),
    (Call::Turn(1), Did::Committed(2)),
    (Call::Ask(Question::Written), Did::Is(2)),
    (Call::Turn(1), Did::Took(3)),
    (Call::Turn(1), Did::Done),
    (Call::Turn(1), Did::Done),
    (Call::Turn(1), Did::Committed(3)),
    (Call::Turn(1), Did::Took(4)),
    (Call::Turn(1), Did::Stepped),
    (Call::Turn(1), Did::Stepped),
    (Call::Turn(1), Did::Stepped),
    (Call::Turn(1), Did::Done),
    (Call::Turn(1), Did::Committed(4)),
    (Call::Turn(1), Did::Nothing(4)),
    (Call::Ask(Question::Applied), Did::Is(4)),
    (Call::Ask(Question::Written), Did::Is(4)),
];

/// Entries are applied in order, also one without statements; an INSERT of a key that is there is done.
#[test]
fn entries_in_order(rt: HostRuntime) -> Result<(), Fail> {
    assert_eq!(rt; play(rt.alloc(), &ENTRIES, &ALL)?, 26);
    Ok(())
}

const STOPPED: [Step; 21] = [
    (Call::Turn(1), Did::Took(1)),
    (Call::Turn(1), Did::Done),
    (Call::Stop, Did::Yes),
    (Call::Stop, Did::No),
    (Call::Ask(Question::IsStopped), Did::Yes),
    (Call::Ask(Question::Entry(1)), Did::Absent),
    (Call::Turn(1), Did::Stopped),
    (Call::Start, Did::Yes),
    (Call::Start, Did::No),
    (Call::Ask(Question::IsStopped), Did::No),
    (Call::Turn(1), Did::Took(1)),
    (Call::Turn(1), Did::Done),
    (Call::Turn(1), Did::Done),
    (Call::Turn(1), Did::Committed(1)),
    (Call::Stop, Did::Yes),
    (Call::Start, Did::Yes),
    (Call::Turn(1), Did::Took(2)),
    (Call::Stop, Did::Yes),
    (Call::Start, Did::Yes),
    (Call::Turn(1), Did::Took(2)),
    (Call::Turn(1), Did::Committed(2)),
];

/// A stop gives the entry back, and a start lets it be taken again.
#[test]
fn a_stop_gives_the_entry_back(rt: HostRuntime) -> Result<(), Fail> {
    assert_eq!(rt; play(rt.alloc(), &ENTRIES, &STOPPED)?, 21);
    Ok(())
}

const BEHIND_READER: [Step; 9] = [
    (Call::Other(1, Act::Begin), Did::Begun),
    (Call::Other(1, Act::Run(Sample::Read(0, 10))), Did::Done),
    (Call::Turn(1), Did::Took(1)),
    (Call::Turn(1), Did::Waits(1)),
    (Call::Turn(1), Did::Waits(1)),
    (Call::Other(1, Act::Rollback), Did::Ended),
    (Call::Turn(1), Did::Done),
    (Call::Turn(1), Did::Done),
    (Call::Turn(1), Did::Committed(1)),
];

/// A local locking read holds the worker up until it ends.
#[test]
fn a_worker_waits_for_a_local_reader(rt: HostRuntime) -> Result<(), Fail> {
    assert_eq!(rt; play(rt.alloc(), &ENTRIES, &BEHIND_READER)?, 9);
    Ok(())
}

/// The rows 10 and 20, between which lies a gap, and then a row outside it and one in it.
const GAP: [&[Sample]; 2] = [
    &[Sample::Insert(10), Sample::Insert(20)],
    &[Sample::Insert(1), Sample::Insert(15)],
];

const VICTIM: [Step; 18] = [
    (Call::Turn(1), Did::Took(1)),
    (Call::Turn(1), Did::Done),
    (Call::Turn(1), Did::Done),
    (Call::Turn(1), Did::Committed(1)),
    (Call::Other(202, Act::Apply(7)), Did::Begun),
    (Call::Other(202, Act::Run(Sample::Read(12, 18))), Did::Done),
    (Call::Turn(1), Did::Took(2)),
    (Call::Turn(1), Did::Done),
    (
        Call::Other(202, Act::Start(Sample::Insert(1))),
        Did::Started,
    ),
    (Call::Turn(1), Did::Deadlock(201, 2)),
    (Call::Ask(Question::Entry(1)), Did::Is(2)),
    (Call::Turn(1), Did::Took(2)),
    (Call::Other(202, Act::Run(Sample::Insert(1))), Did::Refused),
    (Call::Other(202, Act::Rollback), Did::Ended),
    (Call::Turn(1), Did::Done),
    (Call::Turn(1), Did::Done),
    (Call::Turn(1), Did::Committed(2)),
    (Call::Turn(1), Did::Nothing(2)),
];

/// A worker on a cycle of workers is the victim of its own visit, keeps its entry, and begins again.
#[test]
fn a_victim_begins_again(rt: HostRuntime) -> Result<(), Fail> {
    assert_eq!(rt; play(rt.alloc(), &GAP, &VICTIM)?, 18);
    Ok(())
}

const SPARED: [Step; 12] = [
    (Call::Turn(1), Did::Took(1)),
    (Call::Turn(1), Did::Done),
    (Call::Turn(1), Did::Done),
    (Call::Turn(1), Did::Committed(1)),
    (Call::Other(1, Act::Begin), Did::Begun),
    (Call::Other(1, Act::Run(Sample::Read(12, 18))), Did::Done),
    (Call::Turn(1), Did::Took(2)),
    (Call::Turn(1), Did::Done),
    (Call::Turn(1), Did::Waits(1)),
    (
        Call::Other(1, Act::Run(Sample::Insert(1))),
        Did::Deadlock(1, 2),
    ),
    (Call::Turn(1), Did::Done),
    (Call::Turn(1), Did::Committed(2)),
];

/// On a cycle with a local session it is the session that is rolled back.
#[test]
fn a_worker_is_spared(rt: HostRuntime) -> Result<(), Fail> {
    assert_eq!(rt; play(rt.alloc(), &GAP, &SPARED)?, 12);
    Ok(())
}

const NO_ENTRY: [&[Sample]; 0] = [];

const NOTHING: [Step; 6] = [
    (Call::Turn(1), Did::Nothing(0)),
    (Call::Stop, Did::Yes),
    (Call::Turn(1), Did::Stopped),
    (Call::Start, Did::Yes),
    (Call::Turn(1), Did::Nothing(0)),
    (Call::Ask(Question::Written), Did::Is(0)),
];

/// Of an empty log nothing is taken.
#[test]
fn of_an_empty_log(rt: HostRuntime) -> Result<(), Fail> {
    assert_eq!(rt; play(rt.alloc(), &NO_ENTRY, &NOTHING)?, 6);
    Ok(())
}

const THREE: [&[Sample]; 3] = [
    &[Sample::Insert(1)],
    &[Sample::Insert(2)],
    &[Sample::Insert(3)],
];

const IN_ORDER: [Step; 15] = [
    (Call::Turn(1), Did::Took(1)),
    (Call::Turn(2), Did::Took(2)),
    (Call::Ask(Question::Entry(2)), Did::Is(2)),
    (Call::Turn(2), Did::Done),
    (Call::Turn(2), Did::OrderWait(1)),
    (Call::Turn(1), Did::Done),
    (Call::Turn(1), Did::Committed(1)),
    (Call::Turn(1), Did::Took(3)),
    (Call::Turn(2), Did::Committed(2)),
    (Call::Turn(2), Did::Nothing(2)),
    (Call::Turn(1), Did::Done),
    (Call::Turn(1), Did::Committed(3)),
    (Call::Turn(2), Did::Nothing(3)),
    (Call::Ask(Question::Applied), Did::Is(3)),
    (Call::Turn(3), Did::Refused),
];

/// Two workers apply side by side, and commit in the order of the log.
#[test]
fn two_workers_commit_in_order(rt: HostRuntime) -> Result<(), Fail> {
    assert_eq!(rt; play(rt.alloc(), &THREE, &IN_ORDER)?, 15);
    Ok(())
}

const BOTH_STOPPED: [Step; 10] = [
    (Call::Turn(1), Did::Took(1)),
    (Call::Turn(2), Did::Took(2)),
    (Call::Turn(2), Did::Done),
    (Call::Stop, Did::Yes),
    (Call::Ask(Question::Entry(1)), Did::Absent),
    (Call::Ask(Question::Entry(2)), Did::Absent),
    (Call::Turn(2), Did::Stopped),
    (Call::Start, Did::Yes),
    (Call::Turn(2), Did::Took(1)),
    (Call::Turn(1), Did::Took(2)),
];

/// A stop gives the entries of both back, and whoever comes first takes the first one.
#[test]
fn a_stop_of_two_workers(rt: HostRuntime) -> Result<(), Fail> {
    assert_eq!(rt; play(rt.alloc(), &THREE, &BOTH_STOPPED)?, 10);
    Ok(())
}
