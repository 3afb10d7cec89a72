use crate::notes::{Note, Why};
use row_types::Items;
use workload::{Actor, Item};

/// One line of the journal: an item that was played, and what it came to.
#[derive(Debug, Drop)]
pub struct JournalLine {
    pub item: Item,
    pub note: Note,
}

/// The journal of a run, in the order of its turns.
pub type Journal = Items<JournalLine>;

/// A statement of a session's script that was refused, since its key is there.
#[derive(Clone, Copy, Debug, PartialEq, Eq)]
pub struct DuplicateLine {
    pub actor: Actor,
    /// the line of the workload file, from 1
    pub line: u32,
}

pub type DuplicateLines = Items<DuplicateLine>;

/// A transaction that a session gave up, the n-th of its script.
#[derive(Clone, Copy, Debug, PartialEq, Eq)]
pub struct AbandonedLine {
    pub actor: Actor,
    pub number: u32,
}

pub type AbandonedLines = Items<AbandonedLine>;

/// An actor that could not finish.
#[derive(Clone, Copy, Debug, PartialEq, Eq)]
pub struct UnfinishedLine {
    pub actor: Actor,
    pub why: Why,
}

pub type UnfinishedLines = Items<UnfinishedLine>;
