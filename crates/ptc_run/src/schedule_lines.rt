//! The SCHEDULE lines of the first form.

ghost use Rattle.std.specs.Prelude.{◌≡◌, ◌+◌, ◌<◌, ◌≤◌, List, ℕ, [], ◌∷◌, ◌++◌, IfOk, OnOk, length, MatchOption};
ghost use Rattle.ptc_run.specs.Lines.{lines_of};
ghost use Rattle.ptc_run.specs.ScheduleLines.{schedule_line, item_of, items_of, AllowedWords, IsNoSchedule, EndsSchedule};
ghost use Rattle.ptc_run.specs.ScheduleReads.{BeginsNoWord, WordRead, WordsRead, ScheduleRead};

use crate::line_cuts::{behind, first_line};
use row_types::R;
use std::alloc::Global;
use workload_file::{Actor, Item, Schedule};

/// Whose turn an item of a SCHEDULE line names: `s1`, `c` or `r1`.
#[derive(Clone, Copy, Debug, PartialEq, Eq)]
pub enum ScheduleWord {
    Session,
    Tool,
    Worker,
}

impl ScheduleWord {
    fn item(self) -> Item
        ensures { result ≡ item_of self }
    {
        match self {
            ScheduleWord::Session => Item::Turn(Actor::Session(1)),
            ScheduleWord::Tool => Item::Turn(Actor::Tool),
            ScheduleWord::Worker => Item::Turn(Actor::Worker {
                replica: 1,
                worker: 1,
            }),
        }
    }
}

/// The word at the front, with the blank before it, and what stands behind it.
fn first_word(bytes: &[u8], some_session: bool) -> Option<(ScheduleWord, &[u8])>
    ensures { MatchOption result (BeginsNoWord some_session bytes.now) (λ read.
        WordRead bytes.now some_session read.0 read.1.now) }
{
    if let Some(rest) = behind(bytes, b" c") {
        return Some((ScheduleWord::Tool, rest));
    }
    if let Some(rest) = behind(bytes, b" r1") {
        return Some((ScheduleWord::Worker, rest));
    }
    if !some_session {
        return None;
    }
    match behind(bytes, b" s1") {
        None => None,
        Some(rest) => Some((ScheduleWord::Session, rest)),
    }
}

/// The words of a line, if it is a SCHEDULE line.
fn words_of(alloc: Global, line: &[u8], some_session: bool) -> R<Option<Vec<ScheduleWord>>>
    ensures { IfOk result (λ read. MatchOption read (IsNoSchedule some_session line.now) (λ words.
        (line.now ≡ schedule_line words.items) × AllowedWords some_session words.items)) }
{
    let Some(text) = behind(line, b"SCHEDULE") else {
        return Ok(None);
    };
    let mut words = Vec::new(alloc);
    let mut rest = text;
    while let Some((word, after)) = first_word(rest, some_session) {
        words.push(word)?;
        rest = after;
    }
    if rest == b"\n".as_slice() {
        Ok(Some(words))
    } else {
        Ok(None)
    }
}

/// The words of the first line, if it is a SCHEDULE line, and what stands behind it.
fn first_words(
    alloc: Global,
    bytes: &[u8],
    some_session: bool,
) -> R<Option<(Vec<ScheduleWord>, &[u8])>>
    ensures { IfOk result (λ read.
        MatchOption read (EndsSchedule some_session (lines_of bytes.now)) (λ line.
        WordsRead bytes.now some_session line.0.items line.1.now)) }
{
    let Some((line, rest)) = first_line(bytes) else {
        return Ok(None);
    };
    match words_of(alloc, line, some_session)? {
        None => Ok(None),
        Some(words) => Ok(Some((words, rest))),
    }
}

/// Puts the items of a line at the schedule's end.
fn push_items(schedule: &mut Schedule, words: &[ScheduleWord]) -> R<()>
    ensures { OnOk result (schedule.new ≡ schedule.old ++ items_of words.now) }
{
    for word in words {
        schedule.push(word.item())?;
    }
    Ok(())
}

/// The schedule of the SCHEDULE lines behind so many lines, what stands behind these, and how many
/// lines there are then behind the fixed ones. A session is named only where there is one.
pub fn read_schedule(
    alloc: Global,
    bytes: &[u8],
    some_session: bool,
    before: u32,
) -> R<(Schedule, &[u8], u32)>
    requires short { length bytes.now ≤ 16777216 }
    requires few { before ≤ 33554433 }
    ensures read { IfOk result (λ read.
        ScheduleRead bytes.now some_session before read.0 read.1.now read.2) }
    ensures most { IfOk result (λ read. read.2 ≤ 50331649) }
{
    let mut schedule = Schedule::new(alloc);
    let mut rest = bytes;
    let mut count = before;
    while let Some((words, after)) = first_words(alloc, rest, some_session)? {
        push_items(&mut schedule, words.as_slice())?;
        rest = after;
        count += 1;
    }
    Ok((schedule, rest, count))
}
