ghost use Rattle.std.specs.Prelude.{◌≡◌, ◌≤◌, ◌+◌, ◌++◌, [], length, replicate, vec_len, vec_capacity, OnOk, OnErr};
ghost use Rattle.std.specs.List.{flat_map, AllByRecursion};
ghost use Rattle.line_items.specs.Counted.{turns_of_word};
ghost use Rattle.file_scripts.specs.Counting.{turns_of as all_turns};
ghost use Rattle.file_scripts.specs.Schedules.{FitsActor, FitsWord, actor_in as the_actor, item_in as the_item, items_in};

use crate::counting::turns_of;
use line_words::{ActorWord, ItemWord};
use row_types::{Items, R};
use std::alloc::Global;
use std::marker::Model;
use workload::{Actor, Item, Schedule};

/// The schedule of a file, turn for turn, as far as it is read.
#[derive(Debug, Drop)]
pub struct FileSchedule {
    items: Vec<Item>,
}

impl Model for FileSchedule {
    ghost use Rattle.std.specs.Prelude.{List};
    ghost use Rattle.workload.specs.declared.schedule.Item.{Item};

    ghost Value = { List Item };

    ghost view = { λ schedule. schedule.items.items };
}

impl FileSchedule {
    /// A schedule without items.
    pub fn new(alloc: Global) -> FileSchedule
        ensures { result ≡ [] }
    {
        FileSchedule {
            items: Vec::new(alloc),
        }
    }

    /// The items so far.
    pub fn as_slice(&self) -> &[Item]
        ensures { result.now ≡ self.now }
    {
        self.items.as_slice()
    }

    /// Puts the items of a SCHEDULE line at the end; out of memory changes nothing.
    pub fn push(&mut self, words: &[ItemWord]) -> R<()>
        requires fit { AllByRecursion FitsWord words.now }
        requires turns { all_turns words.now ≤ 10000000 }
        ensures ok { OnOk result (self.new ≡ self.old ++ flat_map items_in words.now) }
        ensures err { OnErr result (self.new ≡ self.old) }
    {
        self.items.reserve(turns_of(words) as usize)?;
        put_words(&mut self.items, words);
        Ok(())
    }

    /// The schedule, without a copy.
    pub fn into_schedule(self) -> Schedule
        ensures { result ≡ self }
    {
        Items { items: self.items }
    }
}

fn actor_in(word: ActorWord) -> Actor
    requires { FitsActor word }
    ensures { result ≡ the_actor word }
{
    match word {
        ActorWord::Session(session) => Actor::Session(session as u32),
        ActorWord::Tool => Actor::Tool,
        ActorWord::Sync(replica) => Actor::Sync(replica as u32),
        ActorWord::Worker(replica) => Actor::Worker {
            replica: replica as u32,
            worker: 1,
        },
        ActorWord::FurtherWorker { replica, worker } => Actor::Worker {
            replica: replica as u32,
            worker: worker as u32,
        },
        ActorWord::Local { replica, session } => Actor::Local {
            replica: replica as u32,
            session: session as u32,
        },
    }
}

/// What a word says once.
fn item_in(word: ItemWord) -> Item
    requires { FitsWord word }
    ensures { result ≡ the_item word }
{
    match word {
        ItemWord::Once(actor) => Item::Turn(actor_in(actor)),
        ItemWord::Times { actor, count: _ } => Item::Turn(actor_in(actor)),
        ItemWord::StopTool => Item::StopTool,
        ItemWord::ResumeTool => Item::ResumeTool,
        ItemWord::StopReplica(replica) => Item::StopReplica(replica as u32),
        ItemWord::StartReplica(replica) => Item::StartReplica(replica as u32),
    }
}

/// Puts an item at the end so many times, in reserved capacity.
fn put_times(items: &mut Vec<Item>, item: Item, count: usize)
    requires { vec_len items.old + count ≤ vec_capacity items.old }
    ensures items { items.new.items ≡ items.old.items ++ replicate count item }
    ensures len { vec_len items.new ≡ vec_len items.old + count }
    ensures capacity { vec_capacity items.old ≤ vec_capacity items.new }
{
    match items.resize(items.len() + count, item) {
        Ok(()) => {}
        Err(_) => unreachable!(),
    }
}

/// Puts a word's items at the end, in reserved capacity.
fn put_word(items: &mut Vec<Item>, word: ItemWord)
    requires fit { FitsWord word }
    requires capacity { vec_len items.old + turns_of_word word ≤ vec_capacity items.old }
    ensures items { items.new.items ≡ items.old.items ++ items_in word }
    ensures len { vec_len items.new ≡ vec_len items.old + turns_of_word word }
    ensures capacity { vec_capacity items.old ≤ vec_capacity items.new }
{
    let item = item_in(word);
    match word {
        ItemWord::Times { actor: _, count } => put_times(items, item, count as usize),
        _ => put_times(items, item, 1),
    }
}

/// Puts the items of words at the end, in reserved capacity.
fn put_words(items: &mut Vec<Item>, words: &[ItemWord])
    requires fit { AllByRecursion FitsWord words.now }
    requires capacity { vec_len items.old + all_turns words.now ≤ vec_capacity items.old }
    ensures { items.new.items ≡ items.old.items ++ flat_map items_in words.now }
{
    let mut rest = words;
    while let Some((word, more)) = rest.split_first() {
        put_word(items, *word);
        rest = more;
    }
}
