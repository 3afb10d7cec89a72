ghost use Rattle.std.specs.Prelude.{◌≡◌, MatchOption};
ghost use Rattle.file_text.specs.declared.places.Spot.TheVariants.{SectionDue, WorkloadDue, VersionDue, LevelDue, ReadDue, CommittedDue, CountDue, SessionDue, LocalDue, TurnsDue};
ghost use Rattle.file_text.specs.Spots.{first_spot as the_first_spot};
ghost use Rattle.line_items.specs.Items.{IsItemAt, NoItemAt};

use crate::found_items::{FoundItem, LineItem};
use file_text::{Keyword, Section, Spot};
use line_words::{ActorWord, actor_of, decimal_of, is_keyword, item_of, led_number};

fn first_spot(section: Section) -> Spot
    ensures { result ≡ the_first_spot section }
{
    match section {
        Section::PtcLines => Spot::WorkloadDue,
        Section::IsolationLines => Spot::LevelDue,
        Section::ReplicaLines => Spot::CountDue,
        Section::TableLines => Spot::TableDue,
        Section::RowLines => Spot::NodeDue,
        Section::SessionLines => Spot::SessionDue,
        Section::LocalLines => Spot::LocalDue,
        Section::ScheduleLines => Spot::TurnsDue,
        Section::EndLines => Spot::NothingDue,
    }
}

#[tactic(auto, using(crate::proofs::PlaceLemmas::section_found, crate::proofs::PlaceLemmas::no_section))]
pub(crate) fn section_item(section: Section, text: &[u8]) -> Option<FoundItem>
    ensures { MatchOption result (NoItemAt (SectionDue section) text.now) (λ found. IsItemAt (SectionDue section) text.now found) }
{
    if is_keyword(Keyword::First(section), text) {
        return Some(FoundItem {
            item: LineItem::Word(Keyword::First(section)),
            next: first_spot(section),
        });
    }
    None
}

#[tactic(auto, using(crate::proofs::PlaceLemmas::word_found, crate::proofs::PlaceLemmas::no_workload))]
pub(crate) fn workload_item(text: &[u8]) -> Option<FoundItem>
    ensures { MatchOption result (NoItemAt WorkloadDue text.now) (λ found. IsItemAt WorkloadDue text.now found) }
{
    if is_keyword(Keyword::WorkloadWord, text) {
        return Some(FoundItem {
            item: LineItem::Word(Keyword::WorkloadWord),
            next: Spot::VersionDue,
        });
    }
    None
}

#[tactic(auto, using(crate::proofs::PlaceLemmas::version_found, crate::proofs::PlaceLemmas::no_version))]
pub(crate) fn version_item(text: &[u8]) -> Option<FoundItem>
    ensures { MatchOption result (NoItemAt VersionDue text.now) (λ found. IsItemAt VersionDue text.now found) }
{
    match decimal_of(text) {
        None => None,
        Some(version) => Some(FoundItem {
            item: LineItem::Version(version),
            next: Spot::NothingDue,
        }),
    }
}

#[tactic(auto, using(crate::proofs::PlaceLemmas::word_found, crate::proofs::PlaceLemmas::no_level))]
pub(crate) fn level_item(text: &[u8]) -> Option<FoundItem>
    ensures { MatchOption result (NoItemAt LevelDue text.now) (λ found. IsItemAt LevelDue text.now found) }
{
    if is_keyword(Keyword::RepeatableWord, text) {
        return Some(FoundItem {
            item: LineItem::Word(Keyword::RepeatableWord),
            next: Spot::ReadDue,
        });
    }
    if is_keyword(Keyword::ReadWord, text) {
        return Some(FoundItem {
            item: LineItem::Word(Keyword::ReadWord),
            next: Spot::CommittedDue,
        });
    }
    if is_keyword(Keyword::SerializableWord, text) {
        return Some(FoundItem {
            item: LineItem::Word(Keyword::SerializableWord),
            next: Spot::NothingDue,
        });
    }
    None
}

#[tactic(auto, using(crate::proofs::PlaceLemmas::word_found, crate::proofs::PlaceLemmas::no_read))]
pub(crate) fn read_item(text: &[u8]) -> Option<FoundItem>
    ensures { MatchOption result (NoItemAt ReadDue text.now) (λ found. IsItemAt ReadDue text.now found) }
{
    if is_keyword(Keyword::ReadWord, text) {
        return Some(FoundItem {
            item: LineItem::Word(Keyword::ReadWord),
            next: Spot::NothingDue,
        });
    }
    None
}

#[tactic(auto, using(crate::proofs::PlaceLemmas::word_found, crate::proofs::PlaceLemmas::no_committed))]
pub(crate) fn committed_item(text: &[u8]) -> Option<FoundItem>
    ensures { MatchOption result (NoItemAt CommittedDue text.now) (λ found. IsItemAt CommittedDue text.now found) }
{
    if is_keyword(Keyword::CommittedWord, text) {
        return Some(FoundItem {
            item: LineItem::Word(Keyword::CommittedWord),
            next: Spot::NothingDue,
        });
    }
    if is_keyword(Keyword::UncommittedWord, text) {
        return Some(FoundItem {
            item: LineItem::Word(Keyword::UncommittedWord),
            next: Spot::NothingDue,
        });
    }
    None
}

#[tactic(auto, using(crate::proofs::PlaceLemmas::count_found, crate::proofs::PlaceLemmas::no_count))]
pub(crate) fn count_item(text: &[u8]) -> Option<FoundItem>
    ensures { MatchOption result (NoItemAt CountDue text.now) (λ found. IsItemAt CountDue text.now found) }
{
    match decimal_of(text) {
        None => None,
        Some(count) => Some(FoundItem {
            item: LineItem::Count(count),
            next: Spot::NothingDue,
        }),
    }
}

#[tactic(auto, using(crate::proofs::PlaceLemmas::session_found, crate::proofs::PlaceLemmas::no_session))]
pub(crate) fn session_item(text: &[u8]) -> Option<FoundItem>
    ensures { MatchOption result (NoItemAt SessionDue text.now) (λ found. IsItemAt SessionDue text.now found) }
{
    match led_number(b's', text) {
        None => None,
        Some(session) => Some(FoundItem {
            item: LineItem::Session(session),
            next: Spot::NothingDue,
        }),
    }
}

#[tactic(auto, using(crate::proofs::PlaceLemmas::local_found, crate::proofs::PlaceLemmas::no_actor, crate::proofs::PlaceLemmas::other_actor, crate::proofs::PlaceLemmas::worker_is_none, crate::proofs::PlaceLemmas::further_is_none))]
pub(crate) fn local_item(text: &[u8]) -> Option<FoundItem>
    ensures { MatchOption result (NoItemAt LocalDue text.now) (λ found. IsItemAt LocalDue text.now found) }
{
    match actor_of(text) {
        None => None,
        Some(ActorWord::Local { replica, session }) => Some(FoundItem {
            item: LineItem::Local { replica, session },
            next: Spot::NothingDue,
        }),
        Some(ActorWord::Session(_)) => None,
        Some(ActorWord::Tool) => None,
        Some(ActorWord::Sync(_)) => None,
        Some(ActorWord::Worker(_)) => None,
        Some(
            ActorWord::FurtherWorker {
                replica: _,
                worker: _,
            },
        ) => None,
    }
}

#[tactic(auto, using(crate::proofs::PlaceLemmas::turns_found, crate::proofs::PlaceLemmas::no_turns))]
pub(crate) fn turns_item(text: &[u8]) -> Option<FoundItem>
    ensures { MatchOption result (NoItemAt TurnsDue text.now) (λ found. IsItemAt TurnsDue text.now found) }
{
    match item_of(text) {
        None => None,
        Some(word) => Some(FoundItem {
            item: LineItem::Turns(word),
            next: Spot::TurnsDue,
        }),
    }
}
