ghost use Rattle.std.specs.Prelude.{◌≡◌, ◌+◌, ◌<◌, ◌^◌, leb, not};
ghost use Rattle.statement_tokens.specs.Tokens.{most_number};
ghost use Rattle.line_items.specs.Counted.{unless_at, when_over, local_fits as fits_local, misplaced_actor as the_misplaced_actor, misplaced_word as the_misplaced_word, misplaced_item as the_misplaced_item, passed_item as the_passed_item, passed_columns as the_passed_columns, passed_replicas as the_passed_replicas, passed_locals as the_passed_locals, passed_schedule as the_passed_schedule};

use crate::counts::{Counts, Tally};
use crate::found_items::LineItem;
use crate::tallies::{names_of_item, turns_of_word};
use file_text::{LimitKind, Section};
use line_words::{ActorWord, ItemWord};

/// A number within a word: at its first byte, behind its letter, behind its point, behind the letter that
/// follows the point, or behind its star.
#[derive(Clone, Copy)]
pub enum NumberSpot {
    AtFirst,
    BehindLetter,
    BehindPoint,
    BehindPointLetter,
    BehindStar,
}

fn is_over(turns: u64, count: u128) -> bool
    requires { turns < 2 ^ 34 }
    ensures { result ≡ not (leb (turns + count) 10000000) }
{
    count > 10_000_000 || turns + count as u64 > 10_000_000
}

fn misplaced_actor(actor: ActorWord) -> Option<NumberSpot>
    ensures { result ≡ the_misplaced_actor actor }
{
    match actor {
        ActorWord::FurtherWorker { replica: _, worker } => {
            if worker >= 2 && worker <= 8 {
                None
            } else {
                Some(NumberSpot::BehindPoint)
            }
        }
        _ => None,
    }
}

fn misplaced_word(turns: u64, word: ItemWord) -> Option<NumberSpot>
    requires { turns < 2 ^ 34 }
    ensures { result ≡ the_misplaced_word turns word }
{
    match word {
        ItemWord::Once(actor) => misplaced_actor(actor),
        ItemWord::Times { actor, count } => match misplaced_actor(actor) {
            Some(spot) => Some(spot),
            None => {
                if (count >= 1 && count <= 1_000_000) || is_over(turns, count) {
                    None
                } else {
                    Some(NumberSpot::BehindStar)
                }
            }
        },
        _ => None,
    }
}

fn local_fits(locals: u32, session: u128) -> bool
    ensures { result ≡ fits_local locals session }
{
    session == locals as u128 + 1 || locals >= 16
}

fn unless(fits: bool, spot: NumberSpot) -> Option<NumberSpot>
    ensures { result ≡ unless_at fits spot }
{
    if fits { None } else { Some(spot) }
}

fn most_digits(behind_minus: bool) -> u128
    ensures { result ≡ most_number behind_minus }
{
    if behind_minus {
        1 << 127
    } else {
        (1 << 127) - 1
    }
}

/// Which number of an item is out of its range or its order.
pub(crate) fn misplaced(counts: &Counts, tally: Tally, item: &LineItem) -> Option<NumberSpot>
    ensures { result ≡ the_misplaced_item counts.now tally item.now }
{
    match item {
        LineItem::Version(version) => unless(*version == 1, NumberSpot::AtFirst),
        LineItem::Count(count) => unless(*count >= 1, NumberSpot::AtFirst),
        LineItem::Length(length) => unless(*length >= 1 && *length <= 255, NumberSpot::AtFirst),
        LineItem::Session(session) => unless(
            *session == counts.sessions as u128 + 1,
            NumberSpot::BehindLetter,
        ),
        LineItem::Local { replica, session } => unless(
            local_fits(counts.locals_of(*replica), *session),
            NumberSpot::BehindPointLetter,
        ),
        LineItem::Turns(word) => misplaced_word(
            counts.scheduled as u64 + tally.turns as u64,
            *word,
        ),
        LineItem::Digits(digits) => unless(
            *digits <= most_digits(tally.behind_minus),
            NumberSpot::AtFirst,
        ),
        LineItem::Word(_) => None,
        LineItem::Sign(_) => None,
        LineItem::Name(_) => None,
        LineItem::Node(_) => None,
        LineItem::Quote(_) => None,
    }
}

fn when(passes: bool, which: LimitKind) -> Option<LimitKind>
    ensures { result ≡ when_over passes which }
{
    if passes { Some(which) } else { None }
}

fn passed_columns(tally: Tally, item: &LineItem) -> Option<LimitKind>
    ensures { result ≡ the_passed_columns tally item.now }
{
    let names = tally.names as u64 + names_of_item(item) as u64;
    when(!(names <= 17), LimitKind::Columns)
}

fn passed_replicas(item: &LineItem) -> Option<LimitKind>
    ensures { result ≡ the_passed_replicas item.now }
{
    match item {
        LineItem::Count(count) => when(!(*count <= 8), LimitKind::Replicas),
        _ => None,
    }
}

fn passed_locals(counts: &Counts, item: &LineItem) -> Option<LimitKind>
    ensures { result ≡ the_passed_locals counts.now item.now }
{
    match item {
        LineItem::Local {
            replica,
            session: _,
        } => when(counts.locals_of(*replica) >= 16, LimitKind::Locals),
        _ => None,
    }
}

fn passed_schedule(counts: &Counts, tally: Tally, item: &LineItem) -> Option<LimitKind>
    ensures { result ≡ the_passed_schedule counts.now tally item.now }
{
    match item {
        LineItem::Turns(word) => when(
            is_over(
                counts.scheduled as u64 + tally.turns as u64,
                turns_of_word(*word),
            ),
            LimitKind::Schedule,
        ),
        _ => None,
    }
}

/// The limit that a line of the section passes with this item.
pub(crate) fn passed(
    section: Section,
    counts: &Counts,
    tally: Tally,
    item: &LineItem,
) -> Option<LimitKind>
    ensures { result ≡ the_passed_item section counts.now tally item.now }
{
    match section {
        Section::TableLines => passed_columns(tally, item),
        Section::ReplicaLines => passed_replicas(item),
        Section::LocalLines => passed_locals(counts, item),
        Section::ScheduleLines => passed_schedule(counts, tally, item),
        _ => None,
    }
}
