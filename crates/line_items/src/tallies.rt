ghost use Rattle.std.specs.Prelude.{◌≡◌, ◌+◌, ◌≤◌, leb};
ghost use Rattle.line_items.specs.Counted.{capped as the_capped, turns_of_word as the_turns_of_word, turns_of_item as the_turns_of_item, names_of_item as the_names_of_item, is_minus_item as is_minus, tally_behind as the_tally_behind};

use crate::counts::Tally;
use crate::found_items::LineItem;
use line_words::ItemWord;

pub(crate) fn turns_of_word(word: ItemWord) -> u128
    ensures { result ≡ the_turns_of_word word }
{
    match word {
        ItemWord::Times { actor: _, count } => count,
        _ => 1,
    }
}

fn turns_of_item(item: &LineItem) -> u128
    ensures { result ≡ the_turns_of_item item.now }
{
    match item {
        LineItem::Turns(word) => turns_of_word(*word),
        _ => 0,
    }
}

pub(crate) fn names_of_item(item: &LineItem) -> u32
    ensures names { result ≡ the_names_of_item item.now }
    ensures one { result ≤ 1 }
{
    match item {
        LineItem::Name(_) => 1,
        _ => 0,
    }
}

fn is_minus_item(item: &LineItem) -> bool
    ensures { result ≡ is_minus item.now }
{
    match item {
        LineItem::Sign(sign) => *sign == b'-',
        _ => false,
    }
}

fn turns_more(turns: u32, count: u128) -> u32
    ensures { result ≡ the_capped 10000000 (turns + count) }
{
    if count > 10_000_000 {
        return 10_000_001;
    }
    let sum = turns as u64 + count as u64;
    if sum <= 10_000_000 {
        sum as u32
    } else {
        10_000_001
    }
}

fn names_more(names: u32, count: u32) -> u32
    requires { count ≤ 1 }
    ensures { result ≡ the_capped 17 (names + count) }
{
    let sum = names as u64 + count as u64;
    if sum <= 17 { sum as u32 } else { 18 }
}

/// What the items count up to with this one.
pub(crate) fn tally_behind(tally: Tally, item: &LineItem) -> Tally
    ensures { result ≡ the_tally_behind tally item.now }
{
    Tally {
        turns: turns_more(tally.turns, turns_of_item(item)),
        names: names_more(tally.names, names_of_item(item)),
        behind_minus: is_minus_item(item),
    }
}
