ghost use Rattle.std.specs.Prelude.{◌≡◌, IfOk};
ghost use Rattle.line_values.specs.Values.{is_repeatable_word as is_the_word, repeatable_in, counted, replica_of as the_replica_of, the_count, the_replica, the_words};

use file_text::Keyword;
use line_items::LineItem;
use line_words::ItemWord;
use row_types::R;
use std::alloc::Global;

fn is_repeatable_word(item: &LineItem) -> bool
    ensures { result ≡ is_the_word item.now }
{
    match item {
        LineItem::Word(Keyword::RepeatableWord) => true,
        _ => false,
    }
}

/// Whether the level of an ISOLATION line is REPEATABLE READ.
pub fn is_repeatable(items: &[LineItem]) -> bool
    ensures { result ≡ repeatable_in items.now }
{
    let mut rest = items;
    while let Some((item, more)) = rest.split_first() {
        if is_repeatable_word(item) {
            return true;
        }
        rest = more;
    }
    false
}

fn count_of(item: &LineItem) -> Option<u128>
    ensures { result ≡ counted item.now }
{
    match item {
        LineItem::Count(count) => Some(*count),
        _ => None,
    }
}

/// The number of a REPLICAS line; 0 where there is none.
pub fn count_in(items: &[LineItem]) -> u128
    ensures { result ≡ the_count items.now }
{
    let mut rest = items;
    while let Some((item, more)) = rest.split_first() {
        if let Some(count) = count_of(item) {
            return count;
        }
        rest = more;
    }
    0
}

fn replica_of(item: &LineItem) -> Option<u128>
    ensures { result ≡ the_replica_of item.now }
{
    match item {
        LineItem::Local { replica, session } => Some(*replica),
        _ => None,
    }
}

/// The replica of a LOCAL line; 0 where there is none.
pub fn replica_in(items: &[LineItem]) -> u128
    ensures { result ≡ the_replica items.now }
{
    let mut rest = items;
    while let Some((item, more)) = rest.split_first() {
        if let Some(replica) = replica_of(item) {
            return replica;
        }
        rest = more;
    }
    0
}

/// The words of a SCHEDULE line.
pub fn words_in(alloc: Global, items: &[LineItem]) -> R<Vec<ItemWord>>
    ensures { IfOk result (λ words. words.items ≡ the_words items.now) }
{
    let mut words = Vec::new(alloc);
    let mut rest = items;
    while let Some((item, more)) = rest.split_first() {
        if let LineItem::Turns(word) = item {
            words.push(*word)?;
        }
        rest = more;
    }
    Ok(words)
}
