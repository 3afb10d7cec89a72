ghost use Rattle.std.specs.Prelude.{◌≡◌, IfOk, MatchOption};
ghost use Rattle.file_text.specs.declared.places.Spot.TheVariants.{TableDue, ColumnsDue, ColumnDue, KindDue, LengthOpens, LengthDue, LengthCloses, MarkDue, NullDue, CommaDue};
ghost use Rattle.file_text.specs.declared.places.ColumnSpot.TheVariants.{FirstColumn, SecondColumn, FurtherColumn};
ghost use Rattle.file_text.specs.Spots.{next_column as the_next_column};
ghost use Rattle.line_items.specs.Items.{IsItemAt, NoItemAt};

use crate::found_items::{FoundItem, LineItem};
use file_text::{ColumnSpot, Keyword, Spot};
use line_words::{decimal_of, is_keyword, name_of};
use row_types::R;
use std::alloc::Global;

#[tactic(auto, using(crate::proofs::PlaceLemmas::name_found, crate::proofs::PlaceLemmas::no_table))]
pub(crate) fn table_item(alloc: Global, text: &[u8]) -> R<Option<FoundItem>>
    ensures { IfOk result (λ told. MatchOption told (NoItemAt TableDue text.now) (λ found. IsItemAt TableDue text.now found)) }
{
    match name_of(alloc, text)? {
        None => Ok(None),
        Some(name) => Ok(Some(FoundItem {
            item: LineItem::Name(name),
            next: Spot::ColumnsDue,
        })),
    }
}

#[tactic(auto, using(crate::proofs::PlaceLemmas::columns_open, crate::proofs::PlaceLemmas::no_columns))]
pub(crate) fn columns_item(text: &[u8]) -> Option<FoundItem>
    ensures { MatchOption result (NoItemAt ColumnsDue text.now) (λ found. IsItemAt ColumnsDue text.now found) }
{
    if text == b"(".as_slice() {
        return Some(FoundItem {
            item: LineItem::Sign(b'('),
            next: Spot::ColumnDue(ColumnSpot::FirstColumn),
        });
    }
    None
}

#[tactic(auto, using(crate::proofs::PlaceLemmas::name_found, crate::proofs::PlaceLemmas::no_column))]
pub(crate) fn column_item(alloc: Global, column: ColumnSpot, text: &[u8]) -> R<Option<FoundItem>>
    ensures { IfOk result (λ told. MatchOption told (NoItemAt (ColumnDue column) text.now) (λ found. IsItemAt (ColumnDue column) text.now found)) }
{
    match name_of(alloc, text)? {
        None => Ok(None),
        Some(name) => Ok(Some(FoundItem {
            item: LineItem::Name(name),
            next: Spot::KindDue(column),
        })),
    }
}

#[tactic(auto, using(crate::proofs::PlaceLemmas::word_found, crate::proofs::PlaceLemmas::no_kind))]
pub(crate) fn kind_item(column: ColumnSpot, text: &[u8]) -> Option<FoundItem>
    ensures { MatchOption result (NoItemAt (KindDue column) text.now) (λ found. IsItemAt (KindDue column) text.now found) }
{
    if is_keyword(Keyword::IntWord, text) {
        return Some(FoundItem {
            item: LineItem::Word(Keyword::IntWord),
            next: Spot::MarkDue(column),
        });
    }
    if is_keyword(Keyword::BigIntWord, text) {
        return Some(FoundItem {
            item: LineItem::Word(Keyword::BigIntWord),
            next: Spot::MarkDue(column),
        });
    }
    if is_keyword(Keyword::VarcharWord, text) {
        return Some(FoundItem {
            item: LineItem::Word(Keyword::VarcharWord),
            next: Spot::LengthOpens(column),
        });
    }
    None
}

#[tactic(auto, using(crate::proofs::PlaceLemmas::length_opens, crate::proofs::PlaceLemmas::no_length_opens))]
pub(crate) fn length_opens_item(column: ColumnSpot, text: &[u8]) -> Option<FoundItem>
    ensures { MatchOption result (NoItemAt (LengthOpens column) text.now) (λ found. IsItemAt (LengthOpens column) text.now found) }
{
    if text == b"(".as_slice() {
        return Some(FoundItem {
            item: LineItem::Sign(b'('),
            next: Spot::LengthDue(column),
        });
    }
    None
}

#[tactic(auto, using(crate::proofs::PlaceLemmas::length_found, crate::proofs::PlaceLemmas::no_length))]
pub(crate) fn length_item(column: ColumnSpot, text: &[u8]) -> Option<FoundItem>
    ensures { MatchOption result (NoItemAt (LengthDue column) text.now) (λ found. IsItemAt (LengthDue column) text.now found) }
{
    match decimal_of(text) {
        None => None,
        Some(length) => Some(FoundItem {
            item: LineItem::Length(length),
            next: Spot::LengthCloses(column),
        }),
    }
}

#[tactic(auto, using(crate::proofs::PlaceLemmas::length_closes, crate::proofs::PlaceLemmas::no_length_closes))]
pub(crate) fn length_closes_item(column: ColumnSpot, text: &[u8]) -> Option<FoundItem>
    ensures { MatchOption result (NoItemAt (LengthCloses column) text.now) (λ found. IsItemAt (LengthCloses column) text.now found) }
{
    if text == b")".as_slice() {
        return Some(FoundItem {
            item: LineItem::Sign(b')'),
            next: Spot::MarkDue(column),
        });
    }
    None
}

/// KEY, NOT NULL or nothing behind a column's kind.
pub(crate) fn mark_item(column: ColumnSpot, text: &[u8]) -> Option<FoundItem>
    ensures { MatchOption result (NoItemAt (MarkDue column) text.now) (λ found. IsItemAt (MarkDue column) text.now found) }
{
    match column {
        ColumnSpot::FirstColumn => first_mark_item(text),
        ColumnSpot::SecondColumn => second_mark_item(text),
        ColumnSpot::FurtherColumn => further_mark_item(text),
    }
}

#[tactic(auto, using(crate::proofs::PlaceLemmas::word_found, crate::proofs::PlaceLemmas::no_first_mark))]
fn first_mark_item(text: &[u8]) -> Option<FoundItem>
    ensures { MatchOption result (NoItemAt (MarkDue FirstColumn) text.now) (λ found. IsItemAt (MarkDue FirstColumn) text.now found) }
{
    if is_keyword(Keyword::KeyWord, text) {
        return Some(FoundItem {
            item: LineItem::Word(Keyword::KeyWord),
            next: Spot::CommaDue(ColumnSpot::FirstColumn),
        });
    }
    None
}

#[tactic(auto, using(crate::proofs::PlaceLemmas::word_found, crate::proofs::PlaceLemmas::second_ends, crate::proofs::PlaceLemmas::no_second_mark))]
fn second_mark_item(text: &[u8]) -> Option<FoundItem>
    ensures { MatchOption result (NoItemAt (MarkDue SecondColumn) text.now) (λ found. IsItemAt (MarkDue SecondColumn) text.now found) }
{
    if is_keyword(Keyword::KeyWord, text) {
        return Some(FoundItem {
            item: LineItem::Word(Keyword::KeyWord),
            next: Spot::CommaDue(ColumnSpot::SecondColumn),
        });
    }
    if is_keyword(Keyword::NotWord, text) {
        return Some(FoundItem {
            item: LineItem::Word(Keyword::NotWord),
            next: Spot::NullDue(ColumnSpot::SecondColumn),
        });
    }
    match comma_item(ColumnSpot::SecondColumn, text) {
        None => None,
        Some(found) => Some(found),
    }
}

#[tactic(auto, using(crate::proofs::PlaceLemmas::word_found, crate::proofs::PlaceLemmas::further_ends, crate::proofs::PlaceLemmas::no_further_mark))]
fn further_mark_item(text: &[u8]) -> Option<FoundItem>
    ensures { MatchOption result (NoItemAt (MarkDue FurtherColumn) text.now) (λ found. IsItemAt (MarkDue FurtherColumn) text.now found) }
{
    if is_keyword(Keyword::NotWord, text) {
        return Some(FoundItem {
            item: LineItem::Word(Keyword::NotWord),
            next: Spot::NullDue(ColumnSpot::FurtherColumn),
        });
    }
    match comma_item(ColumnSpot::FurtherColumn, text) {
        None => None,
        Some(found) => Some(found),
    }
}

#[tactic(auto, using(crate::proofs::PlaceLemmas::word_found, crate::proofs::PlaceLemmas::no_null))]
pub(crate) fn null_item(column: ColumnSpot, text: &[u8]) -> Option<FoundItem>
    ensures { MatchOption result (NoItemAt (NullDue column) text.now) (λ found. IsItemAt (NullDue column) text.now found) }
{
    if is_keyword(Keyword::NullKeyword, text) {
        return Some(FoundItem {
            item: LineItem::Word(Keyword::NullKeyword),
            next: Spot::CommaDue(column),
        });
    }
    None
}

fn next_column(column: ColumnSpot) -> ColumnSpot
    ensures { result ≡ the_next_column column }
{
    match column {
        ColumnSpot::FirstColumn => ColumnSpot::SecondColumn,
        ColumnSpot::SecondColumn => ColumnSpot::FurtherColumn,
        ColumnSpot::FurtherColumn => ColumnSpot::FurtherColumn,
    }
}

#[tactic(auto, using(crate::proofs::PlaceLemmas::next_comma, crate::proofs::PlaceLemmas::column_closes, crate::proofs::PlaceLemmas::no_comma))]
pub(crate) fn comma_item(column: ColumnSpot, text: &[u8]) -> Option<FoundItem>
    ensures { MatchOption result (NoItemAt (CommaDue column) text.now) (λ found. IsItemAt (CommaDue column) text.now found) }
{
    if text == b",".as_slice() {
        return Some(FoundItem {
            item: LineItem::Sign(b','),
            next: Spot::ColumnDue(next_column(column)),
        });
    }
    if text == b")".as_slice() {
        return Some(FoundItem {
            item: LineItem::Sign(b')'),
            next: Spot::NothingDue,
        });
    }
    None
}
