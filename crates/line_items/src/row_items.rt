ghost use Rattle.std.specs.Prelude.{◌≡◌, IfOk, MatchOption};
ghost use Rattle.file_text.specs.declared.places.Spot.TheVariants.{NodeDue, RowTableDue, RowOpens, LiteralDue, DigitsDue, LiteralEnds};
ghost use Rattle.line_items.specs.Items.{IsItemAt, NoItemAt};
ghost use Rattle.line_items.specs.Literals.{NoPlainLiteral};

use crate::found_items::{FoundItem, LineItem};
use crate::literals::quote_of;
use file_text::{Keyword, Spot};
use line_words::{digits_of, is_keyword, name_of, node_of};
use row_types::R;
use std::alloc::Global;

#[tactic(auto, using(crate::proofs::PlaceLemmas::node_found, crate::proofs::PlaceLemmas::no_node))]
pub(crate) fn node_item(text: &[u8]) -> Option<FoundItem>
    ensures { MatchOption result (NoItemAt NodeDue text.now) (λ found. IsItemAt NodeDue text.now found) }
{
    match node_of(text) {
        None => None,
        Some(node) => Some(FoundItem {
            item: LineItem::Node(node),
            next: Spot::RowTableDue,
        }),
    }
}

#[tactic(auto, using(crate::proofs::PlaceLemmas::name_found, crate::proofs::PlaceLemmas::no_row_table))]
pub(crate) fn row_table_item(alloc: Global, text: &[u8]) -> R<Option<FoundItem>>
    ensures { IfOk result (λ told. MatchOption told (NoItemAt RowTableDue text.now) (λ found. IsItemAt RowTableDue text.now found)) }
{
    match name_of(alloc, text)? {
        None => Ok(None),
        Some(name) => Ok(Some(FoundItem {
            item: LineItem::Name(name),
            next: Spot::RowOpens,
        })),
    }
}

#[tactic(auto, using(crate::proofs::PlaceLemmas::row_opens, crate::proofs::PlaceLemmas::no_row_opens))]
pub(crate) fn row_opens_item(text: &[u8]) -> Option<FoundItem>
    ensures { MatchOption result (NoItemAt RowOpens text.now) (λ found. IsItemAt RowOpens text.now found) }
{
    if text == b"(".as_slice() {
        return Some(FoundItem {
            item: LineItem::Sign(b'('),
            next: Spot::LiteralDue,
        });
    }
    None
}

#[tactic(auto, using(crate::proofs::PlaceLemmas::quote_found, crate::proofs::PlaceLemmas::no_literal))]
pub(crate) fn literal_item(alloc: Global, text: &[u8]) -> R<Option<FoundItem>>
    ensures { IfOk result (λ told. MatchOption told (NoItemAt LiteralDue text.now) (λ found. IsItemAt LiteralDue text.now found)) }
{
    match plain_literal(text) {
        Some(found) => Ok(Some(found)),
        None => match quote_of(alloc, text)? {
            None => Ok(None),
            Some(quote) => Ok(Some(FoundItem {
                item: LineItem::Quote(quote),
                next: Spot::LiteralEnds,
            })),
        },
    }
}

/// A number, NULL or the sign of a number.
#[tactic(auto, using(crate::proofs::PlaceLemmas::literal_digits_found, crate::proofs::PlaceLemmas::word_found, crate::proofs::PlaceLemmas::minus_found, crate::proofs::PlaceLemmas::no_plain_literal))]
fn plain_literal(text: &[u8]) -> Option<FoundItem>
    ensures { MatchOption result (NoPlainLiteral text.now) (λ found. IsItemAt LiteralDue text.now found) }
{
    if is_keyword(Keyword::NullKeyword, text) {
        return Some(FoundItem {
            item: LineItem::Word(Keyword::NullKeyword),
            next: Spot::LiteralEnds,
        });
    }
    if text == b"-".as_slice() {
        return Some(FoundItem {
            item: LineItem::Sign(b'-'),
            next: Spot::DigitsDue,
        });
    }
    match digits_of(text) {
        None => None,
        Some(digits) => Some(FoundItem {
            item: LineItem::Digits(digits),
            next: Spot::LiteralEnds,
        }),
    }
}

#[tactic(auto, using(crate::proofs::PlaceLemmas::digits_found, crate::proofs::PlaceLemmas::no_digits))]
pub(crate) fn digits_item(text: &[u8]) -> Option<FoundItem>
    ensures { MatchOption result (NoItemAt DigitsDue text.now) (λ found. IsItemAt DigitsDue text.now found) }
{
    match digits_of(text) {
        None => None,
        Some(digits) => Some(FoundItem {
            item: LineItem::Digits(digits),
            next: Spot::LiteralEnds,
        }),
    }
}

#[tactic(auto, using(crate::proofs::PlaceLemmas::literal_comma, crate::proofs::PlaceLemmas::row_closes, crate::proofs::PlaceLemmas::no_literal_end))]
pub(crate) fn literal_end_item(text: &[u8]) -> Option<FoundItem>
    ensures { MatchOption result (NoItemAt LiteralEnds text.now) (λ found. IsItemAt LiteralEnds text.now found) }
{
    if text == b",".as_slice() {
        return Some(FoundItem {
            item: LineItem::Sign(b','),
            next: Spot::LiteralDue,
        });
    }
    if text == b")".as_slice() {
        return Some(FoundItem {
            item: LineItem::Sign(b')'),
            next: Spot::NothingDue,
        });
    }
    None
}
