ghost use Rattle.std.specs.Prelude.{◌≡◌, [], drop, reverse, IfOk, OnOk};
ghost use Rattle.line_values.specs.Tables.{fresh, drafted, drafted_on, one_more_key as the_one_more_key, short_length as the_short_length, with_word, with_name, name_of as the_name_of, name_in as the_name, schema_in};

use file_text::Keyword;
use line_items::LineItem;
use row_types::{Bytes, Column, ColumnKind, Columns, R, Schema};
use std::alloc::Global;

/// Columns that are read from the last item to the first.
#[derive(Drop)]
pub struct TableDraft {
    /// the last column first
    pub columns: Columns,
    /// of the column whose name comes next
    pub kind: ColumnKind,
    pub nullable: bool,
    /// words KEY, counted up to 2
    pub keys: u8,
}

fn one_more_key(keys: u8) -> u8
    ensures { result ≡ the_one_more_key keys }
{
    if keys < 2 { keys + 1 } else { keys }
}

fn short_length(length: u128) -> u16
    ensures { result ≡ the_short_length length }
{
    if length < 255 { length as u16 } else { 255 }
}

impl TableDraft {
    fn new(alloc: Global) -> TableDraft
        ensures { result ≡ fresh }
    {
        TableDraft {
            columns: Columns::new(alloc),
            kind: ColumnKind::Int,
            nullable: true,
            keys: 0,
        }
    }

    fn take_name(&mut self, name: Bytes) -> R<()>
        ensures { OnOk result (self.new ≡ with_name name self.old) }
    {
        self.columns.push(Column {
            name,
            kind: self.kind,
            nullable: self.nullable,
        })?;
        self.kind = ColumnKind::Int;
        self.nullable = true;
        Ok(())
    }

    fn take_word(&mut self, word: Keyword)
        ensures { self.new ≡ with_word word self.old }
    {
        match word {
            Keyword::IntWord => self.kind = ColumnKind::Int,
            Keyword::BigIntWord => self.kind = ColumnKind::BigInt,
            Keyword::KeyWord => {
                self.nullable = false;
                self.keys = one_more_key(self.keys);
            }
            Keyword::NotWord => self.nullable = false,
            _ => {}
        }
    }

    fn take(&mut self, alloc: Global, item: &LineItem) -> R<()>
        ensures { OnOk result (self.new ≡ drafted item.now self.old) }
    {
        match item {
            LineItem::Name(name) => self.take_name(name.copy(alloc)?),
            LineItem::Word(word) => {
                self.take_word(*word);
                Ok(())
            }
            LineItem::Length(length) => {
                self.kind = ColumnKind::Text {
                    max: short_length(*length),
                };
                Ok(())
            }
            _ => Ok(()),
        }
    }
}

/// The columns of these items.
#[tactic(auto, using(crate::proofs::TableLemmas::last_item))]
fn draft_of(alloc: Global, items: &[LineItem]) -> R<TableDraft>
    ensures { IfOk result (λ draft. draft ≡ drafted_on items.now fresh) }
{
    let mut draft = TableDraft::new(alloc);
    let mut rest = items;
    while let Some((item, front)) = rest.split_last() {
        draft.take(alloc, item)?;
        rest = front;
    }
    Ok(draft)
}

fn turned(mut columns: Columns) -> Columns
    ensures { result ≡ reverse columns }
{
    columns.items.reverse();
    columns
}

fn behind_two(items: &[LineItem]) -> &[LineItem]
    ensures { result.now ≡ drop 2 items.now }
{
    match items.split_first() {
        None => items,
        Some((_, more)) => match more.split_first() {
            None => more,
            Some((_, rest)) => rest,
        },
    }
}

fn name_of(alloc: Global, item: &LineItem) -> R<Option<Bytes>>
    ensures { IfOk result (λ name. name ≡ the_name_of item.now) }
{
    match item {
        LineItem::Name(name) => Ok(Some(name.copy(alloc)?)),
        _ => Ok(None),
    }
}

/// The first name of these items; none is the empty one.
fn name_in(alloc: Global, items: &[LineItem]) -> R<Bytes>
    ensures { IfOk result (λ name. name ≡ the_name items.now) }
{
    let mut rest = items;
    while let Some((item, more)) = rest.split_first() {
        if let Some(name) = name_of(alloc, item)? {
            return Ok(name);
        }
        rest = more;
    }
    Ok(Bytes::new(alloc))
}

/// The form of the table of a TABLE line.
pub fn table_text(alloc: Global, items: &[LineItem]) -> R<Schema>
    ensures { IfOk result (λ schema. schema ≡ schema_in items.now) }
{
    let name = name_in(alloc, items)?;
    let draft = draft_of(alloc, behind_two(items))?;
    Ok(Schema {
        name,
        columns: turned(draft.columns),
        key_len: draft.keys,
    })
}
