ghost use Rattle.std.specs.Prelude.{◌≡◌, IfOk, OnOk, OnErr};
ghost use Rattle.line_values.specs.Rows.{no_row, with_value as with_this_value, with_keyword, row_behind, row_in};

use crate::numbers::clipped;
use file_text::Keyword;
use line_items::LineItem;
use line_words::NodeWord;
use row_types::{Bytes, R, Row, Value};
use std::alloc::Global;

/// What a ROW line says.
#[derive(Drop)]
pub struct RowText {
    pub node: NodeWord,
    pub table: Bytes,
    /// numbers are clipped to 64 bits
    pub values: Row,
    /// whether the last item is a `-`
    pub minus: bool,
}

impl RowText {
    fn new(alloc: Global) -> RowText
        ensures { result ≡ no_row }
    {
        RowText {
            node: NodeWord::All,
            table: Bytes::new(alloc),
            values: Row::new(alloc),
            minus: false,
        }
    }

    fn take_value(&mut self, value: Value) -> R<()>
        ensures { OnOk result (self.new ≡ with_this_value value self.old) }
    {
        self.values.push(value)?;
        self.minus = false;
        Ok(())
    }

    fn take_word(&mut self, word: Keyword) -> R<()>
        ensures { OnOk result (self.new ≡ with_keyword word self.old) }
    {
        match word {
            Keyword::NullKeyword => self.take_value(Value::Null),
            _ => Ok(()),
        }
    }

    fn take_name(&mut self, name: Bytes)
        ensures { self.new ≡ record { node = self.old.node; table = name; values = self.old.values; minus = self.old.minus } }
    {
        self.table = name;
    }

    fn take(&mut self, item: LineItem) -> R<()>
        ensures { OnOk result (self.new ≡ row_behind self.old item) }
    {
        match item {
            LineItem::Node(node) => {
                self.node = node;
                Ok(())
            }
            LineItem::Name(name) => {
                self.take_name(name);
                Ok(())
            }
            LineItem::Sign(sign) => {
                self.minus = sign == b'-';
                Ok(())
            }
            LineItem::Digits(number) => self.take_value(Value::Int(clipped(self.minus, number))),
            LineItem::Quote(text) => self.take_value(Value::Text(text)),
            LineItem::Word(word) => self.take_word(word),
            _ => Ok(()),
        }
    }
}

/// The row of a ROW line.
#[tactic(auto, using(crate::proofs::RowLemmas::last_first))]
pub fn row_text(alloc: Global, mut items: Vec<LineItem>) -> R<RowText>
    ensures { IfOk result (λ row. row ≡ row_in items.items) }
{
    let mut row = RowText::new(alloc);
    items.reverse();
    while let Some(item) = items.pop() {
        row.take(item)?;
    }
    Ok(row)
}
