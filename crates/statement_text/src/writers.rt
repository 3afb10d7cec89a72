ghost use Rattle.std.specs.Prelude.{◌≡◌, ◌++◌, [], ◌∷◌, OnOk};
ghost use Rattle.std.specs.Fmt.{decimal, signed_decimal};
ghost use Rattle.statement_text.specs.Texts.{name_of};
ghost use Rattle.statement_text.specs.Written.{Appended};

use crate::texts::{name_in, push_bytes, push_number, push_signed};
use row_types::{R, SchemaList};
use std::alloc::Global;
use std::marker::Model;

/// A text that is being written, and the schemas whose names it uses. After a refusal of memory the
/// text is incomplete.
#[derive(Drop)]
pub struct Writer<'a> {
    schemas: &'a SchemaList,
    text: Vec<u8>,
    alloc: Global,
}

impl<'a> Model for Writer<'a> {
    ghost use Rattle.statement_text.specs.Written.{Written};

    ghost Value = { Written };

    ghost use Rattle.statement_text.specs.WriterParts.{written};

    ghost view = { written };
}

impl<'a> Writer<'a> {
    /// An empty text.
    pub fn new(alloc: Global, schemas: &'a SchemaList) -> Writer<'a>
        ensures schemas { result.schemas ≡ schemas.now }
        ensures text { result.text ≡ [] }
    {
        Writer {
            schemas,
            text: Vec::new(alloc),
            alloc,
        }
    }

    /// The allocator that the text grows by.
    pub(crate) fn alloc(&self) -> Global {
        self.alloc
    }

    pub(crate) fn schemas(&self) -> &'a SchemaList
        ensures { result.now ≡ self.now.schemas }
    {
        self.schemas
    }

    /// The text so far.
    pub fn as_slice(&self) -> &[u8]
        ensures { result.now ≡ self.now.text }
    {
        self.text.as_slice()
    }

    /// The text.
    pub fn into_text(self) -> Vec<u8>
        ensures { result.items ≡ self.entry.text }
    {
        self.text
    }

    pub fn push_bytes(&mut self, bytes: &[u8]) -> R<()>
        ensures { OnOk result (Appended bytes.now self.old self.new) }
    {
        push_bytes(&mut self.text, bytes)
    }

    pub(crate) fn push_byte(&mut self, byte: u8) -> R<()>
        ensures { OnOk result (Appended (byte ∷ []) self.old self.new) }
    {
        self.text.push(byte)?;
        Ok(())
    }

    /// Appends a number in decimal digits.
    pub fn push_number(&mut self, number: u64) -> R<()>
        ensures { OnOk result (Appended (decimal number) self.old self.new) }
    {
        push_number(&mut self.text, number)
    }

    pub(crate) fn push_signed(&mut self, number: i64) -> R<()>
        ensures { OnOk result (Appended (signed_decimal number) self.old self.new) }
    {
        push_signed(&mut self.text, number)
    }

    /// Appends the name of the table of this number; nothing where there is no such table.
    pub fn push_name(&mut self, table: usize) -> R<()>
        ensures { OnOk result (Appended (name_of self.old.schemas table) self.old self.new) }
    {
        let schemas = self.schemas;
        self.push_bytes(name_in(schemas, table))
    }
}
