ghost use Rattle.std.specs.Prelude.{◌≡◌, ◌↔◌, IsTrue, IfOk};
ghost use Rattle.std.specs.Option.{option_copied};
ghost use Rattle.std.specs.List.{slice_get};

use crate::byte_list::Bytes;
use crate::item_lists::{Items, Plain};
use crate::memory::R;
use std::alloc::Global;

/// What a column holds: numbers of 32 or 64 bits, or texts of at most `max` bytes.
#[derive(Clone, Copy, Debug, PartialEq, Eq)]
pub enum ColumnKind {
    Int,
    BigInt,
    Text { max: u16 },
}

/// A column of a table; `nullable` says whether it takes NULL.
#[derive(Debug, Drop)]
pub struct Column {
    pub name: Bytes,
    pub kind: ColumnKind,
    pub nullable: bool,
}

/// A table's form. Its key is the first `key_len` columns, one or two, which take no NULL.
#[derive(Debug, Drop)]
pub struct Schema {
    pub name: Bytes,
    pub columns: Columns,
    pub key_len: u8,
}

/// The schemas of all tables, numbered from 0.
#[derive(Debug, Drop)]
pub struct Schemas {
    pub tables: SchemaList,
}

/// The columns of a table, in order, numbered from 0.
pub type Columns = Items<Column>;

/// Schemas, in the order of the tables.
pub type SchemaList = Items<Schema>;

impl ColumnKind {
    pub fn copy(&self, _alloc: Global) -> R<ColumnKind>
        ensures { IfOk result (λ copy. copy ≡ self.now) }
    {
        Ok(*self)
    }

    pub fn same(&self, other: &ColumnKind) -> bool
        ensures { IsTrue result ↔ (self.now ≡ other.now) }
    {
        *self == *other
    }
}

impl Column {
    pub fn copy(&self, alloc: Global) -> R<Column>
        ensures { IfOk result (λ copy. copy ≡ self.now) }
    {
        Ok(Column {
            name: self.name.copy(alloc)?,
            kind: self.kind,
            nullable: self.nullable,
        })
    }

    pub fn same(&self, other: &Column) -> bool
        ensures { IsTrue result ↔ (self.now ≡ other.now) }
    {
        self.name.same(&other.name)
            && self.kind.same(&other.kind)
            && self.nullable == other.nullable
    }
}

impl Schema {
    pub fn copy(&self, alloc: Global) -> R<Schema>
        ensures { IfOk result (λ copy. copy ≡ self.now) }
    {
        Ok(Schema {
            name: self.name.copy(alloc)?,
            columns: self.columns.copy(alloc)?,
            key_len: self.key_len,
        })
    }

    pub fn same(&self, other: &Schema) -> bool
        ensures { IsTrue result ↔ (self.now ≡ other.now) }
    {
        self.name.same(&other.name)
            && self.columns.same(&other.columns)
            && self.key_len == other.key_len
    }
}

impl Schemas {
    pub fn copy(&self, alloc: Global) -> R<Schemas>
        ensures { IfOk result (λ copy. copy ≡ self.now) }
    {
        Ok(Schemas {
            tables: self.tables.copy(alloc)?,
        })
    }

    pub fn same(&self, other: &Schemas) -> bool
        ensures { IsTrue result ↔ (self.now ≡ other.now) }
    {
        self.tables.same(&other.tables)
    }
}

impl SchemaList {
    /// The schema of the table of this number, counted from 0.
    pub fn get(&self, table: u32) -> Option<&Schema>
        ensures { option_copied result ≡ slice_get self.now table }
    {
        self.items.get(table as usize)
    }
}

impl Plain for Column {
    fn copy(&self, alloc: Global) -> R<Column> {
        Column::copy(self, alloc)
    }

    fn same(&self, other: &Column) -> bool {
        Column::same(self, other)
    }
}

impl Plain for Schema {
    fn copy(&self, alloc: Global) -> R<Schema> {
        Schema::copy(self, alloc)
    }

    fn same(&self, other: &Schema) -> bool {
        Schema::same(self, other)
    }
}
