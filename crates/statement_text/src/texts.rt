//! How schemas, values and edges are written.
ghost use Rattle.std.specs.Prelude.{◌≡◌, ◌++◌, OnOk};
ghost use Rattle.std.specs.Fmt.{decimal, signed_decimal};
ghost use Rattle.statement_text.specs.Texts.{name_of, kind_text, column_text, columns_on, columns_text, table_line, quoted, value_text, values_on, values_text, tuple_text, edge_text, span_text, digest_kind_text};
ghost use Rattle.statement_text.specs.Written.{Appended};

use crate::writers::Writer;
use itoa::Buffer;
use row_types::{Column, ColumnKind, DigestKind, Edge, R, Schema, SchemaList, Span, Value};

/// Appends bytes to a text, which a refusal leaves as it was.
pub fn push_bytes(out: &mut Vec<u8>, bytes: &[u8]) -> R<()>
    ensures { OnOk result (out.new.items ≡ out.old.items ++ bytes.now) }
{
    out.extend_from_slice(bytes)?;
    Ok(())
}

/// Appends a number in decimal digits to a text.
pub fn push_number(out: &mut Vec<u8>, number: u64) -> R<()>
    ensures { OnOk result (out.new.items ≡ out.old.items ++ decimal number) }
{
    let mut buffer = Buffer::new();
    push_bytes(out, buffer.format(number).as_bytes())
}

pub(crate) fn push_signed(out: &mut Vec<u8>, number: i64) -> R<()>
    ensures { OnOk result (out.new.items ≡ out.old.items ++ signed_decimal number) }
{
    let mut buffer = Buffer::new();
    push_bytes(out, buffer.format(number).as_bytes())
}

/// The name of the table of this number; empty where there is no such table.
#[tactic(auto, unfolding(crate::specs::Texts::name_of))]
pub(crate) fn name_in(schemas: &SchemaList, table: usize) -> &[u8]
    ensures { result.now ≡ name_of schemas.now table }
{
    match schemas.as_slice().get(table) {
        None => &[],
        Some(schema) => schema.name.as_slice(),
    }
}

impl<'a> Writer<'a> {
    #[tactic(auto, unfolding(crate::specs::Texts::kind_text))]
    fn push_kind(&mut self, kind: ColumnKind) -> R<()>
        ensures { OnOk result (Appended (kind_text kind) self.old self.new) }
    {
        match kind {
            ColumnKind::Int => self.push_bytes(b"INT"),
            ColumnKind::BigInt => self.push_bytes(b"BIGINT"),
            ColumnKind::Text { max } => {
                self.push_bytes(b"VARCHAR(")?;
                self.push_number(max as u64)?;
                self.push_bytes(b")")
            }
        }
    }

    #[tactic(auto, unfolding(crate::specs::Texts::column_text))]
    fn push_column(&mut self, key_len: usize, number: usize, column: &Column) -> R<()>
        ensures { OnOk result (Appended (column_text key_len number column.now) self.old self.new) }
    {
        self.push_bytes(column.name.as_slice())?;
        self.push_bytes(b" ")?;
        self.push_kind(column.kind)?;
        if number < key_len {
            self.push_bytes(b" KEY")?;
        } else if !column.nullable {
            self.push_bytes(b" NOT NULL")?;
        }
        Ok(())
    }

    /// The columns but the first, each after a comma.
    fn push_later_columns(&mut self, key_len: usize, columns: &[Column]) -> R<()>
        ensures { OnOk result (Appended (columns_on key_len 1 columns.now) self.old self.new) }
    {
        for (index, column) in columns.iter().enumerate() {
            self.push_bytes(b", ")?;
            self.push_column(key_len, index + 1, column)?;
        }
        Ok(())
    }

    fn push_columns(&mut self, key_len: usize, columns: &[Column]) -> R<()>
        ensures { OnOk result (Appended (columns_text key_len columns.now) self.old self.new) }
    {
        match columns.split_first() {
            None => Ok(()),
            Some((first, rest)) => {
                self.push_column(key_len, 0, first)?;
                self.push_later_columns(key_len, rest)
            }
        }
    }

    /// Appends the line of a table: its name and its columns.
    #[tactic(auto, unfolding(crate::specs::Texts::table_line))]
    pub fn push_table(&mut self, schema: &Schema) -> R<()>
        ensures { OnOk result (Appended (table_line schema.now) self.old self.new) }
    {
        self.push_bytes(b"TABLE ")?;
        self.push_bytes(schema.name.as_slice())?;
        self.push_bytes(b" (")?;
        self.push_columns(schema.key_len as usize, schema.columns.as_slice())?;
        self.push_bytes(b")\n")
    }

    /// A text with each of its quotes twice.
    fn push_quoted(&mut self, text: &[u8]) -> R<()>
        ensures { OnOk result (Appended (quoted text.now) self.old self.new) }
    {
        for byte in text {
            if *byte == b'\'' {
                self.push_byte(*byte)?;
            }
            self.push_byte(*byte)?;
        }
        Ok(())
    }

    #[tactic(auto, unfolding(crate::specs::Texts::value_text))]
    pub(crate) fn push_value(&mut self, value: &Value) -> R<()>
        ensures { OnOk result (Appended (value_text value.now) self.old self.new) }
    {
        match value {
            Value::Null => self.push_bytes(b"NULL"),
            Value::Int(number) => self.push_signed(*number),
            Value::Text(text) => {
                self.push_bytes(b"'")?;
                self.push_quoted(text.as_slice())?;
                self.push_bytes(b"'")
            }
        }
    }

    /// The values but the first, each after a comma.
    fn push_later_values(&mut self, values: &[Value]) -> R<()>
        ensures { OnOk result (Appended (values_on values.now) self.old self.new) }
    {
        for value in values {
            self.push_bytes(b", ")?;
            self.push_value(value)?;
        }
        Ok(())
    }

    fn push_values(&mut self, values: &[Value]) -> R<()>
        ensures { OnOk result (Appended (values_text values.now) self.old self.new) }
    {
        match values.split_first() {
            None => Ok(()),
            Some((first, rest)) => {
                self.push_value(first)?;
                self.push_later_values(rest)
            }
        }
    }

    /// Appends a row or a key: its values in parentheses, separated by commas.
    #[tactic(auto, unfolding(crate::specs::Texts::tuple_text))]
    pub fn push_tuple(&mut self, values: &[Value]) -> R<()>
        ensures { OnOk result (Appended (tuple_text values.now) self.old self.new) }
    {
        self.push_bytes(b"(")?;
        self.push_values(values)?;
        self.push_bytes(b")")
    }

    #[tactic(auto, unfolding(crate::specs::Texts::edge_text))]
    fn push_edge(&mut self, edge: &Edge) -> R<()>
        ensures { OnOk result (Appended (edge_text edge.now) self.old self.new) }
    {
        match edge {
            Edge::Low => self.push_bytes(b"LOW"),
            Edge::Before(key) => {
                self.push_bytes(b"BEFORE ")?;
                self.push_tuple(key.as_slice())
            }
            Edge::After(key) => {
                self.push_bytes(b"AFTER ")?;
                self.push_tuple(key.as_slice())
            }
            Edge::High => self.push_bytes(b"HIGH"),
        }
    }

    /// Appends a span: its two edges.
    #[tactic(auto, unfolding(crate::specs::Texts::span_text))]
    pub fn push_span(&mut self, span: &Span) -> R<()>
        ensures { OnOk result (Appended (span_text span.now) self.old self.new) }
    {
        self.push_bytes(b"FROM ")?;
        self.push_edge(&span.lo)?;
        self.push_bytes(b" TO ")?;
        self.push_edge(&span.hi)
    }

    #[tactic(auto, unfolding(crate::specs::Texts::digest_kind_text))]
    pub(crate) fn push_digest_kind(&mut self, kind: DigestKind) -> R<()>
        ensures { OnOk result (Appended (digest_kind_text kind) self.old self.new) }
    {
        match kind {
            DigestKind::Md5 => self.push_bytes(b"MD5"),
            DigestKind::Sha1 => self.push_bytes(b"SHA1"),
        }
    }
}
