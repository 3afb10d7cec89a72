ghost use Rattle.std.specs.Prelude.{◌≡◌, ◌<◌, ◌^◌, [], ◌∷◌, ◌++◌, None, length, slice_get, OnOk, IfOk};
ghost use Rattle.statement_grammar.specs.Kinds.{column_named as column_named_in};
ghost use Rattle.statement_grammar.specs.Draft.{edge_at, form_of as the_form, kept as kept_for, kind_of_word as the_kind, mode_of_word as the_mode, table_from, with_edge as the_edge, with_edge_word as the_word, with_list as the_list, with_table as the_table, with_value as the_value};
ghost use Rattle.statement_drafts.specs.Tables.{is_none};
ghost use Rattle.statement_reader.specs.Spots.{end_of, literals_of};
ghost use Rattle.statement_drafts.specs.Drafts.{draft_of, form_of};

use crate::drafts::{Draft, Form};
use crate::tables::{columns_of, schema_of, table_named};
use ptc_statement::kept;
use row_types::{Column, DigestKind, Edge, Key, LockMode, R, Row, Schema, Schemas, Value};
use statement_reader::{End, Literals, column_named};
use statement_tokens::{Keyword, Word};
use std::alloc::Global;

/// A statement's form, by its first word.
pub fn form_by(word: &Word) -> Form
    ensures { form_of result ≡ the_form word.now }
{
    match word {
        Word::Keyword(keyword) => match keyword {
            Keyword::Insert => Form::Insert,
            Keyword::Replace => Form::Replace,
            Keyword::Delete => Form::Delete,
            Keyword::Update => Form::Update,
            Keyword::Select => Form::Read,
            Keyword::Checksum => Form::Check,
            Keyword::SetMaster => Form::Master,
            Keyword::ClearChecks => Form::Clear,
            _ => Form::Unknown,
        },
        _ => Form::Unknown,
    }
}

fn mode_by(word: &Word) -> LockMode
    ensures { result ≡ the_mode word.now }
{
    match word {
        Word::Keyword(keyword) => match keyword {
            Keyword::Share => LockMode::Shared,
            Keyword::Mode => LockMode::Shared,
            _ => LockMode::Exclusive,
        },
        _ => LockMode::Exclusive,
    }
}

fn kind_by(word: &Word) -> DigestKind
    ensures { result ≡ the_kind word.now }
{
    match word {
        Word::Keyword(keyword) => match keyword {
            Keyword::Sha1 => DigestKind::Sha1,
            _ => DigestKind::Md5,
        },
        _ => DigestKind::Md5,
    }
}

impl Draft {
    /// With the statement's first word.
    pub fn with_form(&mut self, _schemas: &Schemas, word: &Word)
        ensures { draft_of _schemas.now.tables self.new ≡ record (draft_of _schemas.now.tables self.old) { form = the_form word.now } }
    {
        self.form = form_by(word);
    }

    /// With the name of its table; whether there is no such table.
    #[tactic(auto, using(crate::proofs::TableLemmas::with_named, crate::proofs::TableLemmas::with_none, crate::proofs::TableLemmas::no_table, crate::proofs::TableLemmas::a_table))]
    pub fn with_table(&mut self, schemas: &Schemas, name: &[u8]) -> bool
        requires { length schemas.now.tables < 2 ^ 32 }
        ensures drafted { draft_of schemas.now.tables self.new ≡ the_table (draft_of schemas.now.tables self.old) (table_from 0 schemas.now.tables name.now) }
        ensures unknown { result ≡ is_none (table_from 0 schemas.now.tables name.now) }
    {
        match table_named(schemas, name) {
            None => true,
            Some(number) => {
                self.table = Some(number);
                false
            }
        }
    }

    /// With an open bracket: no literal is read.
    pub fn with_open(&mut self, alloc: Global, _schemas: &Schemas)
        ensures { draft_of _schemas.now.tables self.new ≡ record (draft_of _schemas.now.tables self.old) { values = []; minus = None } }
    {
        self.values = Row::new(alloc);
        self.minus = None;
    }

    fn push(&mut self, value: Value) -> R<()>
        ensures { OnOk result (self.new ≡ record self.old { values = self.old.values ++ value ∷ []; minus = None }) }
    {
        self.values.push(value)?;
        self.minus = None;
        Ok(())
    }

    fn push_for(&mut self, alloc: Global, columns: &[Column], value: Value) -> R<()>
        ensures { OnOk result (self.new ≡ record self.old { values = self.old.values ++ kept_for (slice_get columns.now (length self.old.values)) value ∷ []; minus = None }) }
    {
        match columns.get(self.values.len()) {
            None => {
                self.push(value)?;
                Ok(())
            }
            Some(column) => {
                let value = kept(alloc, column, value)?;
                self.push(value)?;
                Ok(())
            }
        }
    }

    /// With a further literal of a list, as its column keeps it.
    pub fn with_value(
        &mut self,
        alloc: Global,
        schemas: &Schemas,
        of: Literals,
        value: Value,
    ) -> R<()>
        ensures { OnOk result (draft_of schemas.now.tables self.new ≡ the_value (literals_of of) (draft_of schemas.now.tables self.old) value) }
    {
        match schema_of(self.table, schemas) {
            None => {
                self.push(value)?;
                Ok(())
            }
            Some(schema) => {
                self.push_for(alloc, columns_of(of, schema), value)?;
                Ok(())
            }
        }
    }

    fn with_edge(&mut self, _schemas: &Schemas, end: End, edge: Edge)
        ensures { draft_of _schemas.now.tables self.new ≡ the_edge (end_of end) (draft_of _schemas.now.tables self.old) edge }
    {
        match end {
            End::Lower => self.lo = edge,
            End::Upper => self.hi = edge,
        }
    }

    /// With the first word of an edge.
    pub fn with_edge_word(&mut self, schemas: &Schemas, end: End, word: &Word)
        ensures { draft_of schemas.now.tables self.new ≡ the_word (end_of end) (draft_of schemas.now.tables self.old) word.now }
    {
        match word {
            Word::Keyword(keyword) => match keyword {
                Keyword::Low => self.with_edge(schemas, end, Edge::Low),
                Keyword::High => self.with_edge(schemas, end, Edge::High),
                Keyword::Before => self.is_after = false,
                Keyword::After => self.is_after = true,
                _ => {}
            },
            _ => {}
        }
    }

    fn edge(&self, alloc: Global) -> R<Edge>
        ensures { IfOk result (λ edge. edge ≡ edge_at self.now.is_after self.now.values) }
    {
        let key = Key::from_values(alloc, self.values.as_slice())?;
        if self.is_after {
            return Ok(Edge::After(key));
        }
        Ok(Edge::Before(key))
    }

    /// With what stands behind a literal of a list.
    pub fn with_list(
        &mut self,
        alloc: Global,
        schemas: &Schemas,
        of: Literals,
        word: &Word,
    ) -> R<()>
        ensures { OnOk result (draft_of schemas.now.tables self.new ≡ the_list (literals_of of) (draft_of schemas.now.tables self.old) word.now) }
    {
        match of {
            Literals::OfRow => Ok(()),
            Literals::OfEdge(end) => match word {
                Word::Close => {
                    let edge = self.edge(alloc)?;
                    self.with_edge(schemas, end, edge);
                    Ok(())
                }
                _ => Ok(()),
            },
        }
    }

    /// With the column that is assigned.
    pub fn with_column(&mut self, schema: &Schema, name: &[u8])
        requires { length schema.now.columns < 2 ^ 32 }
        ensures { self.new ≡ record self.old { column = column_named_in schema.now name.now } }
    {
        self.column = column_named(schema, name);
    }

    /// With FOR's or LOCK's last word.
    pub fn with_mode(&mut self, word: &Word)
        ensures { self.new ≡ record self.old { mode = the_mode word.now } }
    {
        self.mode = mode_by(word);
    }

    /// With the kind of a checksum.
    pub fn with_kind(&mut self, word: &Word)
        ensures { self.new ≡ record self.old { kind = the_kind word.now } }
    {
        self.kind = kind_by(word);
    }
}
