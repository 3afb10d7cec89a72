ghost use Rattle.std.specs.Prelude.{◌≡◌, List};
ghost use Rattle.row_types.specs.declared.table_schema.Schema.{Schema as TableSchema};
ghost use Rattle.statement_tokens.specs.declared.words.Token.{Token as OneToken};
ghost use Rattle.statement_tokens.specs.declared.text_ends.TextEnd.TheVariants.{Whole as WholeText};
ghost use Rattle.statement_grammar.specs.Sentence.{Keys};
ghost use Rattle.statement_grammar.specs.FirstFault.{end_place};
ghost use Rattle.statement_draft_tokens.specs.Tokens.{AreShort};
ghost use Rattle.statement_reading_laws.specs.Reading.{IsAtEnd};
ghost use Rattle.statement_reading.specs.Readers.{IsNothing, reading_of};
ghost use Rattle.statement_progress.specs.Progress.{IsProgress, IsWithin};
ghost use Rattle.statement_reads.specs.Reads.{IsFinished, IsSaid};

use ptc_statement::Statement;
use row_types::{Schema, Schemas};
use statement_ends::statement_of;
use statement_grammar::TextFault;
use statement_progress::{Inner, Progress};
use statement_reading::{Reader, end_tree, schema_or};
use statement_tokens::TextEnd;
use std::alloc::Global;

fn place_of(end: TextEnd) -> u32
    ensures { result ≡ end_place end }
{
    match end {
        TextEnd::Whole { past } => past,
        TextEnd::NoToken { place } => place,
    }
}

fn say(reader: Reader, alloc: Global) -> Result<Statement, TextFault>
    ensures { (schemas : List TableSchema) → IsSaid schemas reader result }
{
    match statement_of(alloc, reader.draft, reader.sets, reader.cond) {
        Ok(statement) => Ok(statement),
        Err(_) => Err(TextFault::Memory),
    }
}

fn finish_whole(reader: Reader, alloc: Global, past: u32) -> Result<Statement, TextFault>
    ensures { (schemas : List TableSchema) (key : Keys) (front : List OneToken) → IsAtEnd schemas key front (reading_of schemas reader) → IsFinished schemas key front (WholeText past) result }
{
    if !reader.spot.may_end() {
        return Err(reader.stopped(past));
    }
    match reader.first {
        Some(fault) => Err(fault),
        None => say(reader, alloc),
    }
}

fn finish(reader: Reader, alloc: Global, end: TextEnd) -> Result<Statement, TextFault>
    ensures { (schemas : List TableSchema) (key : Keys) (front : List OneToken) → IsAtEnd schemas key front (reading_of schemas reader) → IsFinished schemas key front end result }
{
    match end {
        TextEnd::NoToken { place } => Err(reader.stopped(place)),
        TextEnd::Whole { past } => finish_whole(reader, alloc, past),
    }
}

fn finish_tree(
    inner: Inner,
    alloc: Global,
    schemas: &Schemas,
    nothing: &Schema,
    end: TextEnd,
) -> Result<Statement, TextFault>
    requires nothing { IsNothing nothing.now }
    requires columns { AreShort schemas.now.tables }
    ensures { (key : Keys) (front : List OneToken) → IsWithin schemas.now.tables nothing.now key front inner → IsFinished schemas.now.tables key front end result }
{
    let Inner {
        reader,
        base,
        next,
        tree,
    } = inner;
    let schema = schema_or(reader.draft.table, schemas, nothing);
    match end_tree(
        reader,
        alloc,
        schemas,
        schema,
        base,
        next,
        tree,
        place_of(end),
    ) {
        Err(fault) => Err(fault),
        Ok(behind) => finish(behind, alloc, end),
    }
}

/// The statement that is read, or its first fault, where the text ends so.
pub(crate) fn end_of(
    progress: Progress,
    alloc: Global,
    schemas: &Schemas,
    nothing: &Schema,
    end: TextEnd,
) -> Result<Statement, TextFault>
    requires nothing { IsNothing nothing.now }
    requires columns { AreShort schemas.now.tables }
    ensures { (key : Keys) (front : List OneToken) → IsProgress schemas.now.tables nothing.now key front progress → IsFinished schemas.now.tables key front end result }
{
    match progress {
        Progress::In(inner) => finish_tree(inner, alloc, schemas, nothing, end),
        Progress::At(reader) => finish(reader, alloc, end),
    }
}
