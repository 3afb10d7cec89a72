ghost use Rattle.std.specs.Prelude.{◌≡◌, List, [], None, false};
ghost use Rattle.row_types.specs.declared.table_schema.Schema.{Schema as TableSchema};
ghost use Rattle.statement_reading.specs.Readers.{IsNothing, reading_of};
ghost use Rattle.statement_reads.specs.Reads.{nothing_read};

use ptc_statement::Assignments;
use row_types::{Bytes, Columns, DigestKind, Edge, LockMode, Row, Schema};
use statement_drafts::{Draft, Form};
use statement_reader::Spot;
use statement_reading::Reader;
use std::alloc::Global;

fn no_draft(alloc: Global) -> Draft
    ensures { result ≡ record { form = Form.Unknown; table = None; values = []; minus = None; column = None; mode = LockMode.Exclusive; chunk = 0; is_after = false; lo = Edge.Low; hi = Edge.High; kind = DigestKind.Md5; count = 0; crc = [] } }
{
    Draft {
        form: Form::Unknown,
        table: None,
        values: Row::new(alloc),
        minus: None,
        column: None,
        mode: LockMode::Exclusive,
        chunk: 0,
        is_after: false,
        lo: Edge::Low,
        hi: Edge::High,
        kind: DigestKind::Md5,
        count: 0,
        crc: Bytes::new(alloc),
    }
}

/// Nothing is read.
pub(crate) fn start(alloc: Global) -> Reader
    ensures { (schemas : List TableSchema) → reading_of schemas result ≡ nothing_read }
{
    Reader {
        spot: Spot::StatementDue,
        draft: no_draft(alloc),
        sets: Assignments::new(alloc),
        cond: None,
        first: None,
    }
}

/// The schema for a table that is not there.
pub(crate) fn no_schema(alloc: Global) -> Schema
    ensures { IsNothing result }
{
    Schema {
        name: Bytes::new(alloc),
        columns: Columns::new(alloc),
        key_len: 0,
    }
}
