//! The reader of the first form of the workload file.

ghost use Rattle.std.specs.Prelude.{◌≡◌, ◌+◌, ◌<◌, ◌≤◌, ◌⊎◌, ◌↔◌, IsTrue, List, ℕ, [], ◌∷◌, ◌++◌, true, false, length, MatchResult, IfOk, IfErr, Ok, Err};
ghost use Rattle.row_types.specs.declared.table_schema.Column.{Column as OneColumn};
ghost use Rattle.row_types.specs.declared.table_schema.ColumnKind.TheVariants.{BigInt};
ghost use Rattle.row_types.specs.declared.table_schema.Schemas.{Schemas as AllSchemas};
ghost use Rattle.workload_file.specs.declared.workload.Workload.{Workload as WholeWorkload};
ghost use Rattle.workload_file.specs.Workload.{IsWorkload};
ghost use Rattle.ptc_run.specs.Lines.{lines_of};
ghost use Rattle.ptc_run.specs.FirstForm.{head_lines, first_schema, IsWorkloadText, IsEarly};
ghost use Rattle.ptc_run.specs.KeptRows.{PartsRead, RowsRead, workload_in};
ghost use Rattle.ptc_run.specs.Faults.{IsFaultOf};

use crate::kept_rows::{Nodes, rows_from};
use crate::line_cuts::behind_line;
use crate::schedule_lines::read_schedule;
use crate::script_lines::read_sessions;
use ptc_statement::Scripts;
use row_types::{
    Bytes, Column, ColumnKind, Columns, Memory, R, Schema, SchemaList, Schemas, Tables,
};
use std::alloc::{AllocError, AllocFailed, Global};
use workload_file::{Copies, Schedule, Workload};

/// What a file has too much of.
#[derive(Clone, Copy, Debug, PartialEq, Eq)]
pub enum LimitKind {
    Bytes,
}

/// Why a file is not read: the first line that is not in the form, a number over its limit, or want
/// of memory.
#[derive(Clone, Copy, Debug, PartialEq, Eq)]
pub enum FileFault {
    Early { number: u32 },
    Limit { which: LimitKind, got: u64 },
    Memory,
}

impl LimitKind {
    pub fn copy(&self, _alloc: Global) -> R<LimitKind>
        ensures { IfOk result (λ copy. copy ≡ self.now) }
    {
        Ok(*self)
    }

    pub fn same(&self, other: &LimitKind) -> bool
        ensures { IsTrue result ↔ (self.now ≡ other.now) }
    {
        *self == *other
    }
}

impl FileFault {
    pub fn copy(&self, _alloc: Global) -> R<FileFault>
        ensures { IfOk result (λ copy. copy ≡ self.now) }
    {
        Ok(*self)
    }

    pub fn same(&self, other: &FileFault) -> bool
        ensures { IsTrue result ↔ (self.now ≡ other.now) }
    {
        *self == *other
    }
}

impl From<Memory> for FileFault {
    ghost use Rattle.ptc_run.specs.declared.first_form.FileFault.TheVariants.{Memory as OutOfMemory};

    ghost from_gives = { λ _ e. e ≡ OutOfMemory };

    fn from(_error: Memory) -> FileFault {
        FileFault::Memory
    }
}

impl From<AllocError> for FileFault {
    ghost use Rattle.ptc_run.specs.declared.first_form.FileFault.TheVariants.{Memory as OutOfMemory};

    ghost from_gives = { λ _ e. e ≡ OutOfMemory };

    fn from(_error: AllocError) -> FileFault {
        FileFault::Memory
    }
}

impl<T: Drop> From<AllocFailed<T>> for FileFault {
    ghost use Rattle.ptc_run.specs.declared.first_form.FileFault.TheVariants.{Memory as OutOfMemory};

    ghost from_gives = { λ _ e. e ≡ OutOfMemory };

    fn from(_error: AllocFailed<T>) -> FileFault {
        FileFault::Memory
    }
}

/// The most bytes that a file may have.
const MOST_BYTES: usize = 16_777_216;

/// What stands behind the three fixed lines, or the number of the first of them that is not there.
fn behind_head(bytes: &[u8]) -> Result<&[u8], u32>
    ensures { MatchResult result
        (λ rest. (lines_of bytes.now ≡ head_lines ++ lines_of rest.now)
        × (length rest.now ≤ length bytes.now))
        (λ number. IsEarly bytes.now number) }
{
    let Some(rest) = behind_line(bytes, b"PTC WORKLOAD 1\n") else {
        return Err(1);
    };
    let Some(rest) = behind_line(rest, b"REPLICAS 1\n") else {
        return Err(2);
    };
    match behind_line(rest, b"TABLE t (id BIGINT KEY, v BIGINT)\n") {
        None => Err(3),
        Some(rest) => Ok(rest),
    }
}

/// The rows of the ROW lines from here, what stands behind these, and how many they are.
fn read_rows(alloc: Global, bytes: &[u8]) -> R<(Nodes, &[u8], u32)>
    requires { length bytes.now ≤ 16777216 }
    ensures rows { IfOk result (λ read. RowsRead bytes.now read.0 read.1.now read.2) }
    ensures few { IfOk result (λ read. read.2 ≤ 16777216) }
    ensures shorter { IfOk result (λ read. length read.1.now ≤ length bytes.now) }
{
    let mut nodes = Nodes::new(alloc);
    let mut rest = bytes;
    let mut count = 0u32;
    while let Some(after) = nodes.take_line(rest)? {
        rest = after;
        count += 1;
    }
    Ok((nodes, rest, count))
}

/// What a file gives: the rows of the nodes, the scripts of the sessions, and the schedule.
#[derive(Drop)]
struct Parts {
    nodes: Nodes,
    sessions: Scripts,
    schedule: Schedule,
}

/// The parts of a whole file.
fn read_parts(alloc: Global, bytes: &[u8]) -> Result<Parts, FileFault>
    requires { length bytes.now ≤ 16777216 }
    ensures { MatchResult result (PartsRead bytes.now) (IsFaultOf bytes.now) }
{
    let rest = match behind_head(bytes) {
        Ok(rest) => rest,
        Err(number) => return Err(FileFault::Early { number }),
    };
    let (nodes, rest, rows) = read_rows(alloc, rest)?;
    let (sessions, rest, lines) = read_sessions(alloc, rest, rows)?;
    let some_session = !sessions.is_empty();
    let (schedule, rest, count) = read_schedule(alloc, rest, some_session, lines)?;
    match behind_line(rest, b"END\n") {
        None => Err(FileFault::Early { number: count + 4 }),
        Some(rest) => {
            if rest.is_empty() {
                Ok(Parts {
                    nodes,
                    sessions,
                    schedule,
                })
            } else {
                Err(FileFault::Early { number: count + 5 })
            }
        }
    }
}

fn named(alloc: Global, name: &[u8]) -> R<Bytes>
    ensures { IfOk result (λ text. text ≡ name.now) }
{
    Ok(Bytes {
        items: Vec::from_slice(alloc, name)?,
    })
}

fn column(alloc: Global, name: &[u8], nullable: bool) -> R<Column>
    ensures { IfOk result (λ column.
        column ≡ record { name = name.now; kind = BigInt; nullable = nullable }) }
{
    Ok(Column {
        name: named(alloc, name)?,
        kind: ColumnKind::BigInt,
        nullable,
    })
}

/// The one table's schema.
#[tactic(auto, unfolding(crate::specs::FirstForm::first_schema))]
fn schema(alloc: Global) -> R<Schemas>
    ensures { IfOk result (λ schemas. schemas ≡ record { tables = first_schema ∷ [] }) }
{
    let mut columns = Columns::new(alloc);
    columns.push(column(alloc, b"id", false)?)?;
    columns.push(column(alloc, b"v", true)?)?;
    let mut tables = SchemaList::new(alloc);
    tables.push(Schema {
        name: named(alloc, b"t")?,
        columns,
        key_len: 1,
    })?;
    Ok(Schemas { tables })
}

fn workload(alloc: Global, parts: Parts) -> R<Workload>
    ensures { IfOk result (λ w. w ≡ workload_in parts.nodes parts.sessions parts.schedule) }
{
    let Parts {
        nodes,
        sessions,
        schedule,
    } = parts;
    let mut source = Tables::new(alloc);
    source.push(rows_from(alloc, &nodes.source)?)?;
    let mut replica = Tables::new(alloc);
    replica.push(rows_from(alloc, &nodes.replica)?)?;
    let mut copies = Copies::new(alloc);
    copies.push(replica)?;
    Ok(Workload {
        schemas: schema(alloc)?,
        replicas: 1,
        source,
        copies,
        sessions,
        schedule,
    })
}

/// The workload of a file.
pub fn read(alloc: Global, bytes: &[u8]) -> Result<Workload, FileFault>
    // What is read is the workload of the text, and keeps the rules.
    ensures found { IfOk result (λ w. IsWorkloadText bytes.now w) }
    ensures fits { IfOk result IsWorkload }
    // A text of the form within the limit is read, unless memory runs out.
    ensures only { (w : WholeWorkload) → IsWorkloadText bytes.now w → length bytes.now ≤ 16777216 →
        (result ≡ Ok w) ⊎ (result ≡ Err FileFault.Memory) }
    // An early line is the first that is not in the form, and only too many bytes pass the limit.
    ensures early { IfErr result (IsFaultOf bytes.now) }
    // Too many bytes are told before anything else.
    ensures limit { 16777216 < length bytes.now →
        result ≡ Err (FileFault.Limit LimitKind.Bytes 16777217) }
{
    if bytes.len() > MOST_BYTES {
        return Err(FileFault::Limit {
            which: LimitKind::Bytes,
            got: 16_777_217,
        });
    }
    match read_parts(alloc, bytes) {
        Err(fault) => Err(fault),
        Ok(parts) => {
            let workload = workload(alloc, parts)?;
            Ok(workload)
        }
    }
}

/// A text has at most one workload, which keeps the rules, or at most one early line.
pub fn one_reading()
    ensures one_workload { (bytes : List ℕ) (v w : WholeWorkload) →
        IsWorkloadText bytes v → IsWorkloadText bytes w → v ≡ w }
    ensures one_line { (bytes : List ℕ) (m n : ℕ) → IsEarly bytes m → IsEarly bytes n → m ≡ n }
    ensures never_both { (bytes : List ℕ) (number : ℕ) (w : WholeWorkload) →
        IsEarly bytes number → IsWorkloadText bytes w → ⊥ }
    ensures keeps_rules { (bytes : List ℕ) (w : WholeWorkload) → IsWorkloadText bytes w → IsWorkload w }
{}
