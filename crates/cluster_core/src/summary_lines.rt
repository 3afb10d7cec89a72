//! The lines of a summary that are worked out from the nodes: verdicts, equal tables, duplicates.
ghost use Rattle.std.specs.Prelude.{◌≡◌, ◌<◌, ◌++◌, ◌^◌, length, IfOk, OnOk};
ghost use Rattle.std.specs.Option.{option_copied};
ghost use Rattle.cluster_core.specs.LiveTables.{rows_of_each};
ghost use Rattle.cluster_core.specs.Summary.{verdict_line, all_chunks, replica_verdicts, verdicts_from, status_from, equals_on, equals_from, duplicates_by, duplicates_from};
ghost use Rattle.cluster_core.specs.Summary.{rows_equal as rows_equal_in};
ghost use Rattle.cluster_core.specs.SummaryParts.{lines_of};

use crate::live_tables::LiveTables;
use crate::nodes::Node;
use crate::refusals::Refusal;
use crate::sessions::Session;
use checksum_table::{CheckEntry, CheckRow, Checks, Verdict};
use ordered_table::Table;
use report_text::{
    DuplicateLine, DuplicateLines, EqualLine, EqualLines, VerdictLine, VerdictLines,
};
use row_types::R;
use std::alloc::Global;
use workload_file::Actor;

/// The lines of a summary that say what the nodes have, and the status.
#[derive(Debug, Drop)]
pub(crate) struct SummaryLines {
    pub verdicts: VerdictLines,
    pub equal: EqualLines,
    pub duplicates: DuplicateLines,
    pub status: u8,
}

/// By the replica's row of the entry's chunk; where it has none, by the entry, with no counts.
fn line_of(
    alloc: Global,
    replica: u32,
    entry: &CheckEntry,
    own: Option<&CheckRow>,
) -> R<VerdictLine>
    ensures { IfOk result (λ line. line ≡ verdict_line replica entry.now (option_copied own.entry)) }
{
    match own {
        Some(row) => Ok(VerdictLine {
            replica,
            table: entry.table,
            chunk: entry.chunk,
            span: row.span.copy(alloc)?,
            position: row.position,
            master: row.master.map(|master| master.count),
            own: Some(row.this.count),
            verdict: Checks::verdict(Some(row)),
        }),
        None => Ok(VerdictLine {
            replica,
            table: entry.table,
            chunk: entry.chunk,
            span: entry.row.span.copy(alloc)?,
            position: entry.row.position,
            master: None,
            own: None,
            verdict: Verdict::Pending,
        }),
    }
}

/// An entry for each chunk that the replica or the source has a check row of.
fn all_chunks_of(alloc: Global, own: &Checks, source: &Checks) -> R<Checks>
    ensures { IfOk result (λ chunks. chunks ≡ all_chunks own.now source.now) }
{
    let mut chunks = own.copy(alloc)?;
    for entry in source.as_slice() {
        chunks.add_absent(entry.copy(alloc)?)?;
    }
    Ok(chunks)
}

/// Appends the verdicts on a replica.
fn add_verdicts(
    alloc: Global,
    lines: &mut VerdictLines,
    replica: u32,
    source: &Checks,
    own: &Checks,
) -> R<()>
    ensures { OnOk result (lines.new ≡ lines.old ++ replica_verdicts replica source.now own.now) }
{
    let chunks = all_chunks_of(alloc, own, source)?;
    for entry in chunks.as_slice() {
        let line = line_of(alloc, replica, entry, own.get(entry.table, entry.chunk))?;
        lines.push(line)?;
    }
    Ok(())
}

/// The verdicts on each replica.
#[tactic(auto, using(std::proofs::lemmas::Grind::common_steps, crate::proofs::SummaryLemmas::verdicts_more))]
fn verdicts(alloc: Global, source: &Checks, replicas: &[Node]) -> R<VerdictLines>
    requires { length replicas.now < 2 ^ 31 }
    ensures { IfOk result (λ lines. lines ≡ verdicts_from 1 source.now replicas.now) }
{
    let mut lines = VerdictLines::new(alloc);
    let (mut rest, mut replica) = (replicas, 1u32);
    while let Some((node, more)) = rest.split_first() {
        add_verdicts(alloc, &mut lines, replica, source, node.checks())?;
        rest = more;
        replica += 1;
    }
    Ok(lines)
}

/// 16 where one of the lines is DIFFER, else 0.
fn status(lines: &[VerdictLine]) -> u8
    ensures { result ≡ status_from lines.now }
{
    for line in lines {
        if line.verdict == Verdict::Differ {
            return 16;
        }
    }
    0
}

/// Whether both tables have the same rows.
fn rows_equal(ours: &Table, theirs: &Table) -> bool
    ensures { result ≡ rows_equal_in ours.now.rows theirs.now.rows }
{
    ours.same_rows(theirs)
}

/// Appends, table by table, whether a replica's rows are the source's.
fn add_equals(lines: &mut EqualLines, replica: u32, source: &[Table], own: &[Table]) -> R<()>
    requires { length source.now < 2 ^ 31 }
    ensures { OnOk result (lines.new ≡ lines.old ++ equals_on replica 0 (rows_of_each source.now) (rows_of_each own.now)) }
{
    for (table, rows) in source.iter().enumerate() {
        let Some(others) = own.get(table) else {
            return Ok(());
        };
        let equal = rows_equal(rows, others);
        lines.push(EqualLine {
            replica,
            table: table as u32,
            equal,
        })?;
    }
    Ok(())
}

/// Which tables of each replica have the source's rows.
fn equals(alloc: Global, source: &LiveTables, replicas: &[Node]) -> R<EqualLines>
    requires tables { length source.now.schemas < 2 ^ 31 }
    requires replicas { length replicas.now < 2 ^ 31 }
    ensures { IfOk result (λ lines. lines ≡ equals_from 1 source.now.tables replicas.now) }
{
    let mut lines = EqualLines::new(alloc);
    let (mut rest, mut replica) = (replicas, 1u32);
    while let Some((node, more)) = rest.split_first() {
        add_equals(
            &mut lines,
            replica,
            source.as_slice(),
            node.live().as_slice(),
        )?;
        rest = more;
        replica += 1;
    }
    Ok(lines)
}

/// Appends the lines of a session that were refused.
fn add_duplicates(lines: &mut DuplicateLines, session: u32, refused: &[Refusal]) -> R<()>
    ensures { OnOk result (lines.new ≡ lines.old ++ duplicates_by session refused.now) }
{
    for refusal in refused {
        lines.push(DuplicateLine {
            actor: Actor::Session(session),
            line: refusal.line,
        })?;
    }
    Ok(())
}

/// The lines of each session that were refused.
fn duplicates(alloc: Global, sessions: &[Session]) -> R<DuplicateLines>
    requires { length sessions.now < 2 ^ 31 }
    ensures { IfOk result (λ lines. lines ≡ duplicates_from 1 sessions.now) }
{
    let mut lines = DuplicateLines::new(alloc);
    let (mut rest, mut session) = (sessions, 1u32);
    while let Some((one, more)) = rest.split_first() {
        add_duplicates(&mut lines, session, one.refused())?;
        rest = more;
        session += 1;
    }
    Ok(lines)
}

/// The lines of a world of these nodes and sessions.
pub(crate) fn summary_lines(
    alloc: Global,
    source: &Node,
    replicas: &[Node],
    sessions: &[Session],
) -> R<SummaryLines>
    requires tables { length source.now.schemas < 2 ^ 31 }
    requires replicas { length replicas.now < 2 ^ 31 }
    requires sessions { length sessions.now < 2 ^ 31 }
    ensures { IfOk result (λ lines. lines ≡ lines_of source.now replicas.now sessions.now) }
{
    let verdicts = verdicts(alloc, source.checks(), replicas)?;
    let status = status(verdicts.as_slice());
    let equal = equals(alloc, source.live(), replicas)?;
    let duplicates = duplicates(alloc, sessions)?;
    Ok(SummaryLines {
        verdicts,
        equal,
        duplicates,
        status,
    })
}
