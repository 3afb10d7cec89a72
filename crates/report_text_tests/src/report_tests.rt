use crate::summaries::{empty_summary, has_lines, some_span};
use checksum_table::Verdict;
use ptc_statement::{Statement, Statements};
use report_text::{DuplicateLine, EqualLine, Summary, VerdictLine, VerdictLines};
use row_types::R;
use statement_log::{Entries, Entry, Origin};
use std::alloc::Global;
use std::test::Fail;
use test_builders::{row_of_text, tables};
use workload_file::Actor;

/// What a summary has beside its one table.
#[derive(Clone, Copy)]
enum Part {
    Nothing,
    Status,
    Rows,
    Log,
    Histories,
    Verdicts,
    Duplicates,
}

/// Whether the report of a summary with this part has these lines after its first two.
fn has_part(alloc: Global, part: Part, lines: &[u8]) -> R<bool> {
    let mut summary = empty_summary(alloc)?;
    add_part(alloc, part, &mut summary)?;
    has_lines(alloc, &summary, lines)
}

fn add_part(alloc: Global, part: Part, summary: &mut Summary) -> R<()> {
    match part {
        Part::Nothing => Ok(()),
        Part::Status => {
            summary.status = 16;
            Ok(())
        }
        Part::Rows => add_rows(alloc, summary),
        Part::Log => add_log(alloc, &mut summary.log),
        Part::Histories => add_histories(alloc, summary),
        Part::Verdicts => add_verdicts(alloc, &mut summary.verdicts),
        Part::Duplicates => add_duplicates(summary),
    }
}

#[test]
fn the_status_is_the_last_line(rt: HostRuntime) -> Result<(), Fail> {
    let alloc = rt.alloc();
    assert!(rt; has_part(alloc, Part::Nothing, b"STATUS 0\n")?);
    assert!(rt; has_part(alloc, Part::Status, b"STATUS 16\n")?);
    Ok(())
}

fn add_rows(alloc: Global, summary: &mut Summary) -> R<()> {
    summary.start.push(tables(alloc, &[(1, 10), (2, -20)])?)?;
    summary.start.push(tables(alloc, &[])?)?;
    summary.finals.push(tables(alloc, &[(3, 30)])?)?;
    summary.finals.push(tables(alloc, &[(3, 31)])?)?;
    summary.equal.push(EqualLine {
        replica: 1,
        table: 0,
        equal: false,
    })?;
    summary.equal.push(EqualLine {
        replica: 2,
        table: 0,
        equal: true,
    })?;
    Ok(())
}

/// Node 0 is the source, and a table that isn't there has no name.
#[test]
fn rows_and_equal_tables_are_written(rt: HostRuntime) -> Result<(), Fail> {
    let alloc = rt.alloc();
    let lines =
        b"START source t (1, 10)\nSTART source t (2, -20)\nFINAL source t (3, 30)\nFINAL r1 t (3, 31)\nUNEQUAL r1 t\nEQUAL r2 t\nSTATUS 0\n";
    assert!(rt; has_part(alloc, Part::Rows, lines)?);
    Ok(())
}

fn cleared(alloc: Global) -> R<Statements> {
    let mut statements = Statements::new(alloc);
    statements.push(Statement::ClearChecks { table: 0 })?;
    Ok(statements)
}

/// CLEARCHECKS and an INSERT.
fn two_statements(alloc: Global) -> R<Statements> {
    let mut statements = cleared(alloc)?;
    statements.push(Statement::Insert {
        table: 0,
        row: row_of_text(alloc, 1, b"it's")?,
    })?;
    Ok(statements)
}

/// A repair tool on a span.
fn repair(alloc: Global) -> R<Origin> {
    Ok(Origin::Sync {
        replica: 2,
        table: 0,
        span: some_span(alloc)?,
    })
}

fn add_entry(log: &mut Entries, origin: Origin, statements: Statements) -> R<()> {
    log.push(Entry { origin, statements })
}

/// A session's entry of two statements, one of the checksum tool, and one of a repair tool without
/// statements.
fn add_log(alloc: Global, log: &mut Entries) -> R<()> {
    add_entry(log, Origin::Session(64), two_statements(alloc)?)?;
    add_entry(log, Origin::Checksum, cleared(alloc)?)?;
    add_entry(log, repair(alloc)?, Statements::new(alloc))
}

#[test]
fn logs_are_written(rt: HostRuntime) -> Result<(), Fail> {
    let lines =
        b"LOG 1 s64\n  CLEARCHECKS t\n  INSERT INTO t VALUES (1, 'it''s')\nLOG 2 c\n  CLEARCHECKS t\nLOG 3 y2 t FROM LOW TO AFTER (1, 'a''b')\nSTATUS 0\n";
    assert!(rt; has_part(rt.alloc(), Part::Log, lines)?);
    Ok(())
}

/// An entry that was applied, and one of a local session.
fn history(alloc: Global) -> R<Entries> {
    let mut history = Entries::new(alloc);
    add_entry(&mut history, Origin::Applied(9), cleared(alloc)?)?;
    add_entry(&mut history, Origin::Local(4), cleared(alloc)?)?;
    Ok(history)
}

/// The first replica has none.
fn add_histories(alloc: Global, summary: &mut Summary) -> R<()> {
    summary.histories.push(Entries::new(alloc))?;
    summary.histories.push(history(alloc)?)
}

/// The statements of an entry that was applied stand in the log alone.
#[test]
fn histories_are_written(rt: HostRuntime) -> Result<(), Fail> {
    let lines = b"HISTORY r2 applied 9\nHISTORY r2 local r2.l4\n  CLEARCHECKS t\nSTATUS 0\n";
    assert!(rt; has_part(rt.alloc(), Part::Histories, lines)?);
    Ok(())
}

fn verdict_line(
    alloc: Global,
    chunk: u32,
    master: Option<u64>,
    own: Option<u64>,
    verdict: Verdict,
) -> R<VerdictLine> {
    Ok(VerdictLine {
        replica: 3,
        table: 0,
        chunk,
        span: some_span(alloc)?,
        position: 7,
        master,
        own,
        verdict,
    })
}

/// Equal to the source's, other than it, without its checksum, and without a row.
fn add_verdicts(alloc: Global, lines: &mut VerdictLines) -> R<()> {
    lines.push(verdict_line(alloc, 1, Some(5), Some(5), Verdict::Same)?)?;
    lines.push(verdict_line(alloc, 2, Some(5), Some(4), Verdict::Differ)?)?;
    lines.push(verdict_line(alloc, 3, None, Some(4), Verdict::Pending)?)?;
    lines.push(verdict_line(alloc, 4, None, None, Verdict::Pending)?)
}

#[test]
fn verdicts_are_written(rt: HostRuntime) -> Result<(), Fail> {
    let lines =
        b"VERDICT r3 t 1 FROM LOW TO AFTER (1, 'a''b') AT 7 COUNT 5 5 SAME\nVERDICT r3 t 2 FROM LOW TO AFTER (1, 'a''b') AT 7 COUNT 5 4 DIFFER\nVERDICT r3 t 3 FROM LOW TO AFTER (1, 'a''b') AT 7 COUNT - 4 PENDING\nVERDICT r3 t 4 FROM LOW TO AFTER (1, 'a''b') AT 7 COUNT - - PENDING\nSTATUS 0\n";
    assert!(rt; has_part(rt.alloc(), Part::Verdicts, lines)?);
    Ok(())
}

const ACTORS: [Actor; 4] = [
    Actor::Session(1),
    Actor::Tool,
    Actor::Worker {
        replica: 2,
        worker: 1,
    },
    Actor::Worker {
        replica: 2,
        worker: 8,
    },
];

fn add_duplicates(summary: &mut Summary) -> R<()> {
    for actor in ACTORS {
        summary.duplicates.push(DuplicateLine { actor, line: 6 })?;
    }
    Ok(())
}

/// The first worker of a replica has the replica's name.
#[test]
fn duplicates_are_written(rt: HostRuntime) -> Result<(), Fail> {
    let lines =
        b"DUPLICATE s1 line 6\nDUPLICATE c line 6\nDUPLICATE r2 line 6\nDUPLICATE r2.8 line 6\nSTATUS 0\n";
    assert!(rt; has_part(rt.alloc(), Part::Duplicates, lines)?);
    Ok(())
}
