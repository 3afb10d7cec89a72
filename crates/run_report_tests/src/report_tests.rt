use checksum_table::Verdict;
use ptc_statement::{Statement, Statements};
use report_text::{EqualLine, EqualLines, Histories, NodeTables, VerdictLine, VerdictLines};
use row_types::{Edge, R, Schemas, Span};
use run_report::{RunSummary, report};
use statement_log::{Entries, Entry, Origin};
use std::alloc::Global;
use std::test::Fail;
use test_builders::{pair_schema, schemas, tables};
use trace_text::{
    AbandonedLine, AbandonedLines, DuplicateLine, DuplicateLines, Journal, JournalLine, Note,
    UnfinishedLine, UnfinishedLines, Why,
};
use workload::{Actor, Item};

fn journal(alloc: Global) -> R<Journal> {
    let mut items = Vec::new(alloc);
    items.push(JournalLine {
        item: Item::Turn(Actor::Tool),
        note: Note::Clear { position: 1 },
    })?;
    Ok(Journal { items })
}

fn nodes(alloc: Global, rows: &[(i64, i64)]) -> R<NodeTables> {
    let mut nodes = NodeTables::new(alloc);
    nodes.push(tables(alloc, rows)?)?;
    nodes.push(tables(alloc, &[])?)?;
    Ok(nodes)
}

fn entries(alloc: Global, origin: Origin) -> R<Entries> {
    let mut statements = Statements::new(alloc);
    statements.push(Statement::ClearChecks { table: 0 })?;
    let mut entries = Entries::new(alloc);
    entries.push(Entry { origin, statements })?;
    Ok(entries)
}

fn histories(alloc: Global) -> R<Histories> {
    let mut histories = Histories::new(alloc);
    histories.push(entries(alloc, Origin::Applied(1))?)?;
    Ok(histories)
}

fn verdicts(alloc: Global) -> R<VerdictLines> {
    let mut verdicts = VerdictLines::new(alloc);
    verdicts.push(VerdictLine {
        replica: 1,
        table: 0,
        chunk: 1,
        span: Span {
            lo: Edge::Low,
            hi: Edge::High,
        },
        position: 2,
        master: Some(1),
        own: None,
        verdict: Verdict::Pending,
    })?;
    Ok(verdicts)
}

fn equal(alloc: Global) -> R<EqualLines> {
    let mut equal = EqualLines::new(alloc);
    equal.push(EqualLine {
        replica: 1,
        table: 0,
        equal: false,
    })?;
    Ok(equal)
}

const LOCAL: Actor = Actor::Local {
    replica: 1,
    session: 1,
};

fn duplicates(alloc: Global) -> R<DuplicateLines> {
    let mut items = Vec::new(alloc);
    items.push(DuplicateLine {
        actor: LOCAL,
        line: 9,
    })?;
    Ok(DuplicateLines { items })
}

fn abandoned(alloc: Global) -> R<AbandonedLines> {
    let mut items = Vec::new(alloc);
    items.push(AbandonedLine {
        actor: Actor::Session(2),
        number: 3,
    })?;
    Ok(AbandonedLines { items })
}

fn unfinished(alloc: Global) -> R<UnfinishedLines> {
    let mut items = Vec::new(alloc);
    items.push(UnfinishedLine {
        actor: Actor::Tool,
        why: Why::Retries { rollbacks: 11 },
    })?;
    Ok(UnfinishedLines { items })
}

fn summary(alloc: Global) -> R<RunSummary> {
    Ok(RunSummary {
        schemas: Schemas {
            tables: schemas(alloc, pair_schema(alloc, b"t")?)?,
        },
        start: nodes(alloc, &[(1, 10)])?,
        journal: journal(alloc)?,
        log: entries(alloc, Origin::Checksum)?,
        histories: histories(alloc)?,
        verdicts: verdicts(alloc)?,
        finals: nodes(alloc, &[(1, 11)])?,
        equal: equal(alloc)?,
        duplicates: duplicates(alloc)?,
        abandoned: abandoned(alloc)?,
        unfinished: unfinished(alloc)?,
        status: 48,
    })
}

const WITHOUT: &[u8] =
    b"PTC REPORT 1\nTABLE t (id BIGINT KEY, v BIGINT)\nSTART source t (1, 10)\nLOG 1 c\n  CLEARCHECKS t\nHISTORY r1 applied 1\nVERDICT r1 t 1 FROM LOW TO HIGH AT 2 COUNT 1 - PENDING\nFINAL source t (1, 11)\nUNEQUAL r1 t\nDUPLICATE r1.l1 line 9\nABANDONED s2 3\nUNFINISHED c retries 11\nSTATUS 48\n";

const WITH: &[u8] =
    b"PTC REPORT 1\nTABLE t (id BIGINT KEY, v BIGINT)\nSTART source t (1, 10)\nT 1 c clear 1\nLOG 1 c\n  CLEARCHECKS t\nHISTORY r1 applied 1\nVERDICT r1 t 1 FROM LOW TO HIGH AT 2 COUNT 1 - PENDING\nFINAL source t (1, 11)\nUNEQUAL r1 t\nDUPLICATE r1.l1 line 9\nABANDONED s2 3\nUNFINISHED c retries 11\nSTATUS 48\n";

#[test]
fn the_trace_stands_where_it_is_asked_for(rt: HostRuntime) -> Result<(), Fail> {
    let alloc = rt.alloc();
    let summary = summary(alloc)?;
    let without = report(alloc, &summary, false)?;
    assert!(rt; without.as_slice() == WITHOUT);
    let with = report(alloc, &summary, true)?;
    assert!(rt; with.as_slice() == WITH);
    Ok(())
}
