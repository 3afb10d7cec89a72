//! Copies: each is the same as what it was made from, and not the same as another.
use crate::summaries::{empty_summary, some_span};
use checksum_table::Verdict;
use report_text::{DuplicateLine, EqualLine, Summary, VerdictLine, VerdictLines};
use row_types::R;
use std::alloc::Global;
use std::test::Fail;
use workload_file::Actor;

fn verdict_line(alloc: Global, own: Option<u64>) -> R<VerdictLine> {
    Ok(VerdictLine {
        replica: 1,
        table: 0,
        chunk: 1,
        span: some_span(alloc)?,
        position: 2,
        master: Some(3),
        own,
        verdict: Verdict::Pending,
    })
}

/// One line of a replica without a row, or with an empty one.
fn verdict_lines(alloc: Global, own: Option<u64>) -> R<VerdictLines> {
    let mut lines = VerdictLines::new(alloc);
    lines.push(verdict_line(alloc, own)?)?;
    Ok(lines)
}

fn equal_line(equal: bool) -> EqualLine {
    EqualLine {
        replica: 1,
        table: 0,
        equal,
    }
}

fn duplicate_line(session: u32) -> DuplicateLine {
    DuplicateLine {
        actor: Actor::Session(session),
        line: 6,
    }
}

fn verdicts_are_copied(alloc: Global, lines: &VerdictLines, others: &VerdictLines) -> R<bool> {
    let copy = lines.copy(alloc)?;
    Ok(copy.same(lines) && !copy.same(others))
}

#[test]
fn lines_are_copied(rt: HostRuntime) -> Result<(), Fail> {
    let alloc = rt.alloc();
    let others = verdict_lines(alloc, Some(0))?;
    assert!(rt; verdicts_are_copied(alloc, &verdict_lines(alloc, None)?, &others)?);
    let copy = equal_line(true).copy(alloc)?;
    assert!(rt; copy.same(&equal_line(true)) && !copy.same(&equal_line(false)));
    let copy = duplicate_line(1).copy(alloc)?;
    assert!(rt; copy.same(&duplicate_line(1)) && !copy.same(&duplicate_line(2)));
    Ok(())
}

fn one_verdict(alloc: Global) -> R<Summary> {
    let mut summary = empty_summary(alloc)?;
    summary.verdicts = verdict_lines(alloc, None)?;
    Ok(summary)
}

/// Whether the copy is the same, and no longer with another status.
fn is_copied(alloc: Global, summary: &Summary) -> R<bool> {
    let mut copy = summary.copy(alloc)?;
    let is_same = copy.same(summary);
    copy.status = 16;
    Ok(is_same && !copy.same(summary))
}

/// Another in its verdicts, and another in its status.
#[test]
fn summaries_are_copied(rt: HostRuntime) -> Result<(), Fail> {
    let alloc = rt.alloc();
    let summary = one_verdict(alloc)?;
    assert!(rt; is_copied(alloc, &summary)?);
    assert!(rt; !summary.same(&empty_summary(alloc)?));
    Ok(())
}
