//! The line of each cause, as the format of the lines of refusal spells it.
use crate::file_refusal;
use file_text::{FileFault, LimitKind, LineCause};
use row_types::{R, RowFault};
use statement_grammar::TextFault;
use std::alloc::Global;
use std::test::Fail;

/// Whether a fault has this line of refusal; none where none is wanted.
fn says(alloc: Global, fault: FileFault, wanted: Option<&[u8]>) -> R<bool> {
    Ok(match (file_refusal(alloc, b"ptc", fault)?, wanted) {
        (None, None) => true,
        (Some(line), Some(text)) => line.as_slice() == text,
        _ => false,
    })
}

/// Whether a cause on line 7 is told so.
fn cause_is(alloc: Global, cause: LineCause, text: &str) -> R<bool> {
    let line = format!(in alloc; "ptc: workload refused: line 7: {text}\n")?;
    says(
        alloc,
        FileFault::Line { number: 7, cause },
        Some(line.as_bytes()),
    )
}

#[test]
fn causes_are_told(rt: HostRuntime) -> Result<(), Fail> {
    for (cause, text) in [
        (LineCause::AfterEnd, "after end"),
        (LineCause::Order, "order"),
        (LineCause::Form { place: 12 }, "form at 12"),
        (LineCause::Twice, "twice"),
        (LineCause::Tool, "tool statement"),
        (LineCause::Script, "script"),
        (LineCause::Actor { place: 1 }, "actor at 1"),
    ] {
        assert!(rt; cause_is(rt.alloc(), cause, text)?, "{text}");
    }
    Ok(())
}

#[test]
fn rows_are_refused(rt: HostRuntime) -> Result<(), Fail> {
    for (fault, text) in [
        (RowFault::Arity { got: 1, want: 2 }, "row: arity"),
        (RowFault::NullIn { column: 1 }, "row: null"),
        (RowFault::Kind { column: 0 }, "row: kind"),
        (
            RowFault::OutOfRange {
                column: 0,
                value: -5,
            },
            "row: range",
        ),
        (
            RowFault::TooLong {
                column: 1,
                len: 300,
            },
            "row: length",
        ),
    ] {
        assert!(rt;
            cause_is(rt.alloc(), LineCause::Row(fault), text)?,
            "{text}"
        );
    }
    Ok(())
}

#[test]
fn statements_are_refused(rt: HostRuntime) -> Result<(), Fail> {
    let fault = RowFault::TooLong {
        column: 1,
        len: 300,
    };
    for (fault, text) in [
        (TextFault::At { place: 29 }, "statement at 29: syntax"),
        (
            TextFault::UnknownTable { place: 13 },
            "statement at 13: unknown table",
        ),
        (
            TextFault::UnknownColumn { place: 14 },
            "statement at 14: unknown column",
        ),
        (
            TextFault::KeyAssigned { place: 14 },
            "statement at 14: key assigned",
        ),
        (
            TextFault::NullIntoNotNull { place: 18 },
            "statement at 18: null",
        ),
        (
            TextFault::Literal { place: 26, fault },
            "statement at 26: length",
        ),
        (
            TextFault::TooDeep { place: 65000 },
            "statement at 65000: too deep",
        ),
    ] {
        assert!(rt;
            cause_is(rt.alloc(), LineCause::Statement(fault), text)?,
            "{text}"
        );
    }
    Ok(())
}

/// Whether more of something than the limit is told so.
fn limit_is(alloc: Global, which: LimitKind, text: &str) -> R<bool> {
    let line = format!(in alloc; "ptc: workload refused: limit {text}: 16777217\n")?;
    let fault = FileFault::Limit {
        which,
        got: 16777217,
    };
    says(alloc, fault, Some(line.as_bytes()))
}

#[test]
fn limits_are_told(rt: HostRuntime) -> Result<(), Fail> {
    for (which, text) in [
        (LimitKind::Bytes, "bytes"),
        (LimitKind::LineBytes, "line bytes"),
        (LimitKind::Tables, "tables"),
        (LimitKind::Columns, "columns"),
        (LimitKind::Replicas, "replicas"),
        (LimitKind::Sessions, "sessions"),
        (LimitKind::Locals, "locals"),
        (LimitKind::Schedule, "schedule"),
    ] {
        assert!(rt; limit_is(rt.alloc(), which, text)?, "{text}");
    }
    Ok(())
}

#[test]
fn whole_files_are_refused(rt: HostRuntime) -> Result<(), Fail> {
    let alloc = rt.alloc();
    let line = b"ptc: workload refused: line 2: isolation\n".as_slice();
    assert!(rt; says(alloc, FileFault::Isolation { line: 2 }, Some(line))?);
    let line = b"ptc: workload refused: line 1: truncated\n".as_slice();
    assert!(rt; says(alloc, FileFault::Truncated { line: 1 }, Some(line))?);
    Ok(())
}

/// Out of memory refuses no file.
#[test]
fn no_memory_has_no_line(rt: HostRuntime) -> Result<(), Fail> {
    let alloc = rt.alloc();
    assert!(rt; says(alloc, FileFault::Memory, None)?);
    let cause = LineCause::Statement(TextFault::Memory);
    assert!(rt; says(alloc, FileFault::Line { number: 3, cause }, None)?);
    Ok(())
}
