use super::*;
use row_types::{Digest, DigestKind, Edge, Span};
use std::test::Fail;

fn check_row(position: u64, count: u64, first: u8) -> CheckRow {
    let mut xor = [7; 20];
    xor[0] = first;
    CheckRow {
        span: Span::whole(),
        kind: DigestKind::Sha1,
        this: Digest { count, xor },
        master: None,
        position,
    }
}

fn published(count: u64, last: u8) -> Digest {
    let mut xor = [7; 20];
    xor[19] = last;
    Digest { count, xor }
}

#[test]
fn rows_stand_by_table_and_chunk(rt: HostRuntime) -> Result<(), Fail> {
    let mut checks = Checks::new(rt.alloc());
    for (table, chunk) in [(2, 1), (1, 3), (1, 2), (0, 5), (1, 2)] {
        checks.set(table, chunk, check_row(u64::from(chunk), 1, 7))?;
    }
    let absent = CheckEntry {
        table: 1,
        chunk: 3,
        row: check_row(90, 1, 7),
    };
    checks.add_absent(absent)?;
    let absent = CheckEntry {
        table: 1,
        chunk: 4,
        row: check_row(4, 1, 7),
    };
    checks.add_absent(absent)?;
    let places = [(0, 5), (1, 2), (1, 3), (1, 4), (2, 1)];
    assert_eq!(rt; checks.len(), places.len());
    for (entry, (table, chunk)) in checks.as_slice().iter().zip(places) {
        assert_eq!(rt; (entry.table, entry.chunk), (table, chunk));
        assert_eq!(rt; entry.row.position, u64::from(chunk));
    }
    Ok(())
}

#[test]
fn last_chunks_and_cleared_tables(rt: HostRuntime) -> Result<(), Fail> {
    let mut checks = Checks::new(rt.alloc());
    assert!(rt; checks.is_empty());
    for (table, chunk) in [(0, 5), (1, 2), (1, 4), (1, 3), (2, 1), (u32::MAX, 9)] {
        checks.set(table, chunk, check_row(1, 1, 7))?;
    }
    for (table, last) in [(0, 5), (1, 4), (2, 1), (3, 0), (u32::MAX, 9)] {
        assert_eq!(rt; checks.last_of(table), last);
    }
    checks.clear(1);
    assert_eq!(rt; checks.len(), 3);
    assert_eq!(rt; checks.last_of(1), 0);
    assert!(rt; checks.get(0, 5).is_some());
    assert!(rt; checks.get(1, 3).is_none());
    assert!(rt; checks.get(2, 1).is_some());
    Ok(())
}

#[test]
fn verdicts(rt: HostRuntime) -> Result<(), Fail> {
    let mut checks = Checks::new(rt.alloc());
    assert_eq!(rt; Checks::verdict(checks.get(0, 1)), Verdict::Pending);
    assert!(rt; !checks.set_master(0, 1, published(3, 7)));
    checks.set(0, 1, check_row(9, 3, 7))?;
    assert!(rt; !checks.set_master(0, 2, published(3, 7)));
    assert_eq!(rt; Checks::verdict(checks.get(0, 1)), Verdict::Pending);
    for (count, last, want) in [
        (3, 7, Verdict::Same),
        (4, 7, Verdict::Differ),
        (3, 6, Verdict::Differ),
    ] {
        assert!(rt; checks.set_master(0, 1, published(count, last)));
        assert_eq!(rt; Checks::verdict(checks.get(0, 1)), want);
    }
    Ok(())
}

#[test]
fn copies_are_the_same(rt: HostRuntime) -> Result<(), Fail> {
    let mut checks = Checks::new(rt.alloc());
    checks.set(0, 1, check_row(9, 3, 7))?;
    let mut copy = checks.copy(rt.alloc())?;
    assert!(rt; copy.same(&checks));
    assert!(rt; copy.set_master(0, 1, published(3, 7)));
    assert!(rt; !copy.same(&checks));
    Ok(())
}

/// Each verdict is the same as its copy, and as no other.
#[test]
fn verdicts_are_copied(rt: HostRuntime) -> Result<(), Fail> {
    let verdicts = [Verdict::Same, Verdict::Differ, Verdict::Pending];
    for i in 0..3usize {
        let copy = verdicts[i].copy(rt.alloc())?;
        for j in 0..3usize {
            assert!(rt; copy.same(&verdicts[j]) == (i == j), "{i} and {j}");
        }
    }
    Ok(())
}

/// A row with each of its fields other than that of the first, which is row 0.
fn row_of(number: usize) -> CheckRow {
    let mut row = check_row(9, 3, 7);
    match number {
        0 => {}
        1 => row.span.hi = Edge::Low,
        2 => row.kind = DigestKind::Md5,
        3 => row.this.count = 4,
        4 => row.master = Some(published(3, 7)),
        5 => row.master = Some(published(3, 8)),
        _ => row.position = 8,
    }
    row
}

/// Rows and entries are the same as their copies, and as none with another field.
#[test]
fn rows_are_told_apart(rt: HostRuntime) -> Result<(), Fail> {
    for i in 0..7usize {
        let copy = row_of(i).copy(rt.alloc())?;
        for j in 0..7usize {
            assert!(rt; copy.same(&row_of(j)) == (i == j), "{i} and {j}");
        }
        for (table, chunk) in [(0, 1), (0, 2), (1, 1)] {
            let row = row_of(i);
            let entry = CheckEntry { table, chunk, row };
            assert!(rt; entry.copy(rt.alloc())?.same(&entry));
            let row = row_of(i);
            let first = CheckEntry {
                table: 0,
                chunk: 1,
                row,
            };
            assert!(rt; entry.same(&first) == (table == 0 && chunk == 1));
        }
    }
    Ok(())
}
