use crate::{Entry, Log, Origin};
use ptc_statement::{Statement, Statements};
use row_types::{Edge, R, Span};
use std::alloc::Global;
use std::test::Fail;

/// A span without keys.
fn no_keys() -> Span {
    Span {
        lo: Edge::Low,
        hi: Edge::Low,
    }
}

fn sync(replica: u32, table: u32, span: Span) -> Origin {
    Origin::Sync {
        replica,
        table,
        span,
    }
}

/// Each origin, and each again with another value in one of its fields.
fn origins(alloc: Global) -> R<Vec<Origin>> {
    let mut origins = Vec::new(alloc);
    for number in 1..3 {
        origins.push(Origin::Session(number))?;
        origins.push(Origin::Local(number))?;
        origins.push(Origin::Applied(u64::from(number)))?;
        origins.push(sync(number, 1, Span::whole()))?;
    }
    origins.push(Origin::Checksum)?;
    origins.push(sync(1, 2, Span::whole()))?;
    origins.push(sync(1, 1, no_keys()))?;
    Ok(origins)
}

/// An entry that forgets the check rows of a table.
fn entry(alloc: Global, origin: Origin, table: u32) -> R<Entry> {
    let mut statements = Statements::new(alloc);
    statements.push(Statement::ClearChecks { table })?;
    Ok(Entry { origin, statements })
}

/// Appends an entry and answers its position.
fn append(alloc: Global, log: &mut Log, origin: Origin, table: u32) -> R<u64> {
    match log.append(entry(alloc, origin, table)?) {
        Ok(position) => Ok(position),
        Err((_, memory)) => Err(memory),
    }
}

/// Whether an entry is there, of this table.
fn is_entry(found: Option<&Entry>, table: u32) -> bool {
    match found {
        None => false,
        Some(entry) => match entry.statements.as_slice() {
            [Statement::ClearChecks { table: own }] => *own == table,
            _ => false,
        },
    }
}

/// An entry with each of the origins, whose tables are their places.
fn log_of_origins(alloc: Global) -> R<Log> {
    let mut log = Log::new(alloc);
    for (table, origin) in (0..11).zip(origins(alloc)?) {
        append(alloc, &mut log, origin, table)?;
    }
    Ok(log)
}

/// Each origin is the same as its copy, and as no other.
#[test]
fn origins_are_told_apart(rt: HostRuntime) -> Result<(), Fail> {
    let alloc = rt.alloc();
    let origins = origins(alloc)?;
    assert_eq!(rt; origins.len(), 11);
    for i in 0..origins.len() {
        let copy = origins[i].copy(alloc)?;
        for j in 0..origins.len() {
            assert_eq!(rt; copy.same(&origins[j]), i == j, "at {i} and {j}");
        }
    }
    Ok(())
}

/// Entries are told apart by their origins and by their statements.
#[test]
fn entries_are_told_apart(rt: HostRuntime) -> Result<(), Fail> {
    let alloc = rt.alloc();
    let own = entry(alloc, Origin::Local(1), 4)?;
    let of_session = entry(alloc, Origin::Session(1), 4)?;
    let of_table = entry(alloc, Origin::Local(1), 5)?;
    let copy = own.copy(alloc)?;
    assert!(rt; copy.same(&own) && own.same(&copy));
    assert!(rt; !copy.same(&of_session) && !copy.same(&of_table));
    Ok(())
}

/// Positions are counted from 1 and end at the length.
#[test]
fn entries_stand_at_their_positions(rt: HostRuntime) -> Result<(), Fail> {
    let alloc = rt.alloc();
    let log = log_of_origins(alloc)?;
    assert!(rt; !log.is_empty() && log.len() == 11 && log.as_slice().len() == 11);
    assert!(rt; log.get(0).is_none() && log.get(12).is_none() && log.get(u64::MAX).is_none());
    assert!(rt; is_entry(log.get(1), 0) && is_entry(log.get(2), 1) && is_entry(log.get(11), 10));
    for (table, entry) in (0..11).zip(log.as_slice()) {
        assert!(rt; is_entry(Some(entry), table));
    }
    Ok(())
}

/// A log without entries has none at any position.
#[test]
fn an_empty_log_has_no_entries(rt: HostRuntime) -> Result<(), Fail> {
    let log = Log::new(rt.alloc());
    assert!(rt; log.is_empty() && log.len() == 0 && log.spare() == 0);
    assert!(rt; log.get(0).is_none() && log.get(1).is_none() && log.as_slice().is_empty());
    Ok(())
}

/// Reserved capacity is promised once, used once, and leaves the entries as they are.
#[test]
fn an_append_uses_reserved_capacity(rt: HostRuntime) -> Result<(), Fail> {
    let alloc = rt.alloc();
    let mut log = Log::new(alloc);
    log.reserve()?;
    log.reserve()?;
    assert!(rt; log.spare() == 1 && log.is_empty());
    let first = append(alloc, &mut log, Origin::Checksum, 7)?;
    assert!(rt; first == 1 && log.spare() == 0);
    let second = append(alloc, &mut log, Origin::Session(2), 8)?;
    assert!(rt; second == 2 && log.spare() == 0);
    log.reserve()?;
    assert!(rt; log.spare() == 1 && log.len() == 2);
    assert!(rt; is_entry(log.get(1), 7) && is_entry(log.get(2), 8));
    Ok(())
}

/// Many entries keep their positions.
#[test]
fn many_entries_keep_their_positions(rt: HostRuntime) -> Result<(), Fail> {
    let alloc = rt.alloc();
    let mut log = Log::new(alloc);
    for table in 0..1000 {
        let position = append(alloc, &mut log, Origin::Session(1), table)?;
        assert_eq!(rt; position, u64::from(table) + 1);
    }
    for table in 0..1000 {
        assert!(rt; is_entry(log.get(u64::from(table) + 1), table));
    }
    assert!(rt; log.len() == 1000 && log.get(1001).is_none());
    Ok(())
}
