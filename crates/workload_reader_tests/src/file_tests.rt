use file_text::FileFault;
use ptc_statement::ScriptStep;
use row_types::{Rows, Tables, Value};
use std::test::Fail;
use workload::{Actor, Item, Workload};
use workload_reader::read;

const FILE: &[u8] =
    b"# all that a file may say\nPTC WORKLOAD 1\nISOLATION REPEATABLE READ\nREPLICAS 2\nTABLE t (id BIGINT KEY, v BIGINT)\nTABLE k (a INT KEY, b VARCHAR(4) KEY)\nROW * t (2, 5)\nROW source t (1, NULL)\nROW r2 t (3, 7)\n\nROW r1 k (1, 'x')\nSESSION s1\nBEGIN\nDELETE FROM t\nCOMMIT\nSESSION s2\nLOCAL r2.l1\nINSERT INTO t VALUES (9, 9)\nSCHEDULE s1 c*2 r2.l1\nSCHEDULE stop:c r1\nend";

const SCHEDULE: [Item; 6] = [
    Item::Turn(Actor::Session(1)),
    Item::Turn(Actor::Tool),
    Item::Turn(Actor::Tool),
    Item::Turn(Actor::Local {
        replica: 2,
        session: 1,
    }),
    Item::StopTool,
    Item::Turn(Actor::Worker {
        replica: 1,
        worker: 1,
    }),
];

fn number_is(value: &Value, wanted: i64) -> bool {
    match value {
        Value::Int(number) => *number == wanted,
        _ => false,
    }
}

/// Whether these are the first values of the rows.
fn begin_with(rows: &Rows, wanted: &[i64]) -> bool {
    if rows.len() != wanted.len() {
        return false;
    }
    for (row, id) in rows.as_slice().iter().zip(wanted) {
        match row.as_slice().first() {
            None => return false,
            Some(value) => {
                if !number_is(value, *id) {
                    return false;
                }
            }
        }
    }
    true
}

/// Whether a node's two tables have rows with these first values.
fn tables_are(tables: &Tables, first: &[i64], second: &[i64]) -> bool {
    let tables = tables.as_slice();
    tables.len() == 2 && begin_with(&tables[0], first) && begin_with(&tables[1], second)
}

fn rows_are(workload: &Workload) -> bool {
    let copies = workload.copies.as_slice();
    tables_are(&workload.source, &[1, 2], &[])
        && copies.len() == 2
        && tables_are(&copies[0], &[2], &[1])
        && tables_are(&copies[1], &[2, 3], &[])
}

/// Whether a script has these lines of the file.
fn lines_are(workload: &Workload, session: usize, wanted: &[u32]) -> bool {
    let sessions = workload.sessions.as_slice();
    if session >= sessions.len() {
        return false;
    }
    let lines = sessions[session].lines.as_slice();
    if lines.len() != wanted.len() {
        return false;
    }
    for (line, number) in lines.iter().zip(wanted) {
        if line.line != *number {
            return false;
        }
    }
    true
}

fn local_runs(workload: &Workload) -> bool {
    let locals = workload.locals.as_slice();
    if locals.len() != 2 || locals[0].len() != 0 || locals[1].len() != 1 {
        return false;
    }
    match locals[1].as_slice()[0].lines.as_slice().first() {
        None => false,
        Some(line) => match line.step {
            ScriptStep::Run(_) => line.line == 18,
            _ => false,
        },
    }
}

fn schedule_is(workload: &Workload) -> bool {
    let schedule = workload.schedule.as_slice();
    if schedule.len() != 6 {
        return false;
    }
    for (item, wanted) in schedule.iter().zip(SCHEDULE) {
        if !item.same(&wanted) {
            return false;
        }
    }
    true
}

/// Whether all that the file says is there.
fn holds_all(read: &Result<Workload, FileFault>) -> bool {
    match read {
        Err(_) => false,
        Ok(workload) => {
            workload.replicas == 2
                && workload.schemas.tables.len() == 2
                && rows_are(workload)
                && lines_are(workload, 0, &[13, 14, 15])
                && lines_are(workload, 1, &[])
                && local_runs(workload)
                && schedule_is(workload)
        }
    }
}

#[test]
fn a_whole_file_is_its_workload(rt: HostRuntime) -> Result<(), Fail> {
    let alloc = rt.alloc();
    assert!(rt; holds_all(&read(alloc, FILE)));
    Ok(())
}
