//! The reader of the file: what it reads, and the first line that is not in the form.
use ptc_run::{FileFault, LimitKind, read};
use ptc_statement::{Assignment, Cond, Expr, Op, ScriptStep, Sets, Statement};
use row_types::{Tables, Value};
use std::alloc::Global;
use std::test::Fail;
use test_builders::{pair_schema, row};
use workload_file::{Actor, Item, Workload};

/// The lines before the first row.
const HEAD: &str = "PTC WORKLOAD 1\nREPLICAS 1\nTABLE t (id BIGINT KEY, v BIGINT)\n";

fn read_body(rt: &HostRuntime, body: &str) -> Result<Result<Workload, FileFault>, Fail> {
    let text = format!(in rt.alloc(); "{HEAD}{body}")?;
    Ok(read(rt.alloc(), text.as_bytes()))
}

/// The line of the fault; 0 where there is none.
fn early_line(rt: &HostRuntime, body: &str) -> Result<u32, Fail> {
    match read_body(rt, body)? {
        Err(FileFault::Early { number }) => Ok(number),
        Err(_) => Ok(99),
        Ok(_) => Ok(0),
    }
}

/// The rows as text, like `1=2 3=4`.
fn shown(rt: &HostRuntime, tables: &Tables) -> Result<String, Fail> {
    let mut text = String::new(rt.alloc());
    for table in tables.as_slice() {
        for row in table.as_slice() {
            for value in row.as_slice() {
                if let Value::Int(number) = value {
                    let part = format!(in rt.alloc(); "{number} ")?;
                    text.push_str(part.as_str())?;
                }
            }
        }
    }
    Ok(text)
}

#[test]
fn reads_rows(rt: HostRuntime) -> Result<(), Fail> {
    let body =
        "ROW * t (5, 0)\nROW source t (9223372036854775807, -7)\nROW r1 t (9223372036854775807, 3)\nROW * t (-9223372036854775808, -9223372036854775808)\nEND\n";
    match read_body(&rt, body)? {
        Err(_) => return Err(Fail::from("the rows are read")),
        Ok(workload) => {
            let source = shown(&rt, &workload.source)?;
            assert_eq!(rt;
                source.as_str(),
                "-9223372036854775808 -9223372036854775808 5 0 9223372036854775807 -7 "
            );
            for copy in workload.copies.as_slice() {
                let replica = shown(&rt, copy)?;
                assert_eq!(rt;
                    replica.as_str(),
                    "-9223372036854775808 -9223372036854775808 5 0 9223372036854775807 3 "
                );
            }
            assert_eq!(rt; workload.copies.len(), 1);
        }
    }
    Ok(())
}

#[test]
fn finds_early_lines(rt: HostRuntime) -> Result<(), Fail> {
    for (body, line) in [
        ("END\n", 0),
        ("END", 4),
        ("", 4),
        ("END\nEND\n", 5),
        ("END\n\n", 5),
        ("ROW * t (1, 2)\n", 5),
        ("ROW * t (1, 2)\nROW r1 t (1, 2)\nEND\n", 5),
        ("ROW source t (1, 2)\nROW r1 t (1, 2)\nEND\n", 0),
        ("SESSION s1 source\nEND\n", 4),
    ] {
        assert_eq!(rt; early_line(&rt, body)?, line, "{body}");
    }
    for row in [
        "9223372036854775808, 0",
        "-9223372036854775809, 0",
        "-0, 0",
        "007, 0",
        "+5, 0",
        "5,0",
        "5, ",
        "5, 0 ",
        "5 , 0",
    ] {
        let body = format!(in rt.alloc(); "ROW * t ({row})\nEND\n")?;
        assert_eq!(rt; early_line(&rt, body.as_str())?, 4);
    }
    for (body, line) in [
        ("ROW * t (5, 0)\r\nEND\n", 4),
        ("ROW * t (5, 0) \nEND\n", 4),
    ] {
        assert_eq!(rt; early_line(&rt, body)?, line, "{body}");
    }
    Ok(())
}

#[test]
fn finds_a_bad_head(rt: HostRuntime) {
    assert!(rt; matches!(read(rt.alloc(), b""), Err(FileFault::Early { number: 1 })));
    assert!(rt;
        matches!(
            read(rt.alloc(), b"PTC WORKLOAD 1\nREPLICAS 2\n"),
            Err(FileFault::Early { number: 2 })
        )
    );
    assert!(rt;
        matches!(
            read(
                rt.alloc(),
                b"PTC WORKLOAD 1\nREPLICAS 1\nTABLE u (id BIGINT KEY, v BIGINT)\nEND\n"
            ),
            Err(FileFault::Early { number: 3 })
        )
    );
}

/// The condition that the first column is this number.
fn key_is(key: i64) -> Option<Cond> {
    Some(Cond::Compare {
        op: Op::Eq,
        left: Expr::Cell(0),
        right: Expr::Lit(Value::Int(key)),
    })
}

fn insert(alloc: Global, key: i64, value: i64) -> Result<Statement, Fail> {
    Ok(Statement::Insert {
        table: 0,
        row: row(alloc, key, value)?,
    })
}

fn update(alloc: Global, key: i64, value: i64) -> Result<Statement, Fail> {
    let mut sets = Sets::new(alloc);
    sets.push(Assignment {
        column: 1,
        expr: Expr::Lit(Value::Int(value)),
    })?;
    Ok(Statement::Update {
        table: 0,
        sets,
        cond: key_is(key),
    })
}

fn delete(key: i64) -> Statement {
    Statement::Delete {
        table: 0,
        cond: key_is(key),
    }
}

/// Whether the workload has one script, of these statements on lines from this one on.
fn has_script(workload: &Workload, first: u32, wanted: &[Statement]) -> bool {
    let [script] = workload.sessions.as_slice() else {
        return false;
    };
    let lines = script.lines.as_slice();
    if lines.len() != wanted.len() {
        return false;
    }
    let mut number = first;
    for (line, statement) in lines.iter().zip(wanted.iter()) {
        let ScriptStep::Run(found) = &line.step else {
            return false;
        };
        if line.line != number || !found.same(statement) {
            return false;
        }
        number = number.saturating_add(1);
    }
    true
}

#[test]
fn reads_a_script(rt: HostRuntime) -> Result<(), Fail> {
    let body =
        "ROW * t (5, 0)\nSESSION s1\nINSERT INTO t VALUES (-9223372036854775808, 9223372036854775807)\nUPDATE t SET v = -9223372036854775808 WHERE id = 9223372036854775807\nDELETE FROM t WHERE id = -9223372036854775808\nDELETE FROM t WHERE id = 0\nEND\n";
    let alloc = rt.alloc();
    let mut wanted = Vec::new(alloc);
    wanted.push(insert(alloc, i64::MIN, i64::MAX)?)?;
    wanted.push(update(alloc, i64::MAX, i64::MIN)?)?;
    wanted.push(delete(i64::MIN))?;
    wanted.push(delete(0))?;
    match read_body(&rt, body)? {
        Err(_) => return Err(Fail::from("the script is read")),
        Ok(workload) => assert!(rt; has_script(&workload, 6, wanted.as_slice())),
    }
    match read_body(&rt, "SESSION s1\nEND\n")? {
        Err(_) => return Err(Fail::from("an empty script is read")),
        Ok(workload) => assert!(rt; has_script(&workload, 5, &[])),
    }
    match read_body(&rt, "END\n")? {
        Err(_) => return Err(Fail::from("no script is wanted")),
        Ok(workload) => assert!(rt; workload.sessions.is_empty()),
    }
    Ok(())
}

#[test]
fn finds_early_lines_of_a_script(rt: HostRuntime) -> Result<(), Fail> {
    for (body, line) in [
        ("SESSION s2\nEND\n", 4),
        ("SESSION s1 \nEND\n", 4),
        ("ROW * t (1, 2)\nSESSION\nEND\n", 5),
        ("SESSION s1", 4),
        ("SESSION s1\n", 5),
        ("SESSION s1\nSESSION s1\nEND\n", 5),
        ("SESSION s1\nROW * t (1, 2)\nEND\n", 5),
        ("SESSION s1\nDELETE FROM t WHERE id = 1\n", 6),
        ("SESSION s1\nDELETE FROM t WHERE id = 1\nEND\n\n", 7),
        ("DELETE FROM t WHERE id = 1\nEND\n", 4),
    ] {
        assert_eq!(rt; early_line(&rt, body)?, line, "{body}");
    }
    Ok(())
}

/// Each stands behind a ROW line, the session's line and one statement, as line 7.
#[test]
fn finds_early_statements(rt: HostRuntime) -> Result<(), Fail> {
    for line in [
        "INSERT INTO u VALUES (1, 2)",
        "insert into t values (1, 2)",
        "INSERT INTO t VALUES (1, 2) ",
        "INSERT INTO t VALUES (007, 2)",
        "INSERT INTO t VALUES (1, -0)",
        "INSERT INTO t VALUES (1, 9223372036854775808)",
        "INSERT INTO t VALUES (1,2)",
        "INSERT INTO t VALUES (1)",
        "UPDATE u SET v = 1 WHERE id = 2",
        "UPDATE t SET v = 1 WHERE id = 007",
        "UPDATE t SET v = 007 WHERE id = 2",
        "UPDATE t SET v = 1 WHERE id = 2 ",
        "UPDATE t SET v = 1 where id = 2",
        "UPDATE t SET id = 1 WHERE id = 2",
        "UPDATE t SET v = 1",
        "UPDATE t SET v = 1  WHERE id = 2",
        "DELETE FROM u WHERE id = 1",
        "DELETE FROM t WHERE id = 1 ",
        "DELETE FROM t WHERE id = +1",
        "DELETE FROM t WHERE id = 007",
        "DELETE FROM t WHERE id = 1\r",
        "DELETE FROM t WHERE v = 1",
        "DELETE FROM t",
        "",
    ] {
        let body = format!(in rt.alloc();
            "ROW * t (5, 0)\nSESSION s1\nDELETE FROM t WHERE id = 1\n{line}\nEND\n"
        )?;
        assert_eq!(rt; early_line(&rt, body.as_str())?, 7, "{line}");
    }
    Ok(())
}

const SESSION: Item = Item::Turn(Actor::Session(1));

const TOOL: Item = Item::Turn(Actor::Tool);

const WORKER: Item = Item::Turn(Actor::Worker {
    replica: 1,
    worker: 1,
});

/// Whether the workload has this schedule.
fn has_schedule(workload: &Workload, wanted: &[Item]) -> bool {
    let items = workload.schedule.as_slice();
    items.len() == wanted.len() && items.iter().zip(wanted.iter()).all(|(a, b)| a == b)
}

#[test]
fn reads_a_schedule(rt: HostRuntime) -> Result<(), Fail> {
    for (body, wanted) in [
        (
            "ROW * t (5, 0)\nSESSION s1\nDELETE FROM t WHERE id = 5\nSCHEDULE c s1 r1\nSCHEDULE\nSCHEDULE s1 s1 c\nEND\n",
            [TOOL, SESSION, WORKER, SESSION, SESSION, TOOL].as_slice(),
        ),
        ("SESSION s1\nSCHEDULE s1\nEND\n", [SESSION].as_slice()),
        (
            "ROW * t (5, 0)\nSCHEDULE r1 c c r1\nEND\n",
            [WORKER, TOOL, TOOL, WORKER].as_slice(),
        ),
        ("SCHEDULE\nEND\n", [].as_slice()),
        ("END\n", [].as_slice()),
    ] {
        match read_body(&rt, body)? {
            Err(_) => return Err(Fail::from("the schedule is read")),
            Ok(workload) => assert!(rt; has_schedule(&workload, wanted), "{body}"),
        }
    }
    Ok(())
}

#[test]
fn reads_a_long_schedule(rt: HostRuntime) -> Result<(), Fail> {
    let mut body = String::from_str(rt.alloc(), "SCHEDULE")?;
    for _ in 0..50_000 {
        body.push_str(" c r1")?;
    }
    for _ in 0..100_000 {
        body.push_str("\nSCHEDULE c")?;
    }
    body.push_str("\nEND\n")?;
    match read_body(&rt, body.as_str())? {
        Err(_) => return Err(Fail::from("the schedule is read")),
        Ok(workload) => assert_eq!(rt; workload.schedule.len(), 200_000),
    }
    Ok(())
}

#[test]
fn finds_early_lines_of_a_schedule(rt: HostRuntime) -> Result<(), Fail> {
    for (body, line) in [
        ("SCHEDULE s1\nEND\n", 4),
        ("SCHEDULE c\nSCHEDULE c s1\nEND\n", 5),
        ("SCHEDULE c\n", 5),
        ("SCHEDULE c", 4),
        ("SESSION s1\nSCHEDULE c\nSCHEDULE\n", 7),
        ("SCHEDULE c\nEND\nSCHEDULE c\n", 6),
        ("SCHEDULE c\nROW * t (1, 2)\nEND\n", 5),
        ("SCHEDULE c\nSESSION s1\nEND\n", 5),
        (
            "SESSION s1\nSCHEDULE c\nDELETE FROM t WHERE id = 1\nEND\n",
            6,
        ),
        ("SESSION s1\nSCHEDULE c\nSESSION s1\nEND\n", 6),
    ] {
        assert_eq!(rt; early_line(&rt, body)?, line, "{body}");
    }
    Ok(())
}

/// Each stands behind the session's line and a SCHEDULE line, as line 6.
#[test]
fn finds_early_items(rt: HostRuntime) -> Result<(), Fail> {
    for line in [
        "SCHEDULE r2",
        "SCHEDULE s2",
        "SCHEDULE c  c",
        "SCHEDULE  c",
        "SCHEDULE c ",
        "SCHEDULE ",
        "SCHEDULEc",
        "SCHEDULE cc",
        "SCHEDULE c\tc",
        "SCHEDULE C",
        "SCHEDULE s",
        "SCHEDULE s1r1",
        "SCHEDULE c\r",
        "schedule c",
        " SCHEDULE c",
        "SCHEDUL",
        "S",
        "",
    ] {
        let body = format!(in rt.alloc(); "SESSION s1\nSCHEDULE s1 c\n{line}\nEND\n")?;
        assert_eq!(rt; early_line(&rt, body.as_str())?, 6, "{line}");
    }
    Ok(())
}

/// The one table, and the replica.
#[test]
fn reads_the_head(rt: HostRuntime) -> Result<(), Fail> {
    match read_body(&rt, "END\n")? {
        Err(_) => return Err(Fail::from("the head is read")),
        Ok(workload) => {
            assert_eq!(rt; workload.replicas, 1);
            let [schema] = workload.schemas.tables.as_slice() else {
                return Err(Fail::from("one table is read"));
            };
            assert!(rt; schema.same(&pair_schema(rt.alloc(), b"t")?));
        }
    }
    Ok(())
}

/// One byte more than a file may have.
#[test]
fn too_many_bytes_pass_the_limit(rt: HostRuntime) -> Result<(), Fail> {
    let bytes = vec![in rt.alloc(); b'x'; 16_777_217]?;
    let limit = FileFault::Limit {
        which: LimitKind::Bytes,
        got: 16_777_217,
    };
    match read(rt.alloc(), bytes.as_slice()) {
        Err(fault) => assert!(rt; fault.same(&limit)),
        Ok(_) => return Err(Fail::from("too many bytes are refused")),
    }
    Ok(())
}
