//! Copies of statements and scripts.
use ptc_statement::{Script, ScriptLine, ScriptLines, ScriptStep, Scripts, Statement, Statements};
use row_types::{LockMode, R, Value};
use statement_builders::{
    SET_MASTER, check, clear_checks, column_is, delete, insert, lock_read, replace, set_five,
    update,
};
use std::alloc::Global;
use std::test::Fail;
use test_builders::keys_between;

fn read_of_some(alloc: Global) -> R<Statement> {
    let span = keys_between(alloc, 1, 5)?;
    Ok(lock_read(LockMode::Shared, span, column_is(1, Value::Null)))
}

/// Each of the clients' statements.
fn client_statements(alloc: Global) -> R<Statements> {
    let mut statements = Statements::new(alloc);
    statements.push(insert(alloc, 1, 5)?)?;
    statements.push(replace(alloc, 1, 5)?)?;
    statements.push(delete(None))?;
    statements.push(update(set_five(alloc)?, None))?;
    statements.push(read_of_some(alloc)?)?;
    Ok(statements)
}

/// Each of the checksum tool's statements.
fn tool_statements(alloc: Global) -> R<Statements> {
    let mut statements = Statements::new(alloc);
    statements.push(check(keys_between(alloc, 1, 5)?))?;
    statements.push(SET_MASTER)?;
    statements.push(clear_checks())?;
    Ok(statements)
}

fn are_copied(alloc: Global, statements: &Statements) -> R<bool> {
    let copy = statements.copy(alloc)?;
    Ok(copy.same(statements) && differ(statements.as_slice()))
}

/// Whether no statement is the same as another.
fn differ(statements: &[Statement]) -> bool {
    for i in 0..statements.len() {
        if !is_only(statements, i) {
            return false;
        }
    }
    true
}

fn is_only(statements: &[Statement], place: usize) -> bool {
    for (i, other) in statements.iter().enumerate() {
        match statements.get(place) {
            Some(statement) if statement.same(other) == (i == place) => (),
            _ => return false,
        }
    }
    true
}

/// Each kind of statement has a copy, and is told from the others.
#[test]
fn statements_are_copied(rt: HostRuntime) -> Result<(), Fail> {
    let alloc = rt.alloc();
    assert!(rt; are_copied(alloc, &client_statements(alloc)?)?);
    assert!(rt; are_copied(alloc, &tool_statements(alloc)?)?);
    Ok(())
}

fn push(lines: &mut ScriptLines, line: u32, step: ScriptStep) -> R<()> {
    lines.push(ScriptLine { line, step })
}

/// BEGIN, an INSERT, COMMIT, ROLLBACK.
fn lines(alloc: Global) -> R<ScriptLines> {
    let mut lines = ScriptLines::new(alloc);
    push(&mut lines, 7, ScriptStep::Begin)?;
    push(&mut lines, 8, ScriptStep::Run(insert(alloc, 1, 5)?))?;
    push(&mut lines, 9, ScriptStep::Commit)?;
    push(&mut lines, 10, ScriptStep::Rollback)?;
    Ok(lines)
}

/// The scripts of two sessions, one of them empty.
fn scripts(alloc: Global) -> R<Scripts> {
    let mut scripts = Scripts::new(alloc);
    scripts.push(Script {
        lines: lines(alloc)?,
    })?;
    scripts.push(Script {
        lines: ScriptLines::new(alloc),
    })?;
    Ok(scripts)
}

fn scripts_are_copied(alloc: Global, scripts: &Scripts) -> R<bool> {
    let copy = scripts.copy(alloc)?;
    Ok(copy.same(scripts) && copy.len() == 2)
}

fn lines_differ(lines: &[ScriptLine]) -> bool {
    for i in 0..lines.len() {
        if !is_only_line(lines, i) {
            return false;
        }
    }
    true
}

fn is_only_line(lines: &[ScriptLine], place: usize) -> bool {
    for (i, other) in lines.iter().enumerate() {
        match lines.get(place) {
            Some(line) if line.step.same(&other.step) == (i == place) => (),
            _ => return false,
        }
    }
    true
}

/// Scripts have copies, and each kind of line is told from the others.
#[test]
fn scripts_have_copies(rt: HostRuntime) -> Result<(), Fail> {
    let alloc = rt.alloc();
    assert!(rt; scripts_are_copied(alloc, &scripts(alloc)?)?);
    assert!(rt; lines_differ(lines(alloc)?.as_slice()));
    Ok(())
}
