//! The statements of a script: their lines, and what these say.

ghost use Rattle.std.specs.Prelude.{◌≡◌, ◌+◌, ◌<◌, ◌≤◌, List, ℕ, ℤ, [], ◌∷◌, ◌++◌, IfSome, IfOk, Some, FitsSigned, codes, length, MatchOption};
ghost use Rattle.std.specs.Int.{w64};
ghost use Rattle.ptc_run.specs.Lines.{lines_of};
ghost use Rattle.ptc_run.specs.RowLines.{numbers_text};
ghost use Rattle.ptc_run.specs.ScriptLines.{script_line, number_text, update_text, NumbersFitScript, has_key, statement_of, EndsStatements};
ghost use Rattle.ptc_run.specs.ScriptReads.{StatementRead, StatementsRead, SessionsRead};

use crate::line_cuts::{behind, behind_line, first_line};
use crate::row_lines::{number_before, numbers_of};
use ptc_statement::{
    Assignment, Cond, Expr, Op, Script, ScriptLine, ScriptLines, ScriptStep, Scripts, Sets,
    Statement,
};
use row_types::{R, Row, Value};
use std::alloc::Global;

/// The line of a statement: what it does, and its numbers.
#[derive(Clone, Copy, Debug, PartialEq, Eq)]
pub enum ScriptText {
    Insert { key: i64, value: i64 },
    Update { key: i64, value: i64 },
    Delete { key: i64 },
}

/// The number that stands before a line feed, with nothing behind it.
fn last_number(bytes: &[u8]) -> Option<i64>
    ensures found { IfSome result (λ key. (bytes.now ≡ number_text key) × FitsSigned w64 key) }
    ensures only { (key : ℤ) → FitsSigned w64 key → bytes.now ≡ number_text key → result ≡ Some key }
{
    let Some((key, rest)) = number_before(bytes, b'\n') else {
        return None;
    };
    if rest.is_empty() { Some(key) } else { None }
}

/// The key and the value behind the first words of an UPDATE.
fn update_numbers(bytes: &[u8]) -> Option<(i64, i64)>
    ensures found { IfSome result (λ x.
        (bytes.now ≡ update_text x.0 x.1) × FitsSigned w64 x.0 × FitsSigned w64 x.1) }
    ensures only { (key value : ℤ) → FitsSigned w64 key → FitsSigned w64 value →
        bytes.now ≡ update_text key value → result ≡ Some (key, value) }
{
    let Some((value, rest)) = number_before(bytes, b' ') else {
        return None;
    };
    let Some(rest) = behind(rest, b"WHERE id = ") else {
        return None;
    };
    let Some(key) = last_number(rest) else {
        return None;
    };
    Some((key, value))
}

fn insert_of(line: &[u8]) -> Option<(i64, i64)>
    ensures found { IfSome result (λ x.
        (line.now ≡ codes "INSERT INTO t VALUES (" ++ numbers_text x.0 x.1)
        × FitsSigned w64 x.0 × FitsSigned w64 x.1) }
    ensures only { (key value : ℤ) → FitsSigned w64 key → FitsSigned w64 value →
        line.now ≡ codes "INSERT INTO t VALUES (" ++ numbers_text key value →
        result ≡ Some (key, value) }
{
    let Some(rest) = behind(line, b"INSERT INTO t VALUES (") else {
        return None;
    };
    numbers_of(rest)
}

fn update_of(line: &[u8]) -> Option<(i64, i64)>
    ensures found { IfSome result (λ x.
        (line.now ≡ codes "UPDATE t SET v = " ++ update_text x.0 x.1)
        × FitsSigned w64 x.0 × FitsSigned w64 x.1) }
    ensures only { (key value : ℤ) → FitsSigned w64 key → FitsSigned w64 value →
        line.now ≡ codes "UPDATE t SET v = " ++ update_text key value →
        result ≡ Some (key, value) }
{
    let Some(rest) = behind(line, b"UPDATE t SET v = ") else {
        return None;
    };
    update_numbers(rest)
}

fn delete_of(line: &[u8]) -> Option<i64>
    ensures found { IfSome result (λ key.
        (line.now ≡ codes "DELETE FROM t WHERE id = " ++ number_text key) × FitsSigned w64 key) }
    ensures only { (key : ℤ) → FitsSigned w64 key →
        line.now ≡ codes "DELETE FROM t WHERE id = " ++ number_text key → result ≡ Some key }
{
    let Some(rest) = behind(line, b"DELETE FROM t WHERE id = ") else {
        return None;
    };
    last_number(rest)
}

/// The statement that a line is.
pub fn script_of(line: &[u8]) -> Option<ScriptText>
    ensures found { IfSome result (λ text. (line.now ≡ script_line text) × NumbersFitScript text) }
    ensures only { (text : ScriptText) → NumbersFitScript text → line.now ≡ script_line text →
        result ≡ Some text }
{
    if let Some((key, value)) = insert_of(line) {
        return Some(ScriptText::Insert { key, value });
    }
    if let Some((key, value)) = update_of(line) {
        return Some(ScriptText::Update { key, value });
    }
    match delete_of(line) {
        None => None,
        Some(key) => Some(ScriptText::Delete { key }),
    }
}

/// The condition that the row has this key.
fn key_is(key: i64) -> Option<Cond>
    ensures { result ≡ has_key key }
{
    Some(Cond::Compare {
        op: Op::Eq,
        left: Expr::Cell(0),
        right: Expr::Lit(Value::Int(key)),
    })
}

fn insert_from(alloc: Global, key: i64, value: i64) -> R<Statement>
    ensures { IfOk result (λ statement. statement ≡ statement_of (ScriptText.Insert key value)) }
{
    let mut items = Vec::with_capacity(alloc, 2)?;
    items.push(Value::Int(key))?;
    items.push(Value::Int(value))?;
    Ok(Statement::Insert {
        table: 0,
        row: Row { items },
    })
}

fn update_from(alloc: Global, key: i64, value: i64) -> R<Statement>
    ensures { IfOk result (λ statement. statement ≡ statement_of (ScriptText.Update key value)) }
{
    let mut sets = Sets::new(alloc);
    sets.push(Assignment {
        column: 1,
        expr: Expr::Lit(Value::Int(value)),
    })?;
    Ok(Statement::Update {
        table: 0,
        sets,
        cond: key_is(key),
    })
}

/// The statement of a line.
fn statement_from(alloc: Global, text: ScriptText) -> R<Statement>
    ensures { IfOk result (λ statement. statement ≡ statement_of text) }
{
    match text {
        ScriptText::Insert { key, value } => insert_from(alloc, key, value),
        ScriptText::Update { key, value } => update_from(alloc, key, value),
        ScriptText::Delete { key } => Ok(Statement::Delete {
            table: 0,
            cond: key_is(key),
        }),
    }
}

/// The statement that the first line is, and what stands behind it.
fn first_statement(bytes: &[u8]) -> Option<(ScriptText, &[u8])>
    ensures { MatchOption result (EndsStatements (lines_of bytes.now)) (λ read.
        StatementRead bytes.now read.0 read.1.now) }
{
    let Some((line, rest)) = first_line(bytes) else {
        return None;
    };
    match script_of(line) {
        None => None,
        Some(text) => Some((text, rest)),
    }
}

/// The statements from here, the first of which has this number in the file, what stands behind
/// these, and how many they are.
fn read_statements(alloc: Global, bytes: &[u8], first: u32) -> R<(ScriptLines, &[u8], u32)>
    requires short { length bytes.now ≤ 16777216 }
    requires early { first ≤ 16777221 }
    ensures read { IfOk result (λ read. StatementsRead bytes.now first read.0 read.1.now read.2) }
    ensures few { IfOk result (λ read. read.2 ≤ 16777216) }
    ensures shorter { IfOk result (λ read. length read.1.now ≤ length bytes.now) }
{
    let mut script = ScriptLines::new(alloc);
    let mut rest = bytes;
    let mut count = 0u32;
    while let Some((text, after)) = first_statement(rest) {
        let statement = statement_from(alloc, text)?;
        script.push(ScriptLine {
            line: first + count,
            step: ScriptStep::Run(statement),
        })?;
        rest = after;
        count += 1;
    }
    Ok((script, rest, count))
}

/// The scripts behind so many ROW lines, what stands behind these, and how many lines there are
/// then behind the fixed ones.
pub fn read_sessions(alloc: Global, bytes: &[u8], rows: u32) -> R<(Scripts, &[u8], u32)>
    requires short { length bytes.now ≤ 16777216 }
    requires few { rows ≤ 16777216 }
    ensures read { IfOk result (λ read. SessionsRead bytes.now rows read.0 read.1.now read.2) }
    ensures most { IfOk result (λ read. read.2 ≤ 33554433) }
    ensures shorter { IfOk result (λ read. length read.1.now ≤ length bytes.now) }
{
    let mut sessions = Scripts::new(alloc);
    match behind_line(bytes, b"SESSION s1\n") {
        None => Ok((sessions, bytes, rows)),
        Some(rest) => {
            let (lines, rest, count) = read_statements(alloc, rest, rows + 5)?;
            sessions.push(Script { lines })?;
            Ok((sessions, rest, rows + 1 + count))
        }
    }
}
