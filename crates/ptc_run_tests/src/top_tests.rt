//! The top call: each status, the lines of refusal, and reports.
use ptc_io::{MemorySink, MemorySource};
use ptc_run::ptc;
use row_types::R;
use std::alloc::Global;
use std::test::Fail;

/// The report of the file without rows.
const EMPTY: &str =
    "PTC REPORT 1\nTABLE t (id BIGINT KEY, v BIGINT)\nLOG 1 c\n  CLEARCHECKS t\nLOG 2 c\n  CHECKSUM t CHUNK 1 FROM LOW TO HIGH USING MD5\nLOG 3 c\n  SETMASTER t CHUNK 1 CNT 0 CRC '00000000000000000000000000000000'\nHISTORY r1 applied 1\nHISTORY r1 applied 2\nHISTORY r1 applied 3\nVERDICT r1 t 1 FROM LOW TO HIGH AT 2 COUNT 0 0 SAME\nEQUAL r1 t\nSTATUS 0\n";

fn words(alloc: Global, words: &[&str]) -> R<Vec<String>> {
    let mut all = Vec::new(alloc);
    for word in words {
        all.push(String::from_str(alloc, word)?)?;
    }
    Ok(all)
}

/// The lines before the first row.
const HEAD: &str = "PTC WORKLOAD 1\nREPLICAS 1\nTABLE t (id BIGINT KEY, v BIGINT)\n";

/// The file of these lines between its head and its end.
fn file(alloc: Global, body: &str) -> R<Vec<u8>> {
    let text = format!(in alloc; "{HEAD}{body}END\n")?;
    Ok(text.as_bytes().to_vec(alloc)?)
}

/// The status and the output for these words and this input.
fn outcome(alloc: Global, list: &[&str], bytes: Vec<u8>) -> R<(u8, Vec<u8>)> {
    let words = words(alloc, list)?;
    let mut input = MemorySource::new(bytes, Vec::new(alloc));
    let mut output = MemorySink::new(alloc, 1000, Vec::new(alloc));
    let status = ptc(alloc, words.as_slice(), &mut input, &mut output);
    Ok((status.code, output.bytes().to_vec(alloc)?))
}

/// Whether the lines stand in the text one after the other, with nothing between.
fn has(text: &[u8], lines: &str) -> bool {
    let lines = lines.as_bytes();
    if lines.is_empty() {
        return true;
    }
    text.windows(lines.len()).any(|window| window == lines)
}

/// Whether a file is answered by this status and a text with these lines.
fn gives(alloc: Global, body: &str, status: u8, lines: &str) -> R<bool> {
    let (code, text) = outcome(alloc, &["run"], file(alloc, body)?)?;
    Ok(code == status && has(text.as_slice(), lines))
}

/// Whether words and an input are answered by this status and just this text.
fn prints(alloc: Global, list: &[&str], bytes: Vec<u8>, status: u8, wanted: &str) -> R<bool> {
    let (code, text) = outcome(alloc, list, bytes)?;
    Ok(code == status && text.as_slice() == wanted.as_bytes())
}

/// Whether a file is answered by this status and just this text.
fn file_prints(alloc: Global, body: &str, status: u8, wanted: &str) -> R<bool> {
    Ok(prints(alloc, &["run"], file(alloc, body)?, status, wanted)?)
}

#[test]
fn words_are_refused(rt: HostRuntime) -> Result<(), Fail> {
    for (list, line) in [
        ([].as_slice(), "ptc: no command\n"),
        (["walk"].as_slice(), "ptc: word 1 refused: walk\n"),
        (["walk", "run"].as_slice(), "ptc: word 1 refused: walk\n"),
        (
            ["run", "--sync"].as_slice(),
            "ptc: word 2 refused: --sync\n",
        ),
    ] {
        let bytes = file(rt.alloc(), "")?;
        assert!(rt; prints(rt.alloc(), list, bytes, 1, line)?, "{line}");
    }
    Ok(())
}

#[test]
fn files_are_refused(rt: HostRuntime) -> Result<(), Fail> {
    let other =
        b"PTC WORKLOAD 1\nREPLICAS 1\nTABLE u (id BIGINT KEY, v BIGINT)\nROW source t (1, 10)\nROW r1 t (1, 11)\nEND\n";
    let bytes = other.to_vec(rt.alloc())?;
    let line = "ptc: workload refused: line 3: early\n";
    assert!(rt; prints(rt.alloc(), &["run"], bytes, 1, line)?);
    let twice = "ROW * t (1, 10)\nROW r1 t (1, 11)\n";
    let line = "ptc: workload refused: line 5: early\n";
    assert!(rt; file_prints(rt.alloc(), twice, 1, line)?);
    Ok(())
}

/// One byte more than a file may have is refused, whatever the bytes are.
#[test]
fn too_many_bytes_are_refused(rt: HostRuntime) -> Result<(), Fail> {
    let bytes = vec![in rt.alloc(); b'x'; 16_777_217]?;
    let line = "ptc: workload refused: limit bytes: 16777217\n";
    assert!(rt; prints(rt.alloc(), &["run"], bytes, 1, line)?);
    Ok(())
}

#[test]
fn empty_table_has_its_report(rt: HostRuntime) -> Result<(), Fail> {
    assert!(rt; EMPTY.len() == 337);
    assert!(rt; file_prints(rt.alloc(), "", 0, EMPTY)?);
    Ok(())
}

/// A source that fails at its first call: nothing is written.
#[test]
fn source_fails(rt: HostRuntime) -> Result<(), Fail> {
    let words = words(rt.alloc(), &["run"])?;
    let mut input = MemorySource::new(file(rt.alloc(), "")?, vec![in rt.alloc(); 1]?);
    let mut output = MemorySink::new(rt.alloc(), 1000, Vec::new(rt.alloc()));
    let status = ptc(rt.alloc(), words.as_slice(), &mut input, &mut output);
    assert_eq!(rt; status.code, 2);
    assert_eq!(rt; output.bytes().len(), 0);
    Ok(())
}

/// A sink that takes 10 bytes a call and fails at its second has the first ten.
#[test]
fn sink_fails(rt: HostRuntime) -> Result<(), Fail> {
    let words = words(rt.alloc(), &["run"])?;
    let mut input = MemorySource::new(file(rt.alloc(), "")?, Vec::new(rt.alloc()));
    let mut output = MemorySink::new(rt.alloc(), 10, vec![in rt.alloc(); 2]?);
    let status = ptc(rt.alloc(), words.as_slice(), &mut input, &mut output);
    assert_eq!(rt; status.code, 3);
    assert_eq!(rt; output.bytes(), b"PTC REPORT".as_slice());
    Ok(())
}

/// Equal, missing, changed and extra rows, negative numbers and both ends of 64 bits. The digests
/// are those of Python's hashlib.
#[test]
fn rows_are_compared(rt: HostRuntime) -> Result<(), Fail> {
    for (rows, code, lines) in [
        (
            "ROW * t (-9223372036854775808, 9223372036854775807)\n",
            0,
            "VERDICT r1 t 1 FROM LOW TO HIGH AT 2 COUNT 1 1 SAME\nFINAL source t (-9223372036854775808, 9223372036854775807)\nFINAL r1 t (-9223372036854775808, 9223372036854775807)\nEQUAL r1 t\nSTATUS 0\n",
        ),
        (
            "ROW source t (7, -1)\n",
            16,
            "VERDICT r1 t 1 FROM LOW TO HIGH AT 2 COUNT 1 0 DIFFER\nFINAL source t (7, -1)\nUNEQUAL r1 t\nSTATUS 16\n",
        ),
        (
            "ROW source t (1, 10)\nROW r1 t (1, 11)\n",
            16,
            "SETMASTER t CHUNK 1 CNT 1 CRC 'afd8cf80b4beb688e2c77ac8b94682e4'\n",
        ),
        (
            "ROW r1 t (1, 11)\nROW source t (1, 10)\n",
            16,
            "VERDICT r1 t 1 FROM LOW TO HIGH AT 2 COUNT 1 1 DIFFER\nFINAL source t (1, 10)\nFINAL r1 t (1, 11)\nUNEQUAL r1 t\nSTATUS 16\n",
        ),
        (
            "ROW r1 t (3, 0)\nROW * t (2, 0)\nROW r1 t (-1, 0)\n",
            16,
            "VERDICT r1 t 1 FROM LOW TO HIGH AT 2 COUNT 1 3 DIFFER\nFINAL source t (2, 0)\nFINAL r1 t (-1, 0)\nFINAL r1 t (2, 0)\nFINAL r1 t (3, 0)\nUNEQUAL r1 t\nSTATUS 16\n",
        ),
    ] {
        assert!(rt; gives(rt.alloc(), rows, code, lines)?, "{rows}");
    }
    Ok(())
}

/// The same of a file with rows and a script under `SESSION s1`.
fn script_gives(alloc: Global, rows: &str, script: &str, status: u8, lines: &str) -> R<bool> {
    let body = format!(in alloc; "{rows}SESSION s1\n{script}")?;
    gives(alloc, body.as_str(), status, lines)
}

/// A duplicate on the source, an INSERT that only the replica has already, an UPDATE of an absent
/// key, a DELETE, and the text that each form prints.
#[test]
fn sessions_write(rt: HostRuntime) -> Result<(), Fail> {
    for (rows, script, code, lines) in [
        (
            "ROW * t (1, 10)\n",
            "INSERT INTO t VALUES (1, 5)\n",
            0,
            "EQUAL r1 t\nDUPLICATE s1 line 6\nSTATUS 0\n",
        ),
        (
            "ROW * t (1, 10)\nROW r1 t (5, 50)\n",
            "INSERT INTO t VALUES (5, 55)\n",
            16,
            "FINAL source t (1, 10)\nFINAL source t (5, 55)\nFINAL r1 t (1, 10)\nFINAL r1 t (5, 50)\nUNEQUAL r1 t\nSTATUS 16\n",
        ),
        (
            "ROW * t (1, 10)\n",
            "UPDATE t SET v = 7 WHERE id = 2\n",
            0,
            "LOG 1 s1\n  UPDATE t SET v = 7 WHERE id = 2\nLOG 2 c\n",
        ),
        (
            "ROW * t (1, 10)\nROW * t (2, 20)\n",
            "DELETE FROM t WHERE id = 1\nINSERT INTO t VALUES (-3, 0)\nUPDATE t SET v = -9 WHERE id = 2\n",
            0,
            "FINAL source t (-3, 0)\nFINAL source t (2, -9)\nFINAL r1 t (-3, 0)\nFINAL r1 t (2, -9)\nEQUAL r1 t\nSTATUS 0\n",
        ),
        (
            "ROW source t (1, 10)\nROW r1 t (1, 11)\n",
            "UPDATE t SET v = 12 WHERE id = 1\n",
            0,
            "COUNT 1 1 SAME\nFINAL source t (1, 12)\nFINAL r1 t (1, 12)\nEQUAL r1 t\nSTATUS 0\n",
        ),
    ] {
        assert!(rt;
            script_gives(rt.alloc(), rows, script, code, lines)?,
            "{script}"
        );
    }
    Ok(())
}

/// A session of a thousand statements.
#[test]
fn thousand_statements(rt: HostRuntime) -> Result<(), Fail> {
    let mut script = String::new(rt.alloc());
    for i in 0..1000u64 {
        script.push_str("INSERT INTO t VALUES (")?;
        script.push_str(i.to_string(rt.alloc())?.as_str())?;
        script.push_str(", 1)\n")?;
    }
    let lines = "LOG 1003 s1\n  INSERT INTO t VALUES (999, 1)\nHISTORY r1 applied 1\n";
    assert!(rt; script_gives(rt.alloc(), "", script.as_str(), 0, lines)?);
    Ok(())
}

/// What a file is before its SCHEDULE lines: the source and the replica differ, and one UPDATE makes
/// their rows equal.
const DRIFTED: &str =
    "ROW source t (1, 10)\nROW r1 t (1, 11)\nSESSION s1\nUPDATE t SET v = 12 WHERE id = 1\n";

/// Whether such a file with these SCHEDULE lines is answered by this status and a text with these lines.
fn schedule_gives(alloc: Global, schedule: &str, status: u8, lines: &str) -> R<bool> {
    let body = format!(in alloc; "{DRIFTED}{schedule}")?;
    gives(alloc, body.as_str(), status, lines)
}

/// The report where the UPDATE stands between CHECKSUM and SETMASTER.
const BETWEEN: &str =
    "PTC REPORT 1\nTABLE t (id BIGINT KEY, v BIGINT)\nSTART source t (1, 10)\nSTART r1 t (1, 11)\nLOG 1 c\n  CLEARCHECKS t\nLOG 2 c\n  CHECKSUM t CHUNK 1 FROM LOW TO HIGH USING MD5\nLOG 3 s1\n  UPDATE t SET v = 12 WHERE id = 1\nLOG 4 c\n  SETMASTER t CHUNK 1 CNT 1 CRC 'afd8cf80b4beb688e2c77ac8b94682e4'\nHISTORY r1 applied 1\nHISTORY r1 applied 2\nHISTORY r1 applied 3\nHISTORY r1 applied 4\nVERDICT r1 t 1 FROM LOW TO HIGH AT 2 COUNT 1 1 DIFFER\nFINAL source t (1, 12)\nFINAL r1 t (1, 12)\nEQUAL r1 t\nSTATUS 16\n";

/// The replica follows the log, and the verdict stands at its CHECKSUM.
const FOLLOWED: &str =
    "HISTORY r1 applied 1\nHISTORY r1 applied 2\nHISTORY r1 applied 3\nHISTORY r1 applied 4\nVERDICT r1 t 1 FROM LOW TO HIGH AT 2 COUNT 1 1 DIFFER\n";

/// Wherever the applier's turns stand, ahead of the log, beside it or behind it, and on however many
/// lines: it applies each entry once, in order, and the verdict stands at its CHECKSUM.
#[test]
fn applier_runs_ahead_and_behind(rt: HostRuntime) -> Result<(), Fail> {
    for schedule in [
        "SCHEDULE c c s1\n",
        "SCHEDULE c c s1 c\n",
        "SCHEDULE c c s1 c r1 r1 r1 r1 r1\n",
        "SCHEDULE c r1 c r1 s1 r1 c r1\n",
        "SCHEDULE r1 r1 r1 c r1 r1 c c s1\n",
        "SCHEDULE r1\nSCHEDULE c c\nSCHEDULE\nSCHEDULE r1 s1\n",
        "SCHEDULE c c s1 s1 s1 r1 c c c\n",
    ] {
        assert!(rt;
            schedule_gives(rt.alloc(), schedule, 16, FOLLOWED)?,
            "{schedule}"
        );
    }
    Ok(())
}

/// The UPDATE between the tool's entries: the whole report.
#[test]
fn between_checksum_and_master(rt: HostRuntime) -> Result<(), Fail> {
    let body = format!(in rt.alloc(); "{DRIFTED}SCHEDULE c c s1\n")?;
    assert!(rt; file_prints(rt.alloc(), body.as_str(), 16, BETWEEN)?);
    Ok(())
}

/// The UPDATE before, between and after the checksum tool's entries. The published checksum is that of
/// the rows at CHECKSUM, not at SETMASTER.
#[test]
fn update_at_each_place(rt: HostRuntime) -> Result<(), Fail> {
    for (schedule, code, lines) in [
        (
            "SCHEDULE s1\n",
            0,
            "LOG 1 s1\n  UPDATE t SET v = 12 WHERE id = 1\nLOG 2 c\n  CLEARCHECKS t\n",
        ),
        (
            "SCHEDULE c s1\n",
            0,
            "LOG 2 s1\n  UPDATE t SET v = 12 WHERE id = 1\nLOG 3 c\n  CHECKSUM t CHUNK 1 FROM LOW TO HIGH USING MD5\n",
        ),
        (
            "SCHEDULE c s1\n",
            0,
            "VERDICT r1 t 1 FROM LOW TO HIGH AT 3 COUNT 1 1 SAME\n",
        ),
        (
            "SCHEDULE c c c s1\n",
            16,
            "LOG 3 c\n  SETMASTER t CHUNK 1 CNT 1 CRC 'afd8cf80b4beb688e2c77ac8b94682e4'\nLOG 4 s1\n  UPDATE t SET v = 12 WHERE id = 1\n",
        ),
        (
            "SCHEDULE c c c s1\n",
            16,
            "VERDICT r1 t 1 FROM LOW TO HIGH AT 2 COUNT 1 1 DIFFER\nFINAL source t (1, 12)\nFINAL r1 t (1, 12)\nEQUAL r1 t\nSTATUS 16\n",
        ),
    ] {
        assert!(rt;
            schedule_gives(rt.alloc(), schedule, code, lines)?,
            "{schedule}"
        );
    }
    Ok(())
}

/// A line of 100,000 items, most of which move nothing: the run goes on behind them.
#[test]
fn hundred_thousand_items(rt: HostRuntime) -> Result<(), Fail> {
    let mut schedule = String::from_str(rt.alloc(), "SCHEDULE")?;
    for _ in 0..50_000u32 {
        schedule.push_str(" c r1")?;
    }
    schedule.push_str("\n")?;
    let lines = "LOG 4 s1\n  UPDATE t SET v = 12 WHERE id = 1\nHISTORY r1 applied 1\n";
    assert!(rt; schedule_gives(rt.alloc(), schedule.as_str(), 16, lines)?);
    Ok(())
}

/// An item of the session is refused where no session stands.
#[test]
fn schedules_are_refused(rt: HostRuntime) -> Result<(), Fail> {
    let line = "ptc: workload refused: line 5: early\n";
    assert!(rt; file_prints(rt.alloc(), "SCHEDULE c\nSCHEDULE s1\n", 1, line)?);
    Ok(())
}
