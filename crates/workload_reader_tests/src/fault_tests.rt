use file_text::FileFault;
use refusal_text::file_refusal;
use row_types::R;
use std::alloc::Global;
use std::test::Fail;
use workload_reader::read;

const HEAD: &[u8] =
    b"PTC WORKLOAD 1\nREPLICAS 1\nTABLE t (id BIGINT KEY, v INT, s VARCHAR(3) NOT NULL)\n";

/// Lines, and the refusal of the file that they are.
const ALONE: [(&[u8], &[u8]); 12] = [
    (b"", b"ptc: workload refused: line 1: truncated\n"),
    (
        b"PTC WORKLOAD 1\nEN",
        b"ptc: workload refused: line 2: truncated\n",
    ),
    (
        b"PTC WORKLOAD 1\n",
        b"ptc: workload refused: line 2: truncated\n",
    ),
    (
        b"PTC WORKLOAD 3\n",
        b"ptc: workload refused: line 1: form at 14\n",
    ),
    (
        b"PTC WORKLOAD 1\nREPLICAS x\n",
        b"ptc: workload refused: line 2: form at 10\n",
    ),
    (
        b"PTC WORKLOAD 1\nREPLICAS   x\n",
        b"ptc: workload refused: line 2: form at 12\n",
    ),
    (b"REPLICAS 1\n", b"ptc: workload refused: line 1: order\n"),
    (
        b"PTC WORKLOAD 1\nPTC WORKLOAD 1\n",
        b"ptc: workload refused: line 2: twice\n",
    ),
    (
        b"PTC WORKLOAD 1\nISOLATION READ COMMITTED\nEND\n",
        b"ptc: workload refused: line 2: isolation\n",
    ),
    (
        b"PTC WORKLOAD 1\nISOLATION SERIALIZABLE\nEND\n",
        b"ptc: workload refused: line 2: isolation\n",
    ),
    (
        b"PTC WORKLOAD 1\nISOLATION REPEATABLE READ\nEND\n",
        b"ptc: workload refused: line 3: order\n",
    ),
    (
        b"PTC WORKLOAD 1\nREPLICAS 9\n",
        b"ptc: workload refused: limit replicas: 9\n",
    ),
];

/// Lines behind the head, and the refusal of the file that they are with it.
const BEHIND_HEAD: [(&[u8], &[u8]); 21] = [
    (
        b"ROW * t (1, 2, 'abcd')\n",
        b"ptc: workload refused: line 4: row: length\n",
    ),
    (
        b"ROW * t (1, 2)\n",
        b"ptc: workload refused: line 4: row: arity\n",
    ),
    (
        b"ROW * t (1, 'x', 'a')\n",
        b"ptc: workload refused: line 4: row: kind\n",
    ),
    (
        b"ROW * t (1, 3000000000, 'a')\n",
        b"ptc: workload refused: line 4: row: range\n",
    ),
    (
        b"ROW * t (1, 2, NULL)\n",
        b"ptc: workload refused: line 4: row: null\n",
    ),
    (
        b"ROW r1 t (1, 2, 'a')\nROW * t (1, 3, 'b')\n",
        b"ptc: workload refused: line 5: twice\n",
    ),
    (
        b"ROW r2 t (1, 2, 'a')\n",
        b"ptc: workload refused: line 4: actor at 5\n",
    ),
    (
        b"ROW * u (1, 2, 'a')\n",
        b"ptc: workload refused: line 4: actor at 7\n",
    ),
    (
        b"TABLE t (id INT KEY)\n",
        b"ptc: workload refused: line 4: twice\n",
    ),
    (
        b"SESSION s2\n",
        b"ptc: workload refused: line 4: form at 10\n",
    ),
    (
        b"SESSION s1\nINSERT INTO u VALUES (1)\n",
        b"ptc: workload refused: line 5: statement at 13: unknown table\n",
    ),
    (
        b"SESSION s1\nDELETE FROM t WHERE w = 1\n",
        b"ptc: workload refused: line 5: statement at 21: unknown column\n",
    ),
    (
        b"SESSION s1\nUPDATE t SET id = 1\n",
        b"ptc: workload refused: line 5: statement at 14: key assigned\n",
    ),
    (
        b"SESSION s1\n  DELETE t\n",
        b"ptc: workload refused: line 5: statement at 10: syntax\n",
    ),
    (
        b"SESSION s1\nCLEARCHECKS t\n",
        b"ptc: workload refused: line 5: tool statement\n",
    ),
    (
        b"SESSION s1\nCOMMIT\n",
        b"ptc: workload refused: line 5: script\n",
    ),
    (
        b"SESSION s1\nBEGIN\nEND\n",
        b"ptc: workload refused: line 6: script\n",
    ),
    (
        b"LOCAL r2.l1\n",
        b"ptc: workload refused: line 4: actor at 7\n",
    ),
    (
        b"SCHEDULE c s1\n",
        b"ptc: workload refused: line 4: actor at 12\n",
    ),
    (b"END\nEND\n", b"ptc: workload refused: line 5: after end\n"),
    (b"END x\n", b"ptc: workload refused: line 4: form at 5\n"),
];

fn refusal_is(alloc: Global, fault: FileFault, wanted: &[u8]) -> R<bool> {
    match file_refusal(alloc, b"ptc", fault)? {
        None => Ok(false),
        Some(text) => Ok(text.as_slice() == wanted),
    }
}

/// Whether the bytes are refused with this line.
fn is_refused(alloc: Global, bytes: &[u8], wanted: &[u8]) -> R<bool> {
    match read(alloc, bytes) {
        Ok(_) => Ok(false),
        Err(fault) => refusal_is(alloc, fault, wanted),
    }
}

#[test]
fn each_fault_is_told_at_its_place(rt: HostRuntime) -> Result<(), Fail> {
    let alloc = rt.alloc();
    for (text, wanted) in ALONE {
        assert!(rt; is_refused(alloc, text, wanted)?);
    }
    Ok(())
}

fn with_head(alloc: Global, text: &[u8]) -> R<Vec<u8>> {
    let mut bytes = Vec::from_slice(alloc, HEAD)?;
    bytes.extend_from_slice(text)?;
    Ok(bytes)
}

#[test]
fn each_fault_behind_tables_is_told_at_its_place(rt: HostRuntime) -> Result<(), Fail> {
    let alloc = rt.alloc();
    for (text, wanted) in BEHIND_HEAD {
        let bytes = with_head(alloc, text)?;
        assert!(rt; is_refused(alloc, bytes.as_slice(), wanted)?);
    }
    Ok(())
}

fn filled(alloc: Global, count: usize, byte: u8) -> R<Vec<u8>> {
    let mut bytes = Vec::with_capacity(alloc, count)?;
    for i in 0..count {
        bytes.push(byte)?;
    }
    Ok(bytes)
}

#[test]
fn one_byte_too_many_is_refused(rt: HostRuntime) -> Result<(), Fail> {
    let alloc = rt.alloc();
    let bytes = filled(alloc, 16777217, b'x')?;
    let wanted = b"ptc: workload refused: limit bytes: 16777217\n".as_slice();
    assert!(rt; is_refused(alloc, bytes.as_slice(), wanted)?);
    let line = filled(alloc, 65536, b' ')?;
    let wanted = b"ptc: workload refused: line 1: truncated\n".as_slice();
    assert!(rt; is_refused(alloc, line.as_slice(), wanted)?);
    Ok(())
}

fn is_truncated(alloc: Global, bytes: &[u8]) -> bool {
    match read(alloc, bytes) {
        Err(FileFault::Truncated { line: _ }) => true,
        _ => false,
    }
}

const SMALLEST: &[u8] = b"PTC WORKLOAD 1\nREPLICAS 1\nTABLE t (id BIGINT KEY, v BIGINT)\nEND\n";

#[test]
fn each_prefix_of_the_smallest_file_is_truncated(rt: HostRuntime) -> Result<(), Fail> {
    let alloc = rt.alloc();
    for end in 0..63 {
        let front = SMALLEST.split_at(end).0;
        assert!(rt; is_truncated(alloc, front));
    }
    assert!(rt; !is_truncated(alloc, SMALLEST.split_at(63).0) && !is_truncated(alloc, SMALLEST));
    Ok(())
}
