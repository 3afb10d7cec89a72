use crate::tables::{is_read, is_refused};
use row_types::R;
use statement_grammar::TextFault;
use std::alloc::Global;
use std::test::Fail;

/// A text in which a word is repeated, and the end as often.
#[derive(Clone, Copy)]
struct Repetition {
    start: &'static [u8],
    word: &'static [u8],
    middle: &'static [u8],
    end: &'static [u8],
}

fn push_times(out: &mut Vec<u8>, word: &[u8], times: u32) -> R<()> {
    for _ in 0..times {
        out.extend_from_slice(word)?;
    }
    Ok(())
}

fn text_of(alloc: Global, parts: Repetition, times: u32) -> R<Vec<u8>> {
    let mut out = Vec::from_slice(alloc, parts.start)?;
    push_times(&mut out, parts.word, times)?;
    out.extend_from_slice(parts.middle)?;
    push_times(&mut out, parts.end, times)?;
    Ok(out)
}

/// Whether the text is read where the word stands so often, and with one more is too deep at the place.
fn is_highest(alloc: Global, parts: Repetition, times: u32, place: u32) -> R<bool> {
    let highest = text_of(alloc, parts, times)?;
    let deeper = text_of(alloc, parts, times.wrapping_add(1))?;
    let is_refused = is_refused(alloc, deeper.as_slice(), TextFault::TooDeep { place })?;
    Ok(is_read(alloc, highest.as_slice())? && is_refused)
}

fn repeated(
    start: &'static [u8],
    word: &'static [u8],
    middle: &'static [u8],
    end: &'static [u8],
) -> Repetition {
    Repetition {
        start,
        word,
        middle,
        end,
    }
}

const DELETE: &[u8] = b"DELETE FROM t WHERE ";

const SET: &[u8] = b"UPDATE t SET v = 1";

const ASSIGNED: &[u8] = b"DELETE FROM t WHERE v = ";

const EQUAL: &[u8] = b"DELETE FROM t WHERE v = 1";

/// A tree may be 64 high, and is too deep at the token with which it is 65 high.
#[test]
fn trees_of_conditions_are_64_high(rt: HostRuntime) -> Result<(), Fail> {
    let alloc = rt.alloc();
    for (parts, times, place) in [
        (repeated(DELETE, b"NOT ", b"v = 1", b""), 62, 275),
        (repeated(DELETE, b"NOT ", b"v IS NULL", b""), 62, 275),
        (
            repeated(DELETE, b"NOT ", b"v BETWEEN 1 AND 2", b""),
            61,
            271,
        ),
        (
            repeated(b"DELETE FROM k WHERE ", b"NOT ", b"(a, b) = (1, 'x')", b""),
            63,
            273,
        ),
        (repeated(EQUAL, b" AND v = 1", b"", b""), 62, 647),
        (repeated(EQUAL, b" OR v = 1", b"", b""), 62, 585),
        (repeated(EQUAL, b" OR (v = 1", b"", b")"), 62, 647),
    ] {
        assert!(rt; is_highest(alloc, parts, times, place)?);
    }
    Ok(())
}

#[test]
fn trees_of_expressions_are_64_high(rt: HostRuntime) -> Result<(), Fail> {
    let alloc = rt.alloc();
    for (parts, times, place) in [
        (repeated(EQUAL, b" + 1", b"", b""), 62, 275),
        (repeated(EQUAL, b" - 1", b"", b""), 62, 275),
        (repeated(EQUAL, b" * 1", b"", b""), 62, 275),
        (repeated(ASSIGNED, b"- ", b"v", b""), 62, 149),
        (repeated(ASSIGNED, b"(1 + ", b"1", b")"), 62, 338),
        (repeated(DELETE, b"-", b"v IS NULL", b""), 62, 86),
        (repeated(SET, b" + 1", b"", b""), 63, 272),
    ] {
        assert!(rt; is_highest(alloc, parts, times, place)?);
    }
    Ok(())
}

/// Parentheses do not count.
#[test]
fn parentheses_may_be_many(rt: HostRuntime) -> Result<(), Fail> {
    let alloc = rt.alloc();
    let text = text_of(alloc, repeated(DELETE, b"(", b"v = 1", b")"), 10000)?;
    assert!(rt; is_read(alloc, text.as_slice())?);
    Ok(())
}
