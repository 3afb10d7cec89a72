use crate::{Options, WordFault, read, steps_refusal, word_refusal};
use row_types::R;
use std::alloc::Global;
use std::test::Fail;

fn words(alloc: Global, words: &[&str]) -> R<Vec<String>> {
    let mut all = Vec::new(alloc);
    for word in words {
        all.push(String::from_str(alloc, word)?)?;
    }
    Ok(all)
}

/// What words are read as.
fn reads(alloc: Global, list: &[&str], wanted: Result<Options, WordFault>) -> R<bool> {
    Ok(read(words(alloc, list)?.as_slice()) == wanted)
}

#[test]
fn options_are_read(rt: HostRuntime) -> Result<(), Fail> {
    let alloc = rt.alloc();
    for (list, trace, retries) in [
        (["run"].as_slice(), false, 2),
        (["run", "--trace"].as_slice(), true, 2),
        (["run", "--retries", "0"].as_slice(), false, 0),
        (["run", "--retries", "0000000100"].as_slice(), false, 100),
        (["run", "--trace", "--retries", "7"].as_slice(), true, 7),
        (["run", "--retries", "7", "--trace"].as_slice(), true, 7),
    ] {
        assert!(rt;
            reads(alloc, list, Ok(Options { trace, retries }))?,
            "{list:?}"
        );
    }
    Ok(())
}

#[test]
fn the_first_bad_word_is_told(rt: HostRuntime) -> Result<(), Fail> {
    let alloc = rt.alloc();
    assert!(rt; reads(alloc, &[], Err(WordFault::Nothing))?);
    for (list, index) in [
        (["seed"].as_slice(), 1),
        (["RUN"].as_slice(), 1),
        (["run", "--help"].as_slice(), 2),
        (["run", "--trace=1"].as_slice(), 2),
        (["run", "--retries=1"].as_slice(), 2),
        (["run", "--trace", "--trace"].as_slice(), 3),
        (["run", "--retries", "101"].as_slice(), 3),
        (["run", "--retries", "00000000001"].as_slice(), 3),
        (["run", "--retries", ""].as_slice(), 3),
        (["run", "--retries", "+1"].as_slice(), 3),
        (["run", "--retries", "4294967297"].as_slice(), 3),
        (
            ["run", "--retries", "1", "--trace", "--retries"].as_slice(),
            5,
        ),
    ] {
        assert!(rt;
            reads(alloc, list, Err(WordFault::Bad { index }))?,
            "{list:?}"
        );
    }
    for (list, index) in [
        (["run", "--retries"].as_slice(), 2),
        (["run", "--trace", "--retries"].as_slice(), 3),
    ] {
        assert!(rt;
            reads(alloc, list, Err(WordFault::Missing { index }))?,
            "{list:?}"
        );
    }
    Ok(())
}

/// Whether words are refused with this line.
fn says(alloc: Global, list: &[&str], wanted: &str) -> R<bool> {
    let words = words(alloc, list)?;
    let Err(fault) = read(words.as_slice()) else {
        return Ok(false);
    };
    let line = word_refusal(alloc, b"ptc", words.as_slice(), fault)?;
    Ok(line.as_slice() == wanted.as_bytes())
}

#[test]
fn refusals_are_told(rt: HostRuntime) -> Result<(), Fail> {
    let alloc = rt.alloc();
    assert!(rt; says(alloc, &[], "ptc: no command\n")?);
    assert!(rt;
        says(
            alloc,
            &["run", "--retries", "x"],
            "ptc: word 3 refused: x\n"
        )?
    );
    assert!(rt;
        says(
            alloc,
            &["run", "--retries"],
            "ptc: value missing: --retries\n"
        )?
    );
    let line = steps_refusal(alloc, b"ptc", 10_000_000)?;
    assert!(rt; line.as_slice() == b"ptc: step limit 10000000\n".as_slice());
    Ok(())
}
