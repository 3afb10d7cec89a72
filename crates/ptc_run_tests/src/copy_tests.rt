//! Copies of faults: each is the same as what it was made from, and as no other.
use ptc_run::{FileFault, LimitKind, WordFault, read_words};
use std::test::Fail;

const FAULTS: [FileFault; 4] = [
    FileFault::Early { number: 3 },
    FileFault::Early { number: 4 },
    FileFault::Limit {
        which: LimitKind::Bytes,
        got: 16_777_217,
    },
    FileFault::Memory,
];

#[test]
fn faults_are_copied(rt: HostRuntime) -> Result<(), Fail> {
    for i in 0..4 {
        for j in 0..4 {
            let copy = FAULTS[i].copy(rt.alloc())?;
            assert!(rt; copy.same(&FAULTS[j]) == (i == j));
        }
    }
    let kind = LimitKind::Bytes.copy(rt.alloc())?;
    assert!(rt; kind.same(&LimitKind::Bytes));
    Ok(())
}

const WORD_FAULTS: [WordFault; 3] = [
    WordFault::Nothing,
    WordFault::Bad { index: 1 },
    WordFault::Bad { index: 2 },
];

#[test]
fn word_faults_are_copied(rt: HostRuntime) -> Result<(), Fail> {
    for i in 0..3 {
        for j in 0..3 {
            let copy = WORD_FAULTS[i].copy(rt.alloc())?;
            assert!(rt; copy.same(&WORD_FAULTS[j]) == (i == j));
        }
    }
    Ok(())
}

#[test]
fn words_are_read(rt: HostRuntime) -> Result<(), Fail> {
    for (text, result) in [
        ("run", Ok(())),
        ("Run", Err(WordFault::Bad { index: 1 })),
        ("", Err(WordFault::Bad { index: 1 })),
    ] {
        let words = [String::from_str(rt.alloc(), text)?];
        assert_eq!(rt; read_words(words.as_slice()), result, "{text}");
    }
    assert_eq!(rt; read_words(&[]), Err(WordFault::Nothing));
    Ok(())
}
