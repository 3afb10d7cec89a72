//! Tokens of every kind with their places, and what is none.
ghost use Rattle.std.specs.Prelude.{◌<◌, length};

use crate::{Keyword, Math, TextEnd, Token, Word, tokens_of};
use ptc_statement::Op;
use row_types::R;
use std::alloc::Global;
use std::test::Fail;

/// How many tokens a text has, and where it ends.
fn counted(alloc: Global, text: &[u8]) -> R<(usize, bool, u32)>
    requires { length text.now < 1000 }
{
    let (tokens, end) = tokens_of(alloc, text)?;
    let (whole, place) = match end {
        TextEnd::Whole { past } => (true, past),
        TextEnd::NoToken { place } => (false, place),
    };
    Ok((tokens.len(), whole, place))
}

fn is_at(token: Option<&Token>, word: &Word, place: u32) -> bool {
    match token {
        None => false,
        Some(token) => token.place == place && same(&token.word, word),
    }
}

fn same(a: &Word, b: &Word) -> bool {
    match (a, b) {
        (Word::Name(a), Word::Name(b)) | (Word::Text(a), Word::Text(b)) => a.same(b),
        (Word::Number(a), Word::Number(b)) => a == b,
        (Word::Compare(a), Word::Compare(b)) => a == b,
        (Word::Math(a), Word::Math(b)) => a == b,
        (Word::Keyword(a), Word::Keyword(b)) => a == b,
        (Word::Null, Word::Null) | (Word::Between, Word::Between) => true,
        _ => false,
    }
}

/// Whether the token of this number is the word at the place.
fn has(alloc: Global, text: &[u8], number: usize, word: &Word, place: u32) -> R<bool>
    requires { length text.now < 1000 }
{
    let (tokens, _end) = tokens_of(alloc, text)?;
    Ok(is_at(tokens.as_slice().get(number), word, place))
}

#[test]
fn words_and_signs_have_their_places(rt: HostRuntime) -> Result<(), Fail> {
    let alloc = rt.alloc();
    let text = b" uPdate t<>-5 between NULL".as_slice();
    assert!(rt; counted(alloc, text)? == (7, true, 27));
    assert!(rt; has(alloc, text, 0, &Word::Keyword(Keyword::Update), 2)?);
    assert!(rt; has(alloc, text, 2, &Word::Compare(Op::Ne), 10)?);
    assert!(rt; has(alloc, text, 3, &Word::Math(Math::Minus), 12)?);
    assert!(rt; has(alloc, text, 4, &Word::Number(5), 13)?);
    assert!(rt; has(alloc, text, 5, &Word::Between, 15)?);
    assert!(rt; has(alloc, text, 6, &Word::Null, 23)?);
    Ok(())
}

#[test]
fn numbers_end_with_128_bits(rt: HostRuntime) -> Result<(), Fail> {
    let alloc = rt.alloc();
    let most = b"170141183460469231731687303715884105727".as_slice();
    assert!(rt;
        has(
            alloc,
            most,
            0,
            &Word::Number(170141183460469231731687303715884105727),
            1
        )?
    );
    let more = b"170141183460469231731687303715884105728".as_slice();
    assert!(rt; counted(alloc, more)? == (0, false, 1));
    let least = b"- 170141183460469231731687303715884105728".as_slice();
    assert!(rt; counted(alloc, least)? == (2, true, 42));
    let less = b"-170141183460469231731687303715884105729".as_slice();
    assert!(rt; counted(alloc, less)? == (1, false, 2));
    let taken_from = b"1-170141183460469231731687303715884105728".as_slice();
    assert!(rt; counted(alloc, taken_from)? == (2, false, 3));
    Ok(())
}

#[test]
fn what_is_no_token_has_its_place(rt: HostRuntime) -> Result<(), Fail> {
    let alloc = rt.alloc();
    assert!(rt; counted(alloc, b"t  'a''")? == (1, false, 4));
    assert!(rt; counted(alloc, b"'it''s' '\x80'")? == (2, true, 12));
    assert!(rt; counted(alloc, b"'\x7f'")? == (0, false, 1));
    assert!(rt; counted(alloc, b"a ! b")? == (1, false, 3));
    assert!(rt; counted(alloc, b"a\tb")? == (1, false, 2));
    assert!(rt; counted(alloc, b"5WHERE  ")? == (2, true, 7));
    assert!(rt; counted(alloc, b"  ")? == (0, true, 1));
    Ok(())
}

#[test]
fn names_have_at_most_32_bytes(rt: HostRuntime) -> Result<(), Fail> {
    let alloc = rt.alloc();
    assert!(rt; counted(alloc, b"abcdefghijabcdefghijabcdefghij_2")? == (1, true, 33));
    assert!(rt; counted(alloc, b"abcdefghijabcdefghijabcdefghij_23")? == (0, false, 1));
    Ok(())
}
