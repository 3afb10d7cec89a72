ghost use Rattle.std.specs.Prelude.{◌≡◌, ◌<◌, ◌≤◌, ◌+◌, ◌^◌, length, [], MatchOption};
ghost use Rattle.statement_tokens.specs.FirstToken.{behind, is_space};
ghost use Rattle.file_text.specs.Parts.{is_sign as is_sign_byte, no_sign};
ghost use Rattle.line_parts.specs.Cuts.{parts_from, cutting_behind as the_cutting_behind, behind_part as what_is_behind, behind_word as what_is_behind_word, is_plain as is_plain_byte, NextPart};

use crate::cuttings::{Cutting, LinePart};
use crate::token_ends::behind_token;
use statement_tokens::behind_spaces;

/// The first part of the rest of a line whose first byte has this place; None where there is none.
#[tactic(auto, using(crate::proofs::PartLemmas::no_part, crate::proofs::PartLemmas::one_part))]
pub fn next_part<'a>(cutting: Cutting, place: u32, bytes: &'a [u8]) -> Option<LinePart<'a>>
    requires { place + length bytes.now < 2 ^ 32 }
    ensures { MatchOption result (parts_from cutting place bytes.now ≡ []) (λ found.
        NextPart cutting place bytes.now found.place found.text.now found.next found.rest.now found.cutting) }
{
    let here = behind_spaces(bytes);
    match here.split_first() {
        None => None,
        Some((byte, more)) => {
            let rest = behind_part(cutting, *byte, more);
            let before = bytes.len() - here.len();
            let size = here.len() - rest.len();
            Some(LinePart {
                place: place + before as u32,
                text: here.split_at(size).0,
                next: place + (before + size) as u32,
                rest,
                cutting: cutting_behind(cutting, *byte),
            })
        }
    }
}

fn cutting_behind(cutting: Cutting, byte: u8) -> Cutting
    ensures { result ≡ the_cutting_behind cutting byte }
{
    match cutting {
        Cutting::RowFront => {
            if byte == b'(' {
                Cutting::RowTokens
            } else {
                Cutting::RowFront
            }
        }
        _ => cutting,
    }
}

/// What is behind a part with this first byte, which stands before the text.
#[tactic(auto, using(crate::proofs::PartLemmas::part_shorter))]
fn behind_part<'a>(cutting: Cutting, byte: u8, text: &'a [u8]) -> &'a [u8]
    ensures rest { result.now ≡ what_is_behind cutting byte text.now }
    ensures shorter { length result.now ≤ length text.now }
{
    let rest = part_end(cutting, byte, text);
    rest
}

fn part_end<'a>(cutting: Cutting, byte: u8, text: &'a [u8]) -> &'a [u8]
    ensures { result.now ≡ what_is_behind cutting byte text.now }
{
    match cutting {
        Cutting::Words => behind_unparted(text),
        Cutting::RowTokens => behind_token(byte, text),
        Cutting::SignedWords | Cutting::RowFront => behind_signed(byte, text),
    }
}

fn behind_unparted<'a>(text: &'a [u8]) -> &'a [u8]
    ensures { result.now ≡ behind (is_plain_byte no_sign) text.now }
{
    let mut rest = text;
    while let Some((byte, more)) = rest.split_first() {
        if *byte == b' ' {
            return rest;
        }
        rest = more;
    }
    rest
}

fn behind_signed<'a>(byte: u8, text: &'a [u8]) -> &'a [u8]
    ensures { result.now ≡ what_is_behind_word is_sign_byte byte text.now }
{
    if is_sign(byte) {
        text
    } else {
        behind_parted(text)
    }
}

fn behind_parted<'a>(text: &'a [u8]) -> &'a [u8]
    ensures { result.now ≡ behind (is_plain_byte is_sign_byte) text.now }
{
    let mut rest = text;
    while let Some((byte, more)) = rest.split_first() {
        if *byte == b' ' || is_sign(*byte) {
            return rest;
        }
        rest = more;
    }
    rest
}

fn is_sign(byte: u8) -> bool
    ensures { result ≡ is_sign_byte byte }
{
    byte == b'(' || byte == b')' || byte == b','
}
