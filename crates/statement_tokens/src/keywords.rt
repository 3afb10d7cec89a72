ghost use Rattle.std.specs.Prelude.{◌≡◌};
ghost use Rattle.statement_tokens.specs.Spellings.{keyword_text};
ghost use Rattle.statement_tokens.specs.FirstToken.{all_keywords, keyword_named as named_keyword, operator_named as named_operator, reserved_word as reserved};

use crate::words::{Keyword, Word};

impl Keyword {
    /// The letters of the keyword.
    pub fn letters(&self) -> &'static [u8]
        ensures { result.now ≡ keyword_text self.now }
    {
        match self {
            Keyword::Insert => b"INSERT".as_slice(),
            Keyword::Into => b"INTO".as_slice(),
            Keyword::Values => b"VALUES".as_slice(),
            Keyword::Replace => b"REPLACE".as_slice(),
            Keyword::Delete => b"DELETE".as_slice(),
            Keyword::From => b"FROM".as_slice(),
            Keyword::Where => b"WHERE".as_slice(),
            Keyword::Update => b"UPDATE".as_slice(),
            Keyword::Set => b"SET".as_slice(),
            Keyword::Select => b"SELECT".as_slice(),
            Keyword::For => b"FOR".as_slice(),
            Keyword::Share => b"SHARE".as_slice(),
            Keyword::Lock => b"LOCK".as_slice(),
            Keyword::In => b"IN".as_slice(),
            Keyword::Mode => b"MODE".as_slice(),
            Keyword::Checksum => b"CHECKSUM".as_slice(),
            Keyword::Chunk => b"CHUNK".as_slice(),
            Keyword::To => b"TO".as_slice(),
            Keyword::Using => b"USING".as_slice(),
            Keyword::SetMaster => b"SETMASTER".as_slice(),
            Keyword::Cnt => b"CNT".as_slice(),
            Keyword::Crc => b"CRC".as_slice(),
            Keyword::ClearChecks => b"CLEARCHECKS".as_slice(),
            Keyword::Low => b"LOW".as_slice(),
            Keyword::High => b"HIGH".as_slice(),
            Keyword::Before => b"BEFORE".as_slice(),
            Keyword::After => b"AFTER".as_slice(),
            Keyword::Md5 => b"MD5".as_slice(),
            Keyword::Sha1 => b"SHA1".as_slice(),
            Keyword::Key => b"KEY".as_slice(),
            Keyword::Int => b"INT".as_slice(),
            Keyword::BigInt => b"BIGINT".as_slice(),
            Keyword::VarChar => b"VARCHAR".as_slice(),
        }
    }
}

fn every_keyword() -> [Keyword; 33]
    ensures { result ≡ all_keywords }
{
    [
        Keyword::Insert,
        Keyword::Into,
        Keyword::Values,
        Keyword::Replace,
        Keyword::Delete,
        Keyword::From,
        Keyword::Where,
        Keyword::Update,
        Keyword::Set,
        Keyword::Select,
        Keyword::For,
        Keyword::Share,
        Keyword::Lock,
        Keyword::In,
        Keyword::Mode,
        Keyword::Checksum,
        Keyword::Chunk,
        Keyword::To,
        Keyword::Using,
        Keyword::SetMaster,
        Keyword::Cnt,
        Keyword::Crc,
        Keyword::ClearChecks,
        Keyword::Low,
        Keyword::High,
        Keyword::Before,
        Keyword::After,
        Keyword::Md5,
        Keyword::Sha1,
        Keyword::Key,
        Keyword::Int,
        Keyword::BigInt,
        Keyword::VarChar,
    ]
}

/// The keyword that a text spells, in any case of letters, but for those of expressions and conditions.
fn keyword_named(text: &[u8]) -> Option<Keyword>
    ensures { result ≡ named_keyword text.now }
{
    let all = every_keyword();
    let mut rest = all.as_slice();
    while let Some((keyword, more)) = rest.split_first() {
        if keyword.letters().eq_ignore_ascii_case(text) {
            return Some(*keyword);
        }
        rest = more;
    }
    None
}

/// The keyword of expressions and conditions that a text spells.
#[tactic(auto, unfolding(crate::specs::FirstToken::operator_named))]
fn operator_named(text: &[u8]) -> Option<Word>
    ensures { result ≡ named_operator text.now }
{
    if b"NULL".as_slice().eq_ignore_ascii_case(text) {
        return Some(Word::Null);
    }
    if b"AND".as_slice().eq_ignore_ascii_case(text) {
        return Some(Word::And);
    }
    if b"OR".as_slice().eq_ignore_ascii_case(text) {
        return Some(Word::Or);
    }
    if b"NOT".as_slice().eq_ignore_ascii_case(text) {
        return Some(Word::Not);
    }
    if b"IS".as_slice().eq_ignore_ascii_case(text) {
        return Some(Word::Is);
    }
    if b"BETWEEN".as_slice().eq_ignore_ascii_case(text) {
        return Some(Word::Between);
    }
    None
}

/// The word of the keyword that a text spells, if it spells one.
#[tactic(auto, unfolding(crate::specs::FirstToken::reserved_word))]
pub fn reserved_word(text: &[u8]) -> Option<Word>
    ensures { result ≡ reserved text.now }
{
    let operator = operator_named(text);
    if operator.is_some() {
        return operator;
    }
    match keyword_named(text) {
        None => None,
        Some(keyword) => Some(Word::Keyword(keyword)),
    }
}
