ghost use Rattle.std.specs.Prelude.{◌≡◌};
ghost use Rattle.std.specs.Str.{str_eq_ignore_ascii_case};
ghost use Rattle.statement_tokens.specs.FirstToken.{behind};
ghost use Rattle.file_text.specs.Said.{first_word as the_first_word, spelling};
ghost use Rattle.file_text.specs.Rules.{all_sections, before_sign as the_front, first_named};
ghost use Rattle.line_words.specs.Sections.{is_no_sign};

use file_text::{Keyword, Section};

/// The word that begins the lines of a section.
fn first_word(section: Section) -> &'static [u8]
    ensures { result.now ≡ the_first_word section }
{
    match section {
        Section::PtcLines => b"PTC".as_slice(),
        Section::IsolationLines => b"ISOLATION".as_slice(),
        Section::ReplicaLines => b"REPLICAS".as_slice(),
        Section::TableLines => b"TABLE".as_slice(),
        Section::RowLines => b"ROW".as_slice(),
        Section::SessionLines => b"SESSION".as_slice(),
        Section::LocalLines => b"LOCAL".as_slice(),
        Section::ScheduleLines => b"SCHEDULE".as_slice(),
        Section::EndLines => b"END".as_slice(),
    }
}

fn letters(keyword: Keyword) -> &'static [u8]
    ensures { result.now ≡ spelling keyword }
{
    match keyword {
        Keyword::First(section) => first_word(section),
        Keyword::WorkloadWord => b"WORKLOAD".as_slice(),
        Keyword::RepeatableWord => b"REPEATABLE".as_slice(),
        Keyword::ReadWord => b"READ".as_slice(),
        Keyword::CommittedWord => b"COMMITTED".as_slice(),
        Keyword::UncommittedWord => b"UNCOMMITTED".as_slice(),
        Keyword::SerializableWord => b"SERIALIZABLE".as_slice(),
        Keyword::IntWord => b"INT".as_slice(),
        Keyword::BigIntWord => b"BIGINT".as_slice(),
        Keyword::VarcharWord => b"VARCHAR".as_slice(),
        Keyword::KeyWord => b"KEY".as_slice(),
        Keyword::NotWord => b"NOT".as_slice(),
        Keyword::NullKeyword => b"NULL".as_slice(),
    }
}

/// Whether a text is this word, in any mix of capital and small letters.
pub fn is_keyword(keyword: Keyword, text: &[u8]) -> bool
    ensures { result ≡ str_eq_ignore_ascii_case (spelling keyword) text.now }
{
    letters(keyword).eq_ignore_ascii_case(text)
}

/// What is left of a text from its first sign on.
fn from_sign<'a>(text: &'a [u8]) -> &'a [u8]
    ensures { result.now ≡ behind is_no_sign text.now }
{
    let mut rest = text;
    while let Some((byte, more)) = rest.split_first() {
        if *byte == b'(' || *byte == b')' || *byte == b',' {
            return rest;
        }
        rest = more;
    }
    rest
}

/// What stands before the first sign of a text.
#[tactic(auto, using(statement_tokens::proofs::CutLemmas::behind_shorter, crate::proofs::SectionLemmas::before_is))]
fn before_sign<'a>(text: &'a [u8]) -> &'a [u8]
    ensures { result.now ≡ the_front text.now }
{
    let rest = from_sign(text);
    let front = text.split_at(text.len() - rest.len()).0;
    front
}

fn begins(section: Section, text: &[u8]) -> bool
    ensures { result ≡ str_eq_ignore_ascii_case (the_first_word section) text.now }
{
    first_word(section).eq_ignore_ascii_case(text)
}

/// The section whose lines this first word begins; TABLE and ROW may touch a sign.
#[tactic(auto, unfolding(file_text::specs::Rules::all_sections))]
pub fn section_named(text: &[u8]) -> Option<Section>
    ensures { result ≡ first_named text.now all_sections }
{
    if begins(Section::PtcLines, text) {
        return Some(Section::PtcLines);
    }
    if begins(Section::IsolationLines, text) {
        return Some(Section::IsolationLines);
    }
    if begins(Section::ReplicaLines, text) {
        return Some(Section::ReplicaLines);
    }
    let front = before_sign(text);
    if begins(Section::TableLines, front) {
        return Some(Section::TableLines);
    }
    if begins(Section::RowLines, front) {
        return Some(Section::RowLines);
    }
    if begins(Section::SessionLines, text) {
        return Some(Section::SessionLines);
    }
    if begins(Section::LocalLines, text) {
        return Some(Section::LocalLines);
    }
    if begins(Section::ScheduleLines, text) {
        return Some(Section::ScheduleLines);
    }
    if begins(Section::EndLines, text) {
        return Some(Section::EndLines);
    }
    None
}
