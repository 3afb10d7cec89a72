use ptc_statement::Op;
use row_types::{Bytes, Items};

/// The signs of arithmetic.
#[derive(Clone, Copy, Debug, PartialEq, Eq)]
pub enum Math {
    Plus,
    Minus,
    Times,
}

/// The keywords that are no words of expressions and conditions. The last four stand in no statement,
/// but are no names either.
#[derive(Clone, Copy, Debug, PartialEq, Eq)]
pub enum Keyword {
    Insert,
    Into,
    Values,
    Replace,
    Delete,
    From,
    Where,
    Update,
    Set,
    Select,
    For,
    Share,
    Lock,
    In,
    Mode,
    Checksum,
    Chunk,
    To,
    Using,
    SetMaster,
    Cnt,
    Crc,
    ClearChecks,
    Low,
    High,
    Before,
    After,
    Md5,
    Sha1,
    Key,
    Int,
    BigInt,
    VarChar,
}

/// What a token says. A `-` is a word of its own, also before a number, so a number is never below 0;
/// it is at most 2^127, which is one only behind a `-` that is a sign.
#[derive(Debug, Drop)]
pub enum Word {
    Name(Bytes),
    Number(u128),
    Text(Bytes),
    Null,
    Math(Math),
    Compare(Op),
    And,
    Or,
    Not,
    Is,
    Between,
    Open,
    Close,
    Comma,
    Semicolon,
    Keyword(Keyword),
}

/// A word and the place of its first byte, counted from 1.
#[derive(Debug, Drop)]
pub struct Token {
    pub word: Word,
    pub place: u32,
}

/// Tokens, in the order of their places.
pub type Tokens = Items<Token>;
