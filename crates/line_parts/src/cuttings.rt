/// How the rest of a line is cut.
#[derive(Clone, Copy, Debug, PartialEq, Eq)]
pub enum Cutting {
    /// into words parted by spaces
    Words,
    /// into words and the signs `( ) ,`
    SignedWords,
    /// a ROW up to its first parenthesis, into words and signs
    RowFront,
    /// a ROW behind its first parenthesis, into tokens of statement text
    RowTokens,
}

/// A part of a line, and what stands behind it. Places are bytes of the line, from 1.
#[derive(Clone, Copy, Debug)]
pub struct LinePart<'a> {
    /// of the part's first byte
    pub place: u32,
    pub text: &'a [u8],
    /// of the first byte of the rest
    pub next: u32,
    pub rest: &'a [u8],
    /// how the rest is cut
    pub cutting: Cutting,
}
