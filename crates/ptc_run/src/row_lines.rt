//! The ROW lines of the first form.

ghost use Rattle.std.specs.Prelude.{◌≡◌, ◌+◌, ◌<◌, ◌≤◌, List, ℕ, ℤ, [], ◌∷◌, ◌++◌, IfSome, Some, FitsSigned, codes, IsSomeAnd};
ghost use Rattle.std.specs.Fmt.{signed_decimal};
ghost use Rattle.std.specs.Int.{w64};
ghost use Rattle.ptc_run.specs.RowLines.{node_text, row_line, numbers_text, NumbersFit, is_for_source, is_for_replica};

use crate::line_cuts::{behind, cut_at};
use itoa::Buffer;

/// Whose rows a ROW line gives: those of every node, of the source, or of the replica.
#[derive(Clone, Copy, Debug, PartialEq, Eq)]
pub enum RowNode {
    All,
    Source,
    Replica,
}

impl RowNode {
    pub fn is_for_source(self) -> bool
        ensures { result ≡ is_for_source self }
    {
        match self {
            RowNode::All | RowNode::Source => true,
            RowNode::Replica => false,
        }
    }

    pub fn is_for_replica(self) -> bool
        ensures { result ≡ is_for_replica self }
    {
        match self {
            RowNode::All | RowNode::Replica => true,
            RowNode::Source => false,
        }
    }
}

/// A ROW line: the node, the key and the value.
#[derive(Clone, Copy, Debug, PartialEq, Eq)]
pub struct RowLine {
    pub node: RowNode,
    pub key: i64,
    pub value: i64,
}

/// The number that a text spells in canonical decimal.
fn number_of(token: &[u8]) -> Option<i64>
    ensures found { IfSome result (λ n. (token.now ≡ signed_decimal n) × FitsSigned w64 n) }
    ensures only { (n : ℤ) → FitsSigned w64 n → token.now ≡ signed_decimal n → result ≡ Some n }
{
    let Ok(text) = std::str::from_utf8(token) else {
        return None;
    };
    let Ok(number) = text.parse::<i64>() else {
        return None;
    };
    let mut buffer = Buffer::new();
    if buffer.format(number).as_bytes() == token {
        Some(number)
    } else {
        None
    }
}

/// The number before a stop, and what stands behind the stop.
pub fn number_before(bytes: &[u8], stop: u8) -> Option<(i64, &[u8])>
    requires { stop < 45 }
    ensures found { IfSome result (λ x.
        (bytes.now ≡ signed_decimal x.0 ++ stop ∷ x.1.now) × FitsSigned w64 x.0) }
    ensures only { (n : ℤ) (rest : List ℕ) → FitsSigned w64 n →
        bytes.now ≡ signed_decimal n ++ stop ∷ rest →
        IsSomeAnd result (λ x. (x.0 ≡ n) × (x.1.now ≡ rest)) }
{
    let Some((token, rest)) = cut_at(bytes, stop) else {
        return None;
    };
    let Some(number) = number_of(token) else {
        return None;
    };
    Some((number, rest))
}

/// The node, and what stands behind the table's word and the bracket.
fn node_of(bytes: &[u8]) -> Option<(RowNode, &[u8])>
    ensures found { IfSome result (λ x. bytes.now ≡ node_text x.0 ++ x.1.now) }
    ensures only { (node : RowNode) (rest : List ℕ) → bytes.now ≡ node_text node ++ rest →
        IsSomeAnd result (λ x. (x.0 ≡ node) × (x.1.now ≡ rest)) }
{
    if let Some(rest) = behind(bytes, b"* t (") {
        return Some((RowNode::All, rest));
    }
    if let Some(rest) = behind(bytes, b"source t (") {
        return Some((RowNode::Source, rest));
    }
    if let Some(rest) = behind(bytes, b"r1 t (") {
        return Some((RowNode::Replica, rest));
    }
    None
}

/// The key and the value.
pub fn numbers_of(bytes: &[u8]) -> Option<(i64, i64)>
    ensures found { IfSome result (λ x.
        (bytes.now ≡ numbers_text x.0 x.1) × FitsSigned w64 x.0 × FitsSigned w64 x.1) }
    ensures only { (key value : ℤ) → FitsSigned w64 key → FitsSigned w64 value →
        bytes.now ≡ numbers_text key value →
        result ≡ Some (key, value) }
{
    let Some((key, rest)) = number_before(bytes, b',') else {
        return None;
    };
    let Some(rest) = behind(rest, b" ") else {
        return None;
    };
    let Some((value, rest)) = number_before(rest, b')') else {
        return None;
    };
    if rest == b"\n".as_slice() {
        Some((key, value))
    } else {
        None
    }
}

/// The ROW line that a line is.
pub fn row_of(line: &[u8]) -> Option<RowLine>
    ensures found { IfSome result (λ row. (line.now ≡ row_line row) × NumbersFit row) }
    ensures only { (row : RowLine) → NumbersFit row → line.now ≡ row_line row → result ≡ Some row }
{
    let Some(rest) = behind(line, b"ROW ") else {
        return None;
    };
    let Some((node, rest)) = node_of(rest) else {
        return None;
    };
    let Some((key, value)) = numbers_of(rest) else {
        return None;
    };
    Some(RowLine { node, key, value })
}
