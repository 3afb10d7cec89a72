ghost use Rattle.std.specs.Prelude.{◌≡◌, ◌+◌, ◌<◌, length, take, drop, [], ◌∷◌, MatchOption};
ghost use Rattle.file_text.specs.File.{lines_of, content as the_content, has_feed as ends_in_feed};
ghost use Rattle.file_lines.specs.Ends.{IsFreeOf, without_return as the_rest};

/// How many bytes stand before the first line feed.
#[tactic(auto, using(crate::proofs::LineLemmas::free_more, crate::proofs::LineLemmas::free_all, crate::proofs::LineLemmas::feed_at))]
fn feed_of(bytes: &[u8]) -> Option<usize>
    ensures { MatchOption result (IsFreeOf 10 bytes.now) (λ at.
        IsFreeOf 10 (take at bytes.now) × (at < length bytes.now)
        × (drop at bytes.now ≡ 10 ∷ drop (at + 1) bytes.now)) }
{
    for (i, byte) in bytes.iter().enumerate() {
        if *byte == b'\n' {
            return Some(i);
        }
    }
    None
}

/// The first line, with its line feed where it has one, and what stands behind it.
pub fn first_line(bytes: &[u8]) -> Option<(&[u8], &[u8])>
    ensures { MatchOption result (bytes.now ≡ []) (λ parts.
        (lines_of bytes.now ≡ parts.0.now ∷ lines_of parts.1.now)
        × (length parts.1.now < length bytes.now)) }
{
    if bytes.is_empty() {
        return None;
    }
    match feed_of(bytes) {
        None => Some(bytes.split_at(bytes.len())),
        Some(at) => Some(bytes.split_at(at + 1)),
    }
}

/// Whether a line ends in a line feed.
#[tactic(auto, using(crate::proofs::EndLemmas::no_feed, crate::proofs::EndLemmas::feed_is))]
pub fn has_feed(line: &[u8]) -> bool
    ensures { result ≡ ends_in_feed line.now }
{
    match line.split_last() {
        None => false,
        Some((byte, _)) => *byte == b'\n',
    }
}

/// A text without the CR at its end.
#[tactic(auto, using(crate::proofs::EndLemmas::nothing_returns, crate::proofs::EndLemmas::returns, crate::proofs::EndLemmas::returns_not))]
fn without_return<'a>(text: &'a [u8]) -> &'a [u8]
    ensures { result.now ≡ the_rest text.now }
{
    match text.split_last() {
        None => text,
        Some((byte, front)) => { if *byte == b'\r' { front } else { text } }
    }
}

/// A line without the line feed at its end and the one CR before it.
#[tactic(auto, using(crate::proofs::EndLemmas::no_content, crate::proofs::EndLemmas::content_feed, crate::proofs::EndLemmas::content_other))]
pub fn content<'a>(line: &'a [u8]) -> &'a [u8]
    ensures { result.now ≡ the_content line.now }
{
    match line.split_last() {
        None => line,
        Some((byte, front)) => {
            if *byte == b'\n' {
                without_return(front)
            } else {
                line
            }
        }
    }
}
