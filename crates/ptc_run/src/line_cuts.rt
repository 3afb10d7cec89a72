//! Cuts of a text: the first line, the part before a stop, the rest behind a beginning.

ghost use Rattle.std.specs.Prelude.{◌≡◌, ◌+◌, ◌<◌, ◌≤◌, List, ℕ, [], ◌∷◌, ◌++◌, length, take, drop, MatchOption};
ghost use Rattle.ptc_run.specs.Lines.{lines_of, IsFreeOf};

/// How many bytes stand before the first stop.
#[tactic(auto, using(crate::proofs::LineLemmas::free_more, crate::proofs::LineLemmas::free_all, crate::proofs::LineLemmas::stop_at))]
fn stop_of(bytes: &[u8], stop: u8) -> Option<usize>
    ensures { MatchOption result (IsFreeOf stop bytes.now) (λ at.
        IsFreeOf stop (take at bytes.now) × (at < length bytes.now)
        × (drop at bytes.now ≡ stop ∷ drop (at + 1) bytes.now)) }
{
    for (i, byte) in bytes.iter().enumerate() {
        if *byte == stop {
            return Some(i);
        }
    }
    None
}

/// What stands before the first stop, and what stands behind it.
pub fn cut_at(bytes: &[u8], stop: u8) -> Option<(&[u8], &[u8])>
    ensures { MatchOption result (IsFreeOf stop bytes.now) (λ parts.
        IsFreeOf stop parts.0.now × (bytes.now ≡ parts.0.now ++ stop ∷ parts.1.now)) }
{
    let Some(at) = stop_of(bytes, stop) else {
        return None;
    };
    let (front, _) = bytes.split_at(at);
    let (_, rest) = bytes.split_at(at + 1);
    Some((front, rest))
}

/// The first line, with its line feed where it has one, and what stands behind it.
pub fn first_line(bytes: &[u8]) -> Option<(&[u8], &[u8])>
    ensures { MatchOption result (bytes.now ≡ []) (λ parts.
        (lines_of bytes.now ≡ parts.0.now ∷ lines_of parts.1.now)
        × (length parts.1.now < length bytes.now)) }
{
    if bytes.is_empty() {
        return None;
    }
    match stop_of(bytes, b'\n') {
        None => Some(bytes.split_at(bytes.len())),
        Some(at) => Some(bytes.split_at(at + 1)),
    }
}

/// What stands behind this first line, if it is the first line.
#[tactic(auto, using(crate::proofs::LineLemmas::no_line, crate::proofs::LineLemmas::other_line))]
pub fn behind_line<'a>(bytes: &'a [u8], expected: &[u8]) -> Option<&'a [u8]>
    ensures { MatchOption result
        ((more : List (List ℕ)) → lines_of bytes.now ≡ expected.now ∷ more → ⊥) (λ rest.
        (lines_of bytes.now ≡ expected.now ∷ lines_of rest.now) × (length rest.now < length bytes.now)) }
{
    let Some((line, rest)) = first_line(bytes) else {
        return None;
    };
    if line == expected { Some(rest) } else { None }
}

/// What stands behind this beginning, if the text begins so.
pub fn behind<'a>(bytes: &'a [u8], beginning: &[u8]) -> Option<&'a [u8]>
    ensures { MatchOption result ((more : List ℕ) → bytes.now ≡ beginning.now ++ more → ⊥) (λ rest.
        bytes.now ≡ beginning.now ++ rest.now) }
{
    if bytes.len() < beginning.len() {
        return None;
    }
    let (front, rest) = bytes.split_at(beginning.len());
    if front == beginning { Some(rest) } else { None }
}
