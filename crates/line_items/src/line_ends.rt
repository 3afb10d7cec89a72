ghost use Rattle.std.specs.Prelude.{◌≡◌, ◌≤◌, length};
ghost use Rattle.file_text.specs.Parts.{trimmed as the_trimmed};

/// A line without the spaces at its end.
#[tactic(auto, using(crate::proofs::EndLemmas::trimmed_space, crate::proofs::EndLemmas::trimmed_other, crate::proofs::EndLemmas::trimmed_short))]
pub fn trimmed<'a>(line: &'a [u8]) -> &'a [u8]
    ensures rest { result.now ≡ the_trimmed line.now }
    ensures shorter { length result.now ≤ length line.now }
{
    let mut rest = line;
    while let Some((byte, front)) = rest.split_last() {
        if *byte != b' ' {
            return rest;
        }
        rest = front;
    }
    rest
}
