ghost use Rattle.std.specs.Prelude.{◌≡◌};
ghost use Rattle.ptc_words.specs.Words.{number_to as the_number, number_from};

/// The number that digits write behind others, which write this one, where it is at most `most`; None where
/// another byte is among them.
#[tactic(auto, using(crate::proofs::NumberLemmas::grows))]
fn digits_to(most: u32, text: &[u8]) -> Option<u32>
    ensures { result ≡ number_from most 0 text.now }
{
    let mut number: u32 = 0;
    let mut rest = text;
    while let Some((byte, more)) = rest.split_first() {
        let digit = (*byte as char).to_digit(10)?;
        let next = number as u64 * 10 + digit as u64;
        if next > most as u64 {
            return None;
        }
        number = next as u32;
        rest = more;
    }
    Some(number)
}

/// The number of one to ten decimal digits, where it is at most `most`.
pub(crate) fn number_to(most: u32, text: &[u8]) -> Option<u32>
    ensures { result ≡ the_number most text.now }
{
    if text.is_empty() || text.len() > 10 {
        return None;
    }
    digits_to(most, text)
}
