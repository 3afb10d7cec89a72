ghost use Rattle.std.specs.Prelude.{◌≡◌, ◌+◌, ◌-◌, ◌≤◌, ◌<◌, ◌^◌, length};
ghost use Rattle.file_text.specs.Rules.{offset_in as the_offset_in, behind_byte as the_end_of};
ghost use Rattle.line_items.specs.Counted.{digit_of};

use crate::ranges::NumberSpot;

/// How many bytes there are up to the first of this value, with it; all where there is none.
fn behind_byte(stop: u8, text: &[u8]) -> u32
    requires { length text.now < 2 ^ 32 - 1 }
    ensures count { result ≡ the_end_of stop text.now }
    ensures short { result ≤ length text.now }
{
    let mut count = 0u32;
    let mut rest = text;
    while let Some((byte, more)) = rest.split_first() {
        count = count + 1;
        if *byte == stop {
            return count;
        }
        rest = more;
    }
    count
}

/// How far a number's first digit stands from its word's first byte.
pub(crate) fn offset_in(text: &[u8], number: NumberSpot) -> u32
    requires { length text.now < 2 ^ 32 - 1 }
    ensures offset { result ≡ the_offset_in text.now (digit_of number) }
    ensures short { result ≤ length text.now + 1 }
{
    match number {
        NumberSpot::AtFirst => 0,
        NumberSpot::BehindLetter => 1,
        NumberSpot::BehindPoint => behind_byte(b'.', text),
        NumberSpot::BehindPointLetter => behind_byte(b'.', text) + 1,
        NumberSpot::BehindStar => behind_byte(b'*', text),
    }
}
