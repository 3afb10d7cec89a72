ghost use Rattle.std.specs.Prelude.{◌≡◌};
ghost use Rattle.statement_grammar.specs.Sentence.{are_lower_digits as are_digits, is_chunk as may_be_chunk, is_count as may_be_count, is_crc as may_be_crc, is_lower_digit as is_digit};

/// Whether a number is that of a chunk.
pub fn is_chunk(number: u128) -> bool
    ensures { result ≡ may_be_chunk number }
{
    1 <= number && number <= 4294967295
}

/// Whether a number is a count of 64 bits.
pub fn is_count(number: u128) -> bool
    ensures { result ≡ may_be_count number }
{
    number <= 18446744073709551615
}

fn is_lower_digit(byte: u8) -> bool
    ensures { result ≡ is_digit byte }
{
    (48 <= byte && byte <= 57) || (97 <= byte && byte <= 102)
}

fn are_lower_digits(text: &[u8]) -> bool
    ensures { result ≡ are_digits text.now }
{
    let mut rest = text;
    while let Some((byte, more)) = rest.split_first() {
        if !is_lower_digit(*byte) {
            return false;
        }
        rest = more;
    }
    true
}

/// Whether a text is 32 or 40 hexadecimal digits, with small letters.
pub fn is_crc(text: &[u8]) -> bool
    ensures { result ≡ may_be_crc text.now }
{
    let length = text.len();
    (length == 32 || length == 40) && are_lower_digits(text)
}
