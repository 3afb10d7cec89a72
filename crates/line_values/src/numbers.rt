ghost use Rattle.std.specs.Prelude.{◌≡◌, true, false};
ghost use Rattle.std.specs.Int.{w64, saturate_signed};
ghost use Rattle.file_text.specs.Said.{signed};

/// A number behind its sign, clipped to 64 bits.
pub(crate) fn clipped(minus: bool, number: u128) -> i64
    ensures { result ≡ saturate_signed w64 (signed minus number) }
{
    if minus {
        negative(number)
    } else {
        positive(number)
    }
}

fn negative(number: u128) -> i64
    ensures { result ≡ saturate_signed w64 (signed true number) }
{
    if number < 9223372036854775808 {
        -(number as i64)
    } else {
        -9223372036854775808
    }
}

fn positive(number: u128) -> i64
    ensures { result ≡ saturate_signed w64 (signed false number) }
{
    if number < 9223372036854775808 {
        number as i64
    } else {
        9223372036854775807
    }
}
