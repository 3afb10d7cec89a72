ghost use Rattle.std.specs.Prelude.{◌≡◌, pos, neg_ℤ};
ghost use Rattle.std.specs.Int.{saturate_signed, w64};
ghost use Rattle.statement_grammar.specs.Terms.{negative as the_negative, value_in as the_value};

use row_types::Value;
use statement_tokens::Word;

/// The value of a literal; a number is clipped to 64 bits.
pub fn value_in(word: Word) -> Value
    ensures { result ≡ the_value word }
{
    match word {
        Word::Number(number) => Value::Int(clipped(number)),
        Word::Text(text) => Value::Text(text),
        _ => Value::Null,
    }
}

/// The value of a number behind a `-`, clipped to 64 bits.
pub fn negative(word: &Word) -> Value
    ensures { result ≡ the_negative word.now }
{
    match word {
        Word::Number(number) => Value::Int(clipped_below(*number)),
        _ => Value::Null,
    }
}

fn clipped(number: u128) -> i64
    ensures { result ≡ saturate_signed w64 (pos number) }
{
    if number > 9223372036854775807 {
        9223372036854775807
    } else {
        number as i64
    }
}

fn clipped_below(number: u128) -> i64
    ensures { result ≡ saturate_signed w64 (neg_ℤ (pos number)) }
{
    if number > 9223372036854775807 {
        -9223372036854775808
    } else {
        -(number as i64)
    }
}
