ghost use Rattle.std.specs.Prelude.{◌≡◌, ◌++◌};
ghost use Rattle.std.specs.Option.{option_map};
ghost use Rattle.statement_grammar.specs.Grammar.{is_close as closes, is_comma as parts, is_compare as compares, is_number as counts, is_open as opens, filled_by, second_is, slot_after, value_after};
ghost use Rattle.statement_grammar.specs.Sentence.{setting};
ghost use Rattle.statement_grammar.specs.FirstFault.{keys_of};
ghost use Rattle.statement_states.specs.Slots.{slot_due, slots_if, slots_left, slots_of};

use row_types::Schema;
use statement_operands::names_second;
use statement_tokens::{Math, Word};

/// What is due of a row comparison behind its first comma.
#[derive(Clone, Copy, Debug, PartialEq, Eq)]
pub enum Slot {
    SecondColumn,
    CloseColumns,
    Comparison,
    OpenValues,
    FirstValue,
    FirstDigits,
    ValuesComma,
    SecondValue,
    SecondDigits,
    CloseValues,
}

/// What comes behind a token of a row comparison: it fits in no way; a further token is due; or all is read.
#[derive(Clone, Copy, Debug, PartialEq, Eq)]
pub enum AfterSlot {
    Misfit,
    Next(Slot),
    Done,
}

pub fn is_open(word: &Word) -> bool
    ensures { result ≡ opens word.now }
{
    match word {
        Word::Open => true,
        _ => false,
    }
}

pub fn is_close(word: &Word) -> bool
    ensures { result ≡ closes word.now }
{
    match word {
        Word::Close => true,
        _ => false,
    }
}

pub fn is_comma(word: &Word) -> bool
    ensures { result ≡ parts word.now }
{
    match word {
        Word::Comma => true,
        _ => false,
    }
}

pub fn is_number(word: &Word) -> bool
    ensures { result ≡ counts word.now }
{
    match word {
        Word::Number(_) => true,
        _ => false,
    }
}

fn is_compare(word: &Word) -> bool
    ensures { result ≡ compares word.now }
{
    match word {
        Word::Compare(_) => true,
        _ => false,
    }
}

fn is_second(schema: &Schema, base: bool, word: &Word) -> bool
    ensures { result ≡ second_is (setting base (keys_of schema.now)) word.now }
{
    match word {
        Word::Name(name) => names_second(schema, name),
        _ => false,
    }
}

fn next_if(fits: bool, slot: Slot) -> AfterSlot
    ensures { slots_of result ≡ slots_if fits slot }
{
    if fits {
        AfterSlot::Next(slot)
    } else {
        AfterSlot::Misfit
    }
}

fn first_value(word: &Word) -> AfterSlot
    ensures { slots_of result ≡ option_map (λ more. more ++ slots_left Slot.FirstValue) (value_after word.now) }
{
    match word {
        Word::Number(_) => AfterSlot::Next(Slot::ValuesComma),
        Word::Text(_) => AfterSlot::Next(Slot::ValuesComma),
        Word::Math(math) => match math {
            Math::Minus => AfterSlot::Next(Slot::FirstDigits),
            _ => AfterSlot::Misfit,
        },
        _ => AfterSlot::Misfit,
    }
}

fn second_value(word: &Word) -> AfterSlot
    ensures { slots_of result ≡ option_map (λ more. more ++ slots_left Slot.SecondValue) (value_after word.now) }
{
    match word {
        Word::Number(_) => AfterSlot::Next(Slot::CloseValues),
        Word::Text(_) => AfterSlot::Next(Slot::CloseValues),
        Word::Math(math) => match math {
            Math::Minus => AfterSlot::Next(Slot::SecondDigits),
            _ => AfterSlot::Misfit,
        },
        _ => AfterSlot::Misfit,
    }
}

fn last(fits: bool) -> AfterSlot
    ensures { slots_of result ≡ option_map (λ more. more ++ slots_left Slot.CloseValues) (filled_by fits) }
{
    if fits {
        AfterSlot::Done
    } else {
        AfterSlot::Misfit
    }
}

/// What comes behind a word where this slot is due.
pub fn after_slot(slot: Slot, schema: &Schema, base: bool, word: &Word) -> AfterSlot
    ensures { slots_of result ≡ option_map (λ more. more ++ slots_left slot) (slot_after (setting base (keys_of schema.now)) (slot_due slot) word.now) }
{
    match slot {
        Slot::SecondColumn => next_if(is_second(schema, base, word), Slot::CloseColumns),
        Slot::CloseColumns => next_if(is_close(word), Slot::Comparison),
        Slot::Comparison => next_if(is_compare(word), Slot::OpenValues),
        Slot::OpenValues => next_if(is_open(word), Slot::FirstValue),
        Slot::FirstValue => first_value(word),
        Slot::FirstDigits => next_if(is_number(word), Slot::ValuesComma),
        Slot::ValuesComma => next_if(is_comma(word), Slot::SecondValue),
        Slot::SecondValue => second_value(word),
        Slot::SecondDigits => next_if(is_number(word), Slot::CloseValues),
        Slot::CloseValues => last(is_close(word)),
    }
}
