ghost use Rattle.std.specs.Prelude.{◌≡◌};
ghost use Rattle.refusal_text.specs.Refusals.{limit_word as word_of_limit, place_of as the_place, row_word as word_of_row, statement_word as word_of_statement};

use file_text::LimitKind;
use row_types::RowFault;
use statement_grammar::TextFault;

/// What there is too much of.
pub fn limit_word(which: LimitKind) -> &'static [u8]
    ensures { result.now ≡ word_of_limit which }
{
    match which {
        LimitKind::Bytes => b"bytes",
        LimitKind::LineBytes => b"line bytes",
        LimitKind::Tables => b"tables",
        LimitKind::Columns => b"columns",
        LimitKind::Replicas => b"replicas",
        LimitKind::Sessions => b"sessions",
        LimitKind::Locals => b"locals",
        LimitKind::Schedule => b"schedule",
    }
}

/// What is wrong with a row.
pub fn row_word(fault: RowFault) -> &'static [u8]
    ensures { result.now ≡ word_of_row fault }
{
    match fault {
        RowFault::Arity { .. } => b"arity",
        RowFault::NullIn { .. } => b"null",
        RowFault::Kind { .. } => b"kind",
        RowFault::OutOfRange { .. } => b"range",
        RowFault::TooLong { .. } => b"length",
    }
}

/// Where a statement is wrong, in bytes from 1; 0 for out of memory.
pub fn place_of(fault: TextFault) -> u32
    ensures { result ≡ the_place fault }
{
    match fault {
        TextFault::At { place } => place,
        TextFault::UnknownTable { place } => place,
        TextFault::UnknownColumn { place } => place,
        TextFault::KeyAssigned { place } => place,
        TextFault::NullIntoNotNull { place } => place,
        TextFault::Literal { place, .. } => place,
        TextFault::TooDeep { place } => place,
        TextFault::Memory => 0,
    }
}

/// What is wrong with a statement; nothing for out of memory.
pub fn statement_word(fault: TextFault) -> &'static [u8]
    ensures { result.now ≡ word_of_statement fault }
{
    match fault {
        TextFault::At { .. } => b"syntax",
        TextFault::UnknownTable { .. } => b"unknown table",
        TextFault::UnknownColumn { .. } => b"unknown column",
        TextFault::KeyAssigned { .. } => b"key assigned",
        TextFault::NullIntoNotNull { .. } => b"null",
        TextFault::Literal { fault, .. } => row_word(fault),
        TextFault::TooDeep { .. } => b"too deep",
        TextFault::Memory => b"",
    }
}
