ghost use Rattle.std.specs.Prelude.{◌≡◌, ◌<◌, ◌^◌, length, OnOk};
ghost use Rattle.statement_grammar.specs.Draft.{number_in, table_in, text_in, with_literal, with_table as the_table, with_token};
ghost use Rattle.statement_reader.specs.Spots.{literals_of, spot_of};
ghost use Rattle.statement_drafts.specs.Drafts.{draft_of};
ghost use Rattle.statement_draft_tokens.specs.Tokens.{AreShort, Fits, with_other};

use row_types::{Bytes, R, Schemas};
use statement_drafts::{Draft, form_by, schema_of};
use statement_reader::{Literals, Spot, negative, value_in};
use statement_tokens::Word;
use std::alloc::Global;

fn take_table(draft: &mut Draft, schemas: &Schemas, word: &Word)
    requires { length schemas.now.tables < 2 ^ 32 }
    ensures { draft_of schemas.now.tables draft.new ≡ the_table (draft_of schemas.now.tables draft.old) (table_in schemas.now.tables word.now) }
{
    match word {
        Word::Name(name) => {
            let _unknown = draft.with_table(schemas, name.as_slice());
        }
        _ => {}
    }
}

fn take_literal(
    draft: &mut Draft,
    alloc: Global,
    schemas: &Schemas,
    of: Literals,
    word: Word,
    place: u32,
) -> R<()>
    ensures { OnOk result (draft_of schemas.now.tables draft.new ≡ with_literal (literals_of of) (draft_of schemas.now.tables draft.old) word place) }
{
    match word {
        Word::Math(_) => {
            draft.minus = Some(place);
            Ok(())
        }
        word => {
            draft.with_value(alloc, schemas, of, value_in(word))?;
            Ok(())
        }
    }
}

#[tactic(auto, using(crate::proofs::TokenLemmas::schema_short))]
fn take_column(draft: &mut Draft, schemas: &Schemas, word: &Word)
    requires { AreShort schemas.now.tables }
    ensures { draft_of schemas.now.tables draft.new ≡ with_token schemas.now.tables (spot_of Spot.ColumnDue) (draft_of schemas.now.tables draft.old) word.now 0 }
{
    match schema_of(draft.table, schemas) {
        None => draft.column = None,
        Some(schema) => match word {
            Word::Name(name) => draft.with_column(schema, name.as_slice()),
            _ => draft.column = None,
        },
    }
}

fn chunk_in(word: &Word) -> u32
    requires { number_in word.now < 2 ^ 32 }
    ensures { result ≡ number_in word.now }
{
    match word {
        Word::Number(number) => *number as u32,
        _ => 0,
    }
}

fn count_in(word: &Word) -> u64
    requires { number_in word.now < 2 ^ 64 }
    ensures { result ≡ number_in word.now }
{
    match word {
        Word::Number(number) => *number as u64,
        _ => 0,
    }
}

fn text_of(alloc: Global, word: Word) -> Bytes
    ensures { result ≡ text_in word }
{
    match word {
        Word::Text(text) => text,
        _ => Bytes::new(alloc),
    }
}

/// A token of the tool's statements, or the last word of a lock.
fn take_other(draft: &mut Draft, alloc: Global, schemas: &Schemas, spot: Spot, word: Word)
    requires fits { Fits (spot_of spot) word }
    ensures { draft_of schemas.now.tables draft.new ≡ with_other (spot_of spot) (draft_of schemas.now.tables draft.old) word }
{
    match spot {
        Spot::StatementDue => draft.form = form_by(&word),
        Spot::ForDue => draft.with_mode(&word),
        Spot::ModeDue => draft.with_mode(&word),
        Spot::ChunkNumber(_) => draft.chunk = chunk_in(&word),
        Spot::EdgeDue(end) => draft.with_edge_word(schemas, end, &word),
        Spot::KindDue => draft.with_kind(&word),
        Spot::CountNumber => draft.count = count_in(&word),
        Spot::CrcText => draft.crc = text_of(alloc, word),
        _ => {}
    }
}

/// Takes a token that is due at a spot; a refusal may leave a part of it.
pub fn take_token(
    draft: &mut Draft,
    alloc: Global,
    schemas: &Schemas,
    spot: Spot,
    word: Word,
    place: u32,
) -> R<()>
    requires tables { length schemas.now.tables < 2 ^ 32 }
    requires columns { AreShort schemas.now.tables }
    requires fits { Fits (spot_of spot) word }
    ensures { OnOk result (draft_of schemas.now.tables draft.new ≡ with_token schemas.now.tables (spot_of spot) (draft_of schemas.now.tables draft.old) word place) }
{
    match spot {
        Spot::IntoTable => Ok(take_table(draft, schemas, &word)),
        Spot::DeleteTable => Ok(take_table(draft, schemas, &word)),
        Spot::UpdateTable => Ok(take_table(draft, schemas, &word)),
        Spot::SelectTable => Ok(take_table(draft, schemas, &word)),
        Spot::ChunkTable(_) => Ok(take_table(draft, schemas, &word)),
        Spot::ClearTable => Ok(take_table(draft, schemas, &word)),
        Spot::OpenDue(_) => Ok(draft.with_open(alloc, schemas)),
        Spot::LiteralDue(of) => take_literal(draft, alloc, schemas, of, word, place),
        Spot::DigitsDue(of) => draft.with_value(alloc, schemas, of, negative(&word)),
        Spot::LiteralEnds(of) => draft.with_list(alloc, schemas, of, &word),
        Spot::ColumnDue => Ok(take_column(draft, schemas, &word)),
        _ => Ok(take_other(draft, alloc, schemas, spot, word)),
    }
}
