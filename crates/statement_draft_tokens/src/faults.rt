ghost use Rattle.std.specs.Prelude.{◌≡◌, ◌<◌, ◌+◌, ◌^◌, Some, length};
ghost use Rattle.statement_grammar.specs.Draft.{column_assigned, table_in};
ghost use Rattle.statement_grammar.specs.Faults.{behind_table, known_faults, place_or as the_place, table_fault, token_faults};
ghost use Rattle.statement_grammar.specs.FirstFault.{first_of};
ghost use Rattle.statement_reader.specs.Spots.{spot_of};
ghost use Rattle.statement_drafts.specs.Drafts.{draft_of};
ghost use Rattle.statement_draft_tokens.specs.Tokens.{AreShort, unknown_if};

use row_types::{Schema, Schemas};
use statement_drafts::{
    Draft, assigned_fault, columns_of, list_fault, literal_fault, schema_of, table_named,
};
use statement_grammar::TextFault;
use statement_reader::{Spot, column_named};
use statement_tokens::Word;

fn place_or(minus: Option<u32>, place: u32) -> u32
    ensures { result ≡ the_place minus place }
{
    match minus {
        None => place,
        Some(minus) => minus,
    }
}

fn unknown(number: Option<u32>, place: u32) -> Option<TextFault>
    ensures { result ≡ unknown_if number place }
{
    match number {
        None => Some(TextFault::UnknownTable { place }),
        Some(_) => None,
    }
}

#[tactic(auto, using(crate::proofs::TokenLemmas::fault_is))]
fn fault_of_table(schemas: &Schemas, word: &Word, place: u32) -> Option<TextFault>
    requires { length schemas.now.tables < 2 ^ 32 }
    ensures { result ≡ first_of (table_fault (table_in schemas.now.tables word.now) place) }
{
    match word {
        Word::Name(name) => unknown(table_named(schemas, name.as_slice()), place),
        _ => Some(TextFault::UnknownTable { place }),
    }
}

fn column_of(schema: &Schema, word: &Word) -> Option<u32>
    requires { length schema.now.columns < 2 ^ 32 }
    ensures { result ≡ column_assigned (Some schema.now) word.now }
{
    match word {
        Word::Name(name) => column_named(schema, name.as_slice()),
        _ => None,
    }
}

#[tactic(auto, using(crate::proofs::TokenLemmas::columns_short))]
fn known_fault(
    draft: &Draft,
    _schemas: &Schemas,
    schema: &Schema,
    spot: Spot,
    word: &Word,
    place: u32,
) -> Option<TextFault>
    requires number { length draft.now.values + 1 < 2 ^ 32 }
    requires columns { length schema.now.columns < 2 ^ 32 }
    ensures { result ≡ first_of (known_faults schema.now (spot_of spot) (draft_of _schemas.now.tables draft.now) word.now place) }
{
    let number = draft.values.len();
    match spot {
        Spot::LiteralDue(of) => literal_fault(columns_of(of, schema), number, word, place),
        Spot::DigitsDue(of) => {
            let at = place_or(draft.minus, place);
            literal_fault(columns_of(of, schema), number, word, at)
        }
        Spot::LiteralEnds(of) => list_fault(columns_of(of, schema), number, word, place),
        Spot::ColumnDue => assigned_fault(schema, column_of(schema, word), place),
        _ => None,
    }
}

#[tactic(auto, using(crate::proofs::TokenLemmas::schema_short))]
fn fault_behind_table(
    draft: &Draft,
    schemas: &Schemas,
    spot: Spot,
    word: &Word,
    place: u32,
) -> Option<TextFault>
    requires number { length draft.now.values + 1 < 2 ^ 32 }
    requires columns { AreShort schemas.now.tables }
    ensures { result ≡ first_of (behind_table (draft_of schemas.now.tables draft.now).schema (spot_of spot) (draft_of schemas.now.tables draft.now) word.now place) }
{
    match schema_of(draft.table, schemas) {
        None => None,
        Some(schema) => known_fault(draft, schemas, schema, spot, word, place),
    }
}

/// What is wrong with a token that is due, if anything; with several faults the first.
pub fn fault_of_token(
    draft: &Draft,
    schemas: &Schemas,
    spot: Spot,
    word: &Word,
    place: u32,
) -> Option<TextFault>
    requires tables { length schemas.now.tables < 2 ^ 32 }
    requires number { length draft.now.values + 1 < 2 ^ 32 }
    requires columns { AreShort schemas.now.tables }
    ensures { result ≡ first_of (token_faults schemas.now.tables (spot_of spot) (draft_of schemas.now.tables draft.now) word.now place) }
{
    match spot {
        Spot::IntoTable => fault_of_table(schemas, word, place),
        Spot::DeleteTable => fault_of_table(schemas, word, place),
        Spot::UpdateTable => fault_of_table(schemas, word, place),
        Spot::SelectTable => fault_of_table(schemas, word, place),
        Spot::ChunkTable(_) => fault_of_table(schemas, word, place),
        Spot::ClearTable => fault_of_table(schemas, word, place),
        _ => fault_behind_table(draft, schemas, spot, word, place),
    }
}
