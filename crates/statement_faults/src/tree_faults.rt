ghost use Rattle.std.specs.Prelude.{◌≡◌, ℕ, true, Some};
ghost use Rattle.std.specs.Option.{option_map};
ghost use Rattle.statement_grammar.specs.Grammar.{Shape};
ghost use Rattle.statement_grammar.specs.Cut.{cut};
ghost use Rattle.statement_grammar.specs.Kinds.{places};
ghost use Rattle.statement_grammar.specs.Draft.{Draft};
ghost use Rattle.statement_grammar.specs.Faults.{column_or_0, deep_in, kind_fault, tree_faults};
ghost use Rattle.statement_grammar.specs.FirstFault.{first_of};
ghost use Rattle.statement_reader.specs.Facts.{facts_of};
ghost use Rattle.statement_reader.specs.Spots.{spot_of};
ghost use Rattle.statement_faults.specs.TreeFaults.{breach_at, first_by, is_expression, kinds_by, merged};

use row_types::{RowFault, Schema};
use statement_grammar::TextFault;
use statement_reader::{Facts, Spot, differ, earlier, sort_of_column};

/// The fault that comes first, where there is one; of those that tie the first.
pub fn first_fault(fault: Option<TextFault>, other: Option<TextFault>) -> Option<TextFault>
    ensures { result ≡ merged fault other }
{
    match fault {
        None => other,
        Some(fault) => Some(earlier(fault, other)),
    }
}

fn unknown_column(place: Option<u32>) -> Option<TextFault>
    ensures { result ≡ option_map TextFault.UnknownColumn place }
{
    match place {
        None => None,
        Some(place) => Some(TextFault::UnknownColumn { place }),
    }
}

fn too_deep(place: Option<u32>) -> Option<TextFault>
    ensures { result ≡ option_map TextFault.TooDeep place }
{
    match place {
        None => None,
        Some(place) => Some(TextFault::TooDeep { place }),
    }
}

fn wrong_kind(column: u32, place: Option<u32>) -> Option<TextFault>
    ensures { result ≡ option_map (kind_fault column) place }
{
    match place {
        None => None,
        Some(place) => Some(TextFault::Literal {
            place,
            fault: RowFault::Kind { column },
        }),
    }
}

/// The breach of an assignment to a column, where there is one.
fn breach(schema: &Schema, column: Option<u32>, facts: Facts) -> Option<u32>
    ensures { result ≡ breach_at schema.now column facts }
{
    match facts.text {
        Some(place) => Some(place),
        None => {
            if differ(sort_of_column(schema, column), facts.sort) {
                return Some(facts.place);
            }
            None
        }
    }
}

fn number_of(column: Option<u32>) -> u32
    ensures { result ≡ column_or_0 column }
{
    match column {
        None => 0,
        Some(number) => number,
    }
}

fn is_assigned(spot: Spot) -> bool
    ensures { result ≡ is_expression (spot_of spot) }
{
    match spot {
        Spot::ExprDue => true,
        _ => false,
    }
}

fn fault_of_kind(
    schema: &Schema,
    spot: Spot,
    column: Option<u32>,
    facts: Facts,
) -> Option<TextFault>
    ensures { result ≡ kinds_by (is_expression (spot_of spot)) schema.now column facts }
{
    if is_assigned(spot) {
        return wrong_kind(number_of(column), breach(schema, column, facts));
    }
    wrong_kind(0, facts.breach)
}

/// The first fault of a tree at a spot of which some tokens are read; `column` is the one that is assigned.
pub fn fault_of_tree(
    schema: &Schema,
    spot: Spot,
    column: Option<u32>,
    facts: Facts,
    deep: Option<u32>,
) -> Option<TextFault>
    ensures from_facts { result ≡ first_by (is_expression (spot_of spot)) schema.now column facts deep }
    ensures first { (draft : Draft) (s : Shape) (n : ℕ) → draft.column ≡ column → facts ≡ facts_of schema.now (cut true n s) → places deep ≡ deep_in s n → result ≡ first_of (tree_faults (Some schema.now) (spot_of spot) draft s n) }
{
    let common = first_fault(unknown_column(facts.unknown), too_deep(deep));
    let kinds = fault_of_kind(schema, spot, column, facts);
    let first = first_fault(common, kinds);
    first
}
