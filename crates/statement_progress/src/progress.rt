ghost use Rattle.std.specs.Prelude.{◌≡◌, ◌<◌, ◌↔◌, ◌^◌, ◌∷◌, ◌++◌, List, [], Bool, Some, Err, length, IsTrue};
ghost use Rattle.row_types.specs.declared.table_schema.Schema.{Schema as TableSchema};
ghost use Rattle.statement_tokens.specs.declared.words.Token.{Token as OneToken};
ghost use Rattle.statement_grammar.specs.Sentence.{Keys, tree_at};
ghost use Rattle.statement_grammar.specs.FirstFault.{earlier as the_earlier, keys_in};
ghost use Rattle.statement_reader.specs.Spots.{spot_of};
ghost use Rattle.statement_drafts.specs.Drafts.{schema_at};
ghost use Rattle.statement_draft_tokens.specs.Tokens.{AreShort};
ghost use Rattle.statement_trees.specs.Trees.{IsStep, IsStopped};
ghost use Rattle.statement_grammar.specs.Begins.{Begins};
ghost use Rattle.statement_trees.specs.Trees.{tree_setting};
ghost use Rattle.statement_reading_laws.specs.Reading.{IsAtSpot, IsReady};
ghost use Rattle.statement_reading.specs.Readers.{IsNothing, reading_of, used};
ghost use Rattle.statement_progress.specs.Progress.{GoesOn, IsOpenAt, IsProgress, IsWithin, entered_by};

use row_types::{Schema, Schemas};
use statement_grammar::TextFault;
use statement_reader::Spot;
use statement_reading::{Reader, end_tree, schema_or};
use statement_tokens::Token;
use statement_trees::{OpenTree, TreeStep};
use std::alloc::Global;

/// A tree that is open in a statement: what is read before it, whether it is a condition, what is due behind it, and
/// what is read of it.
#[derive(Debug, Drop)]
pub struct Inner {
    pub reader: Reader,
    pub base: bool,
    pub next: Spot,
    pub tree: OpenTree,
}

/// What is read of a statement: at a spot, or within a tree that is due there.
#[derive(Debug, Drop)]
pub enum Progress {
    At(Reader),
    In(Inner),
}

/// Whether one literal more could be past what 32 bits count. A statement of less than 2^32 bytes has fewer values, so
/// this costs one comparison and refuses no text.
fn is_full(reader: &Reader) -> bool
    ensures { IsTrue result ↔ (4294967290 < length reader.now.draft.values) }
{
    reader.draft.values.len() > 4294967290
}

/// A token more where a single one is due.
fn at_spot(
    reader: Reader,
    alloc: Global,
    schemas: &Schemas,
    token: Token,
) -> Result<Progress, TextFault>
    requires tables { length schemas.now.tables < 2 ^ 32 }
    requires columns { AreShort schemas.now.tables }
    ensures { (nothing : TableSchema) (key : Keys) (front rest : List OneToken) → IsReady schemas.now.tables key front (reading_of schemas.now.tables reader) token → key ≡ keys_in schemas.now.tables (front ++ (token ∷ rest)) → GoesOn schemas.now.tables nothing key front token rest result }
{
    if is_full(&reader) {
        return Err(TextFault::Memory);
    }
    match reader.step(alloc, schemas, token) {
        Ok(read) => Ok(Progress::At(read)),
        Err(fault) => Err(fault),
    }
}

/// Lets go of what was tried one after the other: all at once had the check go over every two of their variants.
fn none_begins(
    reader: Reader,
    tree: OpenTree,
    token: Token,
    place: u32,
) -> Result<Progress, TextFault>
    ensures { result ≡ Err (the_earlier (TextFault.At place) reader.first) }
{
    drop(tree);
    drop(token);
    Err(reader.stopped(place))
}

fn entered(
    reader: Reader,
    base: bool,
    next: Spot,
    step: TreeStep,
    place: u32,
) -> Result<Progress, TextFault>
    ensures { result ≡ entered_by reader base next step place }
{
    match step {
        TreeStep::Moved(tree) => Ok(Progress::In(Inner {
            reader,
            base,
            next,
            tree,
        })),
        TreeStep::Stuck(tree, token) => none_begins(reader, tree, token, place),
    }
}

/// A token more where a tree is due: the tree's first.
fn enter(
    reader: Reader,
    alloc: Global,
    schemas: &Schemas,
    nothing: &Schema,
    base: bool,
    next: Spot,
    token: Token,
) -> Result<Progress, TextFault>
    requires nothing { IsNothing nothing.now }
    requires columns { AreShort schemas.now.tables }
    ensures { (key : Keys) (front rest : List OneToken) → IsAtSpot schemas.now.tables key front (reading_of schemas.now.tables reader) → tree_at (spot_of reader.spot) ≡ Some (base, spot_of next) → GoesOn schemas.now.tables nothing.now key front token rest result }
{
    let place = token.place;
    let schema = schema_or(reader.draft.table, schemas, nothing);
    match OpenTree::new(alloc).step(alloc, schema, base, token) {
        Err(_) => Err(TextFault::Memory),
        Ok(step) => entered(reader, base, next, step, place),
    }
}

fn behind(
    reader: Reader,
    alloc: Global,
    schemas: &Schemas,
    nothing: &Schema,
    base: bool,
    next: Spot,
    tree: OpenTree,
    token: Token,
) -> Result<Progress, TextFault>
    requires nothing { IsNothing nothing.now }
    requires tables { length schemas.now.tables < 2 ^ 32 }
    requires columns { AreShort schemas.now.tables }
    ensures { (key : Keys) (front rest ts : List OneToken) → IsOpenAt schemas.now.tables key front reader base next ts → IsStopped (used nothing.now (schema_at schemas.now.tables reader.draft.table)) base ts tree → (Begins (tree_setting (used nothing.now (schema_at schemas.now.tables reader.draft.table)) base) (ts ++ token ∷ []) → ⊥) → key ≡ keys_in schemas.now.tables (front ++ (token ∷ rest)) → GoesOn schemas.now.tables nothing.now key front token rest result }
{
    let place = token.place;
    let schema = schema_or(reader.draft.table, schemas, nothing);
    match end_tree(reader, alloc, schemas, schema, base, next, tree, place) {
        Err(fault) => Err(fault),
        Ok(ended) => at_spot(ended, alloc, schemas, token),
    }
}

fn stepped(
    reader: Reader,
    alloc: Global,
    schemas: &Schemas,
    nothing: &Schema,
    base: bool,
    next: Spot,
    step: TreeStep,
) -> Result<Progress, TextFault>
    requires nothing { IsNothing nothing.now }
    requires tables { length schemas.now.tables < 2 ^ 32 }
    requires columns { AreShort schemas.now.tables }
    ensures { (key : Keys) (front rest ts : List OneToken) (t : OneToken) → IsOpenAt schemas.now.tables key front reader base next ts → IsStep (used nothing.now (schema_at schemas.now.tables reader.draft.table)) base ts t step → key ≡ keys_in schemas.now.tables (front ++ (t ∷ rest)) → GoesOn schemas.now.tables nothing.now key front t rest result }
{
    match step {
        TreeStep::Moved(tree) => Ok(Progress::In(Inner {
            reader,
            base,
            next,
            tree,
        })),
        TreeStep::Stuck(tree, token) => {
            behind(reader, alloc, schemas, nothing, base, next, tree, token)
        }
    }
}

fn within(
    inner: Inner,
    alloc: Global,
    schemas: &Schemas,
    nothing: &Schema,
    token: Token,
) -> Result<Progress, TextFault>
    requires nothing { IsNothing nothing.now }
    requires tables { length schemas.now.tables < 2 ^ 32 }
    requires columns { AreShort schemas.now.tables }
    ensures { (key : Keys) (front rest : List OneToken) → IsWithin schemas.now.tables nothing.now key front inner → key ≡ keys_in schemas.now.tables (front ++ (token ∷ rest)) → GoesOn schemas.now.tables nothing.now key front token rest result }
{
    let Inner {
        reader,
        base,
        next,
        tree,
    } = inner;
    let schema = schema_or(reader.draft.table, schemas, nothing);
    match tree.step(alloc, schema, base, token) {
        Err(_) => Err(TextFault::Memory),
        Ok(step) => stepped(reader, alloc, schemas, nothing, base, next, step),
    }
}

fn due(
    reader: Reader,
    alloc: Global,
    schemas: &Schemas,
    nothing: &Schema,
    token: Token,
) -> Result<Progress, TextFault>
    requires nothing { IsNothing nothing.now }
    requires tables { length schemas.now.tables < 2 ^ 32 }
    requires columns { AreShort schemas.now.tables }
    ensures { (key : Keys) (front rest : List OneToken) → IsAtSpot schemas.now.tables key front (reading_of schemas.now.tables reader) → key ≡ keys_in schemas.now.tables (front ++ (token ∷ rest)) → GoesOn schemas.now.tables nothing.now key front token rest result }
{
    match reader.spot.tree() {
        None => at_spot(reader, alloc, schemas, token),
        Some((base, next)) => enter(reader, alloc, schemas, nothing, base, next, token),
    }
}

impl Progress {
    /// Reads a token: the statement with it, or the first fault where with it the tokens begin none. `nothing` stands
    /// for the schema of a table that is not there. A refusal hands nothing back.
    pub fn step(
        self,
        alloc: Global,
        schemas: &Schemas,
        nothing: &Schema,
        token: Token,
    ) -> Result<Progress, TextFault>
        requires nothing { IsNothing nothing.now }
        requires tables { length schemas.now.tables < 2 ^ 32 }
        requires columns { AreShort schemas.now.tables }
        ensures { (key : Keys) (front rest : List OneToken) → IsProgress schemas.now.tables nothing.now key front self → key ≡ keys_in schemas.now.tables (front ++ (token ∷ rest)) → GoesOn schemas.now.tables nothing.now key front token rest result }
    {
        match self {
            Progress::In(inner) => within(inner, alloc, schemas, nothing, token),
            Progress::At(reader) => due(reader, alloc, schemas, nothing, token),
        }
    }
}
