ghost use Rattle.std.specs.Prelude.{◌≡◌, ◌⊎◌, ◌<◌, ◌-◌, ◌^◌, length, IfErr, IfOk, IsTrue};
ghost use Rattle.statement_grammar.specs.FirstFault.{IsFirstFault, IsText, keys_in};
ghost use Rattle.statement_draft_tokens.specs.Tokens.{AreShort};
ghost use Rattle.statement_reads.specs.Reads.{IsExactly, IsFinished, IsOnly, IsRead, are_countable as all_countable};
ghost use Rattle.ptc_statement.specs.declared.statements.Statement.{Statement as TheStatement};
ghost use Rattle.statement_grammar.specs.declared.text_faults.TextFault.{TextFault as TheFault};

use crate::ends::end_of;
use crate::starts::{no_schema, start};
use ptc_statement::Statement;
use row_types::Schemas;
use statement_grammar::TextFault;
use statement_progress::Progress;
use statement_tokens::{TextEnd, Tokens, tokens_of};
use std::alloc::Global;

fn read_tokens(
    alloc: Global,
    schemas: &Schemas,
    tokens: Tokens,
    end: TextEnd,
) -> Result<Statement, TextFault>
    requires tables { length schemas.now.tables < 2 ^ 32 }
    requires columns { AreShort schemas.now.tables }
    ensures { IsFinished schemas.now.tables (keys_in schemas.now.tables tokens) tokens end result }
{
    let nothing = no_schema(alloc);
    let mut progress = Progress::At(start(alloc));
    for token in tokens.items {
        match progress.step(alloc, schemas, &nothing, token) {
            Err(fault) => return Err(fault),
            Ok(further) => progress = further,
        }
    }
    end_of(progress, alloc, schemas, &nothing, end)
}

fn read_text(alloc: Global, text: &[u8], schemas: &Schemas) -> Result<Statement, TextFault>
    requires short { length text.now < 2 ^ 32 - 1 }
    requires tables { length schemas.now.tables < 2 ^ 32 }
    requires columns { AreShort schemas.now.tables }
    ensures { IsRead schemas.now.tables text.now result }
{
    match tokens_of(alloc, text) {
        Err(_) => Err(TextFault::Memory),
        Ok((tokens, end)) => read_tokens(alloc, schemas, tokens, end),
    }
}

/// Reads the one statement that a text is, in one pass. A text that is none is refused with its first fault: of all
/// its faults the one at the least place, and there the first by kind. Places are bytes from 1. `Memory` where out of
/// memory. A refusal hands nothing back, and nothing that the caller holds has changed. A text of 4294967295 bytes
/// or more has places that do not fit; whether the schemas can be counted is asked by `are_countable`.
pub fn read(alloc: Global, text: &[u8], schemas: &Schemas) -> Result<Statement, TextFault>
    requires short { length text.now < 2 ^ 32 - 1 }
    requires countable { IsTrue (all_countable schemas.now.tables) }
    ensures found { IfOk result (λ statement. IsText schemas.now.tables text.now statement) }
    ensures refused { IfErr result (λ fault. (fault ≡ TextFault.Memory) ⊎ IsFirstFault schemas.now.tables text.now fault) }
    ensures only { (statement : TheStatement) → IsText schemas.now.tables text.now statement → IsOnly statement result }
    ensures exactly { (fault : TheFault) → IsFirstFault schemas.now.tables text.now fault → IsExactly fault result }
{
    read_text(alloc, text, schemas)
}
