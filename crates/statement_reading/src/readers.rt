ghost use Rattle.std.specs.Prelude.{◌≡◌, ◌<◌, ◌+◌, ◌^◌, Some, length, IfOk};
ghost use Rattle.statement_grammar.specs.FirstFault.{earlier as the_earlier};
ghost use Rattle.statement_grammar.specs.Sentence.{one};
ghost use Rattle.statement_reader.specs.Spots.{spot_of};
ghost use Rattle.statement_draft_tokens.specs.Tokens.{AreShort};
ghost use Rattle.statement_reading_laws.specs.Reading.{with_one};
ghost use Rattle.statement_reading.specs.Readers.{IsOneStep, reading_of};

use ptc_statement::{Assignments, Cond};
use row_types::{R, Schemas};
use statement_draft_tokens::{fault_of_token, take_token};
use statement_drafts::Draft;
use statement_faults::first_fault;
use statement_grammar::TextFault;
use statement_reader::{Spot, earlier};
use statement_spots::spot_behind;
use statement_tokens::Token;
use std::alloc::Global;

/// What is read of a statement where no tree is open.
#[derive(Debug, Drop)]
pub struct Reader {
    pub spot: Spot,
    pub draft: Draft,
    pub sets: Assignments,
    pub cond: Option<Cond>,
    pub first: Option<TextFault>,
}

impl Reader {
    /// The first fault where nothing fits at a place.
    pub fn stopped(&self, place: u32) -> TextFault
        ensures { result ≡ the_earlier (TextFault.At place) self.now.first }
    {
        earlier(TextFault::At { place }, self.first)
    }

    fn take(self, alloc: Global, schemas: &Schemas, next: Spot, token: Token) -> R<Reader>
        requires fits { one (spot_of self.spot) token.word ≡ Some (spot_of next) }
        requires tables { length schemas.now.tables < 2 ^ 32 }
        requires columns { AreShort schemas.now.tables }
        requires number { length self.draft.values + 1 < 2 ^ 32 }
        ensures { IfOk result (λ r. reading_of schemas.now.tables r ≡ with_one schemas.now.tables (reading_of schemas.now.tables self) (spot_of next) token) }
    {
        let mut reader = self;
        let Token { word, place } = token;
        let fault = fault_of_token(&reader.draft, schemas, reader.spot, &word, place);
        take_token(&mut reader.draft, alloc, schemas, reader.spot, word, place)?;
        reader.first = first_fault(reader.first, fault);
        reader.spot = next;
        Ok(reader)
    }

    /// A single token at the spot.
    pub fn step(self, alloc: Global, schemas: &Schemas, token: Token) -> Result<Reader, TextFault>
        requires tables { length schemas.now.tables < 2 ^ 32 }
        requires columns { AreShort schemas.now.tables }
        requires number { length self.draft.values + 1 < 2 ^ 32 }
        ensures { IsOneStep schemas.now.tables (reading_of schemas.now.tables self) token result }
    {
        match spot_behind(self.spot, &token.word) {
            None => Err(self.stopped(token.place)),
            Some(next) => match self.take(alloc, schemas, next, token) {
                Ok(reader) => Ok(reader),
                Err(_) => Err(TextFault::Memory),
            },
        }
    }
}
