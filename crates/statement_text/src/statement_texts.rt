//! How statements are written.
ghost use Rattle.std.specs.Prelude.{◌≡◌, ◌++◌, OnOk, OnErr};
ghost use Rattle.statement_text.specs.StatementTexts.{where_text, assignment_text, assignments_on, assignments_text, insert_word, replace_word, select_word, lock_text, delete_word, chunk_text, summed_text, master_text, clear_word, statement_text};
ghost use Rattle.ptc_statement.specs.declared.statements.Statement.TheVariants.{Insert, Replace, Delete, Update, Check, SetMaster};
ghost use Rattle.statement_text.specs.Written.{Appended};

use crate::texts::push_bytes;
use crate::writers::Writer;
use ptc_statement::{Assignment, Cond, Statement};
use row_digest::crc_text;
use row_types::{Digest, DigestKind, LockMode, R, Schemas, Span, Value};
use std::alloc::Global;

/// Appends the canonical text of a statement. A refusal of memory leaves the text as it was.
pub fn write(alloc: Global, statement: &Statement, schemas: &Schemas, out: &mut Vec<u8>) -> R<()>
    ensures ok { OnOk result (out.new.items ≡ out.old.items ++ statement_text schemas.now.tables statement.now) }
    ensures err { OnErr result (out.new.items ≡ out.old.items) }
{
    let mut writer = Writer::new(alloc, &schemas.tables);
    writer.push_statement(statement)?;
    out.extend_from_slice(writer.as_slice())?;
    Ok(())
}

impl<'a> Writer<'a> {
    /// Nothing where there is no condition.
    #[tactic(auto, unfolding(crate::specs::StatementTexts::where_text))]
    fn push_where(&mut self, table: u32, cond: &Option<Cond>) -> R<()>
        ensures { OnOk result (Appended (where_text self.old.schemas table cond.now) self.old self.new) }
    {
        match cond {
            None => Ok(()),
            Some(condition) => {
                let schemas = self.schemas();
                self.push_bytes(b" WHERE ")?;
                self.push_cond(schemas, table, condition)
            }
        }
    }

    #[tactic(auto, unfolding(crate::specs::StatementTexts::assignment_text))]
    fn push_assignment(&mut self, table: u32, assignment: &Assignment) -> R<()>
        ensures { OnOk result (Appended (assignment_text self.old.schemas table assignment.now) self.old self.new) }
    {
        let schemas = self.schemas();
        self.push_column_name(schemas, table, assignment.column)?;
        self.push_bytes(b" = ")?;
        self.push_expr(schemas, table, &assignment.expr)
    }

    /// The assignments but the first, each after a comma.
    fn push_later_assignments(&mut self, table: u32, assignments: &[Assignment]) -> R<()>
        ensures { OnOk result (Appended (assignments_on self.old.schemas table assignments.now) self.old self.new) }
    {
        for assignment in assignments {
            self.push_bytes(b", ")?;
            self.push_assignment(table, assignment)?;
        }
        Ok(())
    }

    fn push_assignments(&mut self, table: u32, assignments: &[Assignment]) -> R<()>
        ensures { OnOk result (Appended (assignments_text self.old.schemas table assignments.now) self.old self.new) }
    {
        match assignments.split_first() {
            None => Ok(()),
            Some((first, rest)) => {
                self.push_assignment(table, first)?;
                self.push_later_assignments(table, rest)
            }
        }
    }

    #[tactic(auto, unfolding(crate::specs::StatementTexts::insert_word))]
    fn push_insert_word(&mut self) -> R<()>
        ensures { OnOk result (Appended insert_word self.old self.new) }
    {
        self.push_bytes(b"INSERT INTO ")
    }

    #[tactic(auto, unfolding(crate::specs::StatementTexts::replace_word))]
    fn push_replace_word(&mut self) -> R<()>
        ensures { OnOk result (Appended replace_word self.old self.new) }
    {
        self.push_bytes(b"REPLACE INTO ")
    }

    #[tactic(auto, unfolding(crate::specs::StatementTexts::select_word))]
    fn push_select_word(&mut self) -> R<()>
        ensures { OnOk result (Appended select_word self.old self.new) }
    {
        self.push_bytes(b"SELECT * FROM ")
    }

    #[tactic(auto, unfolding(crate::specs::StatementTexts::lock_text))]
    fn push_lock(&mut self, mode: LockMode) -> R<()>
        ensures { OnOk result (Appended (lock_text mode) self.old self.new) }
    {
        match mode {
            LockMode::Shared => self.push_bytes(b" FOR SHARE"),
            LockMode::Exclusive => self.push_bytes(b" FOR UPDATE"),
        }
    }

    #[tactic(auto, unfolding(crate::specs::StatementTexts::delete_word))]
    fn push_delete_word(&mut self) -> R<()>
        ensures { OnOk result (Appended delete_word self.old self.new) }
    {
        self.push_bytes(b"DELETE FROM ")
    }

    #[tactic(auto, unfolding(crate::specs::StatementTexts::chunk_text))]
    fn push_chunk(&mut self, table: u32, chunk: u32) -> R<()>
        ensures { OnOk result (Appended (chunk_text self.old.schemas table chunk) self.old self.new) }
    {
        self.push_name(table as usize)?;
        self.push_bytes(b" CHUNK ")?;
        self.push_number(chunk as u64)
    }

    #[tactic(auto, unfolding(crate::specs::StatementTexts::summed_text))]
    fn push_summed(&mut self, span: &Span, kind: DigestKind) -> R<()>
        ensures { OnOk result (Appended (summed_text span.now kind) self.old self.new) }
    {
        self.push_bytes(b" ")?;
        self.push_span(span)?;
        self.push_bytes(b" USING ")?;
        self.push_digest_kind(kind)
    }

    #[tactic(auto, unfolding(crate::specs::StatementTexts::master_text))]
    fn push_master(&mut self, kind: DigestKind, master: &Digest) -> R<()>
        ensures { OnOk result (Appended (master_text kind master.now) self.old self.new) }
    {
        let crc = crc_text(self.alloc(), master, kind)?;
        self.push_bytes(b" CNT ")?;
        self.push_number(master.count)?;
        self.push_bytes(b" CRC '")?;
        self.push_bytes(crc.as_slice())?;
        self.push_bytes(b"'")
    }

    #[tactic(auto, unfolding(crate::specs::StatementTexts::clear_word))]
    fn push_clear_word(&mut self) -> R<()>
        ensures { OnOk result (Appended clear_word self.old self.new) }
    {
        self.push_bytes(b"CLEARCHECKS ")
    }

    #[tactic(auto, unfolding(crate::specs::StatementTexts::statement_text))]
    fn push_insert(&mut self, table: u32, row: &[Value]) -> R<()>
        ensures { OnOk result (Appended (statement_text self.old.schemas (Insert table row.now)) self.old self.new) }
    {
        self.push_insert_word()?;
        self.push_name(table as usize)?;
        self.push_bytes(b" VALUES ")?;
        self.push_tuple(row)
    }

    #[tactic(auto, unfolding(crate::specs::StatementTexts::statement_text))]
    fn push_replace(&mut self, table: u32, row: &[Value]) -> R<()>
        ensures { OnOk result (Appended (statement_text self.old.schemas (Replace table row.now)) self.old self.new) }
    {
        self.push_replace_word()?;
        self.push_name(table as usize)?;
        self.push_bytes(b" VALUES ")?;
        self.push_tuple(row)
    }

    #[tactic(auto, unfolding(crate::specs::StatementTexts::statement_text))]
    fn push_delete(&mut self, table: u32, cond: &Option<Cond>) -> R<()>
        ensures { OnOk result (Appended (statement_text self.old.schemas (Delete table cond.now)) self.old self.new) }
    {
        self.push_delete_word()?;
        self.push_name(table as usize)?;
        self.push_where(table, cond)
    }

    #[tactic(auto, unfolding(crate::specs::StatementTexts::statement_text))]
    fn push_update(&mut self, table: u32, sets: &[Assignment], cond: &Option<Cond>) -> R<()>
        ensures { OnOk result (Appended (statement_text self.old.schemas (Update table sets.now cond.now)) self.old self.new) }
    {
        self.push_bytes(b"UPDATE ")?;
        self.push_name(table as usize)?;
        self.push_bytes(b" SET ")?;
        self.push_assignments(table, sets)?;
        self.push_where(table, cond)
    }

    #[tactic(auto, unfolding(crate::specs::StatementTexts::statement_text))]
    fn push_check(&mut self, table: u32, chunk: u32, span: &Span, kind: DigestKind) -> R<()>
        ensures { OnOk result (Appended (statement_text self.old.schemas (Check table chunk span.now kind)) self.old self.new) }
    {
        self.push_bytes(b"CHECKSUM ")?;
        self.push_chunk(table, chunk)?;
        self.push_summed(span, kind)
    }

    #[tactic(auto, unfolding(crate::specs::StatementTexts::statement_text))]
    fn push_set_master(
        &mut self,
        table: u32,
        chunk: u32,
        kind: DigestKind,
        master: &Digest,
    ) -> R<()>
        ensures { OnOk result (Appended (statement_text self.old.schemas (SetMaster table chunk kind master.now)) self.old self.new) }
    {
        self.push_bytes(b"SETMASTER ")?;
        self.push_chunk(table, chunk)?;
        self.push_master(kind, master)
    }

    /// Appends the canonical text of a statement.
    #[tactic(auto, unfolding(crate::specs::StatementTexts::statement_text))]
    pub fn push_statement(&mut self, statement: &Statement) -> R<()>
        ensures { OnOk result (Appended (statement_text self.old.schemas statement.now) self.old self.new) }
    {
        match statement {
            Statement::Insert { table, row } => self.push_insert(*table, row.as_slice()),
            Statement::Replace { table, row } => self.push_replace(*table, row.as_slice()),
            Statement::Delete { table, cond } => self.push_delete(*table, cond),
            Statement::Update { table, sets, cond } => {
                self.push_update(*table, sets.as_slice(), cond)
            }
            Statement::LockRead {
                table,
                mode,
                cond,
                ..
            } => {
                self.push_select_word()?;
                self.push_name(*table as usize)?;
                self.push_where(*table, cond)?;
                self.push_lock(*mode)
            }
            Statement::Check {
                table,
                chunk,
                span,
                kind,
            } => self.push_check(*table, *chunk, span, *kind),
            Statement::SetMaster {
                table,
                chunk,
                kind,
                master,
            } => self.push_set_master(*table, *chunk, *kind, master),
            Statement::ClearChecks { table } => {
                self.push_clear_word()?;
                self.push_name(*table as usize)
            }
        }
    }
}
