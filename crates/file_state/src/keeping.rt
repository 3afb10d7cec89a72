ghost use Rattle.std.specs.Prelude.{◌≡◌, ◌≤◌, ◌<◌, ◌^◌, ◌+◌, suc, true, List, ℕ, Some, map, length, OnOk};
ghost use Rattle.std.specs.List.{AllByRecursion};
ghost use Rattle.row_types.specs.Fit.{IsSchema};
ghost use Rattle.file_text.specs.Said.{Said, Skipped, Replicas, TableOf, RowOf, SessionOf, LocalOf, StepOf, Schedule, section_of, ColumnText, Node, Literal, ScheduleWord, value_of};
ghost use Rattle.file_text.specs.Context.{schema_of, is_script, in_script};
ghost use Rattle.file_text.specs.Causes.{IsGood};
ghost use Rattle.line_words.specs.Items.{kept_node, kept_word};
ghost use Rattle.file_scripts.specs.Counting.{turns_of};
ghost use Rattle.file_scripts.specs.Schedules.{FitsWord};
ghost use Rattle.file_rows.specs.Puts.{place_named, TakesAt};
ghost use Rattle.file_state.specs.Keeps.{Keeps, IsKept, IsPlain, LeadsTo, LeadsOn};

use crate::states::FileState;
use file_rows::FileTable;
use file_scripts::{Owner, count_local, count_session, count_turns};
use file_text::Section;
use line_words::{ItemWord, NodeWord};
use ptc_statement::ScriptLine;
use row_types::{R, Row, Schema};
use std::alloc::Global;

impl FileState {
    /// A skipped line.
    #[tactic(auto, using(crate::proofs::KeepLemmas::skipped_kept))]
    pub fn skip(&mut self)
        ensures { LeadsTo Skipped self.old self.new }
    {}

    /// A PTC, an ISOLATION or an END line.
    #[tactic(auto, using(crate::proofs::KeepLemmas::plain_kept))]
    pub fn take_plain(&mut self, section: Section)
        requires { IsKept self.old }
        ensures { (said : Said) → IsPlain said → section_of said ≡ Some section → LeadsTo said self.old self.new }
    {
        self.marks.mark(section);
    }

    /// A REPLICAS line of this number.
    #[tactic(auto, using(crate::proofs::KeepLemmas::replicas_kept))]
    pub fn take_replicas(&mut self, count: u32)
        requires kept { IsKept self.old }
        requires few { count ≤ 8 }
        ensures { LeadsTo (Replicas count) self.old self.new }
    {
        self.marks.mark(Section::ReplicaLines);
        self.marks.add_replicas(count);
    }

    /// A TABLE line of this schema. After want of memory nothing is known of the state.
    pub fn take_table(&mut self, alloc: Global, schema: Schema) -> R<()>
        requires kept { IsKept self.old }
        requires schema { IsSchema schema }
        requires few { length schema.columns ≤ 16 }
        ensures { OnOk result ((name : List ℕ) (columns : List ColumnText) → schema ≡ schema_of name columns → LeadsTo (TableOf name columns) self.old self.new) }
    {
        let copy = schema.copy(alloc)?;
        let table = FileTable::new(alloc, schema, self.marks.replicas)?;
        self.schemas.tables.push(copy)?;
        self.rows.begin(table)?;
        self.marks.mark(Section::TableLines);
        Ok(())
    }

    /// A ROW line of this row, for the table of this number. After want of memory nothing is known of the state.
    pub fn take_row(&mut self, alloc: Global, place: usize, which: NodeWord, row: &Row) -> R<()>
        requires kept { IsKept self.old }
        requires takes { TakesAt place row.now self.old.rows.tables.items }
        ensures { OnOk result ((node : Node) (table : List ℕ) (literals : List Literal) → which ≡ kept_node node → row.now ≡ map value_of literals
            → place_named table 0 self.old.rows.tables.items ≡ Some place → LeadsTo (RowOf node table literals) self.old self.new) }
    {
        self.rows.put(alloc, place, which, row)?;
        self.marks.mark(Section::RowLines);
        Ok(())
    }

    /// A SESSION line. After want of memory nothing is known of the state.
    pub fn take_session(&mut self, alloc: Global) -> R<()>
        requires { IsKept self.old }
        ensures { OnOk result ((session : ℕ) → LeadsTo (SessionOf session) self.old self.new) }
    {
        self.scripts.begin(alloc, Owner::Session)?;
        count_session(&mut self.counts);
        self.marks.mark(Section::SessionLines);
        Ok(())
    }

    /// A LOCAL line of this replica. After want of memory nothing is known of the state.
    pub fn take_local(&mut self, alloc: Global, replica: u32) -> R<()>
        requires { IsKept self.old }
        ensures { OnOk result ((session : ℕ) → LeadsTo (LocalOf replica session) self.old self.new) }
    {
        self.scripts.begin(alloc, Owner::Local { replica })?;
        count_local(&mut self.counts, replica)?;
        self.marks.mark(Section::LocalLines);
        Ok(())
    }

    /// A SCHEDULE line of these words. After want of memory nothing is known of the state.
    pub fn take_schedule(&mut self, words: &[ItemWord]) -> R<()>
        requires kept { IsKept self.old }
        requires fit { AllByRecursion FitsWord words.now }
        requires turns { self.old.counts.scheduled + turns_of words.now ≤ 10000000 }
        ensures { OnOk result ((said : List ScheduleWord) → words.now ≡ map kept_word said → LeadsTo (Schedule said) self.old self.new) }
    {
        self.schedule.push(words)?;
        count_turns(&mut self.counts, words);
        self.marks.mark(Section::ScheduleLines);
        Ok(())
    }

    /// A line of the last script, which stands in one. After want of memory nothing is known of the state.
    pub fn take_step(&mut self, step: ScriptLine) -> R<()>
        requires kept { IsKept self.old }
        requires inside { is_script self.old.marks.last ≡ true }
        ensures { OnOk result (LeadsOn step self.old self.new) }
    {
        self.marks.step(&step.step);
        self.scripts.push(step)?;
        Ok(())
    }
}
