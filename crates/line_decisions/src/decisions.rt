ghost use Rattle.std.specs.Prelude.{◌≡◌, ◌≤◌, ℕ, List, map, length};
ghost use Rattle.file_text.specs.declared.places.Section.TheVariants.{PtcLines, IsolationLines, ReplicaLines, TableLines, SessionLines, LocalLines, ScheduleLines, EndLines};
ghost use Rattle.file_text.specs.Said.{Said, Header, Isolation, Replicas, TableOf, SessionOf, LocalOf, Schedule, End, Level, ColumnText, ScheduleWord};
ghost use Rattle.file_text.specs.Context.{schema_of};
ghost use Rattle.line_words.specs.Actors.{kept};
ghost use Rattle.line_words.specs.Items.{kept_word};
ghost use Rattle.line_items.specs.Counted.{IsCounted};
ghost use Rattle.line_values.specs.Lines.{is_repeatable};
ghost use Rattle.line_checks.specs.MarksOf.{IsMarked};
ghost use Rattle.file_rows.specs.Holds.{HoldsRows};
ghost use Rattle.line_decisions.specs.Decides.{Decides};
ghost use Rattle.line_decisions.specs.Tests.{plain_tests as the_plain_tests, replica_actor as the_replica_actor, schedule_actor as the_schedule_actor, table_twice as is_table_twice};

use crate::tests::{LineTests, breaks_script, first_broken, replica_count};
use crate::twins::has_twins;
use file_rows::FileRows;
use file_scripts::{first_undeclared, is_replica};
use file_text::Section;
use line_checks::{LineFault, Marks};
use line_items::{Counts, part_place};
use line_words::ItemWord;
use row_types::Schema;

fn plain_tests(section: Section, twice: bool, marks: &Marks) -> LineTests
    ensures { result ≡ the_plain_tests section twice marks.now }
{
    LineTests {
        twice,
        level: false,
        row: None,
        script: breaks_script(marks, section),
        actor: None,
    }
}

/// The first rule on what it says that a PTC line breaks behind lines with these marks.
#[tactic(auto, using(crate::proofs::PlainLemmas::header_decided))]
pub fn header_fault(marks: &Marks) -> Option<LineFault>
    ensures { (before : List Said) (line : List ℕ) (version : ℕ) → IsMarked marks.now before → Decides PtcLines before line (Header version) result }
{
    first_broken(plain_tests(Section::PtcLines, marks.header, marks))
}

/// The first rule that is broken by an ISOLATION line, of REPEATABLE READ or another level.
#[tactic(auto, using(crate::proofs::PlainLemmas::level_decided))]
pub fn level_fault(marks: &Marks, repeatable: bool) -> Option<LineFault>
    ensures { (before : List Said) (line : List ℕ) (level : Level) → IsMarked marks.now before → repeatable ≡ is_repeatable level → Decides IsolationLines before line (Isolation level) result }
{
    first_broken(LineTests {
        twice: marks.isolation,
        level: !repeatable,
        row: None,
        script: breaks_script(marks, Section::IsolationLines),
        actor: None,
    })
}

/// The first rule that is broken by a REPLICAS line.
#[tactic(auto, using(crate::proofs::PlainLemmas::replicas_decided))]
pub fn replicas_fault(marks: &Marks) -> Option<LineFault>
    ensures { (before : List Said) (line : List ℕ) (count : ℕ) → IsMarked marks.now before → Decides ReplicaLines before line (Replicas count) result }
{
    first_broken(plain_tests(Section::ReplicaLines, marks.replica_line, marks))
}

/// Whether a table of the name is there, or two of its columns have one name.
fn table_twice(rows: &FileRows, schema: &Schema) -> bool
    ensures { result ≡ is_table_twice schema.now rows.now.tables.items }
{
    rows.place_of(schema.name.as_slice()).is_some() || has_twins(schema.columns.as_slice())
}

/// The first rule that is broken by a TABLE line of this schema.
#[tactic(auto, using(crate::proofs::TableLemmas::table_decided))]
pub fn table_fault(marks: &Marks, rows: &FileRows, schema: &Schema) -> Option<LineFault>
    ensures { (before : List Said) (line : List ℕ) (name : List ℕ) (columns : List ColumnText) → IsMarked marks.now before → HoldsRows rows.now.tables.items before → schema.now ≡ schema_of name columns → Decides TableLines before line (TableOf name columns) result }
{
    first_broken(plain_tests(Section::TableLines, table_twice(rows, schema), marks))
}

/// The first rule that is broken by a SESSION line.
#[tactic(auto, using(crate::proofs::PlainLemmas::session_decided))]
pub fn session_fault(marks: &Marks) -> Option<LineFault>
    ensures { (before : List Said) (line : List ℕ) (session : ℕ) → IsMarked marks.now before → Decides SessionLines before line (SessionOf session) result }
{
    first_broken(plain_tests(Section::SessionLines, false, marks))
}

fn replica_actor(replicas: u32, line: &[u8], replica: u128) -> Option<u32>
    requires { length line.now ≤ 65535 }
    ensures { result ≡ the_replica_actor replicas line.now replica }
{
    if is_replica(replicas, replica) {
        return None;
    }
    Some(part_place(Section::LocalLines, line, 1))
}

/// The first rule that is broken by a LOCAL line of this replica.
#[tactic(auto, using(crate::proofs::ActorLemmas::local_decided))]
pub fn local_fault(marks: &Marks, line: &[u8], replica: u128) -> Option<LineFault>
    requires { length line.now ≤ 65535 }
    ensures { (before : List Said) (named session : ℕ) → IsMarked marks.now before → replica ≡ kept named → Decides LocalLines before line.now (LocalOf named session) result }
{
    first_broken(LineTests {
        twice: false,
        level: false,
        row: None,
        script: breaks_script(marks, Section::LocalLines),
        actor: replica_actor(replica_count(marks), line, replica),
    })
}

fn schedule_actor(replicas: u32, counts: &Counts, line: &[u8], words: &[ItemWord]) -> Option<u32>
    requires { length line.now ≤ 65535 }
    ensures { result ≡ the_schedule_actor replicas counts.now line.now words.now }
{
    match first_undeclared(counts, replicas, words) {
        None => None,
        Some(number) => Some(part_place(Section::ScheduleLines, line, number + 1)),
    }
}

/// The first rule that is broken by a SCHEDULE line of these words.
#[tactic(auto, using(crate::proofs::ActorLemmas::schedule_decided))]
pub fn schedule_fault(
    marks: &Marks,
    counts: &Counts,
    line: &[u8],
    words: &[ItemWord],
) -> Option<LineFault>
    requires { length line.now ≤ 65535 }
    ensures { (before : List Said) (said : List ScheduleWord) → IsMarked marks.now before → IsCounted counts.now before → words.now ≡ map kept_word said → Decides ScheduleLines before line.now (Schedule said) result }
{
    first_broken(LineTests {
        twice: false,
        level: false,
        row: None,
        script: breaks_script(marks, Section::ScheduleLines),
        actor: schedule_actor(replica_count(marks), counts, line, words),
    })
}

/// The first rule that is broken by an END line.
#[tactic(auto, using(crate::proofs::PlainLemmas::end_decided))]
pub fn end_fault(marks: &Marks) -> Option<LineFault>
    ensures { (before : List Said) (line : List ℕ) → IsMarked marks.now before → Decides EndLines before line End result }
{
    first_broken(plain_tests(Section::EndLines, false, marks))
}
