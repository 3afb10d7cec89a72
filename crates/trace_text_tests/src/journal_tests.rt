use row_types::{R, SchemaList};
use statement_text::Writer;
use std::alloc::Global;
use std::test::Fail;
use test_builders::{pair_schema, schemas};
use trace_text::{Journal, JournalLine, Note, push_journal};
use workload::{Actor, Actors, Item};

const SESSION: Actor = Actor::Session(1);

const WORKER: Actor = Actor::Worker {
    replica: 1,
    worker: 1,
};

const LATER_WORKER: Actor = Actor::Worker {
    replica: 1,
    worker: 2,
};

const LOCAL: Actor = Actor::Local {
    replica: 2,
    session: 3,
};

fn push(journal: &mut Journal, item: Item, note: Note) -> R<()> {
    journal.items.push(JournalLine { item, note })?;
    Ok(())
}

fn push_session_notes(journal: &mut Journal) -> R<()> {
    let item = Item::Turn(SESSION);
    push(journal, item, Note::Begin)?;
    push(journal, item, Note::Start)?;
    push(journal, item, Note::Step)?;
    push(journal, item, Note::Done)?;
    push(journal, item, Note::Duplicate)?;
    push(journal, item, Note::Waits { by: Actor::Tool })?;
    push(journal, item, Note::Victim)?;
    push(journal, item, Note::Rollback)?;
    push(journal, item, Note::Commit { position: 3 })?;
    push(journal, item, Note::CommitNone)?;
    push(journal, item, Note::Finished)
}

fn push_other_notes(journal: &mut Journal) -> R<()> {
    push(journal, Item::Turn(LOCAL), Note::CommitLocal)?;
    push(journal, Item::Turn(Actor::Sync(2)), Note::Off)?;
    push(journal, Item::Turn(LATER_WORKER), Note::Take { entry: 3 })?;
    push(journal, Item::Turn(WORKER), Note::Nothing { applied: 4 })?;
    push(journal, Item::Turn(WORKER), Note::Stopped)?;
    push(journal, Item::Turn(LATER_WORKER), Note::Order { entry: 2 })?;
    push(
        journal,
        Item::Turn(Actor::Tool),
        Note::Clear { position: 1 },
    )?;
    push(
        journal,
        Item::Turn(Actor::Tool),
        Note::Choose { table: 0, chunk: 2 },
    )?;
    push(
        journal,
        Item::Turn(Actor::Tool),
        Note::Master { position: 5 },
    )?;
    push(
        journal,
        Item::Turn(Actor::Tool),
        Note::Retries { rollbacks: 6 },
    )?;
    push(journal, Item::StopTool, Note::Off)?;
    push(journal, Item::ResumeTool, Note::Off)?;
    push(journal, Item::StopReplica(1), Note::Off)?;
    push(journal, Item::StartReplica(8), Note::Off)
}

const TEXT: &[u8] =
    b"T 1 s1 begin\nT 2 s1 start\nT 3 s1 step\nT 4 s1 done\nT 5 s1 duplicate\nT 6 s1 waits c\nT 7 s1 victim\nT 8 s1 rollback\nT 9 s1 commit 3\nT 10 s1 commit none\nT 11 s1 finished\nT 12 r2.l3 commit local\nT 13 y2 off\nT 14 r1.2 take 3\nT 15 r1 nothing 4\nT 16 r1 stopped\nT 17 r1.2 order 2\nT 18 c clear 1\nT 19 c choose t 2\nT 20 c master 5\nT 21 c retries 6\nT 22 stop:c off\nT 23 resume:c off\nT 24 stop:r1 off\nT 25 start:r8 off\n";

fn is_text(alloc: Global, journal: &Journal, text: &[u8]) -> R<bool> {
    let schemas = schemas(alloc, pair_schema(alloc, b"t")?)?;
    let mut writer = Writer::new(alloc, &schemas);
    push_journal(&mut writer, journal.as_slice())?;
    Ok(writer.as_slice() == text)
}

fn copies(alloc: Global, journal: &Journal) -> R<Journal> {
    let mut copies = Journal {
        items: Vec::new(alloc),
    };
    for line in journal.as_slice() {
        push(&mut copies, line.item, line.note.copy(alloc)?)?;
    }
    Ok(copies)
}

#[test]
fn a_journal_is_told_line_by_line(rt: HostRuntime) -> Result<(), Fail> {
    let alloc = rt.alloc();
    let mut journal = Journal {
        items: Vec::new(alloc),
    };
    push_session_notes(&mut journal)?;
    push_other_notes(&mut journal)?;
    assert!(rt; is_text(alloc, &journal, TEXT)?);
    assert!(rt; is_text(alloc, &copies(alloc, &journal)?, TEXT)?);
    Ok(())
}

fn cycle(alloc: Global) -> R<Actors> {
    let mut cycle = Actors::new(alloc);
    cycle.push(WORKER)?;
    cycle.push(SESSION)?;
    cycle.push(LOCAL)?;
    Ok(cycle)
}

#[test]
fn a_deadlock_is_told_with_its_cycle(rt: HostRuntime) -> Result<(), Fail> {
    let alloc = rt.alloc();
    let mut journal = Journal {
        items: Vec::new(alloc),
    };
    let note = Note::Deadlock {
        victim: SESSION,
        cycle: cycle(alloc)?,
    };
    push(&mut journal, Item::Turn(WORKER), note)?;
    let text = b"T 1 r1 deadlock s1 cycle r1 s1 r2.l3\n".as_slice();
    assert!(rt; is_text(alloc, &journal, text)?);
    assert!(rt; is_text(alloc, &copies(alloc, &journal)?, text)?);
    Ok(())
}
