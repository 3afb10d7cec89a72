//! The scripts and the schedule of a small file.
use file_scripts::{
    FileSchedule, FileScripts, Owner, SplitScripts, count_local, count_session, count_turns,
    ends_script, first_undeclared, is_declared, is_replica, node_is_declared, split_scripts,
    step_may_come,
};
use file_text::Section;
use line_items::Counts;
use line_words::{ActorWord, ItemWord, NodeWord};
use ptc_statement::{ScriptLine, ScriptStep};
use row_types::R;
use std::alloc::Global;
use std::test::Fail;
use workload::{Actor, Item};

const WORDS: [ItemWord; 4] = [
    ItemWord::Once(ActorWord::Session(1)),
    ItemWord::Times {
        actor: ActorWord::Local {
            replica: 2,
            session: 1,
        },
        count: 3,
    },
    ItemWord::StopTool,
    ItemWord::Once(ActorWord::Worker(3)),
];

/// Of one session on the source and one on replica 2.
fn counts_of(alloc: Global) -> R<Counts> {
    let mut counts = Counts {
        sessions: 0,
        locals: Vec::new(alloc),
        scheduled: 0,
    };
    count_local(&mut counts, 2)?;
    count_session(&mut counts);
    count_turns(&mut counts, WORDS.as_slice());
    Ok(counts)
}

#[test]
fn the_first_word_that_names_nobody_is_told(rt: HostRuntime) -> Result<(), Fail> {
    let counts = counts_of(rt.alloc())?;
    assert!(rt; counts.sessions == 1 && counts.locals.len() == 3 && counts.scheduled == 6);
    assert!(rt; first_undeclared(&counts, 2, WORDS.as_slice()) == Some(3));
    assert!(rt; first_undeclared(&counts, 1, WORDS.as_slice()) == Some(1));
    assert!(rt; first_undeclared(&counts, 3, WORDS.as_slice()).is_none());
    assert!(rt; !is_declared(&counts, 3, ActorWord::Session(2)));
    assert!(rt; is_replica(8, 8) && !is_replica(8, 0));
    assert!(rt;
        node_is_declared(1, NodeWord::Source) && !node_is_declared(1, NodeWord::Replica(2))
    );
    Ok(())
}

#[test]
fn turns_are_played_one_by_one(rt: HostRuntime) -> Result<(), Fail> {
    let mut schedule = FileSchedule::new(rt.alloc());
    schedule.push(WORDS.as_slice())?;
    let items = schedule.into_schedule();
    assert!(rt; items.len() == 6);
    let last = items.as_slice().last().copied();
    assert!(rt;
        last == Some(Item::Turn(Actor::Worker {
            replica: 3,
            worker: 1,
        }))
    );
    Ok(())
}

#[test]
fn transactions_begin_and_end_in_their_script(rt: HostRuntime) -> Result<(), Fail> {
    assert!(rt;
        step_may_come(false, &ScriptStep::Begin) && !step_may_come(true, &ScriptStep::Begin)
    );
    assert!(rt;
        !step_may_come(false, &ScriptStep::Commit) && step_may_come(true, &ScriptStep::Rollback)
    );
    assert!(rt; ends_script(Section::EndLines) && !ends_script(Section::RowLines));
    Ok(())
}

fn push(scripts: &mut FileScripts, line: ScriptLine) -> R<()> {
    if scripts.as_slice().len() > 0 {
        scripts.push(line)?;
    }
    Ok(())
}

/// One of a session with a line, and one of a session on replica 2 without one.
fn scripts_of(alloc: Global) -> R<FileScripts> {
    let mut scripts = FileScripts::new(alloc);
    scripts.begin(alloc, Owner::Session)?;
    push(
        &mut scripts,
        ScriptLine {
            line: 5,
            step: ScriptStep::Begin,
        },
    )?;
    scripts.begin(alloc, Owner::Local { replica: 2 })?;
    Ok(scripts)
}

fn lines_of_first(split: &SplitScripts) -> usize {
    match split.sessions.as_slice().first() {
        None => 0,
        Some(script) => script.lines.len(),
    }
}

fn locals_of_last(split: &SplitScripts) -> usize {
    match split.locals.as_slice().last() {
        None => 0,
        Some(scripts) => scripts.len(),
    }
}

#[test]
fn scripts_are_split_by_their_owners(rt: HostRuntime) -> Result<(), Fail> {
    let alloc = rt.alloc();
    let split = split_scripts(alloc, 2, scripts_of(alloc)?)?;
    assert!(rt; split.sessions.len() == 1 && lines_of_first(&split) == 1);
    assert!(rt; split.locals.len() == 2 && locals_of_last(&split) == 1);
    Ok(())
}
