use row_types::{R, SchemaList};
use statement_text::Writer;
use std::alloc::Global;
use std::test::Fail;
use trace_text::{
    AbandonedLine, DuplicateLine, UnfinishedLine, Why, push_abandoned, push_duplicates,
    push_unfinished,
};
use workload::Actor;

const LOCAL: Actor = Actor::Local {
    replica: 1,
    session: 1,
};

const DUPLICATES: [DuplicateLine; 2] = [
    DuplicateLine {
        actor: Actor::Session(2),
        line: 9,
    },
    DuplicateLine {
        actor: LOCAL,
        line: 12,
    },
];

const ABANDONED: [AbandonedLine; 1] = [AbandonedLine {
    actor: Actor::Session(1),
    number: 2,
}];

const UNFINISHED: [UnfinishedLine; 3] = [
    UnfinishedLine {
        actor: Actor::Tool,
        why: Why::Retries { rollbacks: 11 },
    },
    UnfinishedLine {
        actor: LOCAL,
        why: Why::Waits {
            by: Actor::Worker {
                replica: 1,
                worker: 1,
            },
        },
    },
    UnfinishedLine {
        actor: Actor::Worker {
            replica: 2,
            worker: 3,
        },
        why: Why::Order { entry: 4 },
    },
];

#[test]
fn lines_are_told_word_by_word(rt: HostRuntime) -> Result<(), Fail> {
    let alloc = rt.alloc();
    let schemas = SchemaList::new(alloc);
    let mut writer = Writer::new(alloc, &schemas);
    push_duplicates(&mut writer, &DUPLICATES)?;
    push_abandoned(&mut writer, &ABANDONED)?;
    push_unfinished(&mut writer, &UNFINISHED)?;
    let text =
        b"DUPLICATE s2 line 9\nDUPLICATE r1.l1 line 12\nABANDONED s1 2\nUNFINISHED c retries 11\nUNFINISHED r1.l1 waits r1\nUNFINISHED r2.3 order 4\n".as_slice();
    assert!(rt; writer.as_slice() == text);
    Ok(())
}
