//! Words as a file has them.
use crate::{ActorWord, ItemWord, NodeWord, decimal_of, digits_of, item_of, name_of, node_of};
use std::test::Fail;

#[test]
fn words_of_a_schedule_are_read(rt: HostRuntime) -> Result<(), Fail> {
    let local = ActorWord::Local {
        replica: 2,
        session: 1,
    };
    assert!(rt;
        item_of(b"r2.l1*30".as_slice())
            == Some(ItemWord::Times {
                actor: local,
                count: 30
            })
    );
    assert!(rt;
        item_of(b"r1.9".as_slice())
            == Some(ItemWord::Once(ActorWord::FurtherWorker {
                replica: 1,
                worker: 9
            }))
    );
    assert!(rt; item_of(b"start:r3".as_slice()) == Some(ItemWord::StartReplica(3)));
    assert!(rt; item_of(b"resume:c".as_slice()) == Some(ItemWord::ResumeTool));
    assert!(rt; item_of(b"r1.9*05".as_slice()).is_none() && item_of(b"r1.".as_slice()).is_none());
    assert!(rt; item_of(b"S1".as_slice()).is_none() && item_of(b"c*".as_slice()).is_none());
    Ok(())
}

#[test]
fn numbers_nodes_and_names_are_read(rt: HostRuntime) -> Result<(), Fail> {
    assert!(rt; digits_of(b"007".as_slice()) == Some(7) && decimal_of(b"007".as_slice()).is_none());
    assert!(rt; decimal_of(b"0".as_slice()) == Some(0) && decimal_of(b"".as_slice()).is_none());
    assert!(rt;
        node_of(b"*".as_slice()) == Some(NodeWord::All) && node_of(b"R1".as_slice()).is_none()
    );
    let name = name_of(rt.alloc(), b"t_1".as_slice())?;
    assert!(rt; name.is_some());
    let keyword = name_of(rt.alloc(), b"kEY".as_slice())?;
    assert!(rt; keyword.is_none());
    Ok(())
}
