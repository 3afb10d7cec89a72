//! Copies: each is the same as what it was made from, and not the same as another.
use cluster_core::{Refusal, ToolPhase};
use std::test::Fail;

const PHASES: [ToolPhase; 5] = [
    ToolPhase::Clear { table: 1 },
    ToolPhase::Clear { table: 2 },
    ToolPhase::Check { table: 1 },
    ToolPhase::Master { table: 1 },
    ToolPhase::Finished,
];

#[test]
fn phases_are_copied(rt: HostRuntime) -> Result<(), Fail> {
    for i in 0..5 {
        let copy = PHASES[i].copy(rt.alloc())?;
        for j in 0..5 {
            assert_eq!(rt; copy.same(&PHASES[j]), i == j, "at {i} and {j}");
        }
    }
    Ok(())
}

const REFUSALS: [Refusal; 3] = [
    Refusal {
        line: 7,
        position: 0,
    },
    Refusal {
        line: 8,
        position: 0,
    },
    Refusal {
        line: 7,
        position: 1,
    },
];

#[test]
fn refusals_are_copied(rt: HostRuntime) -> Result<(), Fail> {
    for i in 0..3 {
        let copy = REFUSALS[i].copy(rt.alloc())?;
        for j in 0..3 {
            assert_eq!(rt; copy.same(&REFUSALS[j]), i == j, "at {i} and {j}");
        }
    }
    Ok(())
}
