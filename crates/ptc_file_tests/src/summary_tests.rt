//! A world's summary, by copies and taken apart.
ghost use Rattle.workload_file.specs.Workload.{IsWorkload};

use cluster_core::World;
use ptc_run::read;
use report_text::report;
use row_types::R;
use std::alloc::Global;
use std::test::Fail;
use workload_file::Workload;

/// Whether the report of a world is the same by copies of its rows and once they are moved out of it.
fn summaries_agree(alloc: Global, workload: Workload) -> R<bool>
    requires { IsWorkload workload }
{
    let mut world = World::new(alloc, workload)?;
    world.run()?;
    let copied = report(alloc, &world.summary()?)?;
    let moved = report(alloc, &world.into_summary()?)?;
    Ok(copied.as_slice() == moved.as_slice())
}

#[test]
fn summaries_are_the_same(rt: HostRuntime) -> Result<(), Fail> {
    let alloc = rt.alloc();
    let text = format!(in alloc;
        "PTC WORKLOAD 1\nREPLICAS 1\nTABLE t (id BIGINT KEY, v BIGINT)\nROW source t (1, 2)\nROW r1 t (3, 4)\nSESSION s1\nINSERT INTO t VALUES (5, 6)\nEND\n"
    )?;
    match read(alloc, text.as_bytes()) {
        Err(_) => Err(Fail::from("the file is read")),
        Ok(workload) => {
            assert!(rt; summaries_agree(alloc, workload)?);
            Ok(())
        }
    }
}
