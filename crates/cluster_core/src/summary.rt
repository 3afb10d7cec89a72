//! What a world's report says: copied, or moved out of the world.
ghost use Rattle.std.specs.Prelude.{◌≡◌, IfOk, OnOk};
ghost use Rattle.cluster_core.specs.Summary.{summary_of};
ghost use Rattle.cluster_core.specs.SummaryParts.{with_replicas, lines_of};

use crate::node_parts::SummaryNodes;
use crate::nodes::Node;
use crate::summary_lines::{SummaryLines, summary_lines};
use crate::worlds::World;
use report_text::Summary;
use row_types::R;

impl World {
    /// What the report of the world as it is now says; rows and entries are copied.
    pub fn summary(&self) -> R<Summary>
        ensures { IfOk result (λ summary. summary ≡ summary_of self.now) }
    {
        let lines = self.lines()?;
        let mut nodes = SummaryNodes::of_source(self.alloc, self.source.parts()?)?;
        add_copies(&mut nodes, self.replicas.as_slice())?;
        Ok(nodes.with_lines(lines))
    }

    /// What the report of the world as it is now says; rows and entries are moved out of the world.
    pub fn into_summary(self) -> R<Summary>
        ensures { IfOk result (λ summary. summary ≡ summary_of self) }
    {
        let lines = self.lines()?;
        let World {
            source,
            replicas,
            alloc,
            ..
        } = self;
        let mut nodes = SummaryNodes::of_source(alloc, source.into_parts()?)?;
        add_replicas(&mut nodes, replicas)?;
        Ok(nodes.with_lines(lines))
    }

    /// The lines that are worked out from the nodes and the sessions.
    fn lines(&self) -> R<SummaryLines>
        ensures { IfOk result (λ lines. lines ≡ lines_of self.now.source self.now.replicas self.now.sessions) }
    {
        let lines = summary_lines(
            self.alloc,
            &self.source,
            self.replicas.as_slice(),
            self.sessions.as_slice(),
        )?;
        Ok(lines)
    }
}

/// Adds copies of what replicas have.
fn add_copies(nodes: &mut SummaryNodes, replicas: &[Node]) -> R<()>
    ensures { OnOk result (nodes.new ≡ with_replicas replicas.now nodes.old) }
{
    for replica in replicas {
        nodes.add_replica(replica.parts()?)?;
    }
    Ok(())
}

/// Adds what replicas have, which are taken from the front.
fn add_replicas(nodes: &mut SummaryNodes, mut replicas: Vec<Node>) -> R<()>
    ensures { OnOk result (nodes.new ≡ with_replicas replicas.items nodes.old) }
{
    while !replicas.is_empty() {
        let replica = replicas.remove(0);
        nodes.add_replica(replica.into_parts()?)?;
    }
    Ok(())
}
