//! What a summary takes from the nodes: what each began with, its history, and its rows at the end.
ghost use Rattle.std.specs.Prelude.{◌≡◌, IfOk, OnOk};
ghost use Rattle.cluster_core.specs.SummaryParts.{source_nodes, with_replica, with_lines};

use crate::summary_lines::SummaryLines;
use report_text::{Histories, NodeTables, Summary};
use row_types::{R, Schemas, Tables};
use statement_log::Entries;
use std::alloc::Global;

#[derive(Debug, Drop)]
pub(crate) struct NodeParts {
    pub schemas: Schemas,
    pub start: Tables,
    pub history: Entries,
    pub finals: Tables,
}

/// A summary without the lines that are worked out from the nodes. The source comes first.
#[derive(Debug, Drop)]
pub(crate) struct SummaryNodes {
    pub schemas: Schemas,
    pub log: Entries,
    pub start: NodeTables,
    pub histories: Histories,
    pub finals: NodeTables,
}

impl SummaryNodes {
    /// The source alone.
    pub(crate) fn of_source(alloc: Global, source: NodeParts) -> R<SummaryNodes>
        ensures { IfOk result (λ nodes. nodes ≡ source_nodes source) }
    {
        let mut nodes = SummaryNodes {
            schemas: source.schemas,
            log: source.history,
            start: NodeTables::new(alloc),
            histories: Histories::new(alloc),
            finals: NodeTables::new(alloc),
        };
        nodes.start.push(source.start)?;
        nodes.finals.push(source.finals)?;
        Ok(nodes)
    }

    pub(crate) fn add_replica(&mut self, replica: NodeParts) -> R<()>
        ensures { OnOk result (self.new ≡ with_replica replica self.old) }
    {
        self.start.push(replica.start)?;
        self.histories.push(replica.history)?;
        self.finals.push(replica.finals)?;
        Ok(())
    }

    pub(crate) fn with_lines(self, lines: SummaryLines) -> Summary
        ensures { result ≡ with_lines lines self }
    {
        Summary {
            schemas: self.schemas,
            start: self.start,
            log: self.log,
            histories: self.histories,
            verdicts: lines.verdicts,
            finals: self.finals,
            equal: lines.equal,
            duplicates: lines.duplicates,
            status: lines.status,
        }
    }
}
