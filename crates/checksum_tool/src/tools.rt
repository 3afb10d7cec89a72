ghost use Rattle.std.specs.Prelude.{◌≡◌, ◌≤◌, ◌<◌, ◌+◌, ◌^◌, length, IfOk, OnErr};
ghost use Rattle.checksum_tool.specs.Tools.{ToolView, new_tool};
ghost use Rattle.checksum_tool.specs.Moves.{Moved, next_move};

use crate::moves::turn_parts;
use crate::parts::Parts;
use crate::phases::{ToolPhase, ToolTurn};
use node_engine::Node;
use row_types::{DigestKind, Edge, R};
use std::alloc::Global;
use std::marker::Model;

/// The checksum tool of a source: how far it has come in its tables.
/// Source: pt-table-checksum's manual for what it writes, and in which order.
#[derive(Drop)]
pub struct ChecksumTool {
    parts: Parts,
}

impl Model for ChecksumTool {
    ghost use Rattle.checksum_tool.specs.Tools.{ToolView};
    ghost use Rattle.checksum_tool.specs.ToolParts.{view_of, ToolKept};

    ghost Value = { ToolView };

    ghost view = { view_of };

    ghost invariant = { ToolKept };
}

impl ChecksumTool {
    /// A tool that has done nothing yet, for a source of so many tables. It holds locks as owner 100. A chunk
    /// that was rolled back is begun again up to `retries` times.
    pub fn new(tables: u32, kind: DigestKind, retries: u32) -> ChecksumTool
        requires tables { 1 ≤ tables }
        requires retries { retries + 1 < 2 ^ 32 }
        ensures { result ≡ new_tool tables kind retries }
    {
        ChecksumTool {
            parts: Parts {
                tables,
                kind,
                retries,
                phase: ToolPhase::Clear,
                table: 0,
                chunk: 1,
                after: Edge::Low,
                until: Edge::Low,
                rollbacks: 0,
                ended: None,
            },
        }
    }

    /// Makes the next move on the source, and answers what it was: RetriesUsed exactly where the chunk was rolled
    /// back once more than it is begun again, Finished exactly where the last table's last checksum is published.
    /// Out of memory leaves the tool and the source as they were; it is also the answer at a table's
    /// 4,294,967,295th chunk.
    #[tactic(auto, using(crate::proofs::StayLemmas::tables_stay, crate::proofs::StayLemmas::schemas_stay))]
    pub fn turn(&mut self, alloc: Global, node: &mut Node) -> R<ToolTurn>
        requires { self.old.tables ≡ length node.old.schemas }
        ensures ok { IfOk result (λ turn. record { turn = turn; tool = self.new; node = node.new } ≡ next_move self.old node.old) }
        ensures err { OnErr result ((self.new ≡ self.old) × (node.new ≡ node.old)) }
        ensures tables { self.new.tables ≡ self.old.tables }
        ensures schemas { node.new.schemas ≡ node.old.schemas }
    {
        let turn = turn_parts(alloc, &mut self.parts, node)?;
        Ok(turn)
    }

    /// How many tables the source has.
    pub fn tables(&self) -> u32
        ensures { result ≡ self.now.tables }
    {
        self.parts.tables
    }

    /// The position of the last entry, once the tool is finished.
    pub fn ended_at(&self) -> Option<u64>
        ensures { result ≡ self.now.ended }
    {
        self.parts.ended
    }

    pub fn phase(&self) -> ToolPhase
        ensures { result ≡ self.now.phase }
    {
        self.parts.phase
    }
}
