ghost use Rattle.std.specs.Prelude.{◌≡◌, IfOk};
ghost use Rattle.checksum_tool.specs.Tools.{next_span, is_high};

use row_types::{Edge, R, Span};
use std::alloc::Global;

/// The span of the next chunk, which begins at this edge.
pub fn next_span(alloc: Global, after: &Edge) -> R<Span>
    ensures { IfOk result (λ span. span ≡ next_span after.now) }
{
    Ok(Span {
        lo: after.copy(alloc)?,
        hi: Edge::High,
    })
}

/// Whether no row of a table is behind an edge.
pub fn is_high(edge: &Edge) -> bool
    ensures { result ≡ is_high edge.now }
{
    match edge {
        Edge::Low => false,
        Edge::Before(_) => false,
        Edge::After(_) => false,
        Edge::High => true,
    }
}
