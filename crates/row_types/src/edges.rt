ghost use Rattle.std.specs.Prelude.{◌≡◌, ◌↔◌, IsTrue, IfOk};
ghost use Rattle.row_types.specs.Order.{edge_cmp, edge_le, is_past_edge, is_before_edge, has, all_keys, later_edge, earlier_edge, meeting};

use crate::keys::{Key, compare_values};
use crate::memory::R;
use crate::values::Value;
use std::alloc::Global;
use std::cmp::Ordering;

/// A place between keys: below all keys, just before or just after a key, above all keys.
#[derive(Debug, Drop)]
pub enum Edge {
    Low,
    Before(Key),
    After(Key),
    High,
}

/// The keys from one edge to another.
#[derive(Debug, Drop)]
pub struct Span {
    pub lo: Edge,
    pub hi: Edge,
}

impl Edge {
    pub fn copy(&self, alloc: Global) -> R<Edge>
        ensures { IfOk result (λ copy. copy ≡ self.now) }
    {
        match self {
            Edge::Low => Ok(Edge::Low),
            Edge::Before(key) => Ok(Edge::Before(key.copy(alloc)?)),
            Edge::After(key) => Ok(Edge::After(key.copy(alloc)?)),
            Edge::High => Ok(Edge::High),
        }
    }

    pub fn same(&self, other: &Edge) -> bool
        ensures { IsTrue result ↔ (self.now ≡ other.now) }
    {
        match (self, other) {
            (Edge::Low, Edge::Low) | (Edge::High, Edge::High) => true,
            (Edge::Before(ours), Edge::Before(theirs)) => ours.same(theirs),
            (Edge::After(ours), Edge::After(theirs)) => ours.same(theirs),
            _ => false,
        }
    }

    /// The order of edges: Low, then for rising keys Before and After, then High.
    pub fn compare(&self, other: &Edge) -> Ordering
        ensures { result ≡ edge_cmp self.now other.now }
    {
        match (self, other) {
            (Edge::Low, Edge::Low) | (Edge::High, Edge::High) => Ordering::Equal,
            (Edge::Low, _) | (_, Edge::High) => Ordering::Less,
            (_, Edge::Low) | (Edge::High, _) => Ordering::Greater,
            (Edge::Before(ours), Edge::Before(theirs)) => ours.compare(theirs),
            (Edge::After(ours), Edge::After(theirs)) => ours.compare(theirs),
            (Edge::Before(ours), Edge::After(theirs)) => {
                ours.compare(theirs).then(Ordering::Less)
            }
            (Edge::After(ours), Edge::Before(theirs)) => {
                ours.compare(theirs).then(Ordering::Greater)
            }
        }
    }

    /// Whether the key of these values is past this edge.
    pub fn is_before(&self, key: &[Value]) -> bool
        ensures { result ≡ is_past_edge self.now key.now }
    {
        match self {
            Edge::Low => true,
            Edge::Before(ours) => compare_values(ours.as_slice(), key).is_le(),
            Edge::After(ours) => compare_values(ours.as_slice(), key).is_lt(),
            Edge::High => false,
        }
    }

    /// Whether the key of these values is before this edge.
    pub fn is_after(&self, key: &[Value]) -> bool
        ensures { result ≡ is_before_edge self.now key.now }
    {
        match self {
            Edge::Low => false,
            Edge::Before(ours) => compare_values(key, ours.as_slice()).is_lt(),
            Edge::After(ours) => compare_values(key, ours.as_slice()).is_le(),
            Edge::High => true,
        }
    }
}

impl Span {
    /// All keys.
    pub fn whole() -> Span
        ensures { result ≡ all_keys }
    {
        Span {
            lo: Edge::Low,
            hi: Edge::High,
        }
    }

    pub fn copy(&self, alloc: Global) -> R<Span>
        ensures { IfOk result (λ copy. copy ≡ self.now) }
    {
        Ok(Span {
            lo: self.lo.copy(alloc)?,
            hi: self.hi.copy(alloc)?,
        })
    }

    pub fn same(&self, other: &Span) -> bool
        ensures { IsTrue result ↔ (self.now ≡ other.now) }
    {
        self.lo.same(&other.lo) && self.hi.same(&other.hi)
    }

    /// Whether the key lies between the edges.
    pub fn has(&self, key: &Key) -> bool
        ensures { result ≡ has self.now key.now }
    {
        self.has_values(key.as_slice())
    }

    /// The keys of both spans: from the greater low edge to the lesser high edge, or from Low to Low
    /// where that leaves none.
    pub fn meet(&self, alloc: Global, other: &Span) -> R<Span>
        ensures { IfOk result (λ span. span ≡ meeting self.now other.now) }
    {
        let lo = later(&self.lo, &other.lo);
        let hi = earlier(&self.hi, &other.hi);
        if lo.compare(hi).is_lt() {
            return Ok(Span {
                lo: lo.copy(alloc)?,
                hi: hi.copy(alloc)?,
            });
        }
        Ok(Span {
            lo: Edge::Low,
            hi: Edge::Low,
        })
    }

    fn has_values(&self, key: &[Value]) -> bool
        ensures { result ≡ has self.now key.now }
    {
        self.lo.is_before(key) && self.hi.is_after(key)
    }
}

fn later<'a>(ours: &'a Edge, theirs: &'a Edge) -> &'a Edge
    ensures { result.now ≡ later_edge ours.now theirs.now }
{
    if ours.compare(theirs).is_le() {
        theirs
    } else {
        ours
    }
}

fn earlier<'a>(ours: &'a Edge, theirs: &'a Edge) -> &'a Edge
    ensures { result.now ≡ earlier_edge ours.now theirs.now }
{
    if ours.compare(theirs).is_le() {
        ours
    } else {
        theirs
    }
}
