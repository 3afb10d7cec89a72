ghost use Rattle.std.specs.Prelude.{◌≡◌, ◌↔◌, ◌&&◌, ◌++◌, List, [], ◌∷◌, ℤ, not, false};
ghost use Rattle.std.specs.Cmp.{IsTotalOrder};
ghost use Rattle.std.specs.List.{Contains};
ghost use Rattle.std.specs.declared.cmp.Ordering.TheVariants.{Equal};
ghost use Rattle.row_types.specs.declared.values.Value.{Value};
ghost use Rattle.row_types.specs.declared.edges.Edge.{Edge};
ghost use Rattle.row_types.specs.declared.edges.Edge.TheVariants.{Before, After};
ghost use Rattle.row_types.specs.declared.edges.Span.{Span};
ghost use Rattle.row_types.specs.declared.table_schema.ColumnKind.{ColumnKind};
ghost use Rattle.row_types.specs.Order.{key_cmp, edge_cmp, is_past_edge, is_before_edge, has, meeting, KeysRise};
ghost use Rattle.row_types.specs.Faults.{IsOfNumbers, clipped, IsNearest};

/// The order of keys is total, and only equal keys tie.
pub fn keys_are_ordered()
    ensures total { IsTotalOrder key_cmp }
    ensures exact { (a b : List Value) → (key_cmp a b ≡ Equal) ↔ (a ≡ b) }
{}

/// The order of edges is total, and only equal edges tie.
pub fn edges_are_ordered()
    ensures total { IsTotalOrder edge_cmp }
    ensures exact { (e f : Edge) → (edge_cmp e f ≡ Equal) ↔ (e ≡ f) }
{}

/// Each key is past an edge or before it, and never both.
pub fn each_key_is_past_or_before()
    ensures { (edge : Edge) (key : List Value) → is_past_edge edge key ≡ not (is_before_edge edge key) }
{}

/// A key is in the meeting of two spans exactly where it is in both.
pub fn meeting_has_the_keys_of_both()
    ensures { (ours theirs : Span) (key : List Value) → has (meeting ours theirs) key ≡ has ours key && has theirs key }
{}

/// Between two neighbours of rising keys lies none of these keys.
pub fn no_key_lies_between_neighbours()
    ensures { (before behind : List (List Value)) (key next other : List Value)
        → KeysRise (before ++ key ∷ next ∷ behind) → Contains (before ++ key ∷ next ∷ behind) other
        → has (record { lo = After key; hi = Before next }) other ≡ false }
{}

/// A clipped number is one of the kind, and none of the kind is nearer.
pub fn clipped_numbers_are_nearest()
    ensures { (kind : ColumnKind) (n : ℤ) → IsOfNumbers kind → IsNearest kind n (clipped kind n) }
{}
