ghost use Rattle.std.specs.Prelude.{List, ◌≤◌, ◌<◌, ◌+◌, ◌*◌, ℕ, suc, [], length, slice_index_or};
ghost use Rattle.row_types.specs.declared.values.Value.{Value};
ghost use Rattle.ordered_table.specs.Pages.{flat, ArePages};

/// Each page has 1 to 64 rows, and two neighbours hold together more than 64.
pub fn pages_have_their_sizes()
    ensures least { (n : ℕ) (pages : List (List (List Value))) → ArePages 64 pages → n < length pages → 1 ≤ length (slice_index_or pages n []) }
    ensures most { (n : ℕ) (pages : List (List (List Value))) → ArePages 64 pages → n < length pages → length (slice_index_or pages n []) ≤ 64 }
    ensures neighbours { (n : ℕ) (pages : List (List (List Value))) → ArePages 64 pages → suc n < length pages
        → 64 < length (slice_index_or pages n []) + length (slice_index_or pages (suc n) []) }
{}

/// Pages are few: but for the last, each has more than 32 rows on the average.
#[tactic(auto, using(crate::proofs::SizeLemmas::pages_few))]
pub fn pages_are_few()
    ensures { (pages : List (List (List Value))) → ArePages 64 pages → 65 * length pages ≤ 2 * length (flat pages) + 64 }
{}
