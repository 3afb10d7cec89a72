ghost use Rattle.std.specs.Prelude.{ℕ, ◌≡◌, ◌≢◌, ◌≤◌, ◌↔◌, ◌⊎◌, IsTrue, List, None, Some, option_map};
ghost use Rattle.row_types.specs.declared.digests.Digest.{Digest};
ghost use Rattle.checksum_table.specs.declared.check_rows.CheckRow.{CheckRow};
ghost use Rattle.checksum_table.specs.declared.check_rows.CheckEntry.{CheckEntry};
ghost use Rattle.checksum_table.specs.Checks.{check_at, with_check, with_master, without_table, mastered, last_chunk, digest_eq, IsByPlace};

/// A law: check rows by place are a finite map from chunks to rows. A row that is put in stands at its
/// chunk, the source's checksum goes into the row of its chunk, a table that is forgotten has no row,
/// and each time every other chunk keeps what it had; rows that agree at every chunk are the same.
pub fn check_rows_are_a_map()
    ensures set_there { (table chunk : ℕ) (row : CheckRow) (checks : List CheckEntry)
        → check_at table chunk (with_check table chunk row checks) ≡ Some row }
    ensures set_elsewhere { (table chunk t c : ℕ) (row : CheckRow) (checks : List CheckEntry)
        → (table ≢ t) ⊎ (chunk ≢ c)
        → check_at table chunk (with_check t c row checks) ≡ check_at table chunk checks }
    ensures master_there { (table chunk : ℕ) (master : Digest) (checks : List CheckEntry)
        → check_at table chunk (with_master table chunk master checks) ≡ option_map (λ row. mastered row master) (check_at table chunk checks) }
    ensures master_elsewhere { (table chunk t c : ℕ) (master : Digest) (checks : List CheckEntry)
        → (table ≢ t) ⊎ (chunk ≢ c)
        → check_at table chunk (with_master t c master checks) ≡ check_at table chunk checks }
    ensures clear_there { (table chunk : ℕ) (checks : List CheckEntry)
        → check_at table chunk (without_table table checks) ≡ None }
    ensures clear_elsewhere { (table chunk t : ℕ) (checks : List CheckEntry)
        → table ≢ t
        → check_at table chunk (without_table t checks) ≡ check_at table chunk checks }
    ensures exact { (checks others : List CheckEntry)
        → IsByPlace checks → IsByPlace others
        → ((table chunk : ℕ) → check_at table chunk checks ≡ check_at table chunk others)
        → checks ≡ others }
{}

/// A law: the last chunk of a table has a row where one of its chunks has, and no chunk with a row is
/// greater; where none has, it is 0.
pub fn last_chunk_is_the_greatest()
    ensures none { (table : ℕ) (checks : List CheckEntry)
        → ((chunk : ℕ) → check_at table chunk checks ≡ None)
        → last_chunk table checks ≡ 0 }
    ensures stands { (table chunk : ℕ) (row : CheckRow) (checks : List CheckEntry)
        → check_at table chunk checks ≡ Some row
        → (last : CheckRow) × (check_at table (last_chunk table checks) checks ≡ Some last) }
    ensures greatest { (table chunk : ℕ) (row : CheckRow) (checks : List CheckEntry)
        → check_at table chunk checks ≡ Some row
        → chunk ≤ last_chunk table checks }
{}

/// A law: the test of two digests is their equality.
pub fn digest_test_is_equality()
    ensures { (d e : Digest) → IsTrue (digest_eq d e) ↔ (d ≡ e) }
{}
