ghost use Rattle.std.specs.Prelude.{◌≡◌, ◌++◌, ◌∷◌, [], List, length};
ghost use Rattle.row_types.specs.declared.values.Value.{Value};
ghost use Rattle.row_types.specs.declared.digests.DigestKind.{DigestKind};
ghost use Rattle.row_digest.specs.Digest.{added, added_rows, digest_of};

/// A law: adding each row of a list to the checksum of those before it gives the checksum of the list,
/// and so the checksum of a list comes from that of its front and the rows behind.
pub fn rows_are_added_one_by_one()
    ensures one_more { (kind : DigestKind) (rows : List (List Value)) (row : List Value)
        → digest_of kind (rows ++ row ∷ []) ≡ added kind row (digest_of kind rows) }
    ensures more { (kind : DigestKind) (rows more : List (List Value))
        → digest_of kind (rows ++ more) ≡ added_rows kind more (digest_of kind rows) }
    ensures count { (kind : DigestKind) (rows : List (List Value))
        → (digest_of kind rows).count ≡ length rows }
{}
