ghost use Rattle.std.specs.Prelude.{◌≡◌, IfOk};
ghost use Rattle.row_digest.specs.Digest.{crc_text};

use row_types::{Bytes, Digest, DigestKind, R};
use std::alloc::Global;

/// The XOR in lower-case hexadecimal digits, two a byte of the digest: 32 for MD5, 40 for SHA-1.
pub fn crc_text(alloc: Global, digest: &Digest, kind: DigestKind) -> R<Bytes>
    ensures { IfOk result (λ text. text ≡ crc_text kind digest.now) }
{
    let text = match kind {
        DigestKind::Md5 => hex::encode(alloc, digest.xor.split_at(16).0)?,
        DigestKind::Sha1 => hex::encode(alloc, digest.xor.as_slice())?,
    };
    Ok(Bytes {
        items: text.into_bytes(),
    })
}
