ghost use Rattle.std.specs.Prelude.{◌≡◌, ◌<◌, ◌≤◌, ◌+◌, ◌^◌, length, OnOk, OnErr};
ghost use Rattle.row_digest.specs.Encoding.{IsEncodable};
ghost use Rattle.row_digest.specs.Digest.{added, xored};

use crate::encoding::encode;
use md5::{Digest as Hasher, Md5};
use row_types::{Digest, DigestKind, R, Row};
use sha1::Sha1;
use std::alloc::Global;

/// Counts a row into a checksum and combines its digest into the XOR, as COUNT and BIT_XOR do in the
/// tool's query (pt-table-checksum's manual, the options --replicate and --function); MD5 has 16
/// bytes, so it changes the first 16 of the 20. The count is to be below u64::MAX, and each text of the
/// row to have fewer than 4,294,967,296 bytes. A refusal leaves the checksum as it was.
pub fn add(alloc: Global, digest: &mut Digest, kind: DigestKind, row: &Row) -> R<()>
    requires counts { digest.old.count + 1 < 2 ^ 64 }
    requires encodable { IsEncodable row.now }
    ensures ok { OnOk result (digest.new ≡ added kind row.now digest.old) }
    ensures err { OnErr result (digest.new ≡ digest.old) }
{
    let mut buffer = Vec::new(alloc);
    add_with(&mut buffer, digest, kind, row)
}

/// The same, with a buffer for the row's encoding, so that rows added one after the other share its
/// memory. What it holds before and after is of no account.
pub fn add_with(buffer: &mut Vec<u8>, digest: &mut Digest, kind: DigestKind, row: &Row) -> R<()>
    requires counts { digest.old.count + 1 < 2 ^ 64 }
    requires encodable { IsEncodable row.now }
    ensures ok { OnOk result (digest.new ≡ added kind row.now digest.old) }
    ensures err { OnErr result (digest.new ≡ digest.old) }
{
    buffer.clear();
    encode(row, buffer)?;
    match kind {
        DigestKind::Md5 => combine(&mut digest.xor, &Md5::digest(buffer.as_slice())),
        DigestKind::Sha1 => combine(&mut digest.xor, &Sha1::digest(buffer.as_slice())),
    }
    digest.count += 1;
    Ok(())
}

/// Combines a digest into the first of the bytes by XOR.
fn combine(bytes: &mut [u8], hash: &[u8])
    requires { length hash.now ≤ length bytes.old }
    ensures { bytes.new ≡ xored bytes.old hash.now }
{
    for i in 0..hash.len() {
        bytes[i] ^= hash[i];
    }
}
