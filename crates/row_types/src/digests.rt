ghost use Rattle.std.specs.Prelude.{◌≡◌, ◌↔◌, IsTrue, IfOk};

use crate::memory::R;
use std::alloc::Global;

/// Which digest a checksum is made of.
#[derive(Clone, Copy, Debug, PartialEq, Eq)]
pub enum DigestKind {
    Md5,
    Sha1,
}

/// The checksum of rows: how many they are, and the XOR of their digests, each with zeros up to 20
/// bytes.
#[derive(Clone, Copy, Debug, PartialEq, Eq)]
pub struct Digest {
    pub count: u64,
    pub xor: [u8; 20],
}

impl DigestKind {
    pub fn copy(&self, _alloc: Global) -> R<DigestKind>
        ensures { IfOk result (λ copy. copy ≡ self.now) }
    {
        Ok(*self)
    }

    pub fn same(&self, other: &DigestKind) -> bool
        ensures { IsTrue result ↔ (self.now ≡ other.now) }
    {
        *self == *other
    }
}

impl Digest {
    pub fn copy(&self, _alloc: Global) -> R<Digest>
        ensures { IfOk result (λ copy. copy ≡ self.now) }
    {
        Ok(*self)
    }

    pub fn same(&self, other: &Digest) -> bool
        ensures { IsTrue result ↔ (self.now ≡ other.now) }
    {
        self.count == other.count && self.xor == other.xor
    }
}
