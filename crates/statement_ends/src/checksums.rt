ghost use Rattle.std.specs.Prelude.{◌≡◌, IfOk};
ghost use Rattle.hex.specs.Hex.{decode_of};
ghost use Rattle.statement_grammar.specs.Draft.{bytes_or_none, kind_of_crc, xor_of_crc};

use hex::{FromHexError, decode};
use row_types::{DigestKind, Memory, R};
use std::alloc::Global;

/// The digest of a checksum's text: 32 digits are of MD5, others of SHA-1.
pub fn kind_of(crc: &[u8]) -> DigestKind
    ensures { result ≡ kind_of_crc crc.now }
{
    if crc.len() == 32 {
        return DigestKind::Md5;
    }
    DigestKind::Sha1
}

fn bytes_of(alloc: Global, crc: &[u8]) -> R<Vec<u8>>
    ensures { IfOk result (λ bytes. bytes.items ≡ bytes_or_none (decode_of crc.now)) }
{
    match decode(alloc, crc) {
        Ok(bytes) => Ok(bytes),
        Err(FromHexError::OutOfMemory) => Err(Memory),
        Err(FromHexError::OddLength) => Ok(Vec::new(alloc)),
        Err(FromHexError::InvalidStringLength) => Ok(Vec::new(alloc)),
        Err(FromHexError::InvalidHexCharacter { .. }) => Ok(Vec::new(alloc)),
    }
}

/// The bytes that a checksum's digits spell, and zeros up to the twentieth.
pub fn xor_of(alloc: Global, crc: &[u8]) -> R<[u8; 20]>
    ensures { IfOk result (λ xor. xor ≡ xor_of_crc crc.now) }
{
    let mut bytes = bytes_of(alloc, crc)?;
    let mut zeros = Vec::from_array(alloc, [0u8; 20])?;
    bytes.append(&mut zeros)?;
    match bytes.as_slice().first_chunk::<20>() {
        Some(xor) => Ok(*xor),
        None => unreachable!(),
    }
}
