// Whole inputs and texts over sources and sinks.
ghost use Rattle.std.specs.Prelude.{◌≡◌, ◌+◌, ◌<◌, ◌≤◌, ◌^◌, [], length, IfOk, OnOk, OnErr, vec_len};
ghost use Rattle.ptc_io.specs.Bytes.{Appends, AppendsFront, Moves, TakesAtMost, TakesUpTo};
ghost use Rattle.ptc_io.specs.Faults.{HasCause, HasRisen};

use super::{Failed, ReadFault, Sink, Source};
use std::alloc::{AllocError, Global};

// How many bytes are asked for at once.
const PIECE: usize = 65536;

/// Reads until the end, or until there are `limit + 1` bytes: so more than `limit` of them say
/// that the input is too long. After an error the bytes that were read are lost, and no more than
/// `limit + 1` of them were taken.
pub fn read_to_limit<I: Source>(
    alloc: Global,
    input: &mut I,
    limit: usize,
) -> Result<Vec<u8>, ReadFault>
    requires { limit < 2 ^ 62 }
    ensures bytes { IfOk result (λ bytes.
        TakesUpTo (limit + 1) (I.left input.old) (I.left input.new) bytes.items) }
    ensures taken { TakesAtMost (limit + 1) (I.left input.old) (I.left input.new) }
    ensures size { IfOk result (λ bytes. vec_len bytes ≤ limit + 1) }
    ensures never_falls { I.faults input.old ≤ I.faults input.new }
    ensures failed { result ≡ Err ReadFault.Failed
        → HasRisen (I.faults input.old) (I.faults input.new) }
{
    let mut buffer = zeros(alloc, PIECE)?;
    let mut bytes = Vec::new(alloc);
    fill(input, buffer.as_mut_slice(), &mut bytes, limit + 1)?;
    Ok(bytes)
}

fn zeros(alloc: Global, size: usize) -> Result<Vec<u8>, AllocError>
    ensures { IfOk result (λ buffer. vec_len buffer ≡ size) }
{
    vec![in alloc; 0u8; size]
}

// Reads through the buffer until the end, or until there are `most` bytes.
fn fill<I: Source>(
    input: &mut I,
    buffer: &mut [u8],
    bytes: &mut Vec<u8>,
    most: usize,
) -> Result<(), ReadFault>
    requires room { 0 < length buffer.old }
    requires empty { bytes.old.items ≡ [] }
    ensures bytes { OnOk result
        (TakesUpTo most (I.left input.old) (I.left input.new) bytes.new.items) }
    ensures taken { TakesAtMost most (I.left input.old) (I.left input.new) }
    ensures size { OnOk result (vec_len bytes.new ≤ most) }
    ensures never_falls { I.faults input.old ≤ I.faults input.new }
    ensures failed { result ≡ Err ReadFault.Failed
        → HasRisen (I.faults input.old) (I.faults input.new) }
{
    while bytes.len() < most {
        let room = most - bytes.len();
        let count = read_piece(input, buffer, bytes, room)?;
        if count == 0 {
            return Ok(());
        }
    }
    Ok(())
}

// One read of at most `room` bytes to the end of `bytes`.
fn read_piece<I: Source>(
    input: &mut I,
    buffer: &mut [u8],
    bytes: &mut Vec<u8>,
    room: usize,
) -> Result<usize, ReadFault>
    requires buffer { 0 < length buffer.old }
    ensures moves { IfOk result
        (Moves (I.left input.old) (I.left input.new) bytes.old.items bytes.new.items room) }
    ensures taken { TakesAtMost room (I.left input.old) (I.left input.new) }
    ensures never_falls { I.faults input.old ≤ I.faults input.new }
    ensures failed { result ≡ Err ReadFault.Failed
        → HasRisen (I.faults input.old) (I.faults input.new) }
{
    let most = buffer.len().min(room);
    let (front, _) = buffer.split_at_mut(most);
    let count = input.read(front)?;
    let (piece, _) = front.split_at(count);
    bytes.extend_from_slice(piece)?;
    Ok(count)
}

/// Writes the whole text, and after an error a prefix of it. Nothing is written for an empty text.
pub fn write_all<O: Sink>(output: &mut O, text: &[u8]) -> Result<(), Failed>
    ensures whole { OnOk result (Appends (O.written output.old) (O.written output.new) text.now) }
    ensures front { OnErr result
        (AppendsFront (O.written output.old) (O.written output.new) text.now) }
    ensures cause { HasCause (O.faults output.old) (O.faults output.new) result }
    ensures nothing { text.now ≡ [] → output.new ≡ output.old }
{
    let mut rest = text;
    while !rest.is_empty() {
        let count = output.write(rest)?;
        if count == 0 {
            return Err(Failed);
        }
        (_, rest) = rest.split_at(count);
    }
    Ok(())
}
