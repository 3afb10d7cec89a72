ghost use Rattle.std.specs.Prelude.{◌≡◌, pos, negsuc, [], ◌∷◌, IfOk};
ghost use Rattle.row_types.specs.declared.values.Value.TheVariants.{Null, Int, Text};

use super::*;
use row_types::{Bytes, Digest, DigestKind, R, Row, Value};
use std::alloc::Global;
use std::test::Fail;

// 1, NULL, 'ab'
fn first_row(alloc: Global) -> R<Row>
    ensures { IfOk result (λ row. row ≡ Int (pos 1) ∷ Null ∷ Text (97 ∷ 98 ∷ []) ∷ []) }
{
    let mut text = Bytes::new(alloc);
    text.push(b'a')?;
    text.push(b'b')?;
    let mut row = Row::new(alloc);
    row.push(Value::Int(1))?;
    row.push(Value::Null)?;
    row.push(Value::Text(text))?;
    Ok(row)
}

// -1, NULL, ''
fn second_row(alloc: Global) -> R<Row>
    ensures { IfOk result (λ row. row ≡ Int (negsuc 0) ∷ Null ∷ Text [] ∷ []) }
{
    let mut row = Row::new(alloc);
    row.push(Value::Int(-1))?;
    row.push(Value::Null)?;
    row.push(Value::Text(Bytes::new(alloc)))?;
    Ok(row)
}

// Both ends of 64 bits.
fn third_row(alloc: Global) -> R<Row>
    ensures { IfOk result (λ row. row ≡ Int (negsuc 9223372036854775807) ∷ Int (pos 9223372036854775807) ∷ []) }
{
    let mut row = Row::new(alloc);
    row.push(Value::Int(i64::MIN))?;
    row.push(Value::Int(i64::MAX))?;
    Ok(row)
}

fn no_rows() -> Digest
    ensures { result.count ≡ 0 }
{
    Digest {
        count: 0,
        xor: [0; 20],
    }
}

fn digest_of_both(alloc: Global, kind: DigestKind) -> R<Digest> {
    let mut buffer = Vec::new(alloc);
    let mut digest = no_rows();
    add_with(&mut buffer, &mut digest, kind, &first_row(alloc)?)?;
    add_with(&mut buffer, &mut digest, kind, &second_row(alloc)?)?;
    Ok(digest)
}

// The expected digests of the tests below are those of Python's hashlib.
#[test]
fn one_row(rt: HostRuntime) -> Result<(), Fail> {
    let row = first_row(rt.alloc())?;
    let mut bytes = Vec::new(rt.alloc());
    encode(&row, &mut bytes)?;
    let text = hex::encode(rt.alloc(), bytes.as_slice())?;
    assert_eq!(rt; text.as_str(), "0100000000000000010002000000026162");
    for (kind, want) in [
        (DigestKind::Md5, "cf572480b7ea482d682a2e2146b3e1b800000000"),
        (DigestKind::Sha1, "4f0bd81d936a9d38ee453cb006723eb8f9f61703"),
    ] {
        let mut digest = no_rows();
        add(rt.alloc(), &mut digest, kind, &row)?;
        assert_eq!(rt; digest.count, 1);
        let xor = hex::encode(rt.alloc(), digest.xor.as_slice())?;
        assert_eq!(rt; xor.as_str(), want);
    }
    Ok(())
}

#[test]
fn encodings_follow_one_another(rt: HostRuntime) -> Result<(), Fail> {
    let mut bytes = Vec::new(rt.alloc());
    encode(&second_row(rt.alloc())?, &mut bytes)?;
    encode(&third_row(rt.alloc())?, &mut bytes)?;
    let text = hex::encode(rt.alloc(), bytes.as_slice())?;
    let want = "01ffffffffffffffff000200000000018000000000000000017fffffffffffffff";
    assert_eq!(rt; text.as_str(), want);
    Ok(())
}

#[test]
fn two_rows_and_none(rt: HostRuntime) -> Result<(), Fail> {
    for (kind, want, zeros) in [
        (
            DigestKind::Md5,
            "97db89a334c547c2fc1041a8e410001c",
            "00000000000000000000000000000000",
        ),
        (
            DigestKind::Sha1,
            "78dfe28a488226d5bdb4671b329001423a84be84",
            "0000000000000000000000000000000000000000",
        ),
    ] {
        let digest = digest_of_both(rt.alloc(), kind)?;
        assert_eq!(rt; digest.count, 2);
        let text = crc_text(rt.alloc(), &digest, kind)?;
        assert_eq!(rt; text.as_slice(), want.as_bytes());
        let text = crc_text(rt.alloc(), &no_rows(), kind)?;
        assert_eq!(rt; text.as_slice(), zeros.as_bytes());
    }
    Ok(())
}

#[test]
fn rows_are_added_one_after_the_other(rt: HostRuntime) -> Result<(), Fail> {
    for (kind, want) in [
        (DigestKind::Md5, "efbe451bbe20d173d920bb6637a52b5600000000"),
        (DigestKind::Sha1, "82a476e54890bf72379738f9f8014cce8d59efcb"),
    ] {
        let mut digest = no_rows();
        add(rt.alloc(), &mut digest, kind, &third_row(rt.alloc())?)?;
        add(rt.alloc(), &mut digest, kind, &second_row(rt.alloc())?)?;
        add(rt.alloc(), &mut digest, kind, &first_row(rt.alloc())?)?;
        assert_eq!(rt; digest.count, 3);
        let xor = hex::encode(rt.alloc(), digest.xor.as_slice())?;
        assert_eq!(rt; xor.as_str(), want);
    }
    Ok(())
}
