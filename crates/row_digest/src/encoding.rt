ghost use Rattle.std.specs.Prelude.{◌≡◌, ◌++◌, take, OnOk, OnErr};
ghost use Rattle.std.specs.List.{AllByRecursion};
ghost use Rattle.std.specs.Vec.{vec_len};
ghost use Rattle.row_types.specs.Faults.{TextIsShort};
ghost use Rattle.row_digest.specs.Encoding.{encoded, encoded_value, IsEncodable};

use byteorder::{BigEndian, ByteOrder};
use row_types::{R, Row, Value};

/// Appends the encoding of a row, value by value in column order: 00 for NULL; 01 and eight bytes of
/// two's complement for a number; 02, its length in four bytes and its bytes for a text of fewer than
/// 4,294,967,296 bytes. Of a number and a length the most significant byte comes first. A refusal
/// leaves the bytes as they were.
pub fn encode(row: &Row, out: &mut Vec<u8>) -> R<()>
    requires { IsEncodable row.now }
    ensures ok { OnOk result (out.new.items ≡ out.old.items ++ encoded row.now) }
    ensures err { OnErr result (out.new.items ≡ out.old.items) }
{
    let len = out.len();
    let written = push_values(row.as_slice(), out);
    if written.is_err() {
        out.truncate(len);
    }
    written
}

fn push_values(values: &[Value], out: &mut Vec<u8>) -> R<()>
    requires { AllByRecursion TextIsShort values.now }
    ensures ok { OnOk result (out.new.items ≡ out.old.items ++ encoded values.now) }
    ensures err { OnErr result (take (vec_len out.old) out.new.items ≡ out.old.items) }
{
    let mut rest = values;
    while let Some((value, more)) = rest.split_first() {
        push_value(value, out)?;
        rest = more;
    }
    Ok(())
}

fn push_value(value: &Value, out: &mut Vec<u8>) -> R<()>
    requires { TextIsShort value.now }
    ensures ok { OnOk result (out.new.items ≡ out.old.items ++ encoded_value value.now) }
    ensures err { OnErr result (take (vec_len out.old) out.new.items ≡ out.old.items) }
{
    match value {
        Value::Null => {
            out.push(0)?;
        }
        Value::Int(number) => {
            let mut bytes = [0; 8];
            BigEndian::write_i64(&mut bytes, *number);
            out.push(1)?;
            out.extend_from_slice(&bytes)?;
        }
        Value::Text(text) => {
            let mut len = [0; 4];
            BigEndian::write_u32(&mut len, text.len() as u32);
            out.push(2)?;
            out.extend_from_slice(&len)?;
            out.extend_from_slice(text.as_slice())?;
        }
    }
    Ok(())
}
