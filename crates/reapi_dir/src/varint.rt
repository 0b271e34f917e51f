// The wire form of Protocol Buffers ("Encoding"): varints, keys and fields, written and measured.
ghost use Rattle.std.specs.Prelude.{◌≡◌, ◌+◌, ◌*◌, ◌≤◌, ◌<◌, ◌^◌, ◌++◌, length, OnOk};
ghost use Rattle.mat_tree.specs.Messages.{bytes_field, number_field, varint};
ghost use Rattle.reapi_dir.specs.Lengths.{field_head, field_length};

use mat_path::Memory;

// Appends the varint of a number.
pub(crate) fn push_varint(out: &mut Vec<u8>, number: u64) -> Result<(), Memory>
    ensures { OnOk result (out.new.items ≡ out.old.items ++ varint number) }
{
    let mut rest = number;
    'groups: while rest >= 128 {
        out.push(128 + (rest % 128) as u8)?;
        rest /= 128;
    }
    out.push(rest as u8)?;
    Ok(())
}

// How many bytes the varint of a number has.
pub(crate) fn varint_len(number: u64) -> u64
    ensures value { result ≡ length (varint number) }
    ensures short { result ≤ 10 }
{
    let mut rest = number;
    let mut len = 1;
    'groups: while rest >= 128 {
        rest /= 128;
        len += 1;
    }
    len
}

// Appends what stands before the bytes of a field: its key and how many bytes they are.
pub(crate) fn push_head(out: &mut Vec<u8>, number: u8, len: u64) -> Result<(), Memory>
    ensures { OnOk result (out.new.items ≡ out.old.items ++ field_head number len) }
{
    push_varint(out, u64::from(number) * 8 + 2)?;
    push_varint(out, len)
}

// Appends a field of bytes.
pub(crate) fn push_bytes_field(out: &mut Vec<u8>, number: u8, bytes: &[u8]) -> Result<(), Memory>
    ensures { OnOk result (out.new.items ≡ out.old.items ++ bytes_field number bytes.now) }
{
    push_head(out, number, bytes.len() as u64)?;
    out.extend_from_slice(bytes)?;
    Ok(())
}

// How many bytes a field of so many bytes has, where its number is at most 15.
pub(crate) fn field_len(len: u64) -> u64
    requires { len < 2 ^ 32 }
    ensures value { result ≡ field_length len }
    ensures short { result ≤ len + 11 }
{
    1 + varint_len(len) + len
}

// Appends a field of a number, or nothing for 0.
pub(crate) fn push_number_field(out: &mut Vec<u8>, number: u8, value: u64) -> Result<(), Memory>
    ensures { OnOk result (out.new.items ≡ out.old.items ++ number_field number value) }
{
    if value == 0 {
        return Ok(());
    }
    push_varint(out, u64::from(number) * 8)?;
    push_varint(out, value)
}
