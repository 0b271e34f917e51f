// The wire form of Protocol Buffers ("Encoding"), read from the front of the bytes that are left before the offset `end`.
ghost use Rattle.std.specs.Prelude.{◌≡◌, ◌+◌, ◌<◌, ◌≤◌, length, IfOk};
ghost use Rattle.reapi_dir.specs.Wire as Spec;

use crate::refusal::DirRefusal;

// The most groups of a varint.
const MOST_GROUPS: u32 = 10;

// Where the bytes begin that are left before `end`.
pub(crate) fn place(bytes: &[u8], end: usize) -> usize
    requires { length bytes.now ≤ end }
    ensures { result ≡ Spec.place end bytes.now }
{
    end - bytes.len()
}

// The number of a group that stands before higher ones, and the bytes behind them.
fn with_higher(at: usize, byte: u8, high: u64) -> Result<u64, DirRefusal>
    requires { 128 ≤ byte }
    ensures { result ≡ Spec.number_with at byte high }
{
    if high == 0 || high >= 1 << 57 {
        return Err(DirRefusal::Varint(at));
    }
    Ok(u64::from(byte - 128) + 128 * high)
}

// The number in the groups at the front, of which at most `most` may come, in a varint that begins at `at`.
#[tactic(auto, unfolding(crate::specs::Wire::groups_read))]
fn read_groups(bytes: &[u8], most: u32, at: usize, end: usize) -> Result<(u64, &[u8]), DirRefusal>
    ensures exact { Spec.read_view result ≡ Spec.groups_read at end most bytes.entry.now }
    ensures shorter { IfOk result (λ found. length found.1.now < length bytes.entry.now) }
{
    let Some((byte, more)) = bytes.split_first() else {
        return Err(DirRefusal::Truncated(end));
    };
    if most == 0 {
        return Err(DirRefusal::Varint(at));
    }
    if *byte < 128 {
        return Ok((u64::from(*byte), more));
    }
    let (high, rest) = read_groups(more, most - 1, at, end)?;
    let number = with_higher(at, *byte, high)?;
    Ok((number, rest))
}

// A varint.
#[tactic(auto, unfolding(crate::specs::Wire::varint_read))]
pub(crate) fn read_varint(bytes: &[u8], end: usize) -> Result<(u64, &[u8]), DirRefusal>
    requires { length bytes.now ≤ end }
    ensures exact { Spec.read_view result ≡ Spec.varint_read end bytes.entry.now }
    ensures shorter { IfOk result (λ found. length found.1.now < length bytes.entry.now) }
{
    read_groups(bytes, MOST_GROUPS, place(bytes, end), end)
}

// The bytes behind the key that is to stand here.
#[tactic(auto, unfolding(crate::specs::Wire::key_read))]
pub(crate) fn read_key(key: u64, bytes: &[u8], end: usize) -> Result<&[u8], DirRefusal>
    requires { length bytes.now ≤ end }
    ensures exact { Spec.bytes_view result ≡ Spec.key_read key end bytes.entry.now }
    ensures shorter { IfOk result (λ behind. length behind.now < length bytes.entry.now) }
{
    let (found, behind) = read_varint(bytes, end)?;
    if found != key {
        return Err(DirRefusal::Key(place(bytes, end)));
    }
    Ok(behind)
}

// As many bytes as a length says, and those behind them.
fn cut(len: u64, bytes: &[u8], end: usize) -> Result<(&[u8], &[u8]), DirRefusal>
    ensures exact { Spec.field_view result ≡ Spec.cut_read len end bytes.entry.now }
    ensures parts { IfOk result (λ parts. length parts.0.now + length parts.1.now ≡ length bytes.entry.now) }
{
    if len <= bytes.len() as u64 {
        Ok(bytes.split_at(len as usize))
    } else {
        Err(DirRefusal::Truncated(end))
    }
}

// The bytes of the field with this key, and those behind it.
#[tactic(auto, unfolding(crate::specs::Wire::field_read))]
pub(crate) fn read_field(key: u64, bytes: &[u8], end: usize) -> Result<(&[u8], &[u8]), DirRefusal>
    requires { length bytes.now ≤ end }
    ensures exact { Spec.field_view result ≡ Spec.field_read key end bytes.entry.now }
    ensures parts { IfOk result (λ parts. length parts.0.now + length parts.1.now < length bytes.entry.now) }
{
    let behind = read_key(key, bytes, end)?;
    let (len, rest) = read_varint(behind, end)?;
    cut(len, rest, end)
}

// Whether bytes begin with this byte.
pub(crate) fn begins_with(key: u8, bytes: &[u8]) -> bool
    ensures { result ≡ Spec.begins_with key bytes.now }
{
    match bytes {
        [] => false,
        [byte, ..] => *byte == key,
    }
}

// That nothing follows: another byte would be a key that may not stand there.
pub(crate) fn read_last(bytes: &[u8], end: usize) -> Result<(), DirRefusal>
    requires { length bytes.now ≤ end }
    ensures { result ≡ Spec.last_read tt end bytes.now }
{
    if !bytes.is_empty() {
        return Err(DirRefusal::Key(place(bytes, end)));
    }
    Ok(())
}
