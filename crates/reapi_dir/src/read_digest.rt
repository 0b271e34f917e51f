// A digest of a node, read from the front of the bytes that are left before the offset `end` (Remote Execution API v2, `Digest`).
ghost use Rattle.std.specs.Prelude.{◌≡◌, ◌<◌, ◌≤◌, length, IfOk};
ghost use Rattle.mat_digest.specs.Digests.{read_hash};
ghost use Rattle.reapi_dir.specs.Wire.{read_view};
ghost use Rattle.reapi_dir.specs.Reading as Spec;

use crate::read_wire::{place, read_field, read_key, read_last, read_varint};
use crate::refusal::DirRefusal;
use mat_digest::Digest;

// The key of `hash` of a digest.
const HASH: u64 = 0x0a;
// The key of `size_bytes` of a digest.
const SIZE_BYTES: u64 = 0x10;
// The key of `digest` of a node.
const DIGEST: u64 = 0x12;

// The hash that a text spells which begins at this offset.
fn hash_at(at: usize, text: &[u8]) -> Result<[u8; 32], DirRefusal>
    ensures { result ≡ Spec.hash_at at (read_hash text.now) }
{
    match Digest::read_hash(text) {
        Some(hash) => Ok(hash),
        None => Err(DirRefusal::Hash(at)),
    }
}

// A size that was read at this offset.
fn size_at(at: usize, limit: u64, size: u64) -> Result<u64, DirRefusal>
    ensures { result ≡ Spec.size_at at limit size }
{
    if size >= 1 && size <= limit {
        Ok(size)
    } else {
        Err(DirRefusal::Size(at))
    }
}

// The field of a size, behind which nothing may stand.
#[tactic(auto, unfolding(crate::specs::Reading::size_field_read))]
fn read_size_field(limit: u64, bytes: &[u8], end: usize) -> Result<u64, DirRefusal>
    requires { length bytes.now ≤ end }
    ensures { result ≡ Spec.size_field_read limit end bytes.now }
{
    let behind = read_key(SIZE_BYTES, bytes, end)?;
    let (number, rest) = read_varint(behind, end)?;
    let size = size_at(place(behind, end), limit, number)?;
    read_last(rest, end)?;
    Ok(size)
}

// The size of a digest, which is 0 where its field doesn't stand.
fn read_size(limit: u64, bytes: &[u8], end: usize) -> Result<u64, DirRefusal>
    requires { length bytes.now ≤ end }
    ensures { result ≡ Spec.size_read limit end bytes.now }
{
    if bytes.is_empty() {
        return Ok(0);
    }
    read_size_field(limit, bytes, end)
}

// A digest of a size up to this limit, from all its bytes.
#[tactic(auto, unfolding(crate::specs::Reading::digest_read))]
fn read_digest(limit: u64, bytes: &[u8], end: usize) -> Result<Digest, DirRefusal>
    requires { length bytes.now ≤ end }
    ensures { result ≡ Spec.digest_read limit end bytes.now }
{
    let (text, behind) = read_field(HASH, bytes, end)?;
    let hash = hash_at(place(text, place(behind, end)), text)?;
    let size = read_size(limit, behind, end)?;
    Ok(Digest { hash, size })
}

// The field of a digest of a size up to this limit.
#[tactic(auto, unfolding(crate::specs::Reading::digest_field_read))]
pub(crate) fn read_digest_field(
    limit: u64,
    bytes: &[u8],
    end: usize,
) -> Result<(Digest, &[u8]), DirRefusal>
    requires { length bytes.now ≤ end }
    ensures exact { read_view result ≡ Spec.digest_field_read limit end bytes.entry.now }
    ensures shorter { IfOk result (λ found. length found.1.now < length bytes.entry.now) }
{
    let (message, behind) = read_field(DIGEST, bytes, end)?;
    let digest = read_digest(limit, message, place(behind, end))?;
    Ok((digest, behind))
}
