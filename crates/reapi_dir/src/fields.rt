// The fields of a Directory message: one for each child, by its name and what it is.
ghost use Rattle.std.specs.Prelude.{◌≡◌, ◌≤◌, ◌++◌, length, OnOk};
ghost use Rattle.mat_digest.specs.Digests.{hash_text};
ghost use Rattle.mat_tree.specs.Messages.{bytes_field, digest_message, dir_field, dir_message, file_field, file_message, flag, link_field, link_message};
ghost use Rattle.reapi_dir.specs.Lengths.{number_length};

use crate::varint::{field_len, push_bytes_field, push_head, push_number_field, varint_len};
use mat_digest::Digest;
use mat_path::{Memory, Name, Target};

// Whether a file is executable, as a number.
fn flag(exec: bool) -> u64
    ensures { result ≡ flag exec }
{
    if exec { 1 } else { 0 }
}

// How many bytes a field of a number has, where the field's number is at most 15.
fn number_len(value: u64) -> u64
    ensures value { result ≡ number_length value }
    ensures short { result ≤ 11 }
{
    if value == 0 { 0 } else { 1 + varint_len(value) }
}

// How many bytes a name has.
fn name_len(name: &Name) -> u64
    ensures value { result ≡ length name.now }
    ensures short { result ≤ 255 }
{
    name.bytes().len() as u64
}

// How many bytes a target has.
fn target_len(target: &Target) -> u64
    ensures value { result ≡ length target.now }
    ensures short { result ≤ 1024 }
{
    target.bytes().len() as u64
}

// How many bytes the message of a digest has.
fn digest_len(digest: &Digest) -> u64
    ensures value { result ≡ length (digest_message digest.now) }
    ensures short { result ≤ 100 }
{
    field_len(2 * digest.hash.len() as u64) + number_len(digest.size)
}

// How many bytes the message of a file has.
fn file_len(name: &Name, digest: &Digest, exec: bool) -> u64
    ensures { result ≡ length (file_message name.now digest.now exec) }
{
    field_len(name_len(name)) + field_len(digest_len(digest)) + number_len(flag(exec))
}

// How many bytes the message of a directory has, as a child.
fn dir_len(name: &Name, digest: &Digest) -> u64
    ensures { result ≡ length (dir_message name.now digest.now) }
{
    field_len(name_len(name)) + field_len(digest_len(digest))
}

// How many bytes the message of a link has.
fn link_len(name: &Name, target: &Target) -> u64
    ensures { result ≡ length (link_message name.now target.now) }
{
    field_len(name_len(name)) + field_len(target_len(target))
}

// Appends the field of a digest's hash.
fn push_hash(out: &mut Vec<u8>, digest: &Digest) -> Result<(), Memory>
    ensures { OnOk result (out.new.items ≡ out.old.items ++ bytes_field 1 (hash_text digest.now)) }
{
    let mut digits = [0u8; 64];
    hex::encode_to_slice(digest.hash, &mut digits).unwrap();
    push_bytes_field(out, 1, &digits)
}

// Appends the field of a digest.
fn push_digest(out: &mut Vec<u8>, digest: &Digest) -> Result<(), Memory>
    ensures { OnOk result (out.new.items ≡ out.old.items ++ bytes_field 2 (digest_message digest.now)) }
{
    push_head(out, 2, digest_len(digest))?;
    push_hash(out, digest)?;
    push_number_field(out, 2, digest.size)
}

// Appends the field of a file.
pub(crate) fn push_file(
    out: &mut Vec<u8>,
    name: &Name,
    digest: &Digest,
    exec: bool,
) -> Result<(), Memory>
    ensures { OnOk result (out.new.items ≡ out.old.items ++ file_field name.now digest.now exec) }
{
    push_head(out, 1, file_len(name, digest, exec))?;
    push_bytes_field(out, 1, name.bytes())?;
    push_digest(out, digest)?;
    push_number_field(out, 4, flag(exec))
}

// Appends the field of a directory, by the digest of its message.
pub(crate) fn push_dir(out: &mut Vec<u8>, name: &Name, digest: &Digest) -> Result<(), Memory>
    ensures { OnOk result (out.new.items ≡ out.old.items ++ dir_field name.now digest.now) }
{
    push_head(out, 2, dir_len(name, digest))?;
    push_bytes_field(out, 1, name.bytes())?;
    push_digest(out, digest)
}

// Appends the field of a link.
pub(crate) fn push_link(out: &mut Vec<u8>, name: &Name, target: &Target) -> Result<(), Memory>
    ensures { OnOk result (out.new.items ≡ out.old.items ++ link_field name.now target.now) }
{
    push_head(out, 3, link_len(name, target))?;
    push_bytes_field(out, 1, name.bytes())?;
    push_bytes_field(out, 2, target.bytes())
}
