// The text of a digest, and its parts.
ghost use Rattle.std.specs.Prelude.{◌≡◌, ◌≤◌, ◌==◌, ◌&&◌, true, length, take, nat_lt, slice_index, if◌then◌else◌};
ghost use Rattle.std.specs.Char.{is_ascii_digit};
ghost use Rattle.std.specs.List.{list_all};
ghost use Rattle.hex.specs.Hex.{IsBytes};
ghost use Rattle.mat_digest.specs.Digests.{IsDigest, digest_text, has_leading_zero, hash_end, hash_spelled, is_lower_digit, number_written, read_digest, size_written, with_size};

use crate::digest::{Digest, DigestRefusal};
use hex::FromHex;
use std::marker::Model;

/// The length of the longest text: 64 digits, a colon, and the 20 digits of 2^64 - 1.
const LONGEST: usize = 85;

/// The text of a digest, at most 85 bytes.
#[derive(Drop)]
pub struct DigestText {
    buffer: [u8; LONGEST],
    len: usize,
}

impl Model for DigestText {
    ghost use Rattle.std.specs.Prelude.{ℕ, List, take, ◌≤◌};

    ghost Value = { List ℕ };

    ghost view = { λ t. take t.len t.buffer };

    ghost invariant = { λ t. t.len ≤ 85 };
}

impl DigestText {
    /// The bytes of the text. It takes no memory.
    pub fn bytes(&self) -> &[u8]
        ensures text { result.now ≡ self.now }
        ensures short { length result.now ≤ 85 }
    {
        &self.buffer[..self.len]
    }
}

impl Digest {
    /// The text of the digest: 64 lower-case hexadecimal digits of the hash, a colon, and the size in
    /// decimal. It takes no memory.
    pub fn write_text(&self) -> DigestText
        ensures text { result ≡ digest_text self.now }
        ensures short { length result ≤ 85 }
    {
        let mut buffer = [0u8; LONGEST];
        hex::encode_to_slice(self.hash, &mut buffer[..64]).unwrap();
        buffer[64] = b':';
        let mut digits = itoa::Buffer::new();
        let size = digits.format(self.size).as_bytes();
        let len = 65 + size.len();
        buffer[65..len].copy_from_slice(size);
        DigestText { buffer, len }
    }

    /// The law of the text: what is written of a digest is read as that digest. It does nothing.
    pub fn text_is_read_back(&self)
        ensures valid { IsDigest self.now }
        ensures back { read_digest (digest_text self.now) ≡ Ok self.now }
    {
        let _size = self.size;
        tell_hash(&self.hash);
    }
}

// What the type says of a hash: it is 32 bytes.
fn tell_hash(hash: &[u8; 32])
    ensures len { length hash.now ≡ 32 }
    ensures bytes { IsBytes hash.now }
{
    tell_bytes(hash);
}

// What the type says of bytes: each is below 256.
fn tell_bytes(bytes: &[u8])
    ensures { IsBytes bytes.now }
{
    let _len = bytes.len();
}

/// Whether a byte is `0` to `9` or `a` to `f`. Takes no memory.
pub fn is_lower_digit(byte: u8) -> bool
    ensures { result ≡ is_lower_digit byte }
{
    matches!(byte, b'0'..=b'9' | b'a'..=b'f')
}

// How many of the first 64 bytes stand before the first that is missing or is no lower-case digit.
fn find_hash_end(text: &[u8]) -> usize
    ensures { result ≡ hash_end text.now }
{
    text.iter()
        .take(64)
        .take_while(|byte| is_lower_digit(**byte))
        .count()
}

// The hash that the first 64 bytes spell.
pub(crate) fn read_hash(text: &[u8]) -> Result<[u8; 32], DigestRefusal>
    ensures { result ≡ (if nat_lt (hash_end text.now) 64 then Err (DigestRefusal.Hash (hash_end text.now))
        else Ok (hash_spelled (take 64 text.now))) }
{
    let end = find_hash_end(text);
    if end < 64 {
        return Err(DigestRefusal::Hash(end));
    }
    Ok(<[u8; 32]>::from_hex(&text[..64]).unwrap())
}

// Whether a colon stands after the hash.
fn has_colon(text: &[u8]) -> bool
    ensures { result ≡ (slice_index text.now 64 == 58) }
{
    text.len() > 64 && text[64] == b':'
}

/// Whether a text begins with a zero before another byte. Takes no memory.
pub fn has_leading_zero(digits: &[u8]) -> bool
    ensures { result ≡ has_leading_zero digits.now }
{
    digits.len() > 1 && digits[0] == b'0'
}

/// Whether each byte is a decimal digit. Takes no memory.
pub fn are_digits(bytes: &[u8]) -> bool
    ensures { result ≡ list_all is_ascii_digit bytes.now }
{
    bytes.iter().all(|byte| byte.is_ascii_digit())
}

// The number that decimal digits write, if there is a digit and the number is below 2^64.
fn parse_digits(digits: &[u8]) -> Option<u64>
    requires { list_all is_ascii_digit digits.now ≡ true }
    ensures { result ≡ number_written digits.now }
{
    match std::str::from_utf8(digits) {
        Ok(text) => text.parse().ok(),
        Err(_) => None,
    }
}

// The number below 2^64 that `digits` writes in decimal with no leading zero.
fn read_size(digits: &[u8]) -> Option<u64>
    ensures { result ≡ size_written digits.now }
{
    if has_leading_zero(digits) || !are_digits(digits) {
        return None;
    }
    parse_digits(digits)
}

// The digest of a hash and the text of its size.
fn with_size(hash: [u8; 32], size: &[u8]) -> Result<Digest, DigestRefusal>
    ensures { result ≡ with_size hash (size_written size.now) }
{
    match read_size(size) {
        Some(size) => Ok(Digest { hash, size }),
        None => Err(DigestRefusal::Size(65)),
    }
}

// The digest that a text spells, or where its first fault is.
#[tactic(auto, unfolding(crate::specs::Digests::read_digest))]
pub(crate) fn read_digest(text: &[u8]) -> Result<Digest, DigestRefusal>
    ensures { result ≡ read_digest text.now }
{
    let hash = read_hash(text)?;
    if !has_colon(text) {
        return Err(DigestRefusal::Colon(64));
    }
    with_size(hash, &text[65..])
}
