// What one word spells, and what the words of a tree spell.
ghost use Rattle.std.specs.Prelude.{◌≡◌, ◌^◌, true, false, Some, None, IfOk, MatchOption};
ghost use Rattle.std.specs.List.{list_all};
ghost use Rattle.std.specs.Option.{option_copied};
ghost use Rattle.mat_digest.specs.Digests.{is_lower_digit};
ghost use Rattle.mat_path.specs.Names.{path_of};
ghost use Rattle.tree_words.specs.Rests.{words_of};
ghost use Rattle.script_lang.specs.Spelled.{at_least_one, below, bytes_of, command_of, count_of, device_of, digest_of, flags_of, flags_spelled, is_hex, is_number, kind_of, mode_of, moment_of, pick_of, place_of, tree_spelled, worker_of};

use crate::flags::Flags;
use crate::items::Pick;
use mat_digest::{Digest, are_digits, has_leading_zero, is_lower_digit};
use mat_model::{CleanMode, Device};
use mat_path::{Items, Memory, Path, PathRefusal};
use mat_tree::{Kind, Tree};
use std::alloc::Global;
use tree_words::{Words, WordsRefusal, read_words};

/// The first moment that is none: 2^63.
const NO_MOMENT: u64 = 9_223_372_036_854_775_808;

// Whether a word is a number: decimal digits with no leading zero.
fn is_number(word: &[u8]) -> bool
    ensures { result ≡ is_number word.now }
{
    !word.is_empty() && are_digits(word) && !has_leading_zero(word)
}

// The text of a word that is a number.
fn number_text(word: &[u8]) -> Option<&str>
    ensures { MatchOption result (is_number word.entry.now ≡ false)
        (λ text. (text.now ≡ word.entry.now) × (is_number word.entry.now ≡ true)) }
{
    if !is_number(word) {
        return None;
    }
    match std::str::from_utf8(word) {
        Ok(text) => Some(text),
        Err(_) => None,
    }
}

// The number of a command that a word spells.
pub(crate) fn command_spelled(word: &[u8]) -> Option<u32>
    ensures { result ≡ command_of word.now }
{
    match number_text(word) {
        Some(text) => text.parse().ok(),
        None => None,
    }
}

// The number of a state or a count that a word spells.
pub(crate) fn count_spelled(word: &[u8]) -> Option<u64>
    ensures { result ≡ count_of word.now }
{
    match number_text(word) {
        Some(text) => text.parse().ok(),
        None => None,
    }
}

// A count, if it is below a bound.
fn count_below(bound: u64, count: Option<u64>) -> Option<u64>
    ensures { result ≡ below bound count }
{
    let count = count?;
    if count < bound { Some(count) } else { None }
}

// The number of a worker, if there are more workers.
fn worker_below(workers: u32, number: Option<u32>) -> Option<u32>
    ensures { result ≡ below workers number }
{
    let number = number?;
    if number < workers { Some(number) } else { None }
}

// A count, if it is at least 1.
fn at_least_one(count: Option<u64>) -> Option<u64>
    ensures { result ≡ at_least_one count }
{
    let count = count?;
    if count >= 1 { Some(count) } else { None }
}

// The moment that a word spells.
pub(crate) fn moment_spelled(word: &[u8]) -> Option<u64>
    ensures { result ≡ moment_of word.now }
{
    count_below(NO_MOMENT, count_spelled(word))
}

// The place of a call that is to fail that a word spells.
pub(crate) fn place_spelled(word: &[u8]) -> Option<u64>
    ensures { result ≡ place_of word.now }
{
    at_least_one(count_spelled(word))
}

// The number of a worker that a word spells.
pub(crate) fn worker_spelled(workers: u32, word: &[u8]) -> Option<u32>
    ensures { result ≡ worker_of workers word.now }
{
    worker_below(workers, command_spelled(word))
}

// Whether each byte is a lower-case hexadecimal digit.
fn are_lower_digits(word: &[u8]) -> bool
    ensures { result ≡ list_all is_lower_digit word.now }
{
    word.iter().all(|byte| is_lower_digit(*byte))
}

// Whether a word is an even number of lower-case hexadecimal digits, at least two.
fn is_hex(word: &[u8]) -> bool
    ensures { result ≡ is_hex word.now }
{
    !word.is_empty() && word.len() % 2 == 0 && are_lower_digits(word)
}

// The bytes that hexadecimal digits spell. They spell some, so the one error is want of memory.
fn decode(alloc: Global, word: &[u8]) -> Result<Items<u8>, Memory>
    requires { is_hex word.now ≡ true }
    ensures ok { IfOk result (λ bytes. bytes_of word.now ≡ Some bytes) }
{
    match hex::decode(alloc, word) {
        Ok(bytes) => Ok(Items::of(bytes)),
        Err(_) => Err(Memory),
    }
}

// The bytes that a word spells: `-` is none.
pub(crate) fn bytes_spelled(alloc: Global, word: &[u8]) -> Result<Option<Items<u8>>, Memory>
    ensures ok { IfOk result (λ bytes. bytes ≡ bytes_of word.now) }
{
    if word == b"-".as_slice() {
        return Ok(Some(Items::of(Vec::new(alloc))));
    }
    if !is_hex(word) {
        return Ok(None);
    }
    Ok(Some(decode(alloc, word)?))
}

// The digest that a word spells.
pub(crate) fn digest_spelled(word: &[u8]) -> Option<Digest>
    ensures { result ≡ digest_of word.now }
{
    Digest::read_text(word).ok()
}

// The path that a word spells.
pub(crate) fn path_spelled(alloc: Global, word: &[u8]) -> Result<Option<Path>, Memory>
    ensures ok { IfOk result (λ path. path ≡ path_of word.now) }
{
    match Path::read(alloc, word) {
        Ok(path) => Ok(Some(path)),
        Err(PathRefusal::NoMemory) => Err(Memory),
        Err(_) => Ok(None),
    }
}

// The kind that a letter names.
pub(crate) fn kind_spelled(word: &[u8]) -> Option<Kind>
    ensures { result ≡ kind_of word.now }
{
    if word == b"f".as_slice() {
        return Some(Kind::File);
    }
    if word == b"x".as_slice() {
        return Some(Kind::Exec);
    }
    if word == b"d".as_slice() {
        return Some(Kind::Dir);
    }
    None
}

// The mode of a clean that a word names.
pub(crate) fn mode_spelled(word: &[u8]) -> Option<CleanMode>
    ensures { result ≡ mode_of word.now }
{
    if word == b"real".as_slice() {
        return Some(CleanMode::Real);
    }
    if word == b"dry".as_slice() {
        return Some(CleanMode::Dry);
    }
    if word == b"all".as_slice() {
        return Some(CleanMode::All);
    }
    None
}

// The device that a word names.
pub(crate) fn device_spelled(word: &[u8]) -> Option<Device>
    ensures { result ≡ device_of word.now }
{
    if word == b"disk".as_slice() {
        return Some(Device::Disk);
    }
    if word == b"store".as_slice() {
        return Some(Device::Store);
    }
    if word == b"keeper".as_slice() {
        return Some(Device::Keeper);
    }
    None
}

// What becomes of the rough parts, by its word.
pub(crate) fn pick_spelled(word: &[u8]) -> Option<Pick>
    ensures { result ≡ pick_of word.now }
{
    if word == b"none".as_slice() {
        return Some(Pick::Nothing);
    }
    if word == b"whole".as_slice() {
        return Some(Pick::Whole);
    }
    if word == b"torn".as_slice() {
        return Some(Pick::Torn);
    }
    None
}

// The flags that a word spells.
fn flags_named(word: &[u8]) -> Option<Flags>
    ensures { result ≡ flags_spelled word.now }
{
    if word == b"p".as_slice() {
        return Some(Flags {
            soft: true,
            refuse: false,
        });
    }
    if word == b"r".as_slice() {
        return Some(Flags {
            soft: false,
            refuse: true,
        });
    }
    if word == b"pr".as_slice() {
        return Some(Flags {
            soft: true,
            refuse: true,
        });
    }
    None
}

// The flags of a command that comes: none are set where no word spells some.
pub(crate) fn flags_spelled(word: Option<&[u8]>) -> Option<Flags>
    ensures { result ≡ flags_of (option_copied word.entry) }
{
    match word {
        Some(word) => flags_named(word),
        None => Some(Flags {
            soft: false,
            refuse: false,
        }),
    }
}

// The tree that a text spells.
fn tree_of_text(alloc: Global, text: &[u8]) -> Result<Option<Tree>, Memory>
    ensures ok { IfOk result (λ tree. tree ≡ tree_spelled (words_of text.now)) }
{
    match read_words(alloc, text) {
        Ok(tree) => Ok(Some(tree)),
        Err(WordsRefusal::NoMemory) => Err(Memory),
        Err(_) => Ok(None),
    }
}

// The tree that words spell.
pub(crate) fn tree_spelled(alloc: Global, words: Words<'_>) -> Result<Option<Tree>, Memory>
    ensures ok { IfOk result (λ tree. tree ≡ tree_spelled words.entry) }
{
    match words.text() {
        Some(text) => tree_of_text(alloc, text),
        None => Ok(None),
    }
}
