//! The faults of a text that is to be a path, and the names of one without a fault.
ghost use Rattle.std.specs.Prelude.{◌≡◌, ◌<◌, ◌≤◌, true, length, IfOk, nat_eq, not, position, count_by, sum_by, drop, ◌+◌, ◌++◌, Some, None};
ghost use Rattle.std.specs.Option.{OnSome};
ghost use Rattle.std.specs.List.{list_all};
ghost use Rattle.mat_path.specs.Names.{is_text_byte, is_name_byte, is_target, is_dots, is_name, is_path, is_rel, slot, pieces, path_of};
ghost use Rattle.mat_path.specs.Faults.{is_stray, first_piece, name_fault, fault_here, fault_at, first_fault, refusal_of, refused, name_fault_at, first_name_fault, name_refusal, target_refusal};

use crate::memory::Memory;
use crate::name;
use crate::name::Name;
use crate::path::PathRefusal;
use std::alloc::Global;

/// The most bytes of the text of a path or of a target.
pub const TEXT_BYTES: usize = 1024;
/// The most names of a path.
pub const NAMES: usize = 64;
/// The most bytes of a name.
const NAME_BYTES: usize = 255;

/// Whether a text may have this byte.
pub(crate) fn is_text_byte(byte: u8) -> bool
    ensures { result ≡ is_text_byte byte }
{
    (0x21..=0x7e).contains(&byte)
}

/// Whether a name may have this byte.
fn is_name_byte(byte: u8) -> bool
    ensures { result ≡ is_name_byte byte }
{
    is_text_byte(byte) && byte != b'/'
}

/// Whether a byte may not stand where it does, before `more`.
fn is_stray(begins: bool, byte: u8, more: &[u8]) -> bool
    ensures { result ≡ is_stray begins byte more.now }
{
    !is_text_byte(byte) || (byte == b'/' && (begins || more.is_empty()))
}

/// Whether a name stands for a folder itself or for the one above it.
fn is_dots(name: &[u8]) -> bool
    ensures { result ≡ is_dots name.now }
{
    name == b".".as_slice() || name == b"..".as_slice()
}

/// What is wrong with a whole name that begins at this offset.
fn name_fault(at: usize, name: &[u8]) -> Option<PathRefusal>
    ensures { result ≡ name_fault at name.now }
{
    if is_dots(name) {
        Some(PathRefusal::Dots(at))
    } else if name.len() > NAME_BYTES {
        Some(PathRefusal::LongName(at))
    } else {
        None
    }
}

/// The end of the first piece, where another follows.
fn slash(text: &[u8]) -> Option<usize>
    ensures { result ≡ position (λ b. nat_eq b 47) text.now }
{
    text.iter().position(|byte| *byte == b'/')
}

/// The bytes before the first slash, or all.
fn first_piece(text: &[u8]) -> &[u8]
    ensures { result.now ≡ first_piece text.entry.now }
{
    match slash(text) {
        Some(end) => &text[..end],
        None => text,
    }
}

/// What is wrong at this offset, where `rest` is the text from there on.
fn fault_here(begins: bool, at: usize, rest: &[u8]) -> Option<PathRefusal>
    ensures { result ≡ fault_here begins at rest.now }
{
    let (byte, more) = rest.split_first()?;
    if is_stray(begins, *byte, more) {
        return Some(PathRefusal::BadByte(at));
    }
    if begins {
        name_fault(at, first_piece(rest))
    } else {
        None
    }
}

/// What is wrong at this offset of the text.
fn fault_at(text: &[u8], at: usize) -> Option<PathRefusal>
    requires { at < length text.now }
    ensures { result ≡ fault_at text.now at }
{
    let begins = at == 0 || text[at - 1] == b'/';
    fault_here(begins, at, &text[at..])
}

/// The fault of the lowest offset that has one.
fn first_fault(text: &[u8]) -> Option<PathRefusal>
    ensures { result ≡ first_fault text.now }
{
    for at in 0..text.len() {
        if let Some(fault) = fault_at(text, at) {
            return Some(fault);
        }
    }
    None
}

/// The number of slashes.
fn slash_count(text: &[u8]) -> usize
    ensures { result ≡ count_by (λ b. nat_eq b 47) text.now }
{
    text.iter().filter(|byte| **byte == b'/').count()
}

/// The number of pieces between slashes.
fn piece_count(text: &[u8]) -> usize
    requires { length text.now ≤ 1024 }
    ensures { result ≡ length (pieces text.now) }
{
    slash_count(text) + 1
}

/// Why the text is no path. Takes no memory.
pub(crate) fn refusal_of(text: &[u8]) -> Option<PathRefusal>
    ensures { result ≡ refusal_of text.now }
{
    if text.is_empty() {
        return Some(PathRefusal::Empty);
    }
    if text.len() > TEXT_BYTES {
        return Some(PathRefusal::Long);
    }
    if let Some(fault) = first_fault(text) {
        return Some(fault);
    }
    if piece_count(text) > NAMES {
        return Some(PathRefusal::Long);
    }
    None
}

/// What stands behind this byte of the text.
fn behind(text: &[u8], at: usize) -> &[u8]
    requires { at < length text.now }
    ensures { result.now ≡ drop (at + 1) text.entry.now }
{
    &text[at + 1..]
}

/// The names between the slashes of the text.
pub(crate) fn names_of(alloc: Global, text: &[u8]) -> Result<Vec<Name>, Memory>
    requires { list_all is_name (pieces text.now) ≡ true }
    ensures ok { IfOk result (λ names. names.items ≡ pieces text.now) }
{
    let mut names = Vec::new(alloc);
    let mut rest = text;
    while let Some(end) = slash(rest) {
        names.push(name::named(alloc, &rest[..end])?)?;
        rest = behind(rest, end);
    }
    names.push(name::named(alloc, rest)?)?;
    Ok(names)
}

/// The names of the path that a text spells.
pub(crate) fn path_names(alloc: Global, text: &[u8]) -> Result<Vec<Name>, PathRefusal>
    ensures ok { IfOk result (λ names. path_of text.now ≡ Some names.items) }
    ensures path { IfOk result (λ names. is_path names.items ≡ true) }
    ensures only { OnSome (refused result) (path_of text.now ≡ None) }
    ensures exact { refused result ≡ refusal_of text.now }
{
    match refusal_of(text) {
        Some(refusal) => Err(refusal),
        None => match names_of(alloc, text) {
            Ok(names) => Ok(names),
            Err(Memory) => Err(PathRefusal::NoMemory),
        },
    }
}

/// What is wrong at this offset of a text that is to be one name.
fn name_fault_at(text: &[u8], at: usize) -> Option<PathRefusal>
    requires { at < length text.now }
    ensures { result ≡ name_fault_at text.now at }
{
    if !is_name_byte(text[at]) {
        return Some(PathRefusal::BadByte(at));
    }
    if at == 0 { name_fault(at, text) } else { None }
}

/// The fault of the lowest offset that has one, in a text that is to be one name.
fn first_name_fault(text: &[u8]) -> Option<PathRefusal>
    ensures { result ≡ first_name_fault text.now }
{
    for at in 0..text.len() {
        if let Some(fault) = name_fault_at(text, at) {
            return Some(fault);
        }
    }
    None
}

/// Why the text is no name. Takes no memory.
pub(crate) fn name_refusal(text: &[u8]) -> Option<PathRefusal>
    ensures { result ≡ name_refusal text.now }
{
    if text.is_empty() {
        return Some(PathRefusal::Empty);
    }
    if text.len() > TEXT_BYTES {
        return Some(PathRefusal::Long);
    }
    first_name_fault(text)
}

/// The first byte that no text may have.
fn bad_byte(text: &[u8]) -> Option<usize>
    ensures { result ≡ position (λ b. not (is_text_byte b)) text.now }
{
    text.iter().position(|byte| !is_text_byte(*byte))
}

/// Why the text is no target. Takes no memory.
pub(crate) fn target_refusal(text: &[u8]) -> Option<PathRefusal>
    ensures { result ≡ target_refusal text.now }
{
    if text.is_empty() {
        return Some(PathRefusal::Empty);
    }
    if text.len() > TEXT_BYTES {
        return Some(PathRefusal::Long);
    }
    match bad_byte(text) {
        Some(at) => Some(PathRefusal::BadByte(at)),
        None => None,
    }
}

/// The bytes of the names in a text, with a slash behind each.
fn slots(names: &[Name]) -> usize
    requires { sum_by slot names.now ≤ 1025 }
    ensures { result ≡ sum_by slot names.now }
{
    let mut size = 0;
    for name in names {
        size += name.bytes().len() + 1;
    }
    size
}

/// Whether the names of two rels are a rel, one behind the other.
pub(crate) fn can_join(front: &[Name], back: &[Name]) -> bool
    requires front { is_rel front.now ≡ true }
    requires back { is_rel back.now ≡ true }
    ensures { result ≡ is_rel (front.now ++ back.now) }
{
    front.len() + back.len() <= NAMES && slots(front) + slots(back) <= TEXT_BYTES + 1
}
