//! Reading of Directory messages (Remote Execution API v2, `Directory`).
ghost use Rattle.std.specs.Prelude.{◌≡◌, ◌⊎◌, ◌≤◌, length, Some, None, IfOk, IfErr, MatchResult};
ghost use Rattle.reapi_dir.specs.declared.message.DirMessage.{DirMessage};
ghost use Rattle.reapi_dir.specs.Grammar.{Spells};
ghost use Rattle.reapi_dir.specs.Reading as Spec;

use crate::message::DirMessage;
use crate::read_list::{read_dirs, read_files, read_links};
use crate::read_wire::{place, read_varint};
use crate::refusal::DirRefusal;
use mat_path::Items;
use std::alloc::Global;

// The most children of a directory.
const MOST_CHILDREN: usize = 9_999;

// That the message ends here: a key that still comes may not stand there.
#[tactic(auto, unfolding(crate::specs::Reading::bad_key_read))]
fn read_end(bytes: &[u8], end: usize) -> Result<(), DirRefusal>
    requires { length bytes.now ≤ end }
    ensures { result ≡ Spec.end_read tt end bytes.now }
{
    if bytes.is_empty() {
        return Ok(());
    }
    read_varint(bytes, end)?;
    Err(DirRefusal::Key(place(bytes, end)))
}

// A message, or the first fault from the left, or want of memory.
#[tactic(auto, unfolding(crate::specs::Reading::message_read))]
fn read_message(alloc: Global, bytes: &[u8]) -> Result<DirMessage, DirRefusal>
    ensures ok { IfOk result (λ message. Spec.message_read (length bytes.now) bytes.now ≡ Ok message) }
    ensures err { IfErr result (λ e. (e ≡ DirRefusal.NoMemory) ⊎ (Spec.message_read (length bytes.now) bytes.now ≡ Err e)) }
{
    let end = bytes.len();
    let (files, rest) = read_files(alloc, MOST_CHILDREN, bytes, end)?;
    let room = MOST_CHILDREN - files.len();
    let (dirs, rest) = read_dirs(alloc, files.as_slice(), room, rest, end)?;
    let room = room - dirs.len();
    let (links, rest) = read_links(alloc, files.as_slice(), dirs.as_slice(), room, rest, end)?;
    read_end(rest, end)?;
    Ok(DirMessage {
        files: Items::of(files),
        dirs: Items::of(dirs),
        links: Items::of(links),
    })
}

/// Reads a directory from its message (Remote Execution API v2, `Directory`), which has one spelling: each varint in its shortest form, fields in
/// order of number, scalars at their default left out, and the names of each list in strict order of bytes.
///
/// It answers the first fault from the left, or `NoMemory`. Reading takes time in proportion to the bytes and, for each child, to the logarithm
/// of the number of children.
pub fn read_dir(alloc: Global, bytes: &[u8]) -> Result<DirMessage, DirRefusal>
    ensures ok { IfOk result (λ message. Spells bytes.now message) }
    ensures whole { (message : DirMessage) → Spells bytes.now message
        → MatchResult result (λ read. read ≡ message) (λ refusal. refusal ≡ DirRefusal.NoMemory) }
    ensures exact { MatchResult result (λ message. Spec.dir_refusal bytes.now ≡ None)
        (λ refusal. (refusal ≡ DirRefusal.NoMemory) ⊎ (Spec.dir_refusal bytes.now ≡ Some refusal)) }
{
    let _len = bytes.len();
    read_message(alloc, bytes)
}
