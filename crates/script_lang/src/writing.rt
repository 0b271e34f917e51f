// The lines of items, as they are read again. Each function also says what the type of its item says: what is written is read
// again only within these bounds.
ghost use Rattle.std.specs.Prelude.{◌≡◌, ◌++◌, ◌∷◌, ◌≤◌, ℕ, length, IfOk, OnOk};
ghost use Rattle.hex.specs.Hex.{IsBytes};
ghost use Rattle.mat_digest.specs.Digests.{digest_text};
ghost use Rattle.mat_path.specs.Names.{joined};
ghost use Rattle.mat_model.specs.declared.requests.Request.TheVariants as the_request;
ghost use Rattle.tree_words.specs.Words.{text_of};
ghost use Rattle.script_lang.specs.declared.items.Item.TheVariants as the_item;
ghost use Rattle.script_lang.specs.declared.items.Line.TheVariants as the_line;
ghost use Rattle.script_lang.specs.Bounds.{HasBounds};
ghost use Rattle.script_lang.specs.Lines.{line_limit, line_of};
ghost use Rattle.script_lang.specs.Texts.{numbered};
ghost use Rattle.script_lang.specs.Written.{IsAddressed, IsItem, IsRequest, bytes_word, flags_text, item_text, item_words, mode_text, pick_text, request_words};

use crate::items::{Item, Pick};
use crate::texts::{push_device, push_digest, push_kind, push_numbered, push_path};
use mat_digest::Digest;
use mat_model::{CleanMode, Device, Request};
use mat_path::{Memory, Path};
use mat_tree::{Sum, Tree};
use std::alloc::Global;
use tree_words::{push_text, write_words};

// Puts the word of some bytes behind.
fn push_bytes(alloc: Global, out: &mut Vec<u8>, bytes: &[u8]) -> Result<(), Memory>
    ensures ok { OnOk result (out.new.items ≡ out.old.items ++ bytes_word bytes.now) }
    ensures bytes { IsBytes bytes.now }
{
    match bytes {
        [] => push_text(out, b"-"),
        [_, ..] => push_text(out, hex::encode(alloc, bytes)?.as_bytes()),
    }
}

// Puts the word of a clean's mode behind.
fn push_mode(out: &mut Vec<u8>, mode: CleanMode) -> Result<(), Memory>
    ensures ok { OnOk result (out.new.items ≡ out.old.items ++ mode_text mode) }
{
    match mode {
        CleanMode::Real => push_text(out, b"real"),
        CleanMode::Dry => push_text(out, b"dry"),
        CleanMode::All => push_text(out, b"all"),
    }
}

// Puts the word of a pick behind.
fn push_pick(out: &mut Vec<u8>, pick: Pick) -> Result<(), Memory>
    ensures ok { OnOk result (out.new.items ≡ out.old.items ++ pick_text pick) }
{
    match pick {
        Pick::Nothing => push_text(out, b"none"),
        Pick::Whole => push_text(out, b"whole"),
        Pick::Torn => push_text(out, b"torn"),
    }
}

// Puts a word, a command's number and a path behind.
fn push_addressed(out: &mut Vec<u8>, word: &[u8], command: u32, path: &Path) -> Result<(), Memory>
    ensures ok { OnOk result (out.new.items ≡ out.old.items ++ (numbered word.now command ++ 32 ∷ joined path.now)) }
    ensures valid { OnOk result (IsAddressed command path.now) }
{
    push_numbered(out, word, command as u64)?;
    push_text(out, b" ")?;
    push_path(out, path)
}

// Puts the line of a write behind.
fn push_write(
    alloc: Global,
    out: &mut Vec<u8>,
    command: u32,
    path: &Path,
    bytes: &[u8],
) -> Result<(), Memory>
    ensures ok { OnOk result (out.new.items ≡ out.old.items ++ text_of (request_words (the_request.Write command path.now bytes.now))) }
    ensures valid { OnOk result (IsRequest (the_request.Write command path.now bytes.now)) }
{
    push_addressed(out, b"write ", command, path)?;
    push_text(out, b" ")?;
    push_bytes(alloc, out, bytes)
}

// Puts the line of a declare behind.
fn push_declare(
    alloc: Global,
    out: &mut Vec<u8>,
    command: u32,
    path: &Path,
    tree: &Tree,
) -> Result<(), Memory>
    ensures ok { OnOk result (out.new.items ≡ out.old.items ++ text_of (request_words (the_request.Declare command path.now tree.now))) }
    ensures valid { OnOk result (IsRequest (the_request.Declare command path.now tree.now)) }
{
    push_addressed(out, b"declare ", command, path)?;
    push_text(out, b" ")?;
    push_text(out, write_words(alloc, tree)?.as_slice())
}

// Puts the line of a copy behind.
fn push_copy(out: &mut Vec<u8>, command: u32, path: &Path, source: &Path) -> Result<(), Memory>
    ensures ok { OnOk result (out.new.items ≡ out.old.items ++ text_of (request_words (the_request.Copy command path.now source.now))) }
    ensures valid { OnOk result (IsRequest (the_request.Copy command path.now source.now)) }
{
    push_addressed(out, b"copy ", command, path)?;
    push_text(out, b" ")?;
    push_path(out, source)
}

// Puts the line of a match behind.
fn push_match(out: &mut Vec<u8>, command: u32, path: &Path, sum: &Sum) -> Result<(), Memory>
    ensures ok { OnOk result (out.new.items ≡ out.old.items ++ text_of (request_words (the_request.Matches command path.now sum.now))) }
    ensures valid { OnOk result (IsRequest (the_request.Matches command path.now sum.now)) }
{
    push_addressed(out, b"match ", command, path)?;
    push_text(out, b" ")?;
    push_kind(out, sum.kind)?;
    push_text(out, b" ")?;
    push_digest(out, &sum.digest)
}

// Puts the word of the flags of a command behind, with a space before it, where a flag is set.
fn push_flags(out: &mut Vec<u8>, soft: bool, refuse: bool) -> Result<(), Memory>
    ensures ok { OnOk result (out.new.items ≡ out.old.items ++ flags_text soft refuse) }
{
    match (soft, refuse) {
        (false, false) => Ok(()),
        (true, false) => push_text(out, b" p"),
        (false, true) => push_text(out, b" r"),
        (true, true) => push_text(out, b" pr"),
    }
}

// Puts the line of an enter behind.
fn push_enter(
    out: &mut Vec<u8>,
    command: u32,
    state: u64,
    soft: bool,
    refuse: bool,
) -> Result<(), Memory>
    ensures ok { OnOk result (out.new.items ≡ out.old.items ++ text_of (request_words (the_request.Enter command state soft refuse))) }
    ensures valid { IsRequest (the_request.Enter command state soft refuse) }
{
    push_numbered(out, b"enter ", command as u64)?;
    push_numbered(out, b" ", state)?;
    push_flags(out, soft, refuse)
}

// Puts the line of a clean behind.
fn push_clean_line(out: &mut Vec<u8>, cutoff: u64, mode: CleanMode) -> Result<(), Memory>
    ensures ok { OnOk result (out.new.items ≡ out.old.items ++ text_of (request_words (the_request.Clean cutoff mode))) }
    ensures valid { IsRequest (the_request.Clean cutoff mode) }
{
    push_numbered(out, b"clean ", cutoff)?;
    push_text(out, b" ")?;
    push_mode(out, mode)
}

// Puts the line of a request behind.
fn push_request(alloc: Global, out: &mut Vec<u8>, request: &Request) -> Result<(), Memory>
    ensures ok { OnOk result (out.new.items ≡ out.old.items ++ text_of (request_words request.now)) }
    ensures valid { OnOk result (IsRequest request.now) }
{
    match request {
        Request::Enter {
            command,
            state,
            soft,
            refuse,
        } => push_enter(out, *command, *state, *soft, *refuse),
        Request::Leave { command } => push_numbered(out, b"leave ", *command as u64),
        Request::Write {
            command,
            path,
            bytes,
        } => push_write(alloc, out, *command, path, bytes.as_slice()),
        Request::Declare {
            command,
            path,
            tree,
        } => push_declare(alloc, out, *command, path, tree),
        Request::Copy {
            command,
            path,
            source,
        } => push_copy(out, *command, path, source),
        Request::Matches { command, path, sum } => push_match(out, *command, path, sum),
        Request::Has { command, path } => push_addressed(out, b"has ", *command, path),
        Request::Ensure { command, path } => push_addressed(out, b"ensure ", *command, path),
        Request::Invalidate { command, path } => {
            push_addressed(out, b"invalidate ", *command, path)
        }
        Request::Clean { cutoff, mode } => push_clean_line(out, *cutoff, *mode),
        Request::Flush => push_text(out, b"flush"),
    }
}

// Puts the line of a blob behind.
fn push_blob(alloc: Global, out: &mut Vec<u8>, bytes: &[u8]) -> Result<(), Memory>
    ensures ok { OnOk result (out.new.items ≡ out.old.items ++ item_text (the_item.Blob bytes.now)) }
    ensures valid { IsItem (the_item.Blob bytes.now) }
{
    push_text(out, b"blob ")?;
    push_bytes(alloc, out, bytes)
}

// Puts the line of a lie behind.
fn push_lie(alloc: Global, out: &mut Vec<u8>, digest: &Digest, bytes: &[u8]) -> Result<(), Memory>
    ensures ok { OnOk result (out.new.items ≡ out.old.items ++ item_text (the_item.Lie digest.now bytes.now)) }
    ensures valid { OnOk result (IsItem (the_item.Lie digest.now bytes.now)) }
{
    push_text(out, b"lie ")?;
    push_digest(out, digest)?;
    push_text(out, b" ")?;
    push_bytes(alloc, out, bytes)
}

// Puts the line of a show behind.
fn push_show(out: &mut Vec<u8>, path: &Path) -> Result<(), Memory>
    ensures ok { OnOk result (out.new.items ≡ out.old.items ++ item_text (the_item.Show path.now)) }
    ensures valid { OnOk result (IsItem (the_item.Show path.now)) }
{
    push_text(out, b"show ")?;
    push_path(out, path)
}

// Puts the line of a fail behind.
fn push_fail(out: &mut Vec<u8>, device: Device, k: u64) -> Result<(), Memory>
    ensures ok { OnOk result (out.new.items ≡ out.old.items ++ item_text (the_item.Fail device k)) }
    ensures valid { IsItem (the_item.Fail device k) }
{
    push_text(out, b"fail ")?;
    push_device(out, device)?;
    push_numbered(out, b" ", k)
}

// Puts the line of a stop behind.
fn push_stop(out: &mut Vec<u8>, k: u64, pick: Pick) -> Result<(), Memory>
    ensures ok { OnOk result (out.new.items ≡ out.old.items ++ item_text (the_item.Stop k pick)) }
    ensures valid { IsItem (the_item.Stop k pick) }
{
    push_numbered(out, b"stop ", k)?;
    push_text(out, b" ")?;
    push_pick(out, pick)
}

// Puts the line of an item behind.
fn push_item(alloc: Global, out: &mut Vec<u8>, item: &Item) -> Result<(), Memory>
    ensures ok { OnOk result (out.new.items ≡ out.old.items ++ item_text item.now) }
    ensures valid { OnOk result (IsItem item.now) }
{
    match item {
        Item::Request(request) => push_request(alloc, out, request),
        Item::Blob(bytes) => push_blob(alloc, out, bytes.as_slice()),
        Item::Lie { digest, bytes } => push_lie(alloc, out, digest, bytes.as_slice()),
        Item::At(moment) => push_numbered(out, b"at ", *moment),
        Item::Step(worker) => push_numbered(out, b"step ", *worker as u64),
        Item::Drain => push_text(out, b"drain"),
        Item::Show(path) => push_show(out, path),
        Item::Asks => push_text(out, b"asks"),
        Item::Fail { device, k } => push_fail(out, *device, *k),
        Item::Stop { k, pick } => push_stop(out, *k, *pick),
        Item::Restart => push_text(out, b"restart"),
    }
}

/// The line of an item, without a newline. It is read as this item again, where it is no longer than a line may be and the
/// item is within the bounds of lines.
pub fn write_item(alloc: Global, item: &Item) -> Result<Vec<u8>, Memory>
    ensures ok { IfOk result (λ text. text.items ≡ item_text item.now) }
    ensures back { IfOk result (λ text. (workers : ℕ) → HasBounds workers item.now → length text.items ≤ line_limit
        → line_of workers text.items ≡ the_line.Item item.now) }
{
    let mut out = Vec::new(alloc);
    push_item(alloc, &mut out, item)?;
    Ok(out)
}
