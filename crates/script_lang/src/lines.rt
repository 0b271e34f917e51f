// Lines, and the items that are no requests.
ghost use Rattle.std.specs.Prelude.{◌≡◌, if◌then◌else◌, Some, None, IfOk};
ghost use Rattle.script_lang.specs.declared.items.Item.TheVariants as item;
ghost use Rattle.script_lang.specs.declared.verbs.Doing.TheVariants as doing;
ghost use Rattle.script_lang.specs.Items.{at_of, blob_of, fail_of, item_behind, item_of, lie_of, one_of, other_of, show_of, step_of, stop_of, two_of, with_one, with_two};
ghost use Rattle.script_lang.specs.Written.{IsTextOf};
ghost use Rattle.script_lang.specs.Verbs.{asking_of, doing_of};
ghost use Rattle.script_lang.specs.Bounds.{HasLineBounds};
ghost use Rattle.script_lang.specs.Lines.{is_skipped, line_of, IsRead};
ghost use Rattle.tree_words.specs.Rests.{none_of, words_of};

use crate::items::{Item, Line, Pick};
use crate::requests::read_request;
use crate::spelled::{
    bytes_spelled, count_spelled, device_spelled, digest_spelled, moment_spelled, path_spelled,
    pick_spelled, place_spelled, worker_spelled,
};
use crate::verbs::{Doing, asking_spelled, doing_spelled};
use crate::words::{one, two};
use mat_digest::Digest;
use mat_model::{Device, Request};
use mat_path::{Items, Memory, Path};
use std::alloc::Global;
use tree_words::Words;

/// The longest line that is read.
const LINE_LIMIT: usize = 1_048_576;

/// What a line says, without its newline, where there are so many workers. An item is within the bounds of lines, and the line
/// is the one that `write_item` writes of it.
pub fn read_line(alloc: Global, line: &[u8], workers: u32) -> Line
    ensures exact { IsRead result (line_of workers line.now) }
    ensures bounds { HasLineBounds workers result }
    ensures text { IsTextOf result line.now }
{
    if line.len() > LINE_LIMIT {
        return Line::Unread;
    }
    if is_skipped(line) {
        return Line::Skip;
    }
    if line == b"end".as_slice() {
        return Line::End;
    }
    match read_item(alloc, Words::of(line), workers) {
        Ok(Some(item)) => Line::Item(item),
        Ok(None) => Line::Unread,
        Err(Memory) => Line::NoMemory,
    }
}

// Whether a line is empty or a note.
fn is_skipped(line: &[u8]) -> bool
    ensures { result ≡ is_skipped line.now }
{
    match line.first() {
        Some(byte) => *byte == b'#',
        None => true,
    }
}

// The item that words say.
fn read_item(alloc: Global, words: Words<'_>, workers: u32) -> Result<Option<Item>, Memory>
    ensures ok { IfOk result (λ item. item ≡ item_of workers words.entry) }
{
    let mut words = words;
    match words.next() {
        Some(verb) => read_behind(alloc, verb, words, workers),
        None => Ok(None),
    }
}

// The item of a first word, and of those behind it.
fn read_behind(
    alloc: Global,
    verb: &[u8],
    words: Words<'_>,
    workers: u32,
) -> Result<Option<Item>, Memory>
    ensures ok { IfOk result (λ item. item ≡ item_behind workers words.entry (asking_of verb.now) (doing_of verb.now)) }
{
    if let Some(asking) = asking_spelled(verb) {
        let request = read_request(alloc, asking, words)?;
        return Ok(a_request(request));
    }
    match doing_spelled(verb) {
        Some(doing) => read_other(alloc, doing, words, workers),
        None => Ok(None),
    }
}

// A request as an item, if it is there.
fn a_request(request: Option<Request>) -> Option<Item>
    ensures { result ≡ with_one item.Request request }
{
    let request = request?;
    Some(Item::Request(request))
}

// The item that is no request and that the words behind the first say.
fn read_other(
    alloc: Global,
    doing: Doing,
    words: Words<'_>,
    workers: u32,
) -> Result<Option<Item>, Memory>
    ensures ok { IfOk result (λ item. item ≡ other_of workers doing words.entry) }
{
    match doing {
        Doing::Blob => read_blob(alloc, words),
        Doing::Lie => read_lie(alloc, words),
        Doing::At => Ok(read_at(words)),
        Doing::Step => Ok(read_step(words, workers)),
        Doing::Drain => Ok(alone(words, Item::Drain)),
        Doing::Show => read_show(alloc, words),
        Doing::Asks => Ok(alone(words, Item::Asks)),
        Doing::Fail => Ok(read_fail(words)),
        Doing::Stop => Ok(read_stop(words)),
        Doing::Restart => Ok(alone(words, Item::Restart)),
    }
}

// An item that has no word behind the first, if there is none.
fn alone(words: Words<'_>, item: Item) -> Option<Item>
    ensures { result ≡ (if none_of words.entry then Some item else None) }
{
    if words.is_empty() { Some(item) } else { None }
}

// The item of the words behind `blob`.
fn read_blob(alloc: Global, words: Words<'_>) -> Result<Option<Item>, Memory>
    ensures ok { IfOk result (λ item. item ≡ blob_of (one_of words.entry)) }
{
    match one(words) {
        Some(bytes) => Ok(a_blob(bytes_spelled(alloc, bytes)?)),
        None => Ok(None),
    }
}

// A blob, if its bytes are there.
fn a_blob(bytes: Option<Items<u8>>) -> Option<Item>
    ensures { result ≡ with_one item.Blob bytes }
{
    let bytes = bytes?;
    Some(Item::Blob(bytes))
}

// The item of the words behind `lie`.
fn read_lie(alloc: Global, words: Words<'_>) -> Result<Option<Item>, Memory>
    ensures ok { IfOk result (λ item. item ≡ lie_of (two_of words.entry)) }
{
    match two(words) {
        Some((digest, bytes)) => {
            let bytes = bytes_spelled(alloc, bytes)?;
            Ok(a_lie(digest_spelled(digest), bytes))
        }
        None => Ok(None),
    }
}

// A lie, if its parts are there.
fn a_lie(digest: Option<Digest>, bytes: Option<Items<u8>>) -> Option<Item>
    ensures { result ≡ with_two item.Lie digest bytes }
{
    let digest = digest?;
    let bytes = bytes?;
    Some(Item::Lie { digest, bytes })
}

// The item of the words behind `at`.
fn read_at(words: Words<'_>) -> Option<Item>
    ensures { result ≡ at_of (one_of words.entry) }
{
    match one(words) {
        Some(moment) => an_at(moment_spelled(moment)),
        None => None,
    }
}

// A moment as an item, if it is there.
fn an_at(moment: Option<u64>) -> Option<Item>
    ensures { result ≡ with_one item.At moment }
{
    let moment = moment?;
    Some(Item::At(moment))
}

// The item of the words behind `step`.
fn read_step(words: Words<'_>, workers: u32) -> Option<Item>
    ensures { result ≡ step_of workers (one_of words.entry) }
{
    match one(words) {
        Some(worker) => a_step(worker_spelled(workers, worker)),
        None => None,
    }
}

// A step, if its worker is there.
fn a_step(worker: Option<u32>) -> Option<Item>
    ensures { result ≡ with_one item.Step worker }
{
    let worker = worker?;
    Some(Item::Step(worker))
}

// The item of the words behind `show`.
fn read_show(alloc: Global, words: Words<'_>) -> Result<Option<Item>, Memory>
    ensures ok { IfOk result (λ item. item ≡ show_of (one_of words.entry)) }
{
    match one(words) {
        Some(path) => Ok(a_show(path_spelled(alloc, path)?)),
        None => Ok(None),
    }
}

// A show, if its path is there.
fn a_show(path: Option<Path>) -> Option<Item>
    ensures { result ≡ with_one item.Show path }
{
    let path = path?;
    Some(Item::Show(path))
}

// The item of the words behind `fail`.
fn read_fail(words: Words<'_>) -> Option<Item>
    ensures { result ≡ fail_of (two_of words.entry) }
{
    match two(words) {
        Some((device, k)) => a_fail(device_spelled(device), place_spelled(k)),
        None => None,
    }
}

// A fail, if its parts are there.
fn a_fail(device: Option<Device>, k: Option<u64>) -> Option<Item>
    ensures { result ≡ with_two item.Fail device k }
{
    let device = device?;
    let k = k?;
    Some(Item::Fail { device, k })
}

// The item of the words behind `stop`.
fn read_stop(words: Words<'_>) -> Option<Item>
    ensures { result ≡ stop_of (two_of words.entry) }
{
    match two(words) {
        Some((k, pick)) => a_stop(count_spelled(k), pick_spelled(pick)),
        None => None,
    }
}

// A stop, if its parts are there.
fn a_stop(k: Option<u64>, pick: Option<Pick>) -> Option<Item>
    ensures { result ≡ with_two item.Stop k pick }
{
    let k = k?;
    let pick = pick?;
    Some(Item::Stop { k, pick })
}
