// The text of what is told of an item, put behind the bytes of a `Vec`. After want of memory these still stand in front, and a
// part of the text may stand behind them.
ghost use Rattle.std.specs.Prelude.{◌≡◌, ◌++◌, codes, decimal, length, true, IfOk, OnErr, OnOk};
ghost use Rattle.std.specs.Io.{StartsWith};
ghost use Rattle.std.specs.List.{flat_map};
ghost use Rattle.mat_digest.specs.Digests.{IsDigest, digest_text};
ghost use Rattle.mat_path.specs.Names.{is_path, joined};
ghost use Rattle.script_lang.specs.Texts.{all_bytes, answer_line, answer_text, clean_text, device_text, gone_text, kind_text, limit_text, node_line, not_yet_text, note_text, numbered, ready_text, reply_text, said_text, scan_text, shown_text, stray_text, task_text, told_text, unread_text};

use crate::told::{Answered, Said, ScanNote, Told};
use mat_digest::Digest;
use mat_model::{Answer, Device, FaultNote, Gone, Limit, Reply, Task};
use mat_path::{Memory, Path};
use mat_tree::{Flat, Kind, Sum};
use std::alloc::Global;
use tree_words::{push_node, push_text};

// Puts a number behind, in decimal.
pub(crate) fn push_number(out: &mut Vec<u8>, number: u64) -> Result<(), Memory>
    ensures ok { OnOk result (out.new.items ≡ out.old.items ++ decimal number) }
    ensures err { OnErr result (StartsWith out.new.items out.old.items) }
{
    let mut buffer = itoa::Buffer::new();
    push_text(out, buffer.format(number).as_bytes())
}

/// Puts a word and a number behind. After want of memory what was there still stands in front, here and in each call below.
pub fn push_numbered(out: &mut Vec<u8>, word: &[u8], number: u64) -> Result<(), Memory>
    ensures ok { OnOk result (out.new.items ≡ out.old.items ++ numbered word.now number) }
    ensures err { OnErr result (StartsWith out.new.items out.old.items) }
{
    push_text(out, word)?;
    push_number(out, number)
}

// Puts a digest behind. The law of its text says that it is one.
pub(crate) fn push_digest(out: &mut Vec<u8>, digest: &Digest) -> Result<(), Memory>
    ensures ok { OnOk result (out.new.items ≡ out.old.items ++ digest_text digest.now) }
    ensures err { OnErr result (StartsWith out.new.items out.old.items) }
    ensures digest { IsDigest digest.now }
{
    digest.text_is_read_back();
    push_text(out, digest.write_text().bytes())
}

// Puts a path behind.
pub(crate) fn push_path(out: &mut Vec<u8>, path: &Path) -> Result<(), Memory>
    ensures ok { OnOk result (out.new.items ≡ out.old.items ++ joined path.now) }
    ensures err { OnErr result (StartsWith out.new.items out.old.items) }
    ensures path { OnOk result (is_path path.now ≡ true) }
{
    push_text(out, path.write()?.as_slice())
}

// Puts the letter of a kind behind.
pub(crate) fn push_kind(out: &mut Vec<u8>, kind: Kind) -> Result<(), Memory>
    ensures ok { OnOk result (out.new.items ≡ out.old.items ++ kind_text kind) }
    ensures err { OnErr result (StartsWith out.new.items out.old.items) }
{
    match kind {
        Kind::File => push_text(out, b"f"),
        Kind::Exec => push_text(out, b"x"),
        Kind::Dir => push_text(out, b"d"),
    }
}

// Puts a ready row behind: its stamp, its kind and its digest.
fn push_ready(out: &mut Vec<u8>, stamp: u64, sum: &Sum) -> Result<(), Memory>
    ensures ok { OnOk result (out.new.items ≡ out.old.items ++ ready_text stamp sum.now) }
    ensures err { OnErr result (StartsWith out.new.items out.old.items) }
{
    push_numbered(out, b"ready ", stamp)?;
    push_text(out, b" ")?;
    push_kind(out, sum.kind)?;
    push_text(out, b" ")?;
    push_digest(out, &sum.digest)
}

// Puts a note of a failed call behind, with a word before it.
fn push_note(out: &mut Vec<u8>, word: &[u8], note: &FaultNote) -> Result<(), Memory>
    ensures ok { OnOk result (out.new.items ≡ out.old.items ++ note_text word.now note.now) }
    ensures err { OnErr result (StartsWith out.new.items out.old.items) }
{
    push_text(out, word)?;
    push_device(out, note.device)?;
    push_numbered(out, b" ", note.before)?;
    push_numbered(out, b" ", note.after)
}

// Puts the name of a device behind.
pub(crate) fn push_device(out: &mut Vec<u8>, device: Device) -> Result<(), Memory>
    ensures ok { OnOk result (out.new.items ≡ out.old.items ++ device_text device) }
    ensures err { OnErr result (StartsWith out.new.items out.old.items) }
{
    match device {
        Device::Disk => push_text(out, b"disk"),
        Device::Store => push_text(out, b"store"),
        Device::Keeper => push_text(out, b"keeper"),
    }
}

// Puts the name of a limit behind.
fn push_limit(out: &mut Vec<u8>, limit: Limit) -> Result<(), Memory>
    ensures ok { OnOk result (out.new.items ≡ out.old.items ++ limit_text limit) }
    ensures err { OnErr result (StartsWith out.new.items out.old.items) }
{
    match limit {
        Limit::History => push_text(out, b"history"),
        Limit::Nodes => push_text(out, b"nodes"),
        Limit::Waiting => push_text(out, b"waiting"),
        Limit::Rows => push_text(out, b"rows"),
        Limit::Held => push_text(out, b"held"),
        Limit::Asked => push_text(out, b"asked"),
        Limit::Holds => push_text(out, b"holds"),
    }
}

// How many bytes some removed rows have, or 2^64 - 1 where that is less.
fn all_bytes(rows: &[Gone]) -> u64
    ensures { result ≡ all_bytes rows.now }
{
    let mut sum = 0u64;
    for row in rows {
        sum = sum.saturating_add(row.bytes);
    }
    sum
}

// Puts the line of a removed row behind, with a newline before it.
fn push_gone(out: &mut Vec<u8>, gone: &Gone) -> Result<(), Memory>
    ensures ok { OnOk result (out.new.items ≡ out.old.items ++ gone_text gone.now) }
    ensures err { OnErr result (StartsWith out.new.items out.old.items) }
{
    push_text(out, b"\nrow ")?;
    push_path(out, &gone.path)?;
    push_numbered(out, b" ", gone.bytes)
}

// Puts the line of a stray behind, with a newline before it.
fn push_stray(out: &mut Vec<u8>, path: &Path) -> Result<(), Memory>
    ensures ok { OnOk result (out.new.items ≡ out.old.items ++ stray_text path.now) }
    ensures err { OnErr result (StartsWith out.new.items out.old.items) }
{
    push_text(out, b"\nstray ")?;
    push_path(out, path)
}

// Puts the lines of removed rows behind.
fn push_all_gone(out: &mut Vec<u8>, rows: &[Gone]) -> Result<(), Memory>
    ensures ok { OnOk result (out.new.items ≡ out.old.items ++ flat_map gone_text rows.now) }
    ensures err { OnErr result (StartsWith out.new.items out.old.items) }
{
    for row in rows {
        push_gone(out, row)?;
    }
    Ok(())
}

// Puts the lines of strays behind.
fn push_strays(out: &mut Vec<u8>, paths: &[Path]) -> Result<(), Memory>
    ensures ok { OnOk result (out.new.items ≡ out.old.items ++ flat_map stray_text paths.now) }
    ensures err { OnErr result (StartsWith out.new.items out.old.items) }
{
    for path in paths {
        push_stray(out, path)?;
    }
    Ok(())
}

// Puts a word behind, and then how many rows there are, their bytes, and how many strays.
fn push_counts(out: &mut Vec<u8>, word: &[u8], rows: &[Gone], strays: &[Path]) -> Result<(), Memory>
    ensures ok { OnOk result (out.new.items ≡ out.old.items
        ++ numbered (numbered (numbered word.now (length rows.now) ++ codes " ") (all_bytes rows.now) ++ codes " ") (length strays.now)) }
    ensures err { OnErr result (StartsWith out.new.items out.old.items) }
{
    push_numbered(out, word, rows.len() as u64)?;
    push_numbered(out, b" ", all_bytes(rows))?;
    push_numbered(out, b" ", strays.len() as u64)
}

// Puts what a clean removed behind, or would remove.
fn push_clean(out: &mut Vec<u8>, dry: bool, rows: &[Gone], strays: &[Path]) -> Result<(), Memory>
    ensures ok { OnOk result (out.new.items ≡ out.old.items ++ clean_text dry rows.now strays.now) }
    ensures err { OnErr result (StartsWith out.new.items out.old.items) }
{
    let word = if dry {
        b"dry ".as_slice()
    } else {
        b"clean ".as_slice()
    };
    push_counts(out, word, rows, strays)?;
    push_all_gone(out, rows)?;
    push_strays(out, strays)
}

/// Puts a reply behind, without a newline at its end.
pub fn push_reply(out: &mut Vec<u8>, reply: &Reply) -> Result<(), Memory>
    ensures ok { OnOk result (out.new.items ≡ out.old.items ++ reply_text reply.now) }
    ensures err { OnErr result (StartsWith out.new.items out.old.items) }
{
    match reply {
        Reply::Entered => push_text(out, b"entered"),
        Reply::Took(count) => push_numbered(out, b"took ", *count),
        Reply::Left(count) => push_numbered(out, b"left ", *count),
        Reply::Declared(stamp) => push_numbered(out, b"declared ", *stamp),
        Reply::Kept(stamp) => push_numbered(out, b"kept ", *stamp),
        Reply::Same(stamp) => push_numbered(out, b"same ", *stamp),
        Reply::Other => push_text(out, b"other"),
        Reply::Nothing => push_text(out, b"none"),
        Reply::Stands(stamp) => push_numbered(out, b"stands ", *stamp),
        Reply::NotMade(stamp) => push_numbered(out, b"not made ", *stamp),
        Reply::Ready { stamp, sum } => push_ready(out, *stamp, sum),
        Reply::Asked(ticket) => push_numbered(out, b"open ", *ticket),
        Reply::Invalid(count) => push_numbered(out, b"invalid ", *count),
        Reply::Cleaned { dry, rows, strays } => {
            push_clean(out, *dry, rows.as_slice(), strays.as_slice())
        }
        Reply::Flushed(count) => push_numbered(out, b"flushed ", *count),
        Reply::NotLive => push_text(out, b"notlive"),
        Reply::Known => push_text(out, b"known"),
        Reply::Differs(state) => push_numbered(out, b"differs ", *state),
        Reply::Queued(place) => push_numbered(out, b"queued ", *place),
        Reply::Unknown => push_text(out, b"unknown"),
        Reply::Busy(count) => push_numbered(out, b"busy ", *count),
        Reply::NoSource => push_text(out, b"nosource"),
        Reply::TooLong => push_text(out, b"toolong"),
        Reply::Undeclared => push_text(out, b"undeclared"),
        Reply::Fault(note) => push_note(out, b"fault ", note),
        Reply::Full(limit) => {
            push_text(out, b"full ")?;
            push_limit(out, *limit)
        }
        Reply::NoMemory => push_text(out, b"nomem"),
        Reply::Started => push_text(out, b"started"),
        Reply::Refused(note) => push_note(out, b"refused ", note),
        Reply::Fresh(_) => push_text(out, b"done fresh"),
        Reply::Stale => push_text(out, b"done stale"),
    }
}

// Puts two digests behind, with a space between them.
fn push_digests(out: &mut Vec<u8>, first: &Digest, second: &Digest) -> Result<(), Memory>
    ensures ok { OnOk result (out.new.items ≡ out.old.items ++ digest_text first.now ++ codes " " ++ digest_text second.now) }
    ensures err { OnErr result (StartsWith out.new.items out.old.items) }
{
    push_digest(out, first)?;
    push_text(out, b" ")?;
    push_digest(out, second)
}

/// Puts an answer behind.
pub fn push_answer(out: &mut Vec<u8>, answer: &Answer) -> Result<(), Memory>
    ensures ok { OnOk result (out.new.items ≡ out.old.items ++ answer_text answer.now) }
    ensures err { OnErr result (StartsWith out.new.items out.old.items) }
{
    match answer {
        Answer::Ready { stamp, sum } => push_ready(out, *stamp, sum),
        Answer::Undeclared => push_text(out, b"undeclared"),
        Answer::Missing(digest) => {
            push_text(out, b"missing ")?;
            push_digest(out, digest)
        }
        Answer::Corrupt { wanted, found } => {
            push_text(out, b"corrupt ")?;
            push_digests(out, wanted, found)
        }
        Answer::Fault(note) => push_note(out, b"fault ", note),
        Answer::NoMemory => push_text(out, b"nomem"),
        Answer::Preempted(command) => push_numbered(out, b"preempted ", *command as u64),
    }
}

// Puts a job that began behind.
fn push_task(out: &mut Vec<u8>, task: &Task) -> Result<(), Memory>
    ensures ok { OnOk result (out.new.items ≡ out.old.items ++ task_text task.now) }
    ensures err { OnErr result (StartsWith out.new.items out.old.items) }
{
    match task {
        Task::Make { path, .. } => {
            push_text(out, b"began make ")?;
            push_path(out, path)
        }
        Task::Wipe { path } => {
            push_text(out, b"began wipe ")?;
            push_path(out, path)
        }
    }
}

// Puts the line of a node behind, with a newline before it.
fn push_node_line(out: &mut Vec<u8>, node: &Flat) -> Result<(), Memory>
    ensures ok { OnOk result (out.new.items ≡ out.old.items ++ node_line node.now) }
    ensures err { OnErr result (StartsWith out.new.items out.old.items) }
{
    push_text(out, b"\n")?;
    push_node(out, node)
}

// Puts the lines of some nodes behind.
fn push_nodes(out: &mut Vec<u8>, nodes: &[Flat]) -> Result<(), Memory>
    ensures ok { OnOk result (out.new.items ≡ out.old.items ++ flat_map node_line nodes.now) }
    ensures err { OnErr result (StartsWith out.new.items out.old.items) }
{
    for node in nodes {
        push_node_line(out, node)?;
    }
    Ok(())
}

// Puts the nodes at and below a path behind.
fn push_shown(out: &mut Vec<u8>, nodes: &[Flat]) -> Result<(), Memory>
    ensures ok { OnOk result (out.new.items ≡ out.old.items ++ shown_text nodes.now) }
    ensures err { OnErr result (StartsWith out.new.items out.old.items) }
{
    push_numbered(out, b"show ", nodes.len() as u64)?;
    push_nodes(out, nodes)
}

// Puts behind why a daemon could not be opened.
fn push_scan(out: &mut Vec<u8>, note: &ScanNote) -> Result<(), Memory>
    ensures ok { OnOk result (out.new.items ≡ out.old.items ++ scan_text note.now) }
    ensures err { OnErr result (StartsWith out.new.items out.old.items) }
{
    match note {
        ScanNote::Fault(fault) => push_note(out, b"fault ", fault),
        ScanNote::NoMemory => push_text(out, b"nomem"),
    }
}

// Puts a digest behind, with a word before it.
fn push_stored(out: &mut Vec<u8>, digest: &Digest) -> Result<(), Memory>
    ensures ok { OnOk result (out.new.items ≡ out.old.items ++ (codes "stored " ++ digest_text digest.now)) }
    ensures err { OnErr result (StartsWith out.new.items out.old.items) }
{
    push_text(out, b"stored ")?;
    push_digest(out, digest)
}

// Puts behind what is said of an item.
fn push_said(out: &mut Vec<u8>, said: &Said) -> Result<(), Memory>
    ensures ok { OnOk result (out.new.items ≡ out.old.items ++ said_text said.now) }
    ensures err { OnErr result (StartsWith out.new.items out.old.items) }
{
    match said {
        Said::Reply(reply) => push_reply(out, reply),
        Said::Stored(digest) => push_stored(out, digest),
        Said::At(moment) => push_numbered(out, b"at ", *moment),
        Said::Idle => push_text(out, b"idle"),
        Said::Began(task) => push_task(out, task),
        Said::Going => push_text(out, b"going"),
        Said::Ended => push_text(out, b"ended"),
        Said::Drained => push_text(out, b"drained"),
        Said::Shown(nodes) => push_shown(out, nodes.as_slice()),
        Said::Busy => push_text(out, b"busy"),
        Said::Asks(count) => push_numbered(out, b"asks ", *count),
        Said::Armed => push_text(out, b"armed"),
        Said::Restarted(count) => push_numbered(out, b"restarted ", *count),
        Said::Stopped => push_text(out, b"stopped"),
        Said::Shut(note) => push_scan(out, note),
    }
}

// Puts the line of an answered ticket behind, with a newline before it.
fn push_answer_line(out: &mut Vec<u8>, answered: &Answered) -> Result<(), Memory>
    ensures ok { OnOk result (out.new.items ≡ out.old.items ++ answer_line answered.now) }
    ensures err { OnErr result (StartsWith out.new.items out.old.items) }
{
    push_numbered(out, b"\nanswer ", answered.ticket)?;
    push_text(out, b" ")?;
    push_answer(out, &answered.answer)
}

// Puts the lines of answered tickets behind.
fn push_answer_lines(out: &mut Vec<u8>, answers: &[Answered]) -> Result<(), Memory>
    ensures ok { OnOk result (out.new.items ≡ out.old.items ++ flat_map answer_line answers.now) }
    ensures err { OnErr result (StartsWith out.new.items out.old.items) }
{
    for answered in answers {
        push_answer_line(out, answered)?;
    }
    Ok(())
}

/// Puts behind what is told of an item, as `write_told` writes it.
pub fn push_told(out: &mut Vec<u8>, told: &Told) -> Result<(), Memory>
    ensures ok { OnOk result (out.new.items ≡ out.old.items ++ told_text told.now) }
    ensures err { OnErr result (StartsWith out.new.items out.old.items) }
{
    push_said(out, &told.said)?;
    push_answer_lines(out, told.answers.as_slice())?;
    push_text(out, b"\n")
}

/// The text of what is told of an item: the lines of what is said, and then a line for each answered ticket. Each ends with a
/// newline.
pub fn write_told(alloc: Global, told: &Told) -> Result<Vec<u8>, Memory>
    ensures ok { IfOk result (λ text. text.items ≡ told_text told.now) }
{
    let mut out = Vec::new(alloc);
    push_told(&mut out, told)?;
    Ok(out)
}

/// Puts behind what is told of a line that says nothing that a line may say.
pub fn push_unread(out: &mut Vec<u8>) -> Result<(), Memory>
    ensures ok { OnOk result (out.new.items ≡ out.old.items ++ unread_text) }
    ensures err { OnErr result (StartsWith out.new.items out.old.items) }
{
    push_text(out, b"unread\n")
}

/// Puts behind what is told of an item that isn't served yet.
pub fn push_not_yet(out: &mut Vec<u8>) -> Result<(), Memory>
    ensures ok { OnOk result (out.new.items ≡ out.old.items ++ not_yet_text) }
    ensures err { OnErr result (StartsWith out.new.items out.old.items) }
{
    push_text(out, b"notyet\n")
}
