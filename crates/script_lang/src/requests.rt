// The requests of commands, by the words behind the first of a line.
ghost use Rattle.mat_tree.specs.Trees.{is_placed};
ghost use Rattle.std.specs.Prelude.{◌≡◌, IfOk};
ghost use Rattle.std.specs.List.{list_all};
ghost use Rattle.mat_model.specs.declared.requests.Request.TheVariants as request;
ghost use Rattle.script_lang.specs.declared.verbs.Asking.TheVariants as asking;
ghost use Rattle.script_lang.specs.Items.{a_sum, an_enter, clean_of, copy_of, declare_of, enter_of, ensure_of, four_of, has_of, invalidate_of, leave_of, match_of, one_of, placed, request_of, three_of, two_and_more_of, two_of, two_or_three_of, with_one, with_three, with_two, write_of};

use crate::flags::Flags;
use crate::spelled::{
    bytes_spelled, command_spelled, count_spelled, digest_spelled, flags_spelled, kind_spelled,
    mode_spelled, moment_spelled, path_spelled, tree_spelled,
};
use crate::verbs::Asking;
use crate::words::{four, one, three, two, two_and_more, two_or_three};
use mat_digest::Digest;
use mat_model::{CleanMode, Request};
use mat_path::{Items, Memory, Path};
use mat_tree::{Flat, Kind, Sum, Tree};
use std::alloc::Global;
use tree_words::Words;

// The request that the words behind the first say.
pub(crate) fn read_request(
    alloc: Global,
    asking: Asking,
    words: Words<'_>,
) -> Result<Option<Request>, Memory>
    ensures ok { IfOk result (λ request. request ≡ request_of asking words.entry) }
{
    match asking {
        Asking::Enter => Ok(read_enter(words)),
        Asking::Leave => Ok(read_leave(words)),
        Asking::Write => read_write(alloc, words),
        Asking::Declare => read_declare(alloc, words),
        Asking::Copy => read_copy(alloc, words),
        Asking::Match => read_match(alloc, words),
        Asking::Has => read_has(alloc, words),
        Asking::Ensure => read_ensure(alloc, words),
        Asking::Invalidate => read_invalidate(alloc, words),
        Asking::Clean => Ok(read_clean(words)),
        Asking::Flush => Ok(read_flush(words)),
    }
}

// The request of the words behind `enter`.
fn read_enter(words: Words<'_>) -> Option<Request>
    ensures { result ≡ enter_of (two_or_three_of words.entry) }
{
    match two_or_three(words) {
        Some((command, state, flags)) => an_enter(
            command_spelled(command),
            count_spelled(state),
            flags_spelled(flags),
        ),
        None => None,
    }
}

// An enter, if its parts are there.
fn an_enter(command: Option<u32>, state: Option<u64>, flags: Option<Flags>) -> Option<Request>
    ensures { result ≡ with_three an_enter command state flags }
{
    let command = command?;
    let state = state?;
    let flags = flags?;
    Some(Request::Enter {
        command,
        state,
        soft: flags.soft,
        refuse: flags.refuse,
    })
}

// The request of the words behind `leave`.
fn read_leave(words: Words<'_>) -> Option<Request>
    ensures { result ≡ leave_of (one_of words.entry) }
{
    match one(words) {
        Some(command) => a_leave(command_spelled(command)),
        None => None,
    }
}

// A leave, if its part is there.
fn a_leave(command: Option<u32>) -> Option<Request>
    ensures { result ≡ with_one request.Leave command }
{
    let command = command?;
    Some(Request::Leave { command })
}

// The request of the words behind `write`.
fn read_write(alloc: Global, words: Words<'_>) -> Result<Option<Request>, Memory>
    ensures ok { IfOk result (λ request. request ≡ write_of (three_of words.entry)) }
{
    match three(words) {
        Some((command, path, bytes)) => {
            let path = path_spelled(alloc, path)?;
            let bytes = bytes_spelled(alloc, bytes)?;
            Ok(a_write(command_spelled(command), path, bytes))
        }
        None => Ok(None),
    }
}

// A write, if its parts are there.
fn a_write(command: Option<u32>, path: Option<Path>, bytes: Option<Items<u8>>) -> Option<Request>
    ensures { result ≡ with_three request.Write command path bytes }
{
    let command = command?;
    let path = path?;
    let bytes = bytes?;
    Some(Request::Write {
        command,
        path,
        bytes,
    })
}

// The request of the words behind `declare`.
fn read_declare(alloc: Global, words: Words<'_>) -> Result<Option<Request>, Memory>
    ensures ok { IfOk result (λ request. request ≡ declare_of (two_and_more_of words.entry)) }
{
    match two_and_more(words) {
        Some((command, path, tree)) => {
            let path = path_spelled(alloc, path)?;
            let tree = tree_spelled(alloc, tree)?;
            a_declare(command_spelled(command), path, tree)
        }
        None => Ok(None),
    }
}

// A declare, if its parts are there, and if each node of the tree stands at a path.
fn a_declare(
    command: Option<u32>,
    path: Option<Path>,
    tree: Option<Tree>,
) -> Result<Option<Request>, Memory>
    ensures ok { IfOk result (λ asked. asked ≡ with_three request.Declare command path (placed path tree)) }
{
    let Some(command) = command else {
        return Ok(None);
    };
    let Some(path) = path else {
        return Ok(None);
    };
    let Some(tree) = tree else {
        return Ok(None);
    };
    if !places_all(&path, &tree)? {
        return Ok(None);
    }
    Ok(Some(Request::Declare {
        command,
        path,
        tree,
    }))
}

// Whether each node of a tree at a path is at a path itself.
fn places_all(path: &Path, tree: &Tree) -> Result<bool, Memory>
    ensures ok { IfOk result (λ all. all ≡ list_all (is_placed path.now) tree.now) }
{
    let nodes = tree.flat()?;
    Ok(are_placed(path, nodes.as_slice()))
}

// Whether each of these nodes is at a path, below a path.
fn are_placed(path: &Path, nodes: &[Flat]) -> bool
    ensures { result ≡ list_all (is_placed path.now) nodes.now }
{
    nodes.iter().all(|node| is_placed(path, node))
}

// Whether a node of a tree at a path is at a path itself.
fn is_placed(path: &Path, node: &Flat) -> bool
    ensures { result ≡ is_placed path.now node.now }
{
    path.can_join(&node.rel)
}

// The request of the words behind `copy`.
fn read_copy(alloc: Global, words: Words<'_>) -> Result<Option<Request>, Memory>
    ensures ok { IfOk result (λ request. request ≡ copy_of (three_of words.entry)) }
{
    match three(words) {
        Some((command, path, source)) => {
            let path = path_spelled(alloc, path)?;
            let source = path_spelled(alloc, source)?;
            Ok(a_copy(command_spelled(command), path, source))
        }
        None => Ok(None),
    }
}

// A copy, if its parts are there.
fn a_copy(command: Option<u32>, path: Option<Path>, source: Option<Path>) -> Option<Request>
    ensures { result ≡ with_three request.Copy command path source }
{
    let command = command?;
    let path = path?;
    let source = source?;
    Some(Request::Copy {
        command,
        path,
        source,
    })
}

// The request of the words behind `match`.
fn read_match(alloc: Global, words: Words<'_>) -> Result<Option<Request>, Memory>
    ensures ok { IfOk result (λ request. request ≡ match_of (four_of words.entry)) }
{
    match four(words) {
        Some((command, path, kind, digest)) => {
            let path = path_spelled(alloc, path)?;
            let sum = a_sum(kind_spelled(kind), digest_spelled(digest));
            Ok(a_match(command_spelled(command), path, sum))
        }
        None => Ok(None),
    }
}

// A sum, if its parts are there.
fn a_sum(kind: Option<Kind>, digest: Option<Digest>) -> Option<Sum>
    ensures { result ≡ with_two a_sum kind digest }
{
    let kind = kind?;
    let digest = digest?;
    Some(Sum { kind, digest })
}

// A match, if its parts are there.
fn a_match(command: Option<u32>, path: Option<Path>, sum: Option<Sum>) -> Option<Request>
    ensures { result ≡ with_three request.Matches command path sum }
{
    let command = command?;
    let path = path?;
    let sum = sum?;
    Some(Request::Matches { command, path, sum })
}

// The request of the words behind `has`.
fn read_has(alloc: Global, words: Words<'_>) -> Result<Option<Request>, Memory>
    ensures ok { IfOk result (λ request. request ≡ has_of (two_of words.entry)) }
{
    match two(words) {
        Some((command, path)) => {
            let path = path_spelled(alloc, path)?;
            Ok(a_has(command_spelled(command), path))
        }
        None => Ok(None),
    }
}

// A has, if its parts are there.
fn a_has(command: Option<u32>, path: Option<Path>) -> Option<Request>
    ensures { result ≡ with_two request.Has command path }
{
    let command = command?;
    let path = path?;
    Some(Request::Has { command, path })
}

// The request of the words behind `ensure`.
fn read_ensure(alloc: Global, words: Words<'_>) -> Result<Option<Request>, Memory>
    ensures ok { IfOk result (λ request. request ≡ ensure_of (two_of words.entry)) }
{
    match two(words) {
        Some((command, path)) => {
            let path = path_spelled(alloc, path)?;
            Ok(an_ensure(command_spelled(command), path))
        }
        None => Ok(None),
    }
}

// An ensure, if its parts are there.
fn an_ensure(command: Option<u32>, path: Option<Path>) -> Option<Request>
    ensures { result ≡ with_two request.Ensure command path }
{
    let command = command?;
    let path = path?;
    Some(Request::Ensure { command, path })
}

// The request of the words behind `invalidate`.
fn read_invalidate(alloc: Global, words: Words<'_>) -> Result<Option<Request>, Memory>
    ensures ok { IfOk result (λ request. request ≡ invalidate_of (two_of words.entry)) }
{
    match two(words) {
        Some((command, path)) => {
            let path = path_spelled(alloc, path)?;
            Ok(an_invalidate(command_spelled(command), path))
        }
        None => Ok(None),
    }
}

// An invalidate, if its parts are there.
fn an_invalidate(command: Option<u32>, path: Option<Path>) -> Option<Request>
    ensures { result ≡ with_two request.Invalidate command path }
{
    let command = command?;
    let path = path?;
    Some(Request::Invalidate { command, path })
}

// The request of the words behind `clean`.
fn read_clean(words: Words<'_>) -> Option<Request>
    ensures { result ≡ clean_of (two_of words.entry) }
{
    match two(words) {
        Some((cutoff, mode)) => a_clean(moment_spelled(cutoff), mode_spelled(mode)),
        None => None,
    }
}

// A clean, if its parts are there.
fn a_clean(cutoff: Option<u64>, mode: Option<CleanMode>) -> Option<Request>
    ensures { result ≡ with_two request.Clean cutoff mode }
{
    let cutoff = cutoff?;
    let mode = mode?;
    Some(Request::Clean { cutoff, mode })
}

// The request of the words behind `flush`, which are none.
fn read_flush(words: Words<'_>) -> Option<Request>
    ensures { result ≡ request_of asking.Flush words.entry }
{
    if words.is_empty() {
        Some(Request::Flush)
    } else {
        None
    }
}
