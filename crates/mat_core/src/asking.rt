// A request as the history keeps it.
ghost use Rattle.std.specs.Prelude.{◌≡◌, IfOk, is_ok, true, false};
ghost use Rattle.std.specs.Option.{is_some};
ghost use Rattle.mat_digest.specs.Digests.{digest_of};
ghost use Rattle.mat_tree.specs.Trees.{file_sum};
ghost use Rattle.mat_core.specs.Asks.{request_asks};
ghost use Rattle.mat_core.specs.Enters.{leaving};
ghost use Rattle.mat_core.specs.Served.{is_quiet};

use mat_digest::Digest;
use mat_model::{Asked, Reply, Request};
use mat_path::Memory;
use mat_tree::{Kind, Sum};

/// A request without the bytes of its file. That of a leave takes no memory.
pub fn asked_of(request: &Request) -> Result<Asked, Memory>
    ensures asks { IfOk result (λ asked. asked ≡ request_asks request.now) }
    ensures leave { is_some (leaving (request_asks request.now)) ≡ true → is_ok result ≡ true }
{
    Ok(match request {
        Request::Enter {
            command,
            state,
            soft,
            refuse,
        } => Asked::Enter {
            command: *command,
            state: *state,
            soft: *soft,
            refuse: *refuse,
        },
        Request::Leave { command } => Asked::Leave { command: *command },
        Request::Write {
            command,
            path,
            bytes,
        } => Asked::Write {
            command: *command,
            path: path.copy()?,
            sum: sum_of_bytes(bytes.as_slice()),
        },
        Request::Declare {
            command,
            path,
            tree,
        } => Asked::Declare {
            command: *command,
            path: path.copy()?,
            tree: tree.copy()?,
        },
        Request::Copy {
            command,
            path,
            source,
        } => Asked::Copy {
            command: *command,
            path: path.copy()?,
            source: source.copy()?,
        },
        Request::Matches { command, path, sum } => Asked::Matches {
            command: *command,
            path: path.copy()?,
            sum: *sum,
        },
        Request::Has { command, path } => Asked::Has {
            command: *command,
            path: path.copy()?,
        },
        Request::Ensure { command, path } => Asked::Ensure {
            command: *command,
            path: path.copy()?,
        },
        Request::Invalidate { command, path } => Asked::Invalidate {
            command: *command,
            path: path.copy()?,
        },
        Request::Clean { cutoff, mode } => Asked::Clean {
            cutoff: *cutoff,
            mode: *mode,
        },
        Request::Flush => Asked::Flush,
    })
}

// The sum of the plain file of some bytes.
fn sum_of_bytes(bytes: &[u8]) -> Sum
    ensures { result ≡ file_sum (digest_of bytes.now) false }
{
    Sum {
        kind: Kind::File,
        digest: Digest::of(bytes),
    }
}

/// A reply that lists nothing, once more. Takes no memory.
pub fn once_more(reply: &Reply) -> Reply
    requires { is_quiet reply.now ≡ true }
    ensures { result ≡ reply.now }
{
    match reply {
        Reply::Entered => Reply::Entered,
        Reply::Took(count) => Reply::Took(*count),
        Reply::Left(count) => Reply::Left(*count),
        Reply::Declared(stamp) => Reply::Declared(*stamp),
        Reply::Kept(stamp) => Reply::Kept(*stamp),
        Reply::Same(stamp) => Reply::Same(*stamp),
        Reply::Other => Reply::Other,
        Reply::Nothing => Reply::Nothing,
        Reply::Stands(stamp) => Reply::Stands(*stamp),
        Reply::NotMade(stamp) => Reply::NotMade(*stamp),
        Reply::Ready { stamp, sum } => Reply::Ready {
            stamp: *stamp,
            sum: *sum,
        },
        Reply::Asked(ticket) => Reply::Asked(*ticket),
        Reply::NotLive => Reply::NotLive,
        Reply::Known => Reply::Known,
        Reply::Differs(state) => Reply::Differs(*state),
        Reply::Queued(place) => Reply::Queued(*place),
        Reply::Unknown => Reply::Unknown,
        Reply::Busy(count) => Reply::Busy(*count),
        Reply::NoSource => Reply::NoSource,
        Reply::TooLong => Reply::TooLong,
        Reply::Undeclared => Reply::Undeclared,
        Reply::Full(limit) => Reply::Full(*limit),
        Reply::NoMemory => Reply::NoMemory,
        Reply::Stale => Reply::Stale,
        _ => unreachable!(),
    }
}
