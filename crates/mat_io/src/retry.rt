// Calls of readers and writers of std that are made again where they were interrupted.
ghost use Rattle.std.specs.Io.{ReadsAtMost, WritesAtMost};
ghost use Rattle.std.specs.Io.KnownBytes.{ReadConsumes, WriteAppends};

use std::io::{ErrorKind, Read, Write};

// How often a call is made at most.
const TRIES: u32 = 1000;

// A library call failed.
#[derive(Clone, Copy, Debug, PartialEq, Eq)]
pub(crate) struct Failed;

// One read, made again where it was interrupted.
pub(crate) fn read_retrying<R: Read>(inner: &mut R, buf: &mut [u8]) -> Result<usize, Failed>
    ensures bound { ReadsAtMost result buf.new }
    ensures bytes { ReadConsumes (R.remaining inner.old) (R.remaining inner.new) result buf.new }
{
    'tries: for _ in 0..TRIES {
        match inner.read(buf) {
            Ok(count) => return Ok(count),
            Err(error) => {
                if error.kind() != ErrorKind::Interrupted {
                    return Err(Failed);
                }
            }
        }
    }
    Err(Failed)
}

// One write, made again where it was interrupted.
pub(crate) fn write_retrying<W: Write>(inner: &mut W, bytes: &[u8]) -> Result<usize, Failed>
    ensures bound { WritesAtMost result bytes.now }
    ensures bytes { WriteAppends (W.contents inner.old) (W.contents inner.new) result bytes.now }
{
    'tries: for _ in 0..TRIES {
        match inner.write(bytes) {
            Ok(count) => return Ok(count),
            Err(error) => {
                if error.kind() != ErrorKind::Interrupted {
                    return Err(Failed);
                }
            }
        }
    }
    Err(Failed)
}
