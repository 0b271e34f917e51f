// The traits of sources, sinks and devices that can be armed.
ghost use Rattle.std.specs.Prelude.{◌≡◌, ◌<◌, ℕ, Bool, true, List, Option, length};
ghost use Rattle.mat_io.specs.Answers.{got_failed, put_failed};
ghost use Rattle.mat_io.specs.Causes.{HasCause};
ghost use Rattle.mat_io.specs.Streams.{Reads, Writes};

use crate::answer::{Got, Put};

/// Gives bytes in order, and counts its faults.
pub trait Source {
    // The bytes that are left, where the source tells them.
    ghost left: { Self → Option (List ℕ) };

    // How many faults there were, up to the last number that 64 bits hold.
    ghost faults: { Self → ℕ };

    /// Takes the next bytes, at least one and at most as many as `buf` has room for.
    ///
    /// `End` is answered only where no byte is left, and `Failed` only where the count of faults rose;
    /// both leave the bytes as they are.
    fn read(&mut self, buf: &mut [u8]) -> Got
        requires { 0 < length buf.old }
        ensures bytes { Reads (left self.old) (left self.new) buf.new result }
        ensures cause { HasCause (faults self.old) (faults self.new) (got_failed result) };

    /// How many faults there were. It takes no memory.
    fn faults(&self) -> u64
        ensures { result ≡ faults self.now };
}

/// Takes bytes in order, and counts its faults.
pub trait Sink {
    // The bytes that went out, where the sink tells them.
    ghost out: { Self → Option (List ℕ) };

    // How many faults there were, up to the last number that 64 bits hold.
    ghost faults: { Self → ℕ };

    /// Puts `bytes` out, after those before.
    ///
    /// Where it answers `Failed`, only where the count of faults rose, or `NoMemory`, a prefix of the
    /// bytes went out.
    fn write(&mut self, bytes: &[u8]) -> Put
        ensures bytes { Writes (out self.old) (out self.new) bytes.now result }
        ensures cause { HasCause (faults self.old) (faults self.new) (put_failed result) };

    /// How many faults there were. It takes no memory.
    fn faults(&self) -> u64
        ensures { result ≡ faults self.now };
}

/// A device whose next call can be made to fail.
///
/// A device call of an armed device fails, changes nothing but its counts, and disarms it; each device
/// says so of its own calls by `armed`.
pub trait Arm {
    // The next device call fails.
    ghost armed: { Self → Bool };

    // How many device calls there were, up to the last number that 64 bits hold.
    ghost calls_made: { Self → ℕ };

    /// Makes the next device call fail.
    fn arm(&mut self)
        ensures armed { armed self.new ≡ true }
        ensures calls { calls_made self.new ≡ calls_made self.old };

    /// How many device calls there were. It takes no memory.
    fn calls(&self) -> u64
        ensures { result ≡ calls_made self.now };
}
