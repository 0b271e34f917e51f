// A source in memory, of which chosen calls fail.
ghost use Rattle.std.specs.Prelude.{◌≡◌, ◌<◌, length, Some};
ghost use Rattle.mat_io.specs.Answers.{got_failed};
ghost use Rattle.mat_io.specs.Causes.{HasCause};
ghost use Rattle.mat_io.specs.Memory.{after_read, buffer_after, read_answer};
ghost use Rattle.mat_io.specs.Streams.{Reads};

use crate::answer::Got;
use crate::ways::Source;
use std::marker::Model;

/// A source over bytes in memory. The reads with chosen numbers, from 0, fail, and no others.
#[derive(Drop)]
pub struct MemSource {
    bytes: Vec<u8>,
    at: usize,
    fails: Vec<u64>,
    calls: u64,
    faults: u64,
}

impl Model for MemSource {
    ghost use Rattle.std.specs.Prelude.{◌≤◌, drop, length};
    ghost use Rattle.mat_io.specs.Memory.{Feed};

    ghost Value = { Feed };

    ghost view = { λ s. record { left = drop s.at s.bytes.items; fails = s.fails.items; calls = s.calls; faults = s.faults } };

    ghost invariant = { λ s. s.at ≤ length s.bytes.items };
}

impl MemSource {
    /// A source of these bytes whose reads with the numbers `fails`, from 0, fail. It takes no memory.
    pub fn new(bytes: Vec<u8>, fails: Vec<u64>) -> MemSource
        ensures left { result.left ≡ bytes.items }
        ensures fails { result.fails ≡ fails.items }
        ensures calls { result.calls ≡ 0 }
        ensures faults { result.faults ≡ 0 }
    {
        MemSource {
            bytes,
            at: 0,
            fails,
            calls: 0,
            faults: 0,
        }
    }
}

impl Source for MemSource {
    ghost left = { λ s. Some s.left };

    ghost faults = { λ s. s.faults };

    /// Fails where its number is chosen, and changes the counts alone. Else it takes as many bytes as
    /// are left and `buf` has room for, and leaves the rest of `buf` as it is.
    fn read(&mut self, buf: &mut [u8]) -> Got
        requires { 0 < length buf.old }
        ensures bytes { Reads (Some self.old.left) (Some self.new.left) buf.new result }
        ensures cause { HasCause self.old.faults self.new.faults (got_failed result) }
        ensures answer { result ≡ read_answer self.old (length buf.old) }
        ensures buffer { buf.new ≡ buffer_after self.old buf.old }
        ensures after { self.new ≡ after_read self.old (length buf.old) }
    {
        let failing = self.fails.contains(&self.calls);
        self.calls = self.calls.saturating_add(1);
        if failing {
            self.faults = self.faults.saturating_add(1);
            return Got::Failed;
        }
        let left = &self.bytes[self.at..];
        let count = left.len().min(buf.len());
        if count == 0 {
            return Got::End;
        }
        buf[..count].copy_from_slice(&left[..count]);
        self.at += count;
        Got::Taken(count)
    }

    fn faults(&self) -> u64 {
        self.faults
    }
}
