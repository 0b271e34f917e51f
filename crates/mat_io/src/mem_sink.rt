// A sink in memory, of which chosen calls fail.
ghost use Rattle.std.specs.Prelude.{◌≡◌, [], Some};
ghost use Rattle.mat_io.specs.Answers.{put_failed};
ghost use Rattle.mat_io.specs.Causes.{HasCause};
ghost use Rattle.mat_io.specs.Memory.{after_write, is_failing};
ghost use Rattle.mat_io.specs.Streams.{Writes};

use crate::answer::Put;
use crate::ways::Sink;
use std::alloc::Global;
use std::marker::Model;

/// A sink that keeps its bytes in memory. The writes with chosen numbers, from 0, fail, and no others.
#[derive(Drop)]
pub struct MemSink {
    bytes: Vec<u8>,
    fails: Vec<u64>,
    calls: u64,
    faults: u64,
}

impl Model for MemSink {
    ghost use Rattle.mat_io.specs.Memory.{Drain};

    ghost Value = { Drain };

    ghost view = { λ s. record { out = s.bytes.items; fails = s.fails.items; calls = s.calls; faults = s.faults } };
}

impl MemSink {
    /// An empty sink whose writes with the numbers `fails`, from 0, fail. It takes memory from `alloc`
    /// as it is written to.
    pub fn new(alloc: Global, fails: Vec<u64>) -> MemSink
        ensures out { result.out ≡ [] }
        ensures fails { result.fails ≡ fails.items }
        ensures calls { result.calls ≡ 0 }
        ensures faults { result.faults ≡ 0 }
    {
        MemSink {
            bytes: Vec::new(alloc),
            fails,
            calls: 0,
            faults: 0,
        }
    }

    /// The bytes that went out. It takes no memory.
    pub fn bytes(&self) -> &[u8]
        ensures { result.now ≡ self.now.out }
    {
        &self.bytes
    }
}

impl Sink for MemSink {
    ghost out = { λ s. Some s.out };

    ghost faults = { λ s. s.faults };

    /// Fails where its number is chosen, and changes the counts alone. Else all bytes go out, or none
    /// where memory is refused.
    fn write(&mut self, bytes: &[u8]) -> Put
        ensures bytes { Writes (Some self.old.out) (Some self.new.out) bytes.now result }
        ensures cause { HasCause self.old.faults self.new.faults (put_failed result) }
        ensures failed { put_failed result ≡ is_failing self.old.fails self.old.calls }
        ensures after { self.new ≡ after_write self.old bytes.now result }
    {
        let failing = self.fails.contains(&self.calls);
        self.calls = self.calls.saturating_add(1);
        if failing {
            self.faults = self.faults.saturating_add(1);
            return Put::Failed;
        }
        match self.bytes.extend_from_slice(bytes) {
            Ok(()) => Put::All,
            Err(_) => Put::NoMemory,
        }
    }

    fn faults(&self) -> u64 {
        self.faults
    }
}
