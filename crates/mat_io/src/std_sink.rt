// A sink over a writer of std.
ghost use Rattle.std.specs.Prelude.{◌≡◌, ◌≢◌};
ghost use Rattle.mat_io.specs.Answers.{put_failed};
ghost use Rattle.mat_io.specs.Causes.{HasCause, faults_after};
ghost use Rattle.mat_io.specs.Streams.{Writes};

use crate::answer::Put;
use crate::retry::write_retrying;
use crate::ways::Sink;
use std::io::Write;

/// A sink over a writer of std. It tells its bytes where the writer does.
#[derive(Drop)]
pub struct StdSink<W> {
    inner: W,
    faults: u64,
}

impl<W: Write> StdSink<W> {
    /// A sink over `inner` that has had no fault. It takes no memory.
    pub fn new(inner: W) -> StdSink<W>
        ensures out { ⟦<StdSink<W> as Sink>⟧.out result ≡ W.contents inner }
        ensures faults { ⟦<StdSink<W> as Sink>⟧.faults result ≡ 0 }
    {
        StdSink { inner, faults: 0 }
    }
}

impl<W: Write> Sink for StdSink<W> {
    ghost use Rattle.mat_io.specs.Adapters.{sink_faults, sink_writer};

    ghost out = { λ s. W.contents (sink_writer s) };

    ghost faults = { sink_faults };

    /// Writes until the writer has taken all bytes. It fails, and counts one fault, where a write fails
    /// or takes nothing; a write that is interrupted is made again, up to a thousand times. Where the
    /// writer is refused memory, that is such a fault.
    fn write(&mut self, bytes: &[u8]) -> Put
        ensures bytes { Writes (⟦<StdSink<W> as Sink>⟧.out self.old) (⟦<StdSink<W> as Sink>⟧.out self.new)
            bytes.now result }
        ensures cause { HasCause (⟦<StdSink<W> as Sink>⟧.faults self.old) (⟦<StdSink<W> as Sink>⟧.faults self.new)
            (put_failed result) }
        ensures count { ⟦<StdSink<W> as Sink>⟧.faults self.new
            ≡ faults_after (put_failed result) (⟦<StdSink<W> as Sink>⟧.faults self.old) }
        ensures memory { result ≢ Put.NoMemory }
    {
        let mut at = 0;
        'pieces: while at < bytes.len() {
            match write_retrying(&mut self.inner, &bytes[at..]) {
                Ok(count) if count > 0 => at += count,
                _ => {
                    self.faults = self.faults.saturating_add(1);
                    return Put::Failed;
                }
            }
        }
        Put::All
    }

    fn faults(&self) -> u64 {
        self.faults
    }
}
