// A source over a reader of std.
ghost use Rattle.std.specs.Prelude.{◌≡◌, ◌<◌, length};
ghost use Rattle.mat_io.specs.Answers.{got_failed};
ghost use Rattle.mat_io.specs.Causes.{HasCause, faults_after};
ghost use Rattle.mat_io.specs.Streams.{Reads};

use crate::answer::Got;
use crate::retry::{Failed, read_retrying};
use crate::ways::Source;
use std::io::Read;

/// A source over a reader of std. It tells its bytes where the reader does.
#[derive(Drop)]
pub struct StdSource<R> {
    inner: R,
    faults: u64,
}

impl<R: Read> StdSource<R> {
    /// A source over `inner` that has had no fault. It takes no memory.
    pub fn new(inner: R) -> StdSource<R>
        ensures left { ⟦<StdSource<R> as Source>⟧.left result ≡ R.remaining inner }
        ensures faults { ⟦<StdSource<R> as Source>⟧.faults result ≡ 0 }
    {
        StdSource { inner, faults: 0 }
    }
}

impl<R: Read> Source for StdSource<R> {
    ghost use Rattle.mat_io.specs.Adapters.{source_faults, source_reader};

    ghost left = { λ s. R.remaining (source_reader s) };

    ghost faults = { source_faults };

    /// Takes what one read of the reader gives. It fails, and counts one fault, where that read fails; a
    /// read that is interrupted is made again, up to a thousand times.
    fn read(&mut self, buf: &mut [u8]) -> Got
        requires { 0 < length buf.old }
        ensures bytes { Reads (⟦<StdSource<R> as Source>⟧.left self.old) (⟦<StdSource<R> as Source>⟧.left self.new)
            buf.new result }
        ensures cause { HasCause (⟦<StdSource<R> as Source>⟧.faults self.old)
            (⟦<StdSource<R> as Source>⟧.faults self.new) (got_failed result) }
        ensures count { ⟦<StdSource<R> as Source>⟧.faults self.new
            ≡ faults_after (got_failed result) (⟦<StdSource<R> as Source>⟧.faults self.old) }
    {
        match read_retrying(&mut self.inner, buf) {
            Ok(0) => Got::End,
            Ok(count) => Got::Taken(count),
            Err(Failed) => {
                self.faults = self.faults.saturating_add(1);
                Got::Failed
            }
        }
    }

    fn faults(&self) -> u64 {
        self.faults
    }
}
