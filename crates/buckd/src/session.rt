// A run in progress: the daemon, the text that waits to go out, and the line that isn't whole yet.
ghost use Rattle.std.specs.Prelude.{◌≡◌, ◌∷◌, ◌++◌, ◌-◌, [], ℕ, false, length, take, List, Option, IfOk};
ghost use Rattle.mat_io.specs.Causes.{HasCause};
ghost use Rattle.script_lang.specs.Bounds.{HasLineBounds};
ghost use Rattle.buckd.specs.Lines.{IsLine, line_of, lines_of};
ghost use Rattle.buckd.specs.Streams.{ends, gone_to, kept};

use crate::daemon::Daemon;
use crate::lines::{cut_line, keep};
use crate::output::flush_enough;
use mat_io::{Put, Sink};
use mat_path::Memory;
use script_lang::{Line, read_line};
use std::alloc::Global;

/// How many workers a script is read for.
const WORKERS: u32 = 1;

/// Where a run stands after a piece of its script.
#[derive(Clone, Copy, Debug, PartialEq, Eq)]
pub enum Fed {
    /// More may come.
    Going,
    /// A line ended the script.
    Ended,
    /// The output failed.
    Failed,
    /// Want of memory.
    NoMemory,
}

/// A run in progress.
#[derive(Drop)]
pub struct Session {
    pub daemon: Daemon,
    pub gathered: Vec<u8>,
    pub partial: Vec<u8>,
}

impl Session {
    ghost use Rattle.buckd.specs.Sound.{IsSound};
    ghost use Rattle.buckd.specs.Streams.{FeedsLast, Feeds, IsSmall, IsSmallAfter, IsSoundAfter, TellsLine, Stands, fed_failed};

    /// A run that begins.
    pub fn new(alloc: Global) -> Session
        ensures sound { IsSound result.daemon }
        ensures start { (out : Option (List ℕ)) → Stands [] out out result }
        ensures small { IsSmall result }
    {
        Session {
            daemon: Daemon::new(alloc),
            gathered: Vec::new(alloc),
            partial: Vec::new(alloc),
        }
    }

    // Serves the line that is kept.
    fn serve_line(&mut self, alloc: Global) -> Result<bool, Memory>
        requires { IsSound self.old.daemon }
        ensures { IfOk result (λ ended. TellsLine self.old.partial.items self.old.daemon self.old.gathered.items self.new ended) }
    {
        let line = read(alloc, self.partial.as_slice())?;
        self.partial.clear();
        let ended = is_end(&line);
        self.daemon.tell(line, &mut self.gathered)?;
        Ok(ended)
    }

    // Serves the line whose last bytes these are.
    fn serve_with(&mut self, alloc: Global, bytes: &[u8]) -> Result<bool, Memory>
        requires { IsSound self.old.daemon }
        ensures { IfOk result (λ ended. TellsLine (self.old.partial.items ++ take (kept - length self.old.partial.items) bytes.now) self.old.daemon self.old.gathered.items self.new ended) }
    {
        keep(&mut self.partial, bytes)?;
        self.serve_line(alloc)
    }

    // Serves a line that a newline ends, whose last bytes these are.
    fn end_line<T: Sink>(&mut self, alloc: Global, bytes: &[u8], output: &mut T) -> Fed
        requires sound { IsSound self.old.daemon }
        requires line { IsLine bytes.now }
        ensures fed { (read : List ℕ) (before : Option (List ℕ)) → Stands read before (T.out output.old) self.old → Feeds (read ++ (bytes.now ++ 10 ∷ [])) before (T.out output.new) self.new result }
        ensures sound { IsSoundAfter result self.new.daemon }
        ensures small { IsSmallAfter result self.new }
        ensures cause { HasCause (T.faults output.old) (T.faults output.new) (fed_failed result) }
    {
        match self.serve_with(alloc, bytes) {
            Ok(true) => Fed::Ended,
            Ok(false) => gone(flush_enough(&mut self.gathered, output)),
            Err(_) => Fed::NoMemory,
        }
    }

    // Takes the last bytes of a piece, which no newline ends.
    fn keep_rest(&mut self, bytes: &[u8]) -> Fed
        requires sound { IsSound self.old.daemon }
        requires small { IsSmall self.old }
        requires line { IsLine bytes.now }
        ensures fed { (read : List ℕ) (before out : Option (List ℕ)) → Stands read before out self.old → Feeds (read ++ bytes.now) before out self.new result }
        ensures sound { IsSoundAfter result self.new.daemon }
        ensures small { IsSmallAfter result self.new }
        ensures fits { fed_failed result ≡ false }
    {
        match keep(&mut self.partial, bytes) {
            Ok(()) => Fed::Going,
            Err(_) => Fed::NoMemory,
        }
    }

    /// Takes the next piece of the script, and serves each line that is whole now. Between two pieces little of the
    /// script and of its text is in memory.
    pub fn feed<T: Sink>(&mut self, alloc: Global, piece: &[u8], output: &mut T) -> Fed
        requires sound { IsSound self.old.daemon }
        requires small { IsSmall self.old }
        ensures fed { (read : List ℕ) (before : Option (List ℕ)) → Stands read before (T.out output.old) self.old → Feeds (read ++ piece.now) before (T.out output.new) self.new result }
        ensures sound { IsSoundAfter result self.new.daemon }
        ensures small { IsSmallAfter result self.new }
        ensures cause { HasCause (T.faults output.old) (T.faults output.new) (fed_failed result) }
    {
        let mut rest = piece;
        'lines: while let Some((line, next)) = cut_line(rest) {
            match self.end_line(alloc, line, output) {
                Fed::Going => {}
                Fed::Ended => return Fed::Ended,
                Fed::Failed => return Fed::Failed,
                Fed::NoMemory => return Fed::NoMemory,
            }
            rest = next;
        }
        self.keep_rest(rest)
    }

    /// Serves the last line, which no newline ends.
    pub fn feed_last(&mut self, alloc: Global) -> Fed
        requires { IsSound self.old.daemon }
        ensures fed { (read : List ℕ) (before out : Option (List ℕ)) → Stands read before out self.old → FeedsLast (lines_of read) before out self.new result }
        ensures sound { IsSoundAfter result self.new.daemon }
        ensures fits { fed_failed result ≡ false }
    {
        match self.serve_line(alloc) {
            Ok(true) => Fed::Ended,
            Ok(false) => Fed::Going,
            Err(_) => Fed::NoMemory,
        }
    }
}

/// Where a run stands after a write.
fn gone(put: Put) -> Fed
    ensures { result ≡ gone_to put }
{
    match put {
        Put::All => Fed::Going,
        Put::Failed => Fed::Failed,
        Put::NoMemory => Fed::NoMemory,
    }
}

/// Whether a line ends the script.
fn is_end(line: &Line) -> bool
    ensures { result ≡ ends line.now }
{
    matches!(line, Line::End)
}

/// What a line says. Want of memory is the one refusal.
fn read(alloc: Global, line: &[u8]) -> Result<Line, Memory>
    ensures ok { IfOk result (λ said. said ≡ line_of line.now) }
    ensures bounds { IfOk result (λ said. HasLineBounds 1 said) }
{
    match read_line(alloc, line, WORKERS) {
        Line::Skip => Ok(Line::Skip),
        Line::End => Ok(Line::End),
        Line::Unread => Ok(Line::Unread),
        Line::Item(item) => Ok(Line::Item(item)),
        Line::NoMemory => Err(Memory),
    }
}
