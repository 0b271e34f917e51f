// A script from its source to its end.
ghost use Rattle.std.specs.Prelude.{◌≡◌, ◌<◌, [], ℕ, true, length, List, Option};
ghost use Rattle.mat_io.specs.Answers.{got_failed};
ghost use Rattle.mat_io.specs.Streams.{Reads};
ghost use Rattle.mat_io.specs.Causes.{HasCause};
ghost use Rattle.buckd.specs.Daemon.{scene_of};
ghost use Rattle.buckd.specs.Sound.{IsSound};
ghost use Rattle.buckd.specs.Streams.{IsSmall, Stands, TakesWithin};
ghost use Rattle.buckd.specs.Replay.{IsFinished, IsSoundAtEnd, IsWithin, Leaves, LeavesAt, Ran, Replays, end_of, input_failed, input_limit, is_lost, is_sink_fault, is_source_fault, is_status, output_failed, status_of};

use crate::daemon::Run;
use crate::output::flush;
use crate::session::{Fed, Session};
use mat_io::{Got, Put, Sink, Source};
use region_port::MemDisk;
use std::alloc::Global;

/// How many bytes of a script are read at a time.
const CHUNK: usize = 65_536;

/// How many bytes of a script are read at most.
const INPUT_LIMIT: u64 = 4_294_967_296;

/// How the program ended.
#[derive(Drop)]
pub struct Ended {
    /// 0 where a line `end` was read, 1 for want of memory, 2 for other words, 3 where the input failed, 4 where the
    /// output failed, 5 where the input ended before a line `end`, 7 where it was longer than is read.
    pub status: u8,
    /// The book and the history at the end: there exactly with statuses 0, 3, 4, 5 and 7.
    pub run: Option<Run>,
    /// The disk at the end, where the run is there.
    pub disk: Option<MemDisk>,
}

/// Why a run ended.
#[derive(Clone, Copy, Debug, PartialEq, Eq)]
enum Ending {
    /// A line `end` was read.
    End,
    /// Want of memory.
    NoMemory,
    /// The input failed.
    SourceFault,
    /// The output failed.
    SinkFault,
    /// The input ended before a line `end`.
    NoEnd,
    /// The limit of bytes was read before a line `end`.
    Cut,
}

// The status of the program.
fn status_of(ending: Ending) -> u8
    ensures { result ≡ status_of ending }
{
    match ending {
        Ending::End => 0,
        Ending::NoMemory => 1,
        Ending::SourceFault => 3,
        Ending::SinkFault => 4,
        Ending::NoEnd => 5,
        Ending::Cut => 7,
    }
}

// Whether nothing more goes out.
fn is_lost(ending: Ending) -> bool
    ensures { result ≡ is_lost ending }
{
    match ending {
        Ending::End => false,
        Ending::NoMemory => true,
        Ending::SourceFault => false,
        Ending::SinkFault => true,
        Ending::NoEnd => false,
        Ending::Cut => false,
    }
}

/// Runs the input's script on a world of its own, and writes what it is answered.
pub fn replay<S: Source, T: Sink>(
    alloc: Global,
    workers: u32,
    input: &mut S,
    output: &mut T,
) -> Ended
    requires { workers ≡ 1 }
    ensures replays { Replays input_limit (S.left input.old) (S.left input.new) (T.out output.old) (T.out output.new) result }
    ensures taken { TakesWithin input_limit (S.left input.old) (S.left input.new) }
    ensures status { is_status result.status ≡ true }
    ensures leaves { Leaves result }
    ensures source { HasCause (S.faults input.old) (S.faults input.new) (input_failed result) }
    ensures sink { HasCause (T.faults output.old) (T.faults output.new) (output_failed result) }
{
    let _ = workers;
    run_within(alloc, INPUT_LIMIT, input, output)
}

// The same, with a limit of its own on the bytes of the script.
pub(crate) fn run_within<S: Source, T: Sink>(
    alloc: Global,
    limit: u64,
    input: &mut S,
    output: &mut T,
) -> Ended
    ensures replays { Replays limit (S.left input.old) (S.left input.new) (T.out output.old) (T.out output.new) result }
    ensures taken { TakesWithin limit (S.left input.old) (S.left input.new) }
    ensures status { is_status result.status ≡ true }
    ensures leaves { Leaves result }
    ensures source { HasCause (S.faults input.old) (S.faults input.new) (input_failed result) }
    ensures sink { HasCause (T.faults output.old) (T.faults output.new) (output_failed result) }
{
    let mut session = Session::new(alloc);
    let ran = read_all(alloc, &mut session, limit, input, output);
    let ending = finish(&mut session, ran, output);
    make_ended(alloc, session, ending)
}

// Reads a script and serves its lines.
fn read_all<S: Source, T: Sink>(
    alloc: Global,
    session: &mut Session,
    limit: u64,
    input: &mut S,
    output: &mut T,
) -> Ending
    requires sound { IsSound session.old.daemon }
    requires small { IsSmall session.old }
    requires start { Stands [] (T.out output.old) (T.out output.old) session.old }
    ensures ran { Ran limit (S.left input.old) (S.left input.new) (T.out output.old) (T.out output.new) session.new result }
    ensures taken { TakesWithin limit (S.left input.old) (S.left input.new) }
    ensures sound { IsSoundAtEnd result session.new.daemon }
    ensures source { HasCause (S.faults input.old) (S.faults input.new) (is_source_fault result) }
    ensures sink { HasCause (T.faults output.old) (T.faults output.new) (is_sink_fault result) }
{
    match vec![in alloc; 0u8; CHUNK] {
        Ok(mut buffer) => read_with(alloc, session, buffer.as_mut_slice(), limit, input, output),
        Err(_) => Ending::NoMemory,
    }
}

// The same, with room for the bytes that are read at a time.
fn read_with<S: Source, T: Sink>(
    alloc: Global,
    session: &mut Session,
    buffer: &mut [u8],
    limit: u64,
    input: &mut S,
    output: &mut T,
) -> Ending
    requires sound { IsSound session.old.daemon }
    requires small { IsSmall session.old }
    requires start { Stands [] (T.out output.old) (T.out output.old) session.old }
    requires room { length buffer.old ≡ CHUNK }
    ensures ran { Ran limit (S.left input.old) (S.left input.new) (T.out output.old) (T.out output.new) session.new result }
    ensures taken { TakesWithin limit (S.left input.old) (S.left input.new) }
    ensures sound { IsSoundAtEnd result session.new.daemon }
    ensures source { HasCause (S.faults input.old) (S.faults input.new) (is_source_fault result) }
    ensures sink { HasCause (T.faults output.old) (T.faults output.new) (is_sink_fault result) }
{
    let mut left = limit;
    'chunks: while left > 0 {
        match read_piece(buffer, left, input) {
            Got::Taken(count) => {
                left -= count as u64;
                match session.feed(alloc, &buffer[..count], output) {
                    Fed::Going => {}
                    Fed::Ended => return Ending::End,
                    Fed::Failed => return Ending::SinkFault,
                    Fed::NoMemory => return Ending::NoMemory,
                }
            }
            Got::End => return end_all(session.feed_last(alloc)),
            Got::Failed => return Ending::SourceFault,
        }
    }
    Ending::Cut
}

// Reads the next bytes, as far as there is room for them and they may be read.
fn read_piece<S: Source>(buffer: &mut [u8], left: u64, input: &mut S) -> Got
    requires room { length buffer.old ≡ CHUNK }
    requires some { 0 < left }
    ensures reads { Reads (S.left input.old) (S.left input.new) buffer.new result }
    ensures within { IsWithin left result }
    ensures cause { HasCause (S.faults input.old) (S.faults input.new) (got_failed result) }
{
    let most = left.min(CHUNK as u64) as usize;
    input.read(&mut buffer[..most])
}

// Why a run ended whose last line left it here.
fn end_all(fed: Fed) -> Ending
    ensures { result ≡ end_of fed }
{
    match fed {
        Fed::Ended => Ending::End,
        Fed::Going => Ending::NoEnd,
        Fed::Failed => Ending::SinkFault,
        Fed::NoMemory => Ending::NoMemory,
    }
}

// Lets the text that is left go out, unless the run is lost.
fn finish<T: Sink>(session: &mut Session, ending: Ending, output: &mut T) -> Ending
    requires { IsSoundAtEnd ending session.old.daemon }
    ensures ran { (limit : ℕ) (bytes left before : Option (List ℕ)) → Ran limit bytes left before (T.out output.old) session.old ending → Ran limit bytes left before (T.out output.new) session.new result }
    ensures out { IsFinished result session.new.gathered.items }
    ensures sound { IsSoundAtEnd result session.new.daemon }
    ensures source { is_source_fault result ≡ true → is_source_fault ending ≡ true }
    ensures sink { (before : ℕ) → HasCause before (T.faults output.old) (is_sink_fault ending) → HasCause before (T.faults output.new) (is_sink_fault result) }
{
    if is_lost(ending) {
        return ending;
    }
    match flush(&mut session.gathered, output) {
        Put::All => ending,
        Put::Failed => Ending::SinkFault,
        Put::NoMemory => Ending::NoMemory,
    }
}

// What is left of a run that ended.
fn make_ended(alloc: Global, session: Session, ending: Ending) -> Ended
    requires { IsSoundAtEnd ending session.daemon }
    ensures status { result.status ≡ status_of ending }
    ensures leaves { LeavesAt ending (scene_of session.daemon) result }
{
    let status = status_of(ending);
    if ending == Ending::NoMemory {
        return Ended {
            status,
            run: None,
            disk: None,
        };
    }
    let Session {
        daemon,
        gathered: _,
        partial: _,
    } = session;
    let (run, disk) = daemon.into_parts(alloc);
    Ended {
        status,
        run: Some(run),
        disk: Some(disk),
    }
}
