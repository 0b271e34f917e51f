ghost use Rattle.std.specs.Prelude.{◌≡◌, ◌≤◌, count_by, length, IfOk, None};
ghost use Rattle.mat_model.specs.Legal.{MayAsk, is_of};
ghost use Rattle.mat_core.specs.Asks.{request_asks};
ghost use Rattle.mat_core.specs.Cores.{AreLimits};

use crate::{Begun, Core, Finished, Poll, Shut};
use fetch_port::MemStore;
use hall_lock::By;
use job_run::{Done, Job, work_off};
use keep_port::{Keeper, MemKeeper, RawRow};
use mat_io::Arm;
use mat_model::{Answer, CleanMode, Device, Limits, Recorded, Reply, Request};
use mat_path::{Items, Memory, Path};
use region_port::{MemDisk, MemRegion};
use restart_scan::{Entrance, ScanRefusal};
use std::alloc::Global;
use std::mem::swap;
use std::test::Fail;

/// A core over devices in memory, and one that didn't start.
type MemCore = Core<MemDisk, MemKeeper>;

type MemShut = Shut<MemDisk, MemKeeper>;

/// The bytes of the kept row of the file `abc`, in the first version: its SHA-256 (FIPS 180-4, the first example) and its size.
const ABC: &[u8] =
    b"KR\x01\0\xba\x78\x16\xbf\x8f\x01\xcf\xea\x41\x41\x40\xde\x5d\xae\x22\x23\xb0\x03\x61\xa3\x96\x17\x7a\x9c\xb4\x10\xff\x61\xf2\x00\x15\xad\0\0\0\0\0\0\0\x03";

/// Limits that no test here reaches.
const LARGE: Limits = Limits {
    history: 100,
    nodes: 100,
    rows: 100,
    held: 100,
    asked: 100,
    holds: 100,
};

/// A state store with a row at a path.
fn keeper_of(alloc: Global, path: &[u8], body: &[u8]) -> Result<MemKeeper, Fail> {
    let mut rows = Vec::new(alloc);
    rows.push(RawRow {
        path: Items::of(Vec::from_slice(alloc, path)?),
        body: Items::of(Vec::from_slice(alloc, body)?),
        last: 5,
    })?;
    let mut keeper = MemKeeper::new(alloc, Vec::new(alloc));
    keeper.store_rows(rows.as_slice(), &[]);
    Ok(keeper)
}

/// A core starts over a disk without nodes, without a look at the parts.
fn start(alloc: Global, keeper: MemKeeper, limits: Limits) -> Result<MemCore, MemShut>
    requires { AreLimits limits }
{
    let entrance = Entrance {
        identity: 0,
        check: false,
    };
    Core::start(alloc, MemDisk::new(alloc), keeper, limits, entrance)
}

/// Why a core didn't start, as a letter and a number.
fn why(shut: &MemShut) -> (u8, u64) {
    match &shut.why {
        ScanRefusal::BadRow { at, .. } => (b'b', *at),
        ScanRefusal::KeeperFault(note) if note.device == Device::Keeper => (b'k', note.after),
        ScanRefusal::Rows(count) => (b'r', *count),
        _ => (b'?', 0),
    }
}

/// How many rows a book has that can be copied.
fn rows_in(core: &MemCore) -> u64 {
    match core.book() {
        Ok(book) => book.rows.as_slice().len() as u64,
        Err(Memory) => 99,
    }
}

/// Why a core didn't start, or a dot and how many rows it has where it did.
fn outcome(core: Result<MemCore, MemShut>) -> (u8, u64) {
    match core {
        Ok(core) => {
            let rows = rows_in(&core);
            core.close();
            (b'.', rows)
        }
        Err(shut) => why(&shut),
    }
}

#[test]
fn starts_are_refused(rt: HostRuntime) -> Result<(), Fail> {
    let alloc = rt.alloc();
    let cut = start(alloc, keeper_of(alloc, b"p", b"KR\x01")?, LARGE);
    assert_eq!(rt; outcome(cut), (b'b', 3));
    let mut keeper = keeper_of(alloc, b"p", ABC)?;
    keeper.arm();
    match start(alloc, keeper, LARGE) {
        Ok(core) => {
            core.close();
            return Err(Fail::from(Memory));
        }
        Err(shut) => {
            assert_eq!(rt; why(&shut), (b'k', 1));
            assert_eq!(rt; outcome(start(alloc, shut.keeper, LARGE)), (b'.', 1));
        }
    }
    Ok(())
}

// ---- lives

/// A core, and a job of it that has ended and hasn't come back.
#[derive(Drop)]
struct Stage {
    core: MemCore,
    done: Option<Done<MemRegion>>,
}

/// The number of a caller's next entry.
fn next(core: &MemCore, caller: u32) -> By
    ensures caller { result.caller ≡ caller }
    ensures number { result.number ≡ count_by (is_of caller) core.now.history }
{
    let number = core
        .history()
        .iter()
        .filter(|entry| entry.by.caller == caller)
        .count() as u64;
    By { caller, number }
}

/// What a request of caller 0 is answered at moment 1, as a letter.
fn ask(core: &mut MemCore, request: Request) -> u8
    requires { MayAsk (request_asks request) }
{
    let by = next(core, 0);
    said(&core.call(by, 1, request))
}

/// A reply as a letter.
fn said(reply: &Reply) -> u8 {
    match reply {
        Reply::Entered => b'e',
        Reply::Declared(_) => b'd',
        Reply::Asked(_) => b'a',
        Reply::Ready { .. } => b'r',
        Reply::Invalid(count) => digit(*count),
        Reply::Flushed(count) => digit(*count),
        Reply::Cleaned { rows, .. } => digit(rows.as_slice().len() as u64),
        Reply::Fault(_) => b'F',
        Reply::NotLive => b'n',
        _ => b'?',
    }
}

/// A count as a digit.
fn digit(count: u64) -> u8 {
    match count {
        0 => b'0',
        1 => b'1',
        _ => b'+',
    }
}

/// What becomes of a begin of caller 0, as a letter: a job that began is worked off without a store.
fn begin(alloc: Global, stage: &mut Stage) -> u8 {
    let by = next(&stage.core, 0);
    match stage.core.begin(by) {
        Begun::Started(job) => {
            let mut store = MemStore::new(alloc);
            stage.done = Some(work_off(job, &mut store));
            b'j'
        }
        Begun::Idle => b'i',
        Begun::Refused(_) => b'R',
        _ => b'?',
    }
}

/// What becomes of a job that a caller returns and to which nothing was lent, as a letter, and the job, where it comes back.
fn give_back(
    core: &mut MemCore,
    caller: u32,
    done: Done<MemRegion>,
) -> (u8, Option<Done<MemRegion>>)
    requires { done.loan ≡ None }
{
    let by = next(core, caller);
    match core.done(by, done) {
        Finished::Fresh(Recorded::Kept) => (b'k', None),
        Finished::Fresh(_) => (b'f', None),
        Finished::Stale => (b's', None),
        Finished::Strange { kept: None, back } => (b'x', Some(back)),
        Finished::Strange {
            kept: Some(_),
            back,
            ..
        } => (b'X', Some(back)),
    }
}

/// What becomes of the job of a stage, if there is one, which a caller returns.
fn finish(stage: &mut Stage, caller: u32) -> u8 {
    match stage.done.take() {
        None => b'-',
        Some(done) => {
            if done.loan.is_some() {
                return b'?';
            }
            let (letter, back) = give_back(&mut stage.core, caller, done);
            stage.done = back;
            letter
        }
    }
}

/// Writes a small file.
#[tactic(auto, using(crate::proofs::TestLemmas::may_write_small))]
fn write(core: &mut MemCore, path: Path, bytes: Items<u8>) -> u8
    requires { length bytes ≤ 1024 }
{
    let _names = path.names();
    let command = 1;
    let request = Request::Write {
        command,
        path,
        bytes,
    };
    ask(core, request)
}

/// Writes a file of three bytes that are all the same.
fn write_byte(alloc: Global, core: &mut MemCore, path: Path, byte: u8) -> Result<u8, Fail> {
    let bytes = Vec::from_slice(alloc, &[byte, byte, byte])?;
    Ok(write(core, path, Items::of(bytes)))
}

/// Command 1 comes.
fn enter(core: &mut MemCore) -> u8 {
    let enter = Request::Enter {
        command: 1,
        state: 7,
        soft: false,
        refuse: false,
    };
    ask(core, enter)
}

/// What a request of command 1 on a path is answered.
fn on_path(core: &mut MemCore, path: Path, letter: u8) -> u8 {
    let command = 1;
    match letter {
        b'e' => ask(core, Request::Ensure { command, path }),
        b'i' => ask(core, Request::Invalidate { command, path }),
        _ => b'?',
    }
}

/// What a request without a path is answered: a flush, or a clean at moment 100 in one of its modes.
fn on_all(core: &mut MemCore, letter: u8) -> u8 {
    let cutoff = 100;
    match letter {
        b'F' => ask(core, Request::Flush),
        b'D' => {
            let mode = CleanMode::Dry;
            ask(core, Request::Clean { cutoff, mode })
        }
        b'C' => {
            let mode = CleanMode::Real;
            ask(core, Request::Clean { cutoff, mode })
        }
        b'A' => {
            let mode = CleanMode::All;
            ask(core, Request::Clean { cutoff, mode })
        }
        _ => b'?',
    }
}

/// What a step of the work is answered: a begin, the end of a job for its own caller or another, or a state store that is armed.
fn on_work(alloc: Global, stage: &mut Stage, letter: u8) -> u8 {
    match letter {
        b'b' => begin(alloc, stage),
        b'f' => finish(stage, 0),
        b'g' => finish(stage, 1),
        b'!' => {
            stage.core.arm_keeper();
            b'!'
        }
        _ => b'?',
    }
}

/// The path that a digit names: 0 the path `out`, any other `out/a`.
fn path_of(alloc: Global, digit: u8) -> Result<Path, Fail> {
    let text: &[u8] = match digit {
        b'0' => b"out",
        _ => b"out/a",
    };
    Ok(Path::read(alloc, text)?)
}

/// What a request of command 1 about a path is answered, which a digit names.
fn about_path(alloc: Global, core: &mut MemCore, letter: u8, digit: u8) -> Result<u8, Fail> {
    let path = path_of(alloc, digit)?;
    match letter {
        b'w' => write_byte(alloc, core, path, digit),
        _ => Ok(on_path(core, path, letter)),
    }
}

/// One step of a life: a letter in lower case is about a path.
fn step(alloc: Global, stage: &mut Stage, letter: u8, digit: u8) -> Result<u8, Fail> {
    match letter {
        b'>' => Ok(enter(&mut stage.core)),
        b'w' | b'e' | b'i' => about_path(alloc, &mut stage.core, letter, digit),
        b'F' | b'D' | b'C' | b'A' => Ok(on_all(&mut stage.core, letter)),
        _ => Ok(on_work(alloc, stage, letter)),
    }
}

/// Whether a step of a life, a letter and a digit, is answered so.
fn goes(alloc: Global, stage: &mut Stage, step_of: &[u8], wanted: u8) -> Result<bool, Fail> {
    match step_of {
        [letter, digit] => Ok(step(alloc, stage, *letter, *digit)? == wanted),
        _ => Ok(false),
    }
}

/// Whether the steps of a life are answered so, each by a letter.
fn live(alloc: Global, stage: &mut Stage, steps: &[u8], wanted: &[u8]) -> Result<bool, Fail> {
    for (step_of, letter) in steps.chunks(2).zip(wanted) {
        if !goes(alloc, stage, step_of, *letter)? {
            return Ok(false);
        }
    }
    Ok(steps.len() == 2 * wanted.len())
}

/// Whether the steps of a life of a core over a state store are answered so.
fn lives(alloc: Global, keeper: MemKeeper, steps: &[u8], wanted: &[u8]) -> Result<bool, Fail> {
    match start(alloc, keeper, LARGE) {
        Ok(core) => live(alloc, &mut Stage { core, done: None }, steps, wanted),
        Err(_) => Ok(false),
    }
}

#[test]
fn lives_from_nothing(rt: HostRuntime) -> Result<(), Fail> {
    let alloc = rt.alloc();
    let table: [(&[u8], &[u8]); 7] = [
        // A job is the caller's that began it, and a row that was made is ready.
        (b">.b.w1b.e1b.g.f.e1b.", b"eidiajXkri"),
        // A row is declared anew while it is made, and then one above it.
        (b">.w1e1b.w2b.f.e1b.w0b.f.e0b.f.e0", b"edajdisajdisajkr"),
        // A row is declared below one that is made: it waits for that, and for what is removed then.
        (b">.w0e0b.w1e1b.f.b.f.b.f.e1", b"edajdaisjfjkr"),
        // A row that isn't stored stands; a begin is refused that would remove a kept row.
        (b">.w1e1b.!.f.e1F.F.w2e1!.b.b.e1b.f.", b"edaj!fr10da!Riajk"),
        // A row is invalidated while it is made.
        (b">.w1e1b.i1f.i1i0", b"edaj1s00"),
        // A row that a command holds isn't stale.
        (b">.w1e1b.f.D.C.A.b.", b"edajk000i"),
        // A command that isn't live does nothing.
        (b"i1w1e1", b"nnn"),
    ];
    for (steps, wanted) in table {
        let keeper = MemKeeper::new(alloc, Vec::new(alloc));
        assert_eq!(rt; lives(alloc, keeper, steps, wanted)?, true);
    }
    Ok(())
}

/// A core over devices that have nothing.
fn new_stage(alloc: Global) -> Result<Stage, Fail> {
    match start(alloc, MemKeeper::new(alloc, Vec::new(alloc)), LARGE) {
        Ok(core) => Ok(Stage { core, done: None }),
        Err(_) => Err(Fail::from(Memory)),
    }
}

/// What a core answers to the job of another one, as a letter; then each has its own job again.
fn meets(first: &mut Stage, second: &mut Stage) -> u8 {
    swap(&mut first.done, &mut second.done);
    let letter = finish(first, 0);
    swap(&mut first.done, &mut second.done);
    letter
}

#[test]
fn a_job_of_another_core_is_strange(rt: HostRuntime) -> Result<(), Fail> {
    let alloc = rt.alloc();
    let mut first = new_stage(alloc)?;
    let mut second = new_stage(alloc)?;
    let mut third = new_stage(alloc)?;
    assert_eq!(rt; live(alloc, &mut first, b">.w1e1b.", b"edaj")?, true);
    assert_eq!(rt; live(alloc, &mut second, b">.w2e1b.", b"edaj")?, true);
    assert_eq!(rt; live(alloc, &mut third, b">.w1e1b.", b"edaj")?, true);
    // The same card and another tree; then the same card and an equal tree, once the core's own job came back.
    assert_eq!(rt; meets(&mut first, &mut second), b'X');
    assert_eq!(rt; finish(&mut first, 0), b'k');
    assert_eq!(rt; meets(&mut first, &mut third), b'x');
    assert_eq!(rt; finish(&mut second, 0), b'k');
    Ok(())
}

#[test]
fn a_kept_row_is_flushed_and_cleaned(rt: HostRuntime) -> Result<(), Fail> {
    let alloc = rt.alloc();
    // It is kept in the first version, so it is due.
    let keeper = keeper_of(alloc, b"out/a", ABC)?;
    let told = lives(alloc, keeper, b"!.F.F.F.D.!.A.C.C.b.f.b.", b"!F101!F10jfi")?;
    assert_eq!(rt; told, true);
    Ok(())
}
