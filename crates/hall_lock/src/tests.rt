ghost use Rattle.std.specs.Prelude.{◌≡◌, ◌+◌, ◌*◌, ◌-◌, ◌<◌, [], length, All, IfOk, vec_capacity};
ghost use Rattle.std.specs.Thread.{IsSync};
ghost use Rattle.hall_lock.specs.Passes.{IsPassOf};

use crate::{Act, By, Chronicle, HallLock, Pass};
use std::alloc::{AllocError, Global};
use std::sync::Wait;
use std::test::Fail;
use std::thread::{self, Threads};

/// A list of who appended to it.
#[derive(Drop)]
struct Log {
    entries: Vec<By>,
    mark: u64,
}

impl Chronicle for Log {
    type Entry = By;

    type Base = u64;

    ghost by = { λ entry. entry };

    ghost history = { λ log. log.entries.items };

    ghost base = { λ log. log.mark };

    fn length(&self) -> u64 {
        self.entries.len() as u64
    }
}

/// Appends where there is room, and counts how often it ran.
struct Append {
    runs: u64,
}

impl Act<Log> for Append {
    ghost use Rattle.std.specs.Prelude.{min, ◌≡◌, ◌+◌, ◌-◌, ◌^◌};

    ghost asks = { λ act base front. Unit {0} };

    ghost does = { λ act before by after next. next.runs ≡ min (act.runs + 1) (2 ^ 64 - 1) };

    fn act(&mut self, value: &mut Log, by: By) {
        self.runs = self.runs.saturating_add(1);
        if value.entries.len() < value.entries.capacity() {
            value.entries.push_reserved(by);
        }
    }
}

fn is_sent<X: Send>(_: &X) {}

fn is_shared<X: Send + Sync>(_: &X) {}

/// A lock may be shared by threads, and a pass sent to one, where the value may be sent.
fn cross_threads<T: Chronicle + Send>(lock: &HallLock<T>, pass: &Pass<T>) {
    is_shared(lock);
    is_sent(pass);
}

fn take_turns<R: Wait>(rt: &R, lock: &HallLock<Log>, pass: &mut Pass<Log>, turns: u64)
    requires { IsPassOf lock.now pass.old }
    ensures { IsPassOf lock.now pass.new }
{
    let mut act = Append { runs: 0 };
    for _ in 0..turns {
        lock.turn(rt, pass, &mut act);
    }
    let Append { runs: _ } = act;
}

/// Each pass takes its turns in a thread of its own.
fn all_turns<R: Threads + Wait + Sync>(
    rt: &R,
    lock: &HallLock<Log>,
    passes: &mut [Pass<Log>],
    turns: u64,
)
    requires { All (λ pass. IsPassOf lock.now pass) passes.old }
    ensures { All (λ pass. IsPassOf lock.now pass) passes.new }
{
    let each = |_: usize, pass: &mut Pass<Log>|
        requires { IsSync R.row × IsPassOf lock.now pass.now }
        ensures { IsPassOf lock.entry.now pass.exit.now }
    { take_turns(rt, lock, pass, turns) };
    if !passes.is_empty() {
        let threads = passes.len();
        thread::for_each_mut(rt, passes, threads, &each);
    }
}

fn new_log(alloc: Global, room: usize) -> Result<Log, AllocError>
    ensures { IfOk result (λ log. log.entries.items ≡ []) }
{
    Ok(Log {
        entries: Vec::with_capacity(alloc, room)?,
        mark: 7,
    })
}

fn all_in_turn<R: Threads + Wait + Sync>(
    rt: &R,
    lock: &HallLock<Log>,
    passes: &mut Vec<Pass<Log>>,
    turns: u64,
)
    requires { All (λ pass. IsPassOf lock.now pass) passes.old.items }
    ensures own { All (λ pass. IsPassOf lock.now pass) passes.new.items }
    ensures count { length passes.new.items ≡ length passes.old.items }
    ensures room { vec_capacity passes.new ≡ vec_capacity passes.old }
{
    all_turns(rt, lock, passes.as_mut_slice(), turns);
}

fn take_last(lock: &HallLock<Log>, passes: &mut Vec<Pass<Log>>) -> Pass<Log>
    requires some { 0 < length passes.old.items }
    requires own { All (λ pass. IsPassOf lock.now pass) passes.old.items }
    ensures last { IsPassOf lock.now result }
    ensures own { All (λ pass. IsPassOf lock.now pass) passes.new.items }
    ensures count { length passes.new.items + 1 ≡ length passes.old.items }
    ensures room { vec_capacity passes.new ≡ vec_capacity passes.old }
{
    let _ = lock;
    let Some(last) = passes.pop() else {
        unreachable!()
    };
    last
}

/// All callers but the last take so many turns, each in a thread. The list then, and what the last one is told.
fn run<R: Threads + Wait + Sync>(
    rt: &R,
    alloc: Global,
    callers: u32,
    turns: u64,
    room: usize,
) -> Option<(Log, u64)>
    requires { 0 < callers }
{
    let log = new_log(alloc, room).ok()?;
    let (lock, mut passes) = HallLock::new(alloc, log, callers).ok()?;
    let mut last = take_last(&lock, &mut passes);
    all_in_turn(rt, &lock, &mut passes, turns);
    let told = lock.look(&mut last);
    passes.push_reserved(last);
    Some((lock.close(passes), told))
}

/// The caller's entries, or None where their numbers have a gap.
fn count_of(entries: &[By], caller: u32) -> Option<u64> {
    let mut next = 0;
    for by in entries {
        if by.caller == caller {
            if by.number != next {
                return None;
            }
            next = next.saturating_add(1);
        }
    }
    Some(next)
}

#[test]
fn two_threads_take_a_thousand_turns_each(rt: HostRuntime) -> Result<(), Fail> {
    let Some((log, told)) = run(&rt, rt.alloc(), 3, 1000, 2000) else {
        panic!(rt; "out of memory")
    };
    assert!(rt; told == 2000 && log.entries.len() == 2000 && log.mark == 7);
    let entries = log.entries.as_slice();
    assert!(rt; count_of(entries, 0) == Some(1000) && count_of(entries, 1) == Some(1000));
    assert!(rt; count_of(entries, 2) == Some(0));
    Ok(())
}

#[test]
fn eight_callers_end(rt: HostRuntime) -> Result<(), Fail> {
    let Some((log, told)) = run(&rt, rt.alloc(), 9, 100, 700) else {
        panic!(rt; "out of memory")
    };
    // The last hundred turns find no room, and append nothing.
    assert!(rt; told == 700 && log.entries.len() == 700);
    let mut all = 0u64;
    for caller in 0..9 {
        let Some(count) = count_of(log.entries.as_slice(), caller) else {
            panic!(rt; "the numbers of {caller} have a gap")
        };
        all = all.saturating_add(count);
    }
    assert!(rt; all == 700);
    Ok(())
}

#[test]
fn a_pass_counts_its_own(rt: HostRuntime) -> Result<(), Fail> {
    let Ok((lock, mut passes)) = HallLock::new(rt.alloc(), new_log(rt.alloc(), 2)?, 1) else {
        panic!(rt; "out of memory")
    };
    let mut pass = take_last(&lock, &mut passes);
    assert!(rt; pass.caller() == 0 && pass.number() == 0 && pass.front() == 0);
    cross_threads(&lock, &pass);
    take_turns(&rt, &lock, &mut pass, 3);
    assert!(rt; pass.number() == 2 && pass.front() == 2);
    Ok(())
}
