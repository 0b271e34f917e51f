// A state store in memory.
ghost use Rattle.std.specs.Prelude.{◌≡◌, true, false, Some};
ghost use Rattle.mat_io.specs.Answers.{did_failed};
ghost use Rattle.mat_io.specs.Causes.{HasCause, faults_after};
ghost use Rattle.keep_port.specs.Rows.{Halts, Tells, after_call, after_remove, after_store, all_failed, all_want, ascend, at_once, did_want, will_fail};

use crate::port::{Halt, Keeper};
use crate::row::{All, RawRow, Touch};
use crate::rows::{all_of, removed, stored};
use mat_io::{Arm, Did};
use mat_path::{Memory, Path};
use std::alloc::Global;

/// A state store in memory. It fails only where it was armed.
#[derive(Drop)]
pub struct MemKeeper {
    rows: Vec<RawRow>,
    faults: u64,
    calls: u64,
    armed: bool,
    halted: bool,
    met: bool,
    alloc: Global,
    ghost ascending: { ascend rows.items ≡ true },
}

impl MemKeeper {
    ghost use Rattle.keep_port.specs.Memory.{keeper_faults, keeper_rows, keeper_watch};

    /// A state store of these rows, which stand in strict order of the bytes of their paths. It takes memory from `alloc` as its calls need it.
    pub fn new(alloc: Global, rows: Vec<RawRow>) -> MemKeeper
        requires { ascend rows.items ≡ true }
        ensures rows { keeper_rows result ≡ rows.items }
        ensures faults { keeper_faults result ≡ 0 }
        ensures watch { keeper_watch result ≡ record { calls = 0; armed = false; halted = false; met = false } }
    {
        MemKeeper {
            rows,
            faults: 0,
            calls: 0,
            armed: false,
            halted: false,
            met: false,
            alloc,
        }
    }

    // Begins a call: what it answers at once, if it isn't carried out.
    fn begin(&mut self) -> Option<Did>
        ensures rows { keeper_rows self.new ≡ keeper_rows self.old }
        ensures watch { keeper_watch self.new ≡ after_call (keeper_watch self.old) }
        ensures faults { keeper_faults self.new ≡ faults_after (will_fail (keeper_watch self.old)) (keeper_faults self.old) }
        ensures cause { HasCause (keeper_faults self.old) (keeper_faults self.new) (will_fail (keeper_watch self.old)) }
        ensures answer { result ≡ at_once (keeper_watch self.old) }
    {
        if self.halted {
            self.met = true;
            return Some(Did::NoMemory);
        }
        self.calls = self.calls.saturating_add(1);
        if self.armed {
            self.armed = false;
            self.faults = self.faults.saturating_add(1);
            return Some(Did::Failed);
        }
        None
    }
}

impl Keeper for MemKeeper {
    ghost use Rattle.keep_port.specs.Memory.{keeper_faults, keeper_rows, keeper_watch};

    ghost kept = { λ keeper. Some (keeper_rows keeper) };

    ghost fault_count = { keeper_faults };

    ghost watch = { λ keeper. Some (keeper_watch keeper) };

    fn store_rows(&mut self, rows: &[RawRow], touches: &[Touch]) -> Did
        ensures kept { keeper_rows self.new ≡ after_store rows.now touches.now result (keeper_rows self.old) }
        ensures cause { HasCause (keeper_faults self.old) (keeper_faults self.new) (did_failed result) }
        ensures watch { keeper_watch self.new ≡ after_call (keeper_watch self.old) }
        ensures fails { did_failed result ≡ will_fail (keeper_watch self.old) }
        ensures halts { Halts (Some (keeper_watch self.old)) (did_want result) }
        ensures counts { keeper_faults self.new ≡ faults_after (did_failed result) (keeper_faults self.old) }
    {
        if let Some(answer) = self.begin() {
            return answer;
        }
        match stored(self.alloc, self.rows.as_slice(), rows, touches) {
            Ok(new) => {
                self.rows = new;
                Did::Done
            }
            Err(Memory) => Did::NoMemory,
        }
    }

    fn remove(&mut self, paths: &[Path]) -> Did
        ensures kept { keeper_rows self.new ≡ after_remove paths.now result (keeper_rows self.old) }
        ensures cause { HasCause (keeper_faults self.old) (keeper_faults self.new) (did_failed result) }
        ensures watch { keeper_watch self.new ≡ after_call (keeper_watch self.old) }
        ensures fails { did_failed result ≡ will_fail (keeper_watch self.old) }
        ensures halts { Halts (Some (keeper_watch self.old)) (did_want result) }
        ensures counts { keeper_faults self.new ≡ faults_after (did_failed result) (keeper_faults self.old) }
    {
        if let Some(answer) = self.begin() {
            return answer;
        }
        match removed(self.alloc, self.rows.as_slice(), paths) {
            Ok(new) => {
                self.rows = new;
                Did::Done
            }
            Err(Memory) => Did::NoMemory,
        }
    }

    fn all(&mut self) -> All
        ensures rows { Tells (Some (keeper_rows self.old)) result }
        ensures kept { keeper_rows self.new ≡ keeper_rows self.old }
        ensures cause { HasCause (keeper_faults self.old) (keeper_faults self.new) (all_failed result) }
        ensures watch { keeper_watch self.new ≡ after_call (keeper_watch self.old) }
        ensures fails { all_failed result ≡ will_fail (keeper_watch self.old) }
        ensures halts { Halts (Some (keeper_watch self.old)) (all_want result) }
        ensures counts { keeper_faults self.new ≡ faults_after (all_failed result) (keeper_faults self.old) }
    {
        match self.begin() {
            Some(Did::Failed) => All::Failed,
            Some(_) => All::NoMemory,
            None => all_of(self.alloc, self.rows.as_slice()),
        }
    }

    fn faults(&self) -> u64 {
        self.faults
    }
}

impl Arm for MemKeeper {
    ghost use Rattle.keep_port.specs.Memory.{keeper_faults, keeper_rows, keeper_watch};

    ghost armed = { λ keeper. (keeper_watch keeper).armed };

    ghost calls_made = { λ keeper. (keeper_watch keeper).calls };

    fn arm(&mut self)
        ensures armed { (keeper_watch self.new).armed ≡ true }
        ensures calls { (keeper_watch self.new).calls ≡ (keeper_watch self.old).calls }
        ensures halted { (keeper_watch self.new).halted ≡ (keeper_watch self.old).halted }
        ensures met { (keeper_watch self.new).met ≡ (keeper_watch self.old).met }
        ensures rows { keeper_rows self.new ≡ keeper_rows self.old }
        ensures faults { keeper_faults self.new ≡ keeper_faults self.old }
    {
        self.armed = true;
    }

    fn calls(&self) -> u64 {
        self.calls
    }
}

impl Halt for MemKeeper {
    ghost use Rattle.keep_port.specs.Memory.{keeper_faults, keeper_rows, keeper_watch};

    ghost halted = { λ keeper. (keeper_watch keeper).halted };

    ghost met_one = { λ keeper. (keeper_watch keeper).met };

    fn halt(&mut self, on: bool)
        ensures halted { (keeper_watch self.new).halted ≡ on }
        ensures met { (keeper_watch self.new).met ≡ false }
        ensures calls { (keeper_watch self.new).calls ≡ (keeper_watch self.old).calls }
        ensures armed { (keeper_watch self.new).armed ≡ (keeper_watch self.old).armed }
        ensures rows { keeper_rows self.new ≡ keeper_rows self.old }
        ensures faults { keeper_faults self.new ≡ keeper_faults self.old }
    {
        self.halted = on;
        self.met = false;
    }

    fn met(&self) -> bool {
        self.met
    }
}
