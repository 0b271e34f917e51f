// The lists of a gate, and each step on them.
ghost use Rattle.std.specs.Prelude.{◌≡◌, ◌<◌, ◌≤◌, length, filter, IfOk};
ghost use Rattle.std.specs.List.{list_any, position};
ghost use Rattle.std.specs.Option.{is_some, unwrap_or};
ghost use Rattle.std.specs.VecDeque.{deque_capacity};
ghost use Rattle.mat_model.specs.Gate.{admits, come, departed, is_known, is_other_waiter, is_state, is_waiter, may_take, other_state, take_over, wait};
ghost use Rattle.gate_core.specs.Gates.{IsGate, count_left, enter, leave, no_gate, place_of, reply_of, turned_away, waiter_at};
ghost use Rattle.gate_core.specs.Lists.{IsRoomy, admit_all, admit_first, gate_in};

use crate::gate::Entering;
use crate::numbers::{are_soft, drop_all, drop_number, has, put_soft};
use mat_model::Waiter;
use mat_path::Memory;
use std::alloc::Global;
use std::collections::VecDeque;

// How many commands are live at most, and how many wait at most.
const MOST: usize = 64;

// The live commands in order of admission, their state, the queue, and the soft commands among both, ascending.
#[derive(Debug, Drop)]
pub(crate) struct Lists {
    pub(crate) live: Vec<u32>,
    pub(crate) state: Option<u64>,
    pub(crate) waiting: VecDeque<Waiter>,
    pub(crate) soft: Vec<u32>,
}

// Whether a waiter is this command.
fn is_waiter(command: u32, waiter: &Waiter) -> bool
    ensures { result ≡ is_waiter command waiter.now }
{
    waiter.command == command
}

// Whether the live commands may have a state: nobody is live, or it is theirs.
fn is_state(state: u64, live: Option<u64>) -> bool
    ensures { result ≡ is_state state live }
{
    match live {
        None => true,
        Some(live) => live == state,
    }
}

// The state of the live commands, where it is another one.
fn other_state(state: u64, live: Option<u64>) -> Option<u64>
    ensures { result ≡ other_state state live }
{
    match live {
        Some(live) if live != state => Some(live),
        _ => None,
    }
}

// Takes a command out of the queue.
fn drop_waiter(waiting: &mut VecDeque<Waiter>, command: u32)
    ensures items { waiting.new.items ≡ filter (is_other_waiter command) waiting.old.items }
    ensures capacity { deque_capacity waiting.new ≡ deque_capacity waiting.old }
{
    waiting.retain(|waiter| !is_waiter(command, waiter));
}

impl Lists {
    // Lists with nobody, and with all the room that they will ever need.
    pub(crate) fn new(alloc: Global) -> Result<Lists, Memory>
        ensures gate { IfOk result (λ lists. gate_in lists ≡ no_gate) }
        ensures room { IfOk result (λ lists. IsRoomy lists) }
    {
        Ok(Lists {
            live: Vec::with_capacity(alloc, MOST)?,
            state: None,
            waiting: VecDeque::with_capacity(alloc, MOST)?,
            soft: Vec::with_capacity(alloc, 2 * MOST)?,
        })
    }

    // Whether a command waits.
    pub(crate) fn is_waiting(&self, command: u32) -> bool
        ensures { result ≡ list_any (is_waiter command) self.now.waiting.items }
    {
        self.waiting.iter().any(|waiter| is_waiter(command, waiter))
    }

    // Whether a command is live or waits.
    pub(crate) fn is_known(&self, command: u32) -> bool
        ensures { result ≡ is_known command (gate_in self.now) }
    {
        has(self.live.as_slice(), command) || self.is_waiting(command)
    }

    // Whether a command that asks for a state may be live at once.
    pub(crate) fn admits(&self, state: u64) -> bool
        ensures { result ≡ admits state (gate_in self.now) }
    {
        self.waiting.is_empty() && self.live.len() < MOST && is_state(state, self.state)
    }

    // Whether a command that asks for a state may take the place of those that are live.
    pub(crate) fn may_take(&self, state: u64) -> bool
        ensures { result ≡ may_take state (gate_in self.now) }
    {
        self.waiting.is_empty()
            && !is_state(state, self.state)
            && are_soft(self.soft.as_slice(), self.live.as_slice())
    }

    // A command that comes is live beside the others.
    pub(crate) fn come(&mut self, command: u32, state: u64, soft: bool)
        requires room { IsRoomy self.old }
        requires few { length self.old.live.items < 64 }
        requires free { length self.old.soft.items < 128 }
        ensures gate { gate_in self.new ≡ come command state soft (gate_in self.old) }
        ensures room { IsRoomy self.new }
    {
        self.live.push_reserved(command);
        self.state = Some(state);
        put_soft(&mut self.soft, command, soft);
    }

    // A command that comes waits at the end of the queue.
    pub(crate) fn wait(&mut self, command: u32, state: u64, soft: bool)
        requires room { IsRoomy self.old }
        requires short { length self.old.waiting.items < 64 }
        requires free { length self.old.soft.items < 128 }
        ensures gate { gate_in self.new ≡ wait command state soft (gate_in self.old) }
        ensures room { IsRoomy self.new }
    {
        self.waiting.push_back_reserved(Waiter { command, state });
        put_soft(&mut self.soft, command, soft);
    }

    // A command that comes is live in the place of those that are.
    pub(crate) fn take_over(&mut self, command: u32, state: u64, soft: bool)
        requires room { IsRoomy self.old }
        requires free { length self.old.soft.items < 128 }
        ensures gate { gate_in self.new ≡ take_over command state soft (gate_in self.old) }
        ensures room { IsRoomy self.new }
    {
        drop_all(&mut self.soft, self.live.as_slice());
        self.live.clear();
        self.live.push_reserved(command);
        self.state = Some(state);
        put_soft(&mut self.soft, command, soft);
    }

    // A command is neither live nor waiting any more.
    fn drop_command(&mut self, command: u32)
        requires room { IsRoomy self.old }
        ensures gate { gate_in self.new ≡ departed command (gate_in self.old) }
        ensures room { IsRoomy self.new }
    {
        drop_number(&mut self.live, command);
        drop_waiter(&mut self.waiting, command);
        drop_number(&mut self.soft, command);
        if self.live.is_empty() {
            self.state = None;
        }
    }

    // The front of the queue is live, if it may be; whether it is.
    fn admit_first(&mut self) -> bool
        requires room { IsRoomy self.old }
        ensures yes_or_no { result ≡ is_some (admit_first (gate_in self.old)) }
        ensures gate { gate_in self.new ≡ unwrap_or (admit_first (gate_in self.old)) (gate_in self.old) }
        ensures room { IsRoomy self.new }
    {
        let Some(&front) = self.waiting.front() else {
            return false;
        };
        if self.live.len() >= MOST || !is_state(front.state, self.state) {
            return false;
        }
        let _ = self.waiting.pop_front();
        self.live.push_reserved(front.command);
        self.state = Some(front.state);
        true
    }

    // Those who wait are live, from the front on, as long as that is possible; how many those are.
    fn admit(&mut self) -> u64
        requires room { IsRoomy self.old }
        requires short { length self.old.waiting.items ≤ 64 }
        ensures count { result ≡ (admit_all (gate_in self.old)).count }
        ensures gate { gate_in self.new ≡ (admit_all (gate_in self.old)).gate }
        ensures room { IsRoomy self.new }
    {
        let mut count = 0;
        'admitting: while self.admit_first() {
            count += 1;
        }
        count
    }

    // A command that can't be live waits, or is told the live state, or that the queue is full.
    fn turn_away(&mut self, command: u32, state: u64, soft: bool, refuse: bool) -> Entering
        requires room { IsRoomy self.old }
        requires rules { IsGate (gate_in self.old) }
        ensures answer { reply_of result ≡ (turned_away command state soft refuse (gate_in self.old)).reply }
        ensures gate { gate_in self.new ≡ (turned_away command state soft refuse (gate_in self.old)).gate }
        ensures room { IsRoomy self.new }
    {
        if refuse {
            if let Some(live) = other_state(state, self.state) {
                return Entering::Differs(live);
            }
        }
        let before = self.waiting.len();
        if before >= MOST {
            return Entering::Full;
        }
        self.wait(command, state, soft);
        Entering::Queued(before as u64 + 1)
    }

    // A command comes.
    pub(crate) fn enter(&mut self, command: u32, state: u64, soft: bool, refuse: bool) -> Entering
        requires room { IsRoomy self.old }
        requires rules { IsGate (gate_in self.old) }
        ensures answer { reply_of result ≡ (enter command state soft refuse (gate_in self.old)).reply }
        ensures gate { gate_in self.new ≡ (enter command state soft refuse (gate_in self.old)).gate }
        ensures room { IsRoomy self.new }
    {
        if self.is_known(command) {
            return Entering::Known;
        }
        if self.admits(state) {
            self.come(command, state, soft);
            return Entering::Entered;
        }
        if self.may_take(state) {
            let count = self.live.len() as u64;
            self.take_over(command, state, soft);
            return Entering::Took(count);
        }
        self.turn_away(command, state, soft, refuse)
    }

    // A command goes, and others are admitted; how many those are.
    #[tactic(auto, using(crate::proofs::Rules::departed_queue))]
    pub(crate) fn leave(&mut self, command: u32) -> Option<u64>
        requires room { IsRoomy self.old }
        requires rules { IsGate (gate_in self.old) }
        ensures count { result ≡ count_left command (gate_in self.old) }
        ensures gate { gate_in self.new ≡ leave command (gate_in self.old) }
        ensures room { IsRoomy self.new }
    {
        if !self.is_known(command) {
            return None;
        }
        self.drop_command(command);
        Some(self.admit())
    }

    // The place of a command: 0 where it is live, else its place in the queue, from 1.
    pub(crate) fn place(&self, command: u32) -> Option<u64>
        ensures { result ≡ place_of command (gate_in self.now) }
    {
        if has(self.live.as_slice(), command) {
            return Some(0);
        }
        match self.queue_place(command) {
            Some(place) => Some(place as u64 + 1),
            None => None,
        }
    }

    // The place of a command in the queue, from 0.
    fn queue_place(&self, command: u32) -> Option<usize>
        ensures { result ≡ position (is_waiter command) self.now.waiting.items }
    {
        self.waiting
            .iter()
            .position(|waiter| is_waiter(command, waiter))
    }

    // Who waits at a place of the queue, from 1.
    pub(crate) fn waiter(&self, k: u64) -> Option<(u32, u64)>
        ensures { result ≡ waiter_at k (gate_in self.now) }
    {
        if k == 0 {
            return None;
        }
        match self.waiting.get((k - 1) as usize) {
            Some(waiter) => Some((waiter.command, waiter.state)),
            None => None,
        }
    }
}
