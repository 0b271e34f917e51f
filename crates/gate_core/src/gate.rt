ghost use Rattle.std.specs.Prelude.{◌≡◌, IfOk, length};
ghost use Rattle.std.specs.List.{list_any};
ghost use Rattle.mat_model.specs.Gate.{is_command, is_known};
ghost use Rattle.gate_core.specs.Gates.{IsGate, count_left, enter, leave, no_gate, place_of, reply_of, waiter_at};

use crate::lists::Lists;
use crate::numbers::has;
use mat_path::Memory;
use std::alloc::Global;
use std::marker::Model;

/// What a command that comes is answered.
#[derive(Clone, Copy, Debug, PartialEq, Eq)]
pub enum Entering {
    /// The command is live.
    Entered,
    /// The command is live, and so many soft ones went for it.
    Took(u64),
    /// Another state is live, this one, and the command would not wait for its own.
    Differs(u64),
    /// The command waits, at this place of the queue, from 1.
    Queued(u64),
    /// The command is live or waits already.
    Known,
    /// The command would wait, and 64 do already. Nothing changed.
    Full,
}

/// The gate: which commands are live, on which state, and who waits for which.
#[derive(Debug, Drop)]
pub struct Gate {
    lists: Lists,
}

impl Model for Gate {
    ghost use Rattle.mat_model.specs.Gate.{Gate as TheGate};
    ghost use Rattle.gate_core.specs.Lists.{IsSound, gate_in};

    ghost Value = { TheGate };

    ghost view = { λ gate. gate_in gate.lists };

    ghost invariant = { λ gate. IsSound gate.lists };
}

impl Gate {
    /// The gate with nobody, and with room for all that may ever come.
    pub fn new(alloc: Global) -> Result<Gate, Memory>
        ensures { IfOk result (λ gate. gate ≡ no_gate) }
    {
        let lists = Lists::new(alloc)?;
        Ok(Gate { lists })
    }

    /// A command comes and asks for a state. It is soft where a command of another state may end it, and refuses where it
    /// won't wait while another state is live. Takes no memory.
    #[tactic(auto, using(crate::proofs::Rules::entered_sound))]
    pub fn enter(&mut self, command: u32, state: u64, soft: bool, refuse: bool) -> Entering
        ensures answer { reply_of result ≡ (enter command state soft refuse self.old).reply }
        ensures gate { self.new ≡ (enter command state soft refuse self.old).gate }
    {
        self.lists.enter(command, state, soft, refuse)
    }

    /// A command goes, and those who wait are admitted from the front on, as long as that is possible. How many those are;
    /// none where the command is neither live nor waiting, and then nothing changes. Takes no memory.
    #[tactic(auto, using(crate::proofs::Rules::left_sound))]
    pub fn leave(&mut self, command: u32) -> Option<u64>
        ensures count { result ≡ count_left command self.old }
        ensures gate { self.new ≡ leave command self.old }
    {
        self.lists.leave(command)
    }

    /// The place of a command: 0 where it is live, else its place in the queue, from 1. Takes no memory.
    pub fn place(&self, command: u32) -> Option<u64>
        ensures { result ≡ place_of command self.now }
    {
        self.lists.place(command)
    }

    /// Whether a command is live or waits. Takes no memory.
    pub fn is_known(&self, command: u32) -> bool
        ensures { result ≡ is_known command self.now }
    {
        self.lists.is_known(command)
    }

    /// Whether a command is live. Takes no memory.
    pub fn is_live(&self, command: u32) -> bool
        ensures { result ≡ list_any (is_command command) self.now.live }
    {
        has(self.lists.live.as_slice(), command)
    }

    /// The live commands in order of admission. Takes no memory.
    pub fn live(&self) -> &[u32]
        ensures { result.now ≡ self.now.live }
    {
        self.lists.live.as_slice()
    }

    /// The soft commands that are live or wait, ascending. Takes no memory.
    pub fn soft(&self) -> &[u32]
        ensures { result.now ≡ self.now.soft }
    {
        self.lists.soft.as_slice()
    }

    /// The state of the live commands; none where nobody is live. Takes no memory.
    pub fn state(&self) -> Option<u64>
        ensures { result ≡ self.now.state }
    {
        self.lists.state
    }

    /// How many commands wait. Takes no memory.
    pub fn waiting_count(&self) -> u64
        ensures { result ≡ length self.now.waiting }
    {
        self.lists.waiting.len() as u64
    }

    /// The command that waits at a place of the queue, from 1, and the state that it asks for. Takes no memory.
    pub fn waiter(&self, k: u64) -> Option<(u32, u64)>
        ensures { result ≡ waiter_at k self.now }
    {
        self.lists.waiter(k)
    }

    /// The rules that a gate keeps at all times. It does nothing.
    pub fn keeps_rules(&self)
        ensures { IsGate self.now }
    {
        let _ = &self.lists;
    }
}
