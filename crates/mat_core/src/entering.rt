// A command that comes, and where a command is.
ghost use Rattle.std.specs.Prelude.{◌≡◌, false, length, map, take};
ghost use Rattle.std.specs.List.{filter};
ghost use Rattle.mat_model.specs.declared.requests.Asked.TheVariants as asked;
ghost use Rattle.mat_model.specs.Requests.{is_hold_beside, passed, preempted_ticket};
ghost use Rattle.gate_core.specs.Gates.{enter, reply_of};
ghost use Rattle.mat_core.specs.Books.{book_in};
ghost use Rattle.mat_core.specs.Enters.{is_takeover, place_in};
ghost use Rattle.mat_core.specs.Served.{IsBesideBook, Serves, is_want};

use crate::core_::Place;
use crate::parts::Parts;
use gate_core::{Entering, Gate};
use holder_book::HolderBook;
use mat_model::{Answer, Limit, Reply};
use ticket_book::TicketBook;

// How many commands are live at most.
const MOST: usize = 64;

// The live commands, in front of zeros.
fn live_of(gate: &Gate) -> [u32; MOST]
    ensures { take (length gate.now.live) result ≡ gate.now.live }
{
    gate.keeps_rules();
    let live = gate.live();
    let mut commands = [0; MOST];
    commands[..live.len()].copy_from_slice(live);
    commands
}

// A command comes to the gate.
fn come(gate: &mut Gate, command: u32, state: u64, soft: bool, refuse: bool) -> Entering
    ensures answer { reply_of result ≡ (enter command state soft refuse gate.old).reply }
    ensures took { is_takeover (reply_of result) ≡ (enter command state soft refuse gate.old).took }
    ensures gate { gate.new ≡ (enter command state soft refuse gate.old).gate }
{
    gate.enter(command, state, soft, refuse)
}

// The holds of some commands go, and their open tickets are answered, at an entry, that a command took their place.
fn preempt(
    holds: &mut HolderBook,
    tickets: &mut TicketBook,
    commands: &[u32],
    number: u64,
    command: u32,
)
    ensures holds { holds.new ≡ filter (is_hold_beside commands.now) holds.old }
    ensures tickets { tickets.new.all ≡ map (preempted_ticket number command commands.now) tickets.old.all }
{
    for gone in commands {
        holds.drop_all(*gone);
        tickets.answer_command(*gone, number, Answer::Preempted(command));
    }
}

// Where a command is.
pub(crate) fn place_of(gate: &Gate, command: u32) -> Place
    ensures { result ≡ place_in command gate.now }
{
    match gate.place(command) {
        None => Place::Absent,
        Some(0) => Place::Live,
        Some(place) => Place::Waiting(place),
    }
}

impl<D, K> Parts<D, K> {
    /// A command comes and asks for a state. It is soft where a command of another state may end it, and refuses where it
    /// won't wait while another state is live. Takes no memory.
    pub fn serve_enter(
        &mut self,
        number: u64,
        command: u32,
        state: u64,
        soft: bool,
        refuse: bool,
    ) -> Reply
        ensures served { Serves number (asked.Enter command state soft refuse) result self.old self.new }
        ensures only { is_want result ≡ false }
    {
        if self.lacks_entries(2) {
            return Reply::Full(Limit::History);
        }
        self.enter(number, command, state, soft, refuse)
    }

    // A command comes to the gate, and those that go for it are preempted.
    fn enter(&mut self, number: u64, command: u32, state: u64, soft: bool, refuse: bool) -> Reply
        ensures served { record { reply = result; book = book_in self.new } ≡ passed number command (enter command state soft refuse self.old.gate) (book_in self.old) }
        ensures rest { IsBesideBook self.old self.new }
        ensures only { is_want result ≡ false }
    {
        let live = live_of(&self.gate);
        let count = self.gate.live().len();
        match come(&mut self.gate, command, state, soft, refuse) {
            Entering::Took(gone) => {
                let live = &live[..count];
                preempt(&mut self.holds, &mut self.tickets, live, number, command);
                Reply::Took(gone)
            }
            Entering::Entered => Reply::Entered,
            Entering::Differs(live) => Reply::Differs(live),
            Entering::Queued(place) => Reply::Queued(place),
            Entering::Known => Reply::Known,
            Entering::Full => Reply::Full(Limit::Waiting),
        }
    }
}
