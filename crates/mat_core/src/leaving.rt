// A command that goes.
ghost use Rattle.std.specs.Prelude.{◌≡◌, ℕ, true, false, count_by, filter};
ghost use Rattle.mat_model.specs.declared.answers.Reply.TheVariants as reply;
ghost use Rattle.mat_model.specs.declared.requests.Asked.TheVariants as asked;
ghost use Rattle.mat_model.specs.Gate.{depart, is_known};
ghost use Rattle.mat_model.specs.Requests.{is_hold_of_other, is_open_of, leave};
ghost use Rattle.mat_core.specs.Books.{book_in};
ghost use Rattle.mat_core.specs.Enters.{may_leave};
ghost use Rattle.mat_core.specs.Served.{IsBesideBook, Serves, is_want};

use crate::parts::Parts;
use gate_core::Gate;
use mat_model::Reply;

// A command that is live or waits goes; how many are admitted then.
fn depart(gate: &mut Gate, command: u32) -> u64
    requires { is_known command gate.old ≡ true }
    ensures count { result ≡ (depart command gate.old).count }
    ensures gate { gate.new ≡ (depart command gate.old).gate }
{
    match gate.leave(command) {
        Some(count) => count,
        None => unreachable!(),
    }
}

impl<D, K> Parts<D, K> {
    /// Whether a command may go: it is known, and has no open ticket. Takes no memory, as the call below.
    pub fn may_leave(&self, command: u32) -> bool
        ensures { result ≡ may_leave command (book_in self.now) }
    {
        self.gate.is_known(command) && self.tickets.open_of(command) == 0
    }

    /// A command goes, unless it is not known or has open tickets.
    pub fn serve_leave(&mut self, command: u32) -> Reply
        ensures served { (number : ℕ) → Serves number (asked.Leave command) result self.old self.new }
        ensures only { is_want result ≡ false }
    {
        if !self.gate.is_known(command) {
            return self.if_room(1, Reply::Unknown);
        }
        let open = self.tickets.open_of(command);
        if open != 0 {
            return self.if_room(1, Reply::Busy(open));
        }
        Reply::Left(self.depart(command))
    }

    // A command that is known and has no open ticket goes; how many are admitted then.
    fn depart(&mut self, command: u32) -> u64
        requires known { is_known command self.old.gate ≡ true }
        requires idle { count_by (is_open_of command) self.old.tickets.all ≡ 0 }
        ensures served { record { reply = reply.Left result; book = book_in self.new } ≡ leave command (book_in self.old) }
        ensures holds { self.new.holds ≡ filter (is_hold_of_other command) self.old.holds }
        ensures tickets { self.new.tickets ≡ self.old.tickets }
        ensures rest { IsBesideBook self.old self.new }
    {
        self.holds.drop_all(command);
        depart(&mut self.gate, command)
    }
}
