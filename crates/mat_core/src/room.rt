// Whether there is room for more.
ghost use Rattle.std.specs.Prelude.{◌≡◌, ◌+◌, ◌<◌, ◌≤◌, ◌^◌, nat_lt, count_by, length, true, false};
ghost use Rattle.std.specs.Vec.{vec_capacity};
ghost use Rattle.mat_model.specs.Tickets.{is_open, with_hold};
ghost use Rattle.mat_core.specs.Rooms.{full_grant, if_room, spent_in};

use crate::parts::Parts;
use mat_model::{Entry, Limit, Reply};
use mat_path::Path;

/// Room in a history for so many entries more, if it wants any; whether there is.
pub fn has_place(history: &mut Vec<Entry>, wants: bool, entries: usize) -> bool
    ensures items { history.new.items ≡ history.old.items }
    ensures capacity { vec_capacity history.old ≤ vec_capacity history.new }
    ensures place { result ≡ true → wants ≡ true → length history.new.items + entries ≤ vec_capacity history.new }
    ensures only { wants ≡ false → result ≡ true }
{
    if !wants {
        return true;
    }
    history.reserve(entries).is_ok()
}

impl<D, K> Parts<D, K> {
    /// Whether so many entries more don't fit, beside those that are reserved.
    pub fn lacks_entries(&self, entries: u64) -> bool
        ensures { result ≡ nat_lt self.now.base.limits.history (spent_in self.now + entries) }
    {
        let spent = self.history.len() as u128
            + self.jobs.len() as u128
            + self.gate.live().len() as u128
            + self.gate.waiting_count() as u128;
        (self.base.limits.history as u128) < spent + entries as u128
    }

    /// How many entries are reserved beside those that are there.
    pub fn owed(&self) -> usize
        requires { spent_in self.now < 2 ^ 64 }
        ensures { result + length self.now.history.items ≡ spent_in self.now }
    {
        self.jobs.len() + self.gate.live().len() + self.gate.waiting_count() as usize
    }

    /// A reply that wants so many entries, or that there is no room for them.
    pub fn if_room(&self, entries: u64, reply: Reply) -> Reply
        ensures { result ≡ if_room self.now entries reply }
    {
        if self.lacks_entries(entries) {
            return Reply::Full(Limit::History);
        }
        reply
    }

    /// The limit that an entry would pass which gives a command a hold on a path, and opens a ticket, if it asks for one.
    pub fn full_grant(&self, command: u32, path: &Path, asks: bool) -> Option<Limit>
        ensures { result ≡ full_grant self.now command path.now asks }
    {
        if self.lacks_entries(1) {
            return Some(Limit::History);
        }
        if asks && self.lacks_ticket() {
            return Some(Limit::Asked);
        }
        if self.lacks_hold(command, path) {
            return Some(Limit::Holds);
        }
        None
    }

    // Whether one open ticket more doesn't fit.
    fn lacks_ticket(&self) -> bool
        ensures { result ≡ nat_lt self.now.base.limits.asked (count_by is_open self.now.tickets.all + 1) }
    {
        (self.base.limits.asked as u128) < self.tickets.open_count() as u128 + 1
    }

    // Whether a hold of a command on a path doesn't fit. One that is there already needs no room.
    fn lacks_hold(&self, command: u32, path: &Path) -> bool
        ensures { result ≡ nat_lt self.now.base.limits.holds (length (with_hold command path.now self.now.holds)) }
    {
        let new = !self.holds.has(command, path);
        (self.base.limits.holds as u128) < self.holds.count() as u128 + new as u128
    }
}
