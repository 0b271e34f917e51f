// A request is served and entered in the history.
ghost use Rattle.std.specs.Prelude.{◌≡◌, ◌≤◌, ◌+◌, ◌<◌, ◌^◌, ◌++◌, ◌∷◌, [], ℕ, true, false, nat_lt, max, length, if◌then◌else◌};
ghost use Rattle.mat_model.specs.declared.requests.Asked.{Asked};
ghost use Rattle.mat_model.specs.Legal.{IsLegalEntry, IsNumbered, MayAsk, end_of_time};
ghost use Rattle.model_laws.specs.RoomRules.{IsRoomy};
ghost use Rattle.mat_model.specs.History.{Point, after};
ghost use Rattle.mat_core.specs.Asks.{entry_of, request_asks};
ghost use Rattle.model_laws.specs.PointRules.{IsPoint};
ghost use Rattle.mat_core.specs.Books.{StandFor, book_in};
ghost use Rattle.mat_core.specs.Replacing.{AreRuled};
ghost use Rattle.mat_model.specs.Room.{full_asked};
ghost use Rattle.std.specs.Option.{is_some};
ghost use Rattle.mat_core.specs.Enters.{is_free_leave, leaving};
ghost use Rattle.mat_core.specs.Rooms.{HasReserves, spent_in};
ghost use Rattle.mat_core.specs.Served.{AreSameDevices, Serves, StandsStill, full_of, is_entered, is_quiet, is_want};

use crate::asking::{asked_of, once_more};
use crate::parts::Parts;
use crate::room::has_place;
use hall_lock::By;
use mat_model::{Entry, Event, Reply, Request};

// Whether a reply is entered in the history.
fn is_entered(reply: &Reply) -> bool
    ensures { result ≡ is_entered reply.now }
{
    !matches!(reply, Reply::Full(_) | Reply::NoMemory)
}

impl<D, K> Parts<D, K> {
    // Want of memory, which changes nothing.
    fn want(&self) -> Reply
        ensures { (number : ℕ) (request : Asked) → Serves number request result self.now self.now }
    {
        Reply::NoMemory
    }

    // Serves a request at the moment that the book has.
    fn serve(&mut self, request: Request) -> Reply
        requires bound { self.old.first + length self.old.history.items < 2 ^ 64 }
        requires rules { AreRuled (self.old.first + length self.old.history.items) self.old }
        ensures served { Serves (self.old.first + length self.old.history.items) (request_asks request) result self.old self.new }
        ensures leave { is_some (leaving (request_asks request)) ≡ true → is_want result ≡ false }
    {
        let number = self.first + self.history.len() as u64;
        match request {
            Request::Enter {
                command,
                state,
                soft,
                refuse,
            } => return self.serve_enter(number, command, state, soft, refuse),
            Request::Leave { command } => return self.serve_leave(command),
            Request::Write {
                command,
                path,
                bytes,
            } => return self.serve_write(number, command, path, bytes.into_vec()),
            Request::Declare {
                command,
                path,
                tree,
            } => return self.serve_declare(number, command, path, tree),
            Request::Copy {
                command,
                path,
                source,
            } => return self.serve_copy(number, command, path, &source),
            Request::Matches { command, path, sum } => {
                return self.serve_matches(command, &path, sum);
            }
            Request::Has { command, path } => return self.serve_has(command, &path),
            Request::Ensure { command, path } => return self.serve_ensure(number, command, &path),
            _ => return self.want(),
        }
    }

    // Whether a request is the leave of a command that may go. Takes no memory.
    fn is_free_leave(&self, request: &Request) -> bool
        ensures { result ≡ is_free_leave (request_asks request.now) (book_in self.now) }
    {
        match request {
            Request::Leave { command } => self.may_leave(*command),
            _ => false,
        }
    }

    /// Serves a request that calls no device, and enters it in the history. The leave of a command that may go takes no memory.
    pub fn call(&mut self, by: By, now: u64, request: Request) -> Reply
        requires bound { self.old.first + spent_in self.old + 2 < 2 ^ 64 }
        requires rules { AreRuled (self.old.first + length self.old.history.items) self.old }
        requires reserves { HasReserves self.old }
        ensures quiet { is_quiet result ≡ true }
        ensures stands { is_entered result ≡ true → (point : Point) → StandFor self.old point → IsPoint point → StandFor self.new (after point (entry_of by self.new.moment request result)) }
        ensures legal { is_entered result ≡ true → (point : Point) → StandFor self.old point → IsPoint point → IsRoomy self.old.base.limits point → MayAsk (request_asks request) → IsNumbered point (entry_of by self.new.moment request result) → nat_lt now end_of_time ≡ true → IsLegalEntry self.old.base.limits point (entry_of by self.new.moment request result) }
        ensures history { self.new.history.items ≡ (if is_entered result then self.old.history.items ++ entry_of by self.new.moment request result ∷ [] else self.old.history.items) }
        ensures devices { AreSameDevices self.old self.new }
        ensures jobs { self.new.jobs ≡ self.old.jobs }
        ensures unchanged { is_entered result ≡ false → StandsStill self.old self.new }
        ensures reserves { HasReserves self.new }
        ensures full { is_want result ≡ false → (point : Point) → StandFor self.old point → IsRoomy self.old.base.limits point → full_of result ≡ full_asked self.old.base.limits point (max point.book.now now) (request_asks request) }
        ensures leave { is_free_leave (request_asks request) (book_in self.old) ≡ true → is_want result ≡ false }
    {
        let wants = !self.is_free_leave(&request);
        let entries = self.owed() + 2;
        if !has_place(&mut self.history, wants, entries) {
            return Reply::NoMemory;
        }
        let Ok(asked) = asked_of(&request) else {
            return Reply::NoMemory;
        };
        let before = self.moment;
        self.moment = before.max(now);
        let reply = self.serve(request);
        if !is_entered(&reply) {
            self.moment = before;
            return reply;
        }
        self.history.push_reserved(Entry {
            by,
            now: self.moment,
            event: Event::Asked(asked),
            reply: once_more(&reply),
        });
        reply
    }
}
