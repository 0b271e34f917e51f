ghost use Rattle.std.specs.Prelude.{◌≡◌, [], true, count_by, is_ok, length, if◌then◌else◌};
ghost use Rattle.std.specs.List.{list_all, list_any, slice_get};
ghost use Rattle.std.specs.Option.{option_and_then, option_copied};
ghost use Rattle.mat_model.specs.Requests.{is_open_of};
ghost use Rattle.mat_model.specs.Tickets.{is_open};
ghost use Rattle.ticket_book.specs.Asked.{AreTickets, answer_all, asks_below, asks_below_from, asks_for, asks_over, has_number, is_due, is_earlier, is_from, lowest, ticket_at, with_ticket};

use crate::index::Index;
use crate::lists;
use mat_model::{Answer, Ticket};
use mat_path::{Memory, Path};
use std::alloc::Global;
use std::marker::Model;

/// All tickets of a book, seen as the list of them in order of number, and beside it the list of the numbers of those that are
/// answered, in the order in which they were.
#[derive(Debug, Drop)]
pub struct TicketBook {
    tickets: Vec<Ticket>,
    // There is room for the numbers of all tickets.
    answered: Vec<u64>,
    // No ticket before this place is open.
    done: usize,
    // The numbers of the open tickets by the path that they ask for, by each prefix of it, and by command.
    index: Index,
}

impl Model for TicketBook {
    ghost use Rattle.std.specs.Prelude.{◌≤◌, length};
    ghost use Rattle.std.specs.Vec.{vec_capacity};
    ghost use Rattle.ticket_book.specs.Asked.{AreTickets, Tickets};
    ghost use Rattle.ticket_book.specs.Index.{IsIndex};
    ghost use Rattle.ticket_book.specs.Done.{IsDone};

    ghost Value = { Tickets };

    ghost view = { λ book. record { all = book.tickets.items; answered = book.answered.items } };

    ghost invariant = { λ book. AreTickets (record { all = book.tickets.items; answered = book.answered.items }) × (length book.tickets.items ≤ vec_capacity book.answered) × IsDone book.done book.tickets.items × IsIndex book.tickets.items book.index.paths book.index.below book.index.commands };
}

impl TicketBook {
    /// The book with no ticket. Takes no memory.
    pub fn new(alloc: Global) -> TicketBook
        ensures all { result.all ≡ [] }
        ensures answered { result.answered ≡ [] }
    {
        TicketBook {
            tickets: Vec::new(alloc),
            answered: Vec::new(alloc),
            done: 0,
            index: Index::new(alloc),
        }
    }

    /// Puts an open ticket behind the others, whose numbers are lower. For want of memory nothing changes.
    pub fn ask(&mut self, ticket: Ticket) -> Result<(), Memory>
        requires later { list_all (is_earlier ticket.number) self.old.all ≡ true }
        requires open { is_open ticket ≡ true }
        ensures { self.new ≡ (if is_ok result then with_ticket ticket self.old else self.old) }
    {
        self.tickets.reserve(1)?;
        let more = self.tickets.len() - self.answered.len() + 1;
        self.answered.reserve(more)?;
        self.index.add(&ticket)?;
        self.tickets.push_reserved(ticket);
        Ok(())
    }

    /// How many tickets are open. Takes no memory, as the calls below.
    pub fn open_count(&self) -> u64
        ensures { result ≡ count_by is_open self.now.all }
    {
        (self.tickets.len() - self.answered.len()) as u64
    }

    /// How many tickets of a command are open.
    pub fn open_of(&self, command: u32) -> u64
        ensures { result ≡ count_by (is_open_of command) self.now.all }
    {
        self.index.count_of(command) as u64
    }

    /// Answers the open tickets that ask for a path at or below this one, at an entry of the history.
    pub fn answer_row(&mut self, path: &Path, at: u64, answer: Answer)
        ensures { self.new ≡ answer_all (asks_below path.now) at answer self.old }
    {
        let known = self.answered.len();
        self.index.list_row(path, &mut self.answered);
        lists::answer_from(
            &mut self.tickets,
            &mut self.index,
            &mut self.answered,
            &mut self.done,
            known,
            at,
            answer,
        );
    }

    /// Answers the open tickets that ask for a path that overlaps this one.
    pub fn answer_overlap(&mut self, path: &Path, at: u64, answer: Answer)
        ensures { self.new ≡ answer_all (asks_over path.now) at answer self.old }
    {
        let known = self.answered.len();
        self.index.is_in_order();
        self.index.list_overlap(path, &mut self.answered);
        lists::answer_from(
            &mut self.tickets,
            &mut self.index,
            &mut self.answered,
            &mut self.done,
            known,
            at,
            answer,
        );
    }

    /// Answers the open tickets of a command.
    pub fn answer_command(&mut self, command: u32, at: u64, answer: Answer)
        ensures { self.new ≡ answer_all (asks_for command) at answer self.old }
    {
        let known = self.answered.len();
        self.index.list_of(command, &mut self.answered);
        lists::answer_from(
            &mut self.tickets,
            &mut self.index,
            &mut self.answered,
            &mut self.done,
            known,
            at,
            answer,
        );
    }

    /// Answers the ticket of a number, which is open.
    pub fn answer_one(&mut self, number: u64, at: u64, answer: Answer)
        requires open { list_any (is_due (has_number number)) self.old.all ≡ true }
        ensures { self.new ≡ answer_all (has_number number) at answer self.old }
    {
        let known = self.answered.len();
        self.answered.push_reserved(number);
        lists::answer_from(
            &mut self.tickets,
            &mut self.index,
            &mut self.answered,
            &mut self.done,
            known,
            at,
            answer,
        );
    }

    /// The lowest number of an open ticket that asks for a path at or below this one.
    pub fn lowest_below(&self, path: &Path) -> Option<u64>
        ensures { result ≡ lowest (asks_below path.now) self.now.all }
    {
        self.next_below(path, 0)
    }

    /// The lowest number, from one on, of an open ticket that asks for a path at or below this one.
    pub fn next_below(&self, path: &Path, from: u64) -> Option<u64>
        ensures { result ≡ lowest (asks_below_from path.now from) self.now.all }
    {
        self.index.next_under(path, from)
    }

    /// The lowest number of an open ticket that isn't below this one.
    pub fn next_open(&self, from: u64) -> Option<u64>
        ensures { result ≡ lowest (is_from from) self.now.all }
    {
        lists::lowest_from(self.tickets.as_slice(), self.done, from)
    }

    /// The ticket of a number.
    pub fn get(&self, number: u64) -> Option<&Ticket>
        ensures { option_copied result ≡ ticket_at self.now.all number }
    {
        lists::ticket_at(self.tickets.as_slice(), number)
    }

    /// The k-th ticket in order of number.
    pub fn at(&self, k: u64) -> Option<&Ticket>
        ensures { option_copied result ≡ slice_get self.now.all k }
    {
        self.tickets.get(k as usize)
    }

    /// How many tickets are answered.
    pub fn answered_count(&self) -> u64
        ensures { result ≡ length self.now.answered }
    {
        self.answered.len() as u64
    }

    /// The k-th ticket in the order in which they were answered; those that one call answers are in order of number.
    pub fn answered(&self, k: u64) -> Option<&Ticket>
        ensures { option_copied result ≡ option_and_then (ticket_at self.now.all) (slice_get self.now.answered k) }
    {
        match self.answered.get(k as usize) {
            Some(number) => self.get(*number),
            None => None,
        }
    }

    /// What is true of a book's tickets at all times. It does nothing.
    pub fn are_tickets(&self)
        ensures { AreTickets self.now }
    {
        let _tickets = &self.tickets;
    }
}
