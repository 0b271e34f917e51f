// The core.
ghost use Rattle.std.specs.Prelude.{◌≡◌, ◌≤◌, ◌+◌, find, length, IfOk};
ghost use Rattle.std.specs.Option.{option_copied, option_map};
ghost use Rattle.mat_model.specs.WorkState.{stamp_of};
ghost use Rattle.row_book.specs.Stocks.{row_of};
ghost use Rattle.job_book.specs.Jobs.{job_of};
ghost use Rattle.mat_core.specs.Polls.{owner_of, poll_in};

use crate::begins::Begun;
use crate::ends::Finished;
use crate::entering::place_of;
use crate::keeping::asks_store;
use crate::parts::Parts;
use hall_lock::By;
use job_book::Running;
use job_run::Done;
use keep_port::Keeper;
use mat_model::{Answer, Book, Card, Entry, Reply, Request, Ticket};
use mat_path::{Memory, Path};
use path_trie::Steps;
use region_port::{Disk, Region};
use row_book::Stock;
use std::marker::Model;
use std::sync::ledger::Ledger;

/// Where a command is.
#[derive(Clone, Copy, Debug, PartialEq, Eq)]
pub enum Place {
    /// It is live.
    Live,
    /// It waits, at this place of the queue, from 1.
    Waiting(u64),
    /// It is neither.
    Absent,
}

/// What became of a ticket.
#[derive(Clone, Copy, Debug, PartialEq, Eq)]
pub enum Poll {
    /// It was answered so.
    Answered(Answer),
    /// It is open.
    Pending,
    /// No such ticket was given.
    Unknown,
}

/// The daemon's book, its work and its devices.
#[derive(Drop)]
pub struct Core<D: Disk, K: Keeper> {
    pub(crate) parts: Parts<D, K>,
}

impl<D: Disk, K: Keeper> Model for Core<D, K> {
    ghost use Rattle.mat_core.specs.Cores.{IsCore, Seen, seen_of};
    ghost use Rattle.mat_core.specs.Begins.{BeginsTold};
    ghost use Rattle.core_devices.specs.Told.{ToldDisk, ToldStore, told_disk, told_store};

    ghost Value = { Seen D K };

    ghost view = { λ core. seen_of core.parts };

    ghost invariant = { λ core. IsCore (λ disk. record { content = D.content disk; lent = D.lent disk; rough = D.rough disk; faults = D.fault_count disk; watch = D.watch disk }) (λ keeper. record { rows = K.kept keeper; faults = K.fault_count keeper; watch = K.watch keeper }) core.parts };
}

impl<D: Disk, K: Keeper> Core<D, K> {
    ghost use Rattle.std.specs.Prelude.{◌++◌, ◌∷◌, [], ℕ, true, false, max, nat_lt, if◌then◌else◌, count_by};
    ghost use Rattle.mat_model.specs.Legal.{MayAsk, end_of_time, is_of};
    ghost use Rattle.mat_model.specs.Room.{full_asked};
    ghost use Rattle.mat_core.specs.Asks.{entry_of, request_asks};
    ghost use Rattle.mat_core.specs.Cores.{IsSeen, point_in};
    ghost use Rattle.mat_core.specs.Begins.{BeginsTold};
    ghost use Rattle.core_devices.specs.Told.{ToldDisk, ToldStore, told_disk, told_store};
    ghost use Rattle.mat_core.specs.EndsTold.{EndsTold, ReturnsRead};
    ghost use Rattle.mat_core.specs.Keeping.{TellsStore, asks_store};
    ghost use Rattle.mat_core.specs.Served.{full_of, is_entered, is_want};
    ghost use Rattle.mat_model.specs.Gate.{gate_of};
    ghost use Rattle.mat_model.specs.Rows.{cover};
    ghost use Rattle.mat_model.specs.WorkState.{running};
    ghost use Rattle.ticket_book.specs.Asked.{has_number};
    ghost use Rattle.mat_core.specs.Enters.{is_free_leave, place_in};

    /// The law of a core: its history is legal, and its devices keep their rules beside the point that this leads to. It does nothing.
    pub fn keeps(&self)
        ensures { IsSeen (λ (disk : D). record { content = D.content disk; lent = D.lent disk; rough = D.rough disk; faults = D.fault_count disk; watch = D.watch disk }) (λ (keeper : K). record { rows = K.kept keeper; faults = K.fault_count keeper; watch = K.watch keeper }) self.now }
    {
        let _ = &self.parts;
    }

    /// Serves a request at a moment, and enters it in the history unless a limit would be passed or memory is wanting: then nothing changes.
    /// An invalidation, a clean and a flush make at most one call, of the state store, before the book changes; no other request makes one.
    /// The leave of a command that is known and has no open ticket takes no memory.
    pub fn call(&mut self, by: By, now: u64, request: Request) -> Reply
        requires number { by.number ≡ count_by (is_of by.caller) self.old.history }
        requires asks { MayAsk (request_asks request) }
        requires time { nat_lt now end_of_time ≡ true }
        ensures base { self.new.base ≡ self.old.base }
        ensures history { self.new.history ≡ (if is_entered result then self.old.history ++ entry_of by (point_in self.new).book.now request result ∷ [] else self.old.history) }
        ensures disk { self.new.disk ≡ self.old.disk }
        ensures keeper { asks_store (request_asks request) ≡ false → self.new.keeper ≡ self.old.keeper }
        ensures store { TellsStore (point_in self.old) (request_asks request) result (told_store ⟦<K as Keeper>⟧ self.old.keeper) (told_store ⟦<K as Keeper>⟧ self.new.keeper) }
        ensures leave { is_free_leave (request_asks request) (point_in self.old).book ≡ true → is_want result ≡ false }
        ensures full { is_want result ≡ false → full_of result ≡ full_asked self.old.base.limits (point_in self.old) (max (point_in self.old).book.now now) (request_asks request) }
    {
        if asks_store(&request) {
            return self.parts.keep_asked(by, now, request);
        }
        self.parts.call(by, now, request)
    }

    /// Begins the task that comes first, if one may: its parts are lent to the job, and the kept rows that overlap its path are removed. It is refused where
    /// the state store fails to remove them; then, and for want of memory, all is as it was.
    pub fn begin(&mut self, by: By) -> Begun<D::R>
        requires number { by.number ≡ count_by (is_of by.caller) self.old.history }
        ensures base { self.new.base ≡ self.old.base }
        ensures told { BeginsTold ⟦<D::R as Region>⟧ by (told_disk ⟦<D as Disk>⟧) (told_store ⟦<K as Keeper>⟧) self.old self.new result }
    {
        self.parts.begin(by)
    }

    /// A job that has ended comes back: its parts go back to the disk, then the row that it made is stored, if it made one that is there, and its end
    /// is entered. It comes back once more, and nothing changes, where it isn't the job that the caller began under its number, where it made another
    /// tree than its row has, or where the part that comes back with it isn't the one that was lent. Takes no memory.
    pub fn done(&mut self, by: By, done: Done<D::R>) -> Finished<D::R>
        requires number { by.number ≡ count_by (is_of by.caller) self.old.history }
        requires read { ReturnsRead ⟦<D::R as Region>⟧ (told_disk ⟦<D as Disk>⟧) (told_store ⟦<K as Keeper>⟧) self.old by.caller done }
        ensures base { self.new.base ≡ self.old.base }
        ensures told { EndsTold ⟦<D::R as Region>⟧ by (told_disk ⟦<D as Disk>⟧) (told_store ⟦<K as Keeper>⟧) done self.old self.new result }
    {
        self.parts.done(by, done)
    }

    /// Where a command is. Takes no memory, as the calls below.
    pub fn place(&self, command: u32) -> Place
        ensures { result ≡ place_in command (gate_of (point_in self.now).book) }
    {
        place_of(&self.parts.gate, command)
    }

    /// What became of a ticket.
    pub fn poll(&self, ticket: u64) -> Poll
        ensures { result ≡ poll_in (find (has_number ticket) (point_in self.now).book.tickets) }
    {
        polled(self.parts.tickets.get(ticket))
    }

    /// The stamp of the row that covers a path, if one does.
    ///
    /// A step is one node visited: at most one more than the path has names.
    pub fn cover<L: Ledger>(&self, path: &Path, steps: &mut Steps<L>) -> Option<u64>
        ensures stamp { result ≡ option_map stamp_of (cover (point_in self.now).book.rows path.now) }
        ensures most { steps.new ≤ steps.old + length path.now + 1 }
    {
        stamp_of(self.parts.rows.cover(path, steps))
    }

    /// All entries since it was opened.
    pub fn history(&self) -> &[Entry]
        ensures { result.now ≡ self.now.history }
    {
        self.parts.history.as_slice()
    }

    /// The paths of kept rows that were lost when it was opened: the disk hadn't their trees.
    pub fn lost(&self) -> &[Path]
        ensures { result.now ≡ self.now.base.opening.value.lost }
    {
        self.parts.lost.as_slice()
    }

    /// Who began the job of a number that runs, and its card.
    pub fn owner(&self, job: u64) -> Option<(u32, &Card)>
        ensures { option_map (λ owner. (owner.0, owner.1.now)) result ≡ option_map owner_of (running job (point_in self.now).work) }
    {
        owner_of(self.parts.jobs.get(job))
    }

    /// The disk as it is.
    pub fn disk(&self) -> &D
        ensures { result.now ≡ self.now.disk }
    {
        &self.parts.disk
    }

    /// The state store as it is.
    pub fn keeper(&self) -> &K
        ensures { result.now ≡ self.now.keeper }
    {
        &self.parts.keeper
    }

    /// Both devices as they are, and the history. What jobs have on loan stays out.
    pub fn close(self) -> (D, K, Vec<Entry>)
        ensures disk { result.0 ≡ self.disk }
        ensures keeper { result.1 ≡ self.keeper }
        ensures history { result.2.items ≡ self.history }
    {
        let Core { parts } = self;
        let Parts {
            base: _base,
            first: _first,
            moment: _moment,
            gate: _gate,
            rows: _rows,
            holds: _holds,
            tickets: _tickets,
            debris: _debris,
            jobs: _jobs,
            kept: _kept,
            nodes: _nodes,
            paths: _paths,
            lost: _lost,
            history,
            disk,
            keeper,
        } = parts;
        (disk, keeper, history)
    }

    /// The book as it is, which is copied: it takes memory.
    pub fn book(&self) -> Result<Book, Memory>
        ensures { IfOk result (λ book. book ≡ (point_in self.now).book) }
    {
        self.parts.book()
    }
}

// Who began a job, and its card.
fn owner_of(running: Option<&Running>) -> Option<(u32, &Card)>
    ensures { option_map (λ owner. (owner.0, owner.1.now)) result ≡ option_map owner_of (option_map job_of (option_copied running.entry)) }
{
    match running {
        Some(running) => Some((running.caller, &running.card)),
        None => None,
    }
}

// What is told of a ticket.
fn polled(ticket: Option<&Ticket>) -> Poll
    ensures { result ≡ poll_in (option_copied ticket.entry) }
{
    match ticket {
        None => Poll::Unknown,
        Some(ticket) => match ticket.answered {
            None => Poll::Pending,
            Some(given) => Poll::Answered(given.answer),
        },
    }
}

// The stamp of a stock's row.
fn stamp_of(stock: Option<&Stock>) -> Option<u64>
    ensures { result ≡ option_map stamp_of (option_map row_of (option_copied stock.entry)) }
{
    match stock {
        Some(stock) => Some(stock.row.stamp),
        None => None,
    }
}
