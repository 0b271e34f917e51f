// A path is invalidated.
ghost use Rattle.std.specs.Prelude.{◌≡◌, ◌≤◌, ◌+◌, ◌*◌, ◌<◌, ◌^◌, true, false, filter, length, map, nat_lt, IfOk};
ghost use Rattle.std.specs.Vec.{vec_capacity};
ghost use Rattle.mat_model.specs.declared.requests.Asked.TheVariants as asked;
ghost use Rattle.mat_model.specs.declared.answers.Answer.TheVariants as answer;
ghost use Rattle.mat_model.specs.Gate.{is_live};
ghost use Rattle.mat_model.specs.History.{Point};
ghost use Rattle.model_laws.specs.PointRules.{IsPoint};
ghost use Rattle.model_laws.specs.RoomRules.{IsRoomy};
ghost use Rattle.model_laws.specs.TicketRules.{answered_below, top_of};
ghost use Rattle.row_book.specs.Stocks.{overlaps_stock, rows_of};
ghost use Rattle.core_devices.specs.Told.{told_store};
ghost use Rattle.mat_core.specs.Beginning.{HaveOnlyRoom};
ghost use Rattle.mat_core.specs.Books.{StandFor, book_in};
ghost use Rattle.mat_core.specs.Keeping.{AsksSo};
ghost use Rattle.mat_core.specs.Removing.{AreCleared, IsAskEntered, IsOverlap};
ghost use Rattle.mat_core.specs.Replacing.{AreRuled};
ghost use Rattle.mat_core.specs.Rooms.{HasReserves, spent_in};

use crate::beginning::{count_alone, top_of};
use crate::parts::Parts;
use crate::removing::{list_overlapping, turn};
use crate::room::has_place;
use core_devices::{Removal, remove_rows};
use hall_lock::By;
use keep_port::Keeper;
use kept_book::KeptBook;
use mat_model::{Answer, Asked, Entry, Event, Limit, Reply};
use mat_path::{Memory, Path};
use row_book::{RowBook, Stock};
use ticket_book::TicketBook;

/// What overlaps a path: the paths of the kept rows, those of the rows, the last first, and a list with room for these.
#[derive(Drop)]
pub struct Overlap {
    pub kept: Vec<Path>,
    pub rows: Vec<Path>,
    pub room: Vec<Stock>,
}

// Lists what overlaps a path.
fn list_overlap(kept: &KeptBook, rows: &RowBook, path: &Path) -> Result<Overlap, Memory>
    ensures { IfOk result (λ listed. IsOverlap path.now kept.now.marks rows.now listed) }
{
    let kept = kept.overlapping(path)?;
    let alloc = *kept.allocator();
    let mut rows = list_overlapping(alloc, rows, path)?;
    turn(&mut rows);
    let mut room: Vec<Stock> = Vec::new(alloc);
    room.reserve(rows.len())?;
    Ok(Overlap { kept, rows, room })
}

// The open tickets on the rows that overlap a path are answered, at an entry, that nothing is declared.
fn answer_cleared(tickets: &mut TicketBook, rows: &RowBook, path: &Path, number: u64)
    ensures { tickets.new.all ≡ map (answered_below (top_of (rows_of rows.now) path.now) number answer.Undeclared) tickets.old.all }
{
    tickets.answer_row(top_of(rows, path), number, Answer::Undeclared);
}

impl<D, K> Parts<D, K> {
    // Lists what overlaps a path, and makes room for what may remain of it. For want of memory there is only more room than before.
    fn order_clearing(&mut self, path: &Path) -> Result<Overlap, Memory>
        requires few { 2 * length self.old.jobs + length self.old.rows < 2 ^ 64 }
        ensures listed { IfOk result (λ listed. IsOverlap path.now self.old.kept.marks self.old.rows listed) }
        ensures spare { IfOk result (λ listed. 2 * length self.old.jobs + length (filter (overlaps_stock path.now) self.old.rows) ≤ self.new.debris.spare) }
        ensures room { HaveOnlyRoom self.old self.new }
    {
        let Ok(listed) = list_overlap(&self.kept, &self.rows, path) else {
            return Err(Memory);
        };
        let pieces = 2 * self.jobs.len() as u64 + listed.rows.len() as u64;
        match self.debris.reserve(pieces) {
            Ok(()) => Ok(listed),
            Err(Memory) => Err(Memory),
        }
    }

    // The rows and the kept rows that overlap a path go. Takes no memory.
    fn clear(&mut self, path: &Path, listed: Overlap)
        requires listed { IsOverlap path.now self.old.kept.marks self.old.rows listed }
        requires bound { self.old.first + length self.old.history.items < 2 ^ 64 }
        requires rules { AreRuled (self.old.first + length self.old.history.items) self.old }
        requires spare { length (filter (overlaps_stock path.now) self.old.rows) ≤ self.old.debris.spare }
        ensures { AreCleared (self.old.first + length self.old.history.items) path.now self.old self.new }
    {
        let Overlap { kept, rows, room } = listed;
        let number = self.first + self.history.len() as u64;
        answer_cleared(&mut self.tickets, &self.rows, path, number);
        self.paths -= count_alone(&self.rows, kept.as_slice());
        self.kept.remove_all(kept.as_slice());
        self.remove_rows(rows.as_slice(), room, false);
    }

    /// Enters a request with its reply, at a moment that is raised.
    pub(crate) fn enter_asked(&mut self, by: By, now: u64, asked: Asked, reply: Reply)
        requires { length self.old.history.items + 1 ≤ vec_capacity self.old.history }
        ensures { IsAskEntered by now asked reply self.old self.new }
    {
        self.moment = self.moment.max(now);
        self.history.push_reserved(Entry {
            by,
            now: self.moment,
            event: Event::Asked(asked),
            reply,
        });
    }
}

impl<D, K: Keeper> Parts<D, K> {
    // Removes each row that overlaps a path, where there is room for the entry.
    fn invalidate_live(&mut self, by: By, now: u64, command: u32, path: Path) -> Reply
        requires bound { self.old.first + spent_in self.old + 2 < 2 ^ 64 }
        requires rules { AreRuled (self.old.first + length self.old.history.items) self.old }
        requires reserves { HasReserves self.old }
        requires live { is_live command (book_in self.old) ≡ true }
        requires room { nat_lt self.old.base.limits.history (spent_in self.old + 1) ≡ false }
        requires place { spent_in self.old + 2 ≤ vec_capacity self.old.history }
        ensures { (point : Point) → StandFor self.old point → IsPoint point → IsRoomy self.old.base.limits point → AsksSo point by now (asked.Invalidate command path) self.old self.new (told_store ⟦<K as Keeper>⟧ self.old.keeper) (told_store ⟦<K as Keeper>⟧ self.new.keeper) result }
    {
        let Ok(listed) = self.order_clearing(&path) else {
            return Reply::NoMemory;
        };
        match remove_rows(&mut self.keeper, listed.kept.as_slice()) {
            Removal::Done => {
                let count = listed.rows.len() as u64;
                self.clear(&path, listed);
                self.enter_asked(
                    by,
                    now,
                    Asked::Invalidate { command, path },
                    Reply::Invalid(count),
                );
                Reply::Invalid(count)
            }
            Removal::Failed(note) => {
                self.enter_asked(
                    by,
                    now,
                    Asked::Invalidate { command, path },
                    Reply::Fault(note),
                );
                Reply::Fault(note)
            }
            Removal::NoMemory => Reply::NoMemory,
        }
    }

    /// Removes each row that overlaps a path, for a command that is live.
    pub(crate) fn invalidate(&mut self, by: By, now: u64, command: u32, path: Path) -> Reply
        requires bound { self.old.first + spent_in self.old + 2 < 2 ^ 64 }
        requires rules { AreRuled (self.old.first + length self.old.history.items) self.old }
        requires reserves { HasReserves self.old }
        ensures { (point : Point) → StandFor self.old point → IsPoint point → IsRoomy self.old.base.limits point → AsksSo point by now (asked.Invalidate command path) self.old self.new (told_store ⟦<K as Keeper>⟧ self.old.keeper) (told_store ⟦<K as Keeper>⟧ self.new.keeper) result }
    {
        let entries = self.owed() + 2;
        if !has_place(&mut self.history, true, entries) {
            return Reply::NoMemory;
        }
        if self.lacks_entries(1) {
            return Reply::Full(Limit::History);
        }
        if !self.gate.is_live(command) {
            self.enter_asked(by, now, Asked::Invalidate { command, path }, Reply::NotLive);
            return Reply::NotLive;
        }
        self.invalidate_live(by, now, command, path)
    }
}
