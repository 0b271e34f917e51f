// A job ends: the steps on the books.
ghost use Rattle.std.specs.Prelude.{◌≡◌, ◌≤◌, ◌<◌, ◌+◌, ◌^◌, ◌∷◌, ◌++◌, [], ℕ, true, filter, find, length};
ghost use Rattle.kept_book.specs.Marks.{is_other, is_reserved};
ghost use Rattle.mat_model.specs.declared.answers.Answer.{Answer as TheAnswer};
ghost use Rattle.mat_model.specs.History.{Point as ThePoint, after};
ghost use Rattle.mat_model.specs.Legal.{may_end};
ghost use Rattle.mat_model.specs.WorkState.{path_of_task};
ghost use Rattle.model_laws.specs.PointRules.{IsPoint};
ghost use Rattle.model_laws.specs.TicketRules.{failure_of_make};
ghost use Rattle.row_book.specs.Stocks.{rows_of, stock_at};
ghost use Rattle.mat_core.specs.Books.{StandFor};
ghost use Rattle.mat_core.specs.Ending.{HasPlace, IsBesideEnd, IsDoneEntered, IsPartApart, IsRecordedFor, IsTaskEnded, MayEnter, MayFall, WasRunning, debris_ended, done_entry, end_of, end_of_make, end_of_row, end_of_wipe, has_row_at, is_counted, is_fresh, marks_ended, marks_recorded, part_back, places_ended, reply_ended, rows_ended, tickets_ended};
ghost use Rattle.mat_core.specs.Rooms.{HasReserves};

use crate::beginning::top_of;
use crate::parts::Parts;
use debris_list::DebrisList;
use hall_lock::By;
use job_book::{LentPart, Running};
use kept_book::KeptBook;
use mat_model::{Answer, Card, Entry, Event, Outcome, Recorded, Reply, Task};
use mat_path::Path;
use mat_tree::Sum;
use row_book::{RowBook, Stock};
use ticket_book::TicketBook;

/// What comes of the task of a job that ended.
#[derive(Clone, Copy, Debug)]
pub enum End {
    /// The row at its path was made: its stamp, its sum and its last use.
    Stands { stamp: u64, sum: Sum, last: u64 },
    /// The make of the row at its path failed, and that is the answer.
    Failed(Answer),
    /// The row that it was to make is gone.
    Gone,
    /// Its path was wiped.
    Wiped,
    /// The wipe failed, and that is the answer.
    Unwiped(Answer),
}

// The failure with which a job ended, as an answer, if it failed.
fn failure_of(outcome: Outcome) -> Option<Answer>
    ensures { result ≡ failure_of_make outcome }
{
    match outcome {
        Outcome::Made => None,
        Outcome::Wiped => None,
        Outcome::Missing(digest) => Some(Answer::Missing(digest)),
        Outcome::Corrupt { wanted, found } => Some(Answer::Corrupt { wanted, found }),
        Outcome::Fault(note) => Some(Answer::Fault(note)),
        Outcome::NoMemory => Some(Answer::NoMemory),
    }
}

// What comes of a make, where this stock is at its path.
fn end_of_row(stock: &Stock, stamp: u64, outcome: Outcome) -> End
    ensures { result ≡ end_of_row stamp (failure_of_make outcome) stock.now }
{
    if stock.row.stamp != stamp {
        return End::Gone;
    }
    match failure_of(outcome) {
        None => End::Stands {
            stamp: stock.row.stamp,
            sum: stock.row.sum,
            last: stock.row.last,
        },
        Some(answer) => End::Failed(answer),
    }
}

// What comes of a make.
fn end_of_make(rows: &RowBook, path: &Path, stamp: u64, outcome: Outcome) -> End
    ensures { result ≡ end_of_make stamp (failure_of_make outcome) (find (stock_at path.now) rows.now) }
{
    match rows.get(path) {
        None => End::Gone,
        Some(stock) => end_of_row(stock, stamp, outcome),
    }
}

// What comes of a wipe.
fn end_of_wipe(outcome: Outcome) -> End
    ensures { result ≡ end_of_wipe (failure_of_make outcome) }
{
    match failure_of(outcome) {
        None => End::Wiped,
        Some(answer) => End::Unwiped(answer),
    }
}

/// What comes of a task.
pub(crate) fn end_of(rows: &RowBook, task: &Task, outcome: Outcome) -> End
    ensures { result ≡ end_of rows.now task.now outcome }
{
    match task {
        Task::Make { path, stamp } => end_of_make(rows, path, *stamp, outcome),
        Task::Wipe { path: _ } => end_of_wipe(outcome),
    }
}

// The path of a task.
fn path_of(task: Task) -> Path
    ensures { result ≡ path_of_task task }
{
    match task {
        Task::Make { path, stamp: _ } => path,
        Task::Wipe { path } => path,
    }
}

// Whether what comes of a task counts.
fn is_counted(ending: End) -> bool
    ensures { result ≡ is_counted ending }
{
    match ending {
        End::Stands { .. } => true,
        End::Failed(_) => true,
        End::Gone => false,
        End::Wiped => true,
        End::Unwiped(_) => true,
    }
}

// What comes of a task, on the rows.
fn end_rows(rows: &mut RowBook, path: &Path, ending: End)
    ensures { rows.new ≡ rows_ended path.now ending rows.old }
{
    match ending {
        End::Stands { .. } => rows.stand(path),
        End::Failed(_) => rows.set_dirty(path, true),
        End::Gone => {}
        End::Wiped => {}
        End::Unwiped(_) => {}
    }
}

// On the tickets, at an entry.
fn end_tickets(tickets: &mut TicketBook, rows: &RowBook, path: &Path, number: u64, ending: End)
    ensures { tickets.new.all ≡ tickets_ended (rows_of rows.now) path.now number ending tickets.old.all }
{
    match ending {
        End::Stands { stamp, sum, .. } => {
            tickets.answer_row(path, number, Answer::Ready { stamp, sum });
        }
        End::Failed(answer) => tickets.answer_row(path, number, answer),
        End::Gone => {}
        End::Wiped => {}
        End::Unwiped(answer) => tickets.answer_row(top_of(rows, path), number, answer),
    }
}

// On the debris.
fn end_debris(debris: &mut DebrisList, path: Path, ending: End)
    requires room { 1 ≤ debris.old.spare }
    requires apart { MayFall path ending debris.old.list }
    ensures list { debris.new.list ≡ debris_ended path ending debris.old.list }
    ensures spare { debris.old.spare ≤ debris.new.spare + 1 }
{
    match ending {
        End::Stands { .. } => {}
        End::Failed(_) => {}
        End::Gone => debris.add(path, false),
        End::Wiped => {
            debris.remove(&path);
        }
        End::Unwiped(_) => debris.condemn(&path, false),
    }
}

// The mark of a row that was made comes into its place, where the row was recorded; else that is given up.
fn settle(kept: &mut KeptBook, path: &Path, last: u64, how: Recorded)
    requires { is_reserved kept.old.reserved path.now ≡ true }
    ensures marks { kept.new.marks ≡ marks_recorded path.now last how kept.old.marks }
    ensures places { kept.new.reserved ≡ filter (is_other path.now) kept.old.reserved }
{
    match how {
        Recorded::Kept => kept.settle(path, last, true),
        Recorded::NotKept(_) => kept.release(path),
        Recorded::NoMemory => kept.release(path),
        Recorded::Nothing => kept.release(path),
    }
}

// On the marks, and the places that are reserved for them.
fn end_kept(kept: &mut KeptBook, path: &Path, ending: End, how: Recorded)
    requires { HasPlace path.now ending kept.old.reserved }
    ensures marks { kept.new.marks ≡ marks_ended path.now ending how kept.old.marks }
    ensures places { kept.new.reserved ≡ places_ended path.now ending kept.old.reserved }
{
    match ending {
        End::Stands { last, .. } => settle(kept, path, last, how),
        End::Failed(_) => kept.release(path),
        End::Gone => kept.release(path),
        End::Wiped => {}
        End::Unwiped(_) => {}
    }
}

// Whether the row at exactly a path has a stamp.
fn has_row_at(rows: &RowBook, path: &Path, stamp: u64) -> bool
    ensures { result ≡ has_row_at path.now stamp rows.now }
{
    match rows.get(path) {
        Some(stock) => stock.row.stamp == stamp,
        None => false,
    }
}

// The part is back that a job read, if it read one.
fn end_part(debris: &mut DebrisList, rows: &RowBook, lent: Option<LentPart>)
    requires room { 1 ≤ debris.old.spare }
    requires apart { IsPartApart lent debris.old.list }
    ensures list { debris.new.list ≡ part_back rows.now lent debris.old.list }
    ensures spare { debris.old.spare ≤ debris.new.spare + 1 }
{
    match lent {
        None => {}
        Some(part) => {
            if !has_row_at(rows, &part.path, part.stamp) {
                debris.add(part.path, part.cleaned);
            }
        }
    }
}

// The reply to the end of a job.
fn reply_ended(fresh: bool, how: Recorded) -> Reply
    ensures { result ≡ reply_ended fresh how }
{
    if fresh {
        return Reply::Fresh(how);
    }
    Reply::Stale
}

impl<D, K> Parts<D, K> {
    // The task of a job has ended; whether that counts.
    fn end_task(&mut self, number: u64, task: Task, outcome: Outcome, how: Recorded) -> bool
        requires room { 1 ≤ self.old.debris.spare }
        requires apart { MayFall (path_of_task task) (end_of self.old.rows task outcome) self.old.debris.list }
        requires place { HasPlace (path_of_task task) (end_of self.old.rows task outcome) self.old.kept.reserved }
        ensures counted { result ≡ is_counted (end_of self.old.rows task outcome) }
        ensures ended { IsTaskEnded number (path_of_task task) (end_of self.old.rows task outcome) how self.old self.new }
    {
        let ending = end_of(&self.rows, &task, outcome);
        let path = path_of(task);
        end_tickets(&mut self.tickets, &self.rows, &path, number, ending);
        end_rows(&mut self.rows, &path, ending);
        end_kept(&mut self.kept, &path, ending, how);
        end_debris(&mut self.debris, path, ending);
        is_counted(ending)
    }

    // The end of a job is entered; whether it counts.
    fn enter_done(&mut self, by: By, running: Running, outcome: Outcome, how: Recorded) -> bool
        requires bound { self.old.first + length self.old.history.items < 2 ^ 64 }
        requires may { MayEnter running outcome self.old }
        ensures counted { result ≡ is_counted (end_of self.old.rows running.card.task outcome) }
        ensures entered { IsDoneEntered (self.old.first + length self.old.history.items) by running outcome how self.old self.new }
    {
        let Running { card, lent, .. } = running;
        let Card { job, task } = card;
        let number = self.first + self.history.len() as u64;
        let fresh = self.end_task(number, task, outcome, how);
        end_part(&mut self.debris, &self.rows, lent);
        self.history.push_reserved(Entry {
            by,
            now: self.moment,
            event: Event::Done { job, outcome },
            reply: reply_ended(fresh, how),
        });
        fresh
    }

    /// The end of a job is entered, which is no longer among the jobs, and whose row was recorded so; whether it counts: the make of a row
    /// that is gone doesn't. Takes no memory.
    pub(crate) fn enter_end(
        &mut self,
        by: By,
        running: Running,
        outcome: Outcome,
        how: Recorded,
    ) -> bool
        requires bound { self.old.first + length self.old.history.items < 2 ^ 64 }
        requires was { WasRunning (self.old.first + length self.old.history.items) running self.old }
        requires ends { may_end running.card.task outcome ≡ true }
        requires how { IsRecordedFor running.card.task outcome (rows_of self.old.rows) how }
        ensures fresh { result ≡ is_fresh running.card.task (rows_of self.old.rows) }
        ensures stands { (was : WasRunning (self.old.first + length self.old.history.items) running self.old) (point : ThePoint) → StandFor was.before point → IsPoint point → StandFor self.new (after point (done_entry by point.book.now running.card.job outcome (reply_ended result how))) }
        ensures history { self.new.history.items ≡ self.old.history.items ++ done_entry by self.old.moment running.card.job outcome (reply_ended result how) ∷ [] }
        ensures reserves { HasReserves self.new }
        ensures rest { IsBesideEnd self.old self.new }
    {
        self.enter_done(by, running, outcome, how)
    }
}
