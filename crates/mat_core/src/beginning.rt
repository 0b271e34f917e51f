// A job begins: the steps on the books.
ghost use Rattle.std.specs.Prelude.{◌≡◌, ◌≤◌, ◌<◌, ◌+◌, ◌*◌, ◌^◌, count_by, is_ok, length, map, if◌then◌else◌, IfErr, IfOk};
ghost use Rattle.std.specs.Vec.{vec_capacity};
ghost use Rattle.model_laws.specs.TicketRules.{answered_below, top_of};
ghost use Rattle.row_book.specs.Stocks.{rows_of};
ghost use Rattle.mat_core.specs.Beginning.{HaveOnlyRoom, HaveRoomFor, IsBegunEntered, IsRefusedEntered, absorbed, has_no_row, top_of_task, uncondemned, unmarked, with_place, without_place};
ghost use Rattle.mat_core.specs.Rooms.{spent_in};

use crate::parts::Parts;
use debris_list::DebrisList;
use hall_lock::By;
use kept_book::KeptBook;
use mat_model::{Answer, Entry, Event, FaultNote, Reply, Task};
use mat_path::{Memory, Path};
use row_book::RowBook;
use ticket_book::TicketBook;

// Reserves a place for the kept row of a task, if it is a make. For want of memory nothing changes.
fn reserve_place(kept: &mut KeptBook, task: &Task) -> Result<(), Memory>
    ensures marks { kept.new.marks ≡ kept.old.marks }
    ensures places { kept.new.reserved ≡ (if is_ok result then with_place task.now kept.old.reserved else kept.old.reserved) }
{
    match task {
        Task::Make { path, .. } => kept.reserve(path),
        Task::Wipe { .. } => Ok(()),
    }
}

// Gives it up. Takes no memory, as the functions below.
pub(crate) fn release_place(kept: &mut KeptBook, task: &Task)
    ensures marks { kept.new.marks ≡ kept.old.marks }
    ensures places { kept.new.reserved ≡ without_place task.now kept.old.reserved }
{
    match task {
        Task::Make { path, .. } => kept.release(path),
        Task::Wipe { .. } => {}
    }
}

// The row of a make is no longer marked as one whose last make failed.
fn unmark(rows: &mut RowBook, task: &Task)
    ensures { rows.new ≡ unmarked task.now rows.old }
{
    match task {
        Task::Make { path, .. } => rows.set_dirty(path, false),
        Task::Wipe { .. } => {}
    }
}

// A make absorbs the debris at and below its path.
fn absorb(debris: &mut DebrisList, task: &Task)
    ensures list { debris.new.list ≡ absorbed task.now debris.old.list }
    ensures spare { debris.old.spare ≤ debris.new.spare }
{
    match task {
        Task::Make { path, .. } => {
            debris.absorb(path);
        }
        Task::Wipe { .. } => {}
    }
}

// Whether a path has no row.
fn has_no_row(rows: &RowBook, path: &Path) -> bool
    ensures { result ≡ has_no_row rows.now path.now }
{
    rows.get(path).is_none()
}

// How many of some paths have no row.
pub(crate) fn count_alone(rows: &RowBook, paths: &[Path]) -> u64
    ensures { result ≡ count_by (has_no_row rows.now) paths.now }
{
    paths.iter().filter(|path| has_no_row(rows, path)).count() as u64
}

/// The path of the row at or above one; else the path itself.
pub(crate) fn top_of<'a>(rows: &'a RowBook, path: &'a Path) -> &'a Path
    ensures { result.now ≡ top_of (rows_of rows.now) path.now }
{
    rows.is_in_order();
    match rows.overlapping_from(path, None) {
        Some(stock) => {
            if stock.row.path.is_prefix(path) {
                return &stock.row.path;
            }
            path
        }
        None => path,
    }
}

/// Answers the open tickets that wait for what a task was to do, at an entry, with its failure.
pub(crate) fn answer_task(
    tickets: &mut TicketBook,
    rows: &RowBook,
    task: &Task,
    number: u64,
    answer: Answer,
)
    ensures { tickets.new.all ≡ map (answered_below (top_of_task (rows_of rows.now) task.now) number answer) tickets.old.all }
{
    match task {
        Task::Make { path, .. } => tickets.answer_row(path, number, answer),
        Task::Wipe { path } => tickets.answer_row(top_of(rows, path), number, answer),
    }
}

// The debris of a wipe is no longer condemned.
fn uncondemn(debris: &mut DebrisList, task: &Task)
    ensures list { debris.new.list ≡ uncondemned task.now debris.old.list }
    ensures spare { debris.new.spare ≡ debris.old.spare }
{
    match task {
        Task::Make { .. } => {}
        Task::Wipe { path } => debris.condemn(path, false),
    }
}

impl<D, K> Parts<D, K> {
    /// Makes room for a job with a task. For want of memory there is only more room than before.
    pub(crate) fn make_room(&mut self, task: &Task) -> Result<(), Memory>
        requires spent { spent_in self.old + 2 < 2 ^ 64 }
        requires few { 2 * length self.old.jobs + 2 < 2 ^ 64 }
        ensures room { IfOk result (λ done. HaveRoomFor task.now self.old self.new) }
        ensures wants { IfErr result (λ want. HaveOnlyRoom self.old self.new) }
    {
        let entries = self.owed() + 2;
        let Ok(()) = self.history.reserve(entries) else {
            return Err(Memory);
        };
        let pieces = 2 * self.jobs.len() as u64 + 2;
        let Ok(()) = self.debris.reserve(pieces) else {
            return Err(Memory);
        };
        match reserve_place(&mut self.kept, task) {
            Ok(()) => Ok(()),
            Err(Memory) => Err(Memory),
        }
    }

    /// A begin is entered, where the kept rows at some paths are gone.
    pub(crate) fn enter_begin(&mut self, by: By, task: Task, gone: &[Path])
        requires paths { count_by (has_no_row self.old.rows) gone.now ≤ self.old.paths }
        requires room { length self.old.history.items + 1 ≤ vec_capacity self.old.history }
        ensures { IsBegunEntered by task gone.now self.old self.new }
    {
        self.paths -= count_alone(&self.rows, gone);
        self.kept.remove_all(gone);
        absorb(&mut self.debris, &task);
        unmark(&mut self.rows, &task);
        self.history.push_reserved(Entry {
            by,
            now: self.moment,
            event: Event::Begin(task),
            reply: Reply::Started,
        });
    }

    /// A begin that was refused is entered.
    pub(crate) fn enter_refusal(&mut self, by: By, task: Task, note: FaultNote)
        requires bound { self.old.first + length self.old.history.items < 2 ^ 64 }
        requires room { length self.old.history.items + 1 ≤ vec_capacity self.old.history }
        ensures { IsRefusedEntered (self.old.first + length self.old.history.items) by task note self.old self.new }
    {
        let number = self.first + self.history.len() as u64;
        answer_task(
            &mut self.tickets,
            &self.rows,
            &task,
            number,
            Answer::Fault(note),
        );
        uncondemn(&mut self.debris, &task);
        self.history.push_reserved(Entry {
            by,
            now: self.moment,
            event: Event::Begin(task),
            reply: Reply::Refused(note),
        });
    }
}
